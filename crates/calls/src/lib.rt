// Calls of refine, of measure and of find_move: a line of compare/replay.txt is a call of each on parts of buffers, and their
// answers are written in that file's form. In a line, numbers from 0 count its words.
#![tactic(auto)]

use base::Index;
use checksum::Checksum;
use given::{Lent, Store};
use lines::{Bits, Line, Runs, part_mut};
use std::fmt;
use std::io::{self, Print};

// The counts of the passes that were run.
#[derive(Clone, Copy)]
struct Counts<'a> {
    counts: &'a [u32],
    passes: u64,
}

impl fmt::Display for Counts<'_> {
    fn fmt<W: fmt::Write>(&self, f: &mut fmt::Formatter<W>) -> fmt::Result {
        if self.passes == 0 {
            return write!(f, "-");
        }
        for (pass, count) in self.counts.iter().take(self.passes as usize).enumerate() {
            if pass > 0 {
                write!(f, ",")?;
            }
            write!(f, "{count}")?;
        }
        Ok(())
    }
}

// The indices are refined in a buffer of their own.
fn refine(
    rt: &impl Print,
    line: Line<'_>,
    lent: &mut Lent<'_>,
    indices: &mut [Index],
) -> io::Result<()> {
    let store = &mut *lent.store;
    let cpe = &mut *lent.cpe;
    let cpp = &mut *lent.cpp;
    let counts = &mut *lent.counts;
    let inks = &mut *lent.inks;
    let given = store.read(line);
    let indices = line.bytes(9, indices);
    let cpe = part_mut(cpe, line.number(10));
    let cpp = part_mut(cpp, line.number(11));
    let counts = part_mut(counts, line.number(12));
    let inks = part_mut(inks, line.number(13));
    let stats = dbs::dbs_refine(
        given.pixels,
        given.width,
        given.height,
        given.palette,
        indices,
        given.pinned,
        given.ppi,
        given.viewing_distance_cm,
        given.max_passes,
        cpe,
        cpp,
        counts,
        inks,
    );
    print!(rt;
        "refine {} {} {} {} {} ",
        stats.number,
        stats.place,
        stats.passes,
        Bits(stats.initial_error),
        Bits(stats.final_error)
    )?;
    let passes = stats.passes;
    println!(rt;
        "{} {} {} {} {} {}",
        Runs(indices),
        Counts { counts, passes },
        Checksum::of(cpe),
        Checksum::of(cpp),
        Checksum::of(counts),
        Checksum::of(inks)
    )
}

fn measure(rt: &impl Print, line: Line<'_>, store: &mut Store) -> io::Result<()> {
    let given = store.read(line);
    let measured = dbs::perceived_error(
        given.pixels,
        given.width,
        given.height,
        given.palette,
        given.indices,
        given.ppi,
        given.viewing_distance_cm,
    );
    println!(rt;
        "measure {} {} {}",
        measured.number,
        measured.place,
        Bits(measured.error)
    )
}

fn find(rt: &impl Print, line: Line<'_>, lent: &mut Lent<'_>) -> io::Result<()> {
    let store = &mut *lent.store;
    let cpe = &mut *lent.cpe;
    let cpp = &mut *lent.cpp;
    let inks = &mut *lent.inks;
    let given = store.read(line);
    let cpe = part_mut(cpe, line.number(10));
    let cpp = part_mut(cpp, line.number(11));
    let inks = part_mut(inks, line.number(13));
    let found = dbs::dbs_find_move(
        given.pixels,
        given.width,
        given.height,
        given.palette,
        given.indices,
        given.pinned,
        given.ppi,
        given.viewing_distance_cm,
        cpe,
        cpp,
        inks,
    );
    println!(rt;
        "find {} {} {} {} {} {} {} {} {}",
        found.number,
        found.place,
        found.found,
        found.pixel,
        found.kind,
        Bits(found.cost),
        Checksum::of(cpe),
        Checksum::of(cpp),
        Checksum::of(inks)
    )
}

// A call finds each cell of every buffer set; measure reads the same bytes into the store that refine had, which writes none of it.
// Not inlined: the arrays are on the stack only while it runs.
#[inline(never)]
pub fn call(rt: &impl Print, line: Line<'_>) -> io::Result<()> {
    let mut store = Store::new();
    let mut cpe = [0.0; 16384];
    let mut cpp = [0.0; 8500];
    let mut counts = [0; 1024];
    let mut inks = [0.0; 1024];
    let mut indices = [255; 16384];
    let mut lent = Lent::new(&mut store, &mut cpe, &mut cpp, &mut counts, &mut inks);
    refine(rt, line, &mut lent, &mut indices)?;
    measure(rt, line, &mut *lent.store)?;
    lent.clear();
    find(rt, line, &mut lent)
}
