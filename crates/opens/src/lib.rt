// The opening of a list of job calls: a line of compare/replay.txt is a call of open on parts of buffers, and its answer is
// written in that file's form. In a line, numbers from 0 count its words.
#![tactic(auto)]

use checksum::Checksum;
use given::Job;
use lines::{Line, part, part_mut};
use std::io::{self, Print};

pub fn open(rt: &impl Print, line: Line<'_>, job: &mut Job<'_>) -> io::Result<()> {
    let lent = &mut job.lent;
    let store = &mut *lent.store;
    let cpe = &mut *lent.cpe;
    let cpp = &mut *lent.cpp;
    let counts = &*lent.counts;
    let inks = &mut *lent.inks;
    let states = &mut *job.states;
    let deltas = &mut *job.deltas;
    let record = &mut *job.record;
    let given = store.read(line);
    let cpe = part_mut(cpe, line.number(10));
    let cpp = part_mut(cpp, line.number(11));
    let counts = part(counts, line.number(12));
    let inks = part_mut(inks, line.number(13));
    let states = part_mut(states, line.number(14));
    let deltas = part_mut(deltas, line.number(15));
    let record = part_mut(record, line.number(16));
    let status = dbs::dbs_open(
        record,
        given.pixels,
        given.width,
        given.height,
        given.palette,
        given.indices,
        given.pinned,
        given.ppi,
        given.viewing_distance_cm,
        given.max_passes,
        cpe,
        cpp,
        counts,
        states,
        deltas,
        inks,
    );
    println!(rt;
        "opened {} {} {} {} {} {} {}",
        status,
        Checksum::of(cpe),
        Checksum::of(cpp),
        Checksum::of(inks),
        Checksum::of(states),
        Checksum::of(deltas),
        Checksum::of(record)
    )
}
