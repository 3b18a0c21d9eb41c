// Lists of job calls: a line of compare/replay.txt is a call on parts of buffers, and its answer is written in
// that file's form. One function to a kind of line. In a line, numbers from 0 count its words.
#![tactic(auto)]

ghost use Rattle.std.specs.Prelude.{◌≤◌};

use checksum::Checksum;
use given::{Job, ROOM};
use lines::{Bits, Line, part, part_mut};
use std::io::{self, Print};

// The pixel of the copies' buffers at which a copy begins.
fn copy_start(line: Line<'_>) -> usize
    ensures { result ≤ 1024 }
{
    line.number(2).min(1024) as usize
}

// Kept: what prints, a line and the job's buffers go apart here and in the calls that follow: a struct of the three would be made of them at
// each call and taken apart at once.
pub fn take(rt: &impl Print, line: Line<'_>, job: &mut Job<'_>) -> io::Result<()> {
    let lent = &mut job.lent;
    let store = &mut *lent.store;
    let cpe = &mut *lent.cpe;
    let states = &mut *job.states;
    let record = &*job.record;
    let copy_cpe = &mut *job.copy_cpe;
    let copy_indices = &mut *job.copy_indices;
    let start = copy_start(line);
    let states = part_mut(states, line.number(5));
    let copy_cpe = part_mut(&mut copy_cpe[3 * start..], line.number(7));
    let copy_indices = part_mut(&mut copy_indices[start..], line.number(8));
    let status = dbs::dbs_take(
        part(record, line.number(6)),
        line.number(1),
        part(&store.pinned_and_indices[ROOM..], line.number(3)),
        part(cpe, line.number(4)),
        states,
        copy_cpe,
        copy_indices,
    );
    println!(rt;
        "taken {} {} {} {}",
        status,
        Checksum::of(states),
        Checksum::of(copy_cpe),
        Checksum::of(copy_indices)
    )
}

pub fn work(rt: &impl Print, line: Line<'_>, job: &mut Job<'_>) -> io::Result<()> {
    let lent = &mut job.lent;
    let store = &mut *lent.store;
    let cpp = &mut *lent.cpp;
    let inks = &mut *lent.inks;
    let record = &*job.record;
    let copy_cpe = &mut *job.copy_cpe;
    let copy_indices = &mut *job.copy_indices;
    let start = copy_start(line);
    let copy_cpe = part_mut(&mut copy_cpe[3 * start..], line.number(7));
    let copy_indices = part_mut(&mut copy_indices[start..], line.number(8));
    let worked = dbs::dbs_work(
        part(record, line.number(6)),
        line.number(1),
        part(&store.pinned_and_indices, line.number(3)),
        part(cpp, line.number(4)),
        copy_cpe,
        copy_indices,
        part(inks, line.number(5)),
    );
    println!(rt;
        "worked {} {} {} {} {} {}",
        worked.number,
        worked.place,
        worked.accepted,
        Bits(worked.delta),
        Checksum::of(copy_cpe),
        Checksum::of(copy_indices)
    )
}

pub fn put_back(rt: &impl Print, line: Line<'_>, job: &mut Job<'_>) -> io::Result<()> {
    let lent = &mut job.lent;
    let store = &mut *lent.store;
    let cpe = &mut *lent.cpe;
    let states = &mut *job.states;
    let deltas = &mut *job.deltas;
    let record = &mut *job.record;
    let copy_cpe = &*job.copy_cpe;
    let copy_indices = &*job.copy_indices;
    let start = copy_start(line);
    let indices = part_mut(&mut store.pinned_and_indices[ROOM..], line.number(5));
    let cpe = part_mut(cpe, line.number(6));
    let states = part_mut(states, line.number(7));
    let deltas = part_mut(deltas, line.number(8));
    let record = part_mut(record, line.number(9));
    let status = dbs::dbs_put_back(
        record,
        line.number(1),
        indices,
        cpe,
        states,
        deltas,
        part(&copy_cpe[3 * start..], line.number(10)),
        part(&copy_indices[start..], line.number(11)),
        line.number(3),
        line.float(4),
    );
    println!(rt;
        "back {} {} {} {} {} {}",
        status,
        Checksum::of(indices),
        Checksum::of(cpe),
        Checksum::of(states),
        Checksum::of(deltas),
        Checksum::of(record)
    )
}

pub fn recall(rt: &impl Print, line: Line<'_>, job: &mut Job<'_>) -> io::Result<()> {
    let states = &mut *job.states;
    let record = &*job.record;
    let states = part_mut(states, line.number(2));
    let status = dbs::dbs_recall(part(record, line.number(3)), line.number(1), states);
    println!(rt; "recalled {} {}", status, Checksum::of(states))
}

pub fn close(rt: &impl Print, line: Line<'_>, job: &mut Job<'_>) -> io::Result<()> {
    let lent = &mut job.lent;
    let counts = &mut *lent.counts;
    let states = &mut *job.states;
    let deltas = &*job.deltas;
    let record = &mut *job.record;
    let counts = part_mut(counts, line.number(1));
    let states = part_mut(states, line.number(2));
    let record = part_mut(record, line.number(4));
    let status = dbs::dbs_close(record, counts, states, part(deltas, line.number(3)));
    println!(rt;
        "closed {} {} {} {}",
        status,
        Checksum::of(counts),
        Checksum::of(states),
        Checksum::of(record)
    )
}

// Word I of the record is set.
pub fn set_word(line: Line<'_>, job: &mut Job<'_>) {
    if let Some(word) = job.record.get_mut(line.number(1) as usize) {
        *word = line.bits(2);
    }
}

// Cell I of the copies' indices is set.
pub fn set_index(line: Line<'_>, job: &mut Job<'_>) {
    if let Some(index) = job.copy_indices.get_mut(line.number(1) as usize) {
        *index = line.number(2).min(255) as u8;
    }
}
