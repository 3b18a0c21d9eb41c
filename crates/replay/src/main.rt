// Runs the calls of refine, of measure and of find_move and the lists of job calls of compare/replay.txt, and writes the
// answers in that file's form, to be held to the copy of the Rust. What it reads and must write is made by
//   grep -E '^(call|open|take|work|put_back|recall|close|word|index) ' compare/replay.txt > crates/replay/stdin
//   grep -E '^(refine|measure|find|opened|taken|worked|back|recalled|closed) ' compare/replay.txt > crates/replay/stdout
#![tactic(auto)]

ghost use Rattle.std.specs.Prelude.{◌<◌, ◌≤◌, length};

use given::{Job, Lent, Store};
use lines::Line;
use std::io::{self, Print, Read};

// The letter that tells the lines of a list apart: the first, or of word and work the last.
// Kept: a letter: an enum would be made of it to be matched once, and by the whole word a misspelled line would do something else than it did.
fn letter(line: &[u8]) -> Option<&u8> {
    match line.first() {
        Some(b'w') => line.get(3),
        first => first,
    }
}

// Runs a line of a list.
fn list_line(rt: &impl Print, text: &[u8], job: &mut Job<'_>) -> io::Result<()> {
    let line = Line::new(text);
    match letter(text) {
        Some(b'o') => opens::open(rt, line, job)?,
        Some(b't') => lists::take(rt, line, job)?,
        Some(b'k') => lists::work(rt, line, job)?,
        Some(b'p') => lists::put_back(rt, line, job)?,
        Some(b'r') => lists::recall(rt, line, job)?,
        Some(b'c') => lists::close(rt, line, job)?,
        Some(b'd') => lists::set_word(line, job),
        _ => lists::set_index(line, job),
    }
    Ok(())
}

// A list, which begins with an open, finds each cell of every buffer set. Not inlined: the arrays are on the stack only while it runs.
#[inline(never)]
fn list(rt: &impl Print, text: &[u8]) -> io::Result<()> {
    let mut store = Store::new();
    let mut cpe = [0.0; 1024];
    let mut cpp = [0.0; 8500];
    let mut counts = [0; 1024];
    let mut inks = [0.0; 1024];
    let mut states = [0; 64];
    let mut deltas = [0.0; 64];
    let mut record = [0; 16];
    let mut copy_cpe = [0.0; 3072];
    let mut copy_indices = [0; 1024];
    let mut job = Job::new(
        Lent::new(&mut store, &mut cpe, &mut cpp, &mut counts, &mut inks),
        &mut states,
        &mut deltas,
        &mut record,
        &mut copy_cpe,
        &mut copy_indices,
    );
    for line in text.split(|b| *b == b'\n') {
        list_line(rt, line, &mut job)?;
    }
    Ok(())
}

// Where the list or the call ends that begins here: the next begins with a line that has these letters first, and no other line has them.
fn part_end(text: &[u8]) -> usize
    requires { 0 < length text.now }
    ensures begins { 0 < result }
    ensures ends { result ≤ length text.now }
{
    text.windows(4)
        .skip(1)
        .position(|w| matches!(w, b"\nope" | b"\ncal"))
        .map_or(text.len(), |i| i + 2)
}

// A call is the first line of its part; what follows it there is read by nothing.
fn first_line(text: &[u8]) -> Line<'_> {
    Line::new(text.split(|b| *b == b'\n').next().unwrap_or(text))
}

fn all_parts(rt: &impl Print, text: &[u8]) -> io::Result<()> {
    let mut rest = text;
    while !rest.is_empty() {
        let (part, others) = rest.split_at(part_end(rest));
        match part {
            [b'c', ..] => calls::call(rt, first_line(part))?,
            _ => list(rt, part)?,
        }
        rest = others;
    }
    Ok(())
}

fn main(rt: HostRuntime) -> io::Result<()> {
    let mut text = Vec::new(rt.alloc());
    rt.reader().read_to_end(&mut text)?;
    all_parts(&rt, &text)
}
