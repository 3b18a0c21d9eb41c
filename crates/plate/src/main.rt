// Document 01's program `plate`: a picture of a black and a white pixel, whose halftone has them the
// wrong way round, is refined; it prints the indices, the passes run and the moves of each pass.
#![tactic(auto)]

use std::fmt::Display;
use std::io::{self, Print};

fn print_list<T: Display>(rt: &impl Print, name: &str, items: &[T]) -> io::Result<()> {
    print!(rt; "{name}")?;
    for item in items {
        print!(rt; " {item}")?;
    }
    println!(rt;)
}

fn main(rt: HostRuntime) -> io::Result<()> {
    let colours = [0, 0, 0, 255, 255, 255];
    let mut indices = [1, 0];
    let mut cpe = [0.0; 6];
    let mut cpp = [0.0; 8450];
    let mut accepted_per_pass = [0; 10];
    let mut inks = [0.0; 6];
    let stats = dbs::dbs_refine(
        &colours,
        2,
        1,
        &colours,
        &mut indices,
        &[],
        127.0,
        40.0,
        10,
        &mut cpe,
        &mut cpp,
        &mut accepted_per_pass,
        &mut inks,
    );
    let run = accepted_per_pass.len().min(stats.passes as usize);
    print_list(&rt, "indices", &indices)?;
    println!(rt; "passes {}", stats.passes)?;
    print_list(&rt, "accepted", &accepted_per_pass[..run])
}
