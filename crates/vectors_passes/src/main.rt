// Runs lists of vectors of the finishing passes, one file of data/ a list, and writes how many came out right. The lists are text: every
// run of decimal digits is a number, and all else separates. `make.py` made them, with the expected numbers computed apart from this code.
#![tactic(auto)]

mod input;
mod large;
mod list;

use std::io;
use std::rt::Runtime;
use vectors_shared::numbers::Numbers;
use vectors_shared::runner::run_vectors;
use vectors_shared::text::{load, report};

// The list has fixed room, since no heap is used.
fn vectors(rt: &impl Runtime, name: &[u8]) -> io::Result<()> {
    let mut numbers = [0u64; 8192];
    load(rt, name, &mut numbers)?;
    let list = Numbers::new(&numbers);
    let base = list.behind(1);
    run_vectors(
        rt,
        name,
        base.behind(list::BASE),
        list.number(0),
        |vector| list::run_vector(base, vector),
    )
}

fn large_vector(rt: &impl Runtime, name: &[u8]) -> io::Result<()> {
    let mut numbers = [0u64; 32];
    load(rt, name, &mut numbers)?;
    let list = Numbers::new(&numbers);
    let right = u64::from(large::is_right(list.behind(1)));
    report(rt, name, right, list.number(0))
}

fn main(rt: HostRuntime) -> io::Result<()> {
    let names: [&[u8]; 12] = [
        b"passes_a",
        b"passes_b",
        b"cells_a",
        b"cells_b",
        b"cells_c",
        b"refusals_a",
        b"refusals_b",
        b"orders",
        b"finished_a",
        b"finished_b",
        b"finished_c",
        b"finished_d",
    ];
    for name in names {
        vectors(&rt, name)?;
    }
    large_vector(&rt, b"large")
}
