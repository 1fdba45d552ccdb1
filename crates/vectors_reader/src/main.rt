// Runs lists of vectors of the reader, one file of data/ a list, and writes how many came out right. The lists are text: every run of decimal
// digits is a number, and all else separates. `make.py` made them, with the expected numbers computed apart from this code.
#![tactic(auto)]

mod given;
mod list;

use std::io;
use vectors_shared::runner::run_list;

const LISTS: [&str; 10] = [
    "listing", "lengths", "cells_a", "cells_b", "faults_a", "faults_b", "faults_c", "deep",
    "random_a", "random_b",
];

fn main(rt: HostRuntime) -> io::Result<()> {
    for name in LISTS {
        run_list(&rt, name.as_bytes(), list::right)?;
    }
    Ok(())
}
