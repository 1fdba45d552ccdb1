// Runs lists of vectors of a tracer's calls, one file of data/ a list, and writes how many came out right. The lists are text: every run
// of decimal digits is a number, and all else separates. `make.py` made them, with the expected numbers computed apart from this code.
#![tactic(auto)]

mod given;
mod list;
mod told;

use std::io;
use vectors_shared::runner::run_list;

const LISTS: [&str; 19] = [
    "rows_a",
    "rows_b",
    "operations",
    "following",
    "cells_a",
    "cells_b",
    "cells_c",
    "tracers_a",
    "tracers_b",
    "inputs",
    "refusals",
    "tallies_a",
    "tallies_b",
    "orders",
    "runs_a",
    "runs_b",
    "mixed_a",
    "mixed_b",
    "mixed_c",
];

fn main(rt: HostRuntime) -> io::Result<()> {
    for name in LISTS {
        run_list(&rt, name.as_bytes(), list::right)?;
    }
    Ok(())
}
