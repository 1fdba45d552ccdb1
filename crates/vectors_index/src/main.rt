// Runs lists of vectors of the index, one file of data/ a list, and writes how many came out right. The lists are text: every run of decimal
// digits is a number, and all else separates. `make.py` made them, with the expected numbers computed apart from this code.
#![tactic(auto)]

mod build_list;
mod given;
mod lookup_list;

use std::io;
use vectors_shared::runner::run_list;

fn main(rt: HostRuntime) -> io::Result<()> {
    for name in [
        "traces_a",
        "traces_b",
        "traces_c",
        "cells",
        "refused_a",
        "refused_b",
    ] {
        run_list(&rt, name.as_bytes(), build_list::right)?;
    }
    run_list(&rt, b"lookups", lookup_list::right)
}
