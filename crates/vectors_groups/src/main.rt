// Runs lists of vectors, one file of data/ for each layer, and writes how many came out right. The lists are text: every run of decimal
// digits is a number, and all else separates. `make.py` made them, with the expected numbers computed apart from this code.
#![tactic(auto)]

mod field_list;
mod groups_list;

ghost use Rattle.std.specs.Prelude.{◌<◌};

use groups_list::{Answer, contexts, flags, helpers, is_right, places, records};
use std::io;
use std::rt::Runtime;
use vectors_shared::numbers::Numbers;
use vectors_shared::runner::{Step, run_vectors};
use vectors_shared::text::load;

// A list of records, each of `length` numbers: what a call is given, and what it answers. The list has fixed room, since no heap is used.
fn run_records<F: Fn(Numbers<'_>) -> bool>(
    rt: &impl Runtime,
    name: &[u8],
    length: usize,
    is_right: F,
) -> io::Result<()>
    requires length_bound { 0 < length }
    requires callable { F.IsAlwaysCallable is_right }
{
    let mut numbers = [0u64; 8192];
    let all = load(rt, name, &mut numbers)? / length;
    run_vectors(
        rt,
        name,
        Numbers::new(&numbers),
        all as u64,
        |list| Step {
            right: is_right(list),
            rest: list.behind(length),
        },
    )
}

// A list of the groups layer: records of `given` numbers, and an answer's number and six values.
fn run_answers<F: Fn(Numbers<'_>) -> Answer>(
    rt: &impl Runtime,
    name: &[u8],
    given: usize,
    answer: F,
) -> io::Result<()>
    requires given_bound { given < 4096 }
    requires callable { F.IsAlwaysCallable answer }
{
    run_records(rt, name, given + 7, |list| {
        is_right(answer(list), list.behind(given))
    })
}

fn main(rt: HostRuntime) -> io::Result<()> {
    // Each list is of another call.
    run_records(&rt, b"field", 4, field_list::is_right)?;
    run_answers(&rt, b"helpers", 7, helpers)?;
    run_answers(&rt, b"flags", 1, flags)?;
    run_answers(&rt, b"places", 11, places)?;
    run_answers(&rt, b"records", 39, records)?;
    for name in [b"contexts_a", b"contexts_b", b"contexts_c", b"contexts_d"] {
        run_answers(&rt, name, 67, contexts)?;
    }
    Ok(())
}
