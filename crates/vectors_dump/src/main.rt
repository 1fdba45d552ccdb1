// Runs lists of vectors of dumps, one file of data/ a list, and writes how many came out right. The lists are text: every run of decimal
// digits is a number, and all else separates. `make.py` made them, with the expected numbers computed apart from this code.
#![tactic(auto)]

mod given;
mod read_list;
mod write_list;

use given::MOST_BYTES;
use std::io;
use std::rt::Runtime;
use vectors_shared::numbers::Numbers;
use vectors_shared::runner::{Step, run_vectors};
use vectors_shared::text::load;

// A list: how many vectors it has, how many bytes of a text, the bytes, and the vectors. A vector is run with the numbers that begin with
// the text, and those that begin with the vector. The list has fixed room, since no heap is used.
fn run_list<F: for<'a> Fn(Numbers<'a>, Numbers<'a>) -> Step<'a>>(
    rt: &impl Runtime,
    name: &[u8],
    run_vector: F,
) -> io::Result<()>
    requires { F.IsAlwaysCallable run_vector }
{
    let mut numbers = [0u64; 8192];
    load(rt, name, &mut numbers)?;
    let list = Numbers::new(&numbers);
    let text = list.behind(2);
    run_vectors(
        rt,
        name,
        text.behind(list.at_most(1, MOST_BYTES)),
        list.number(0),
        |vector| run_vector(text, vector),
    )
}

fn main(rt: HostRuntime) -> io::Result<()> {
    for name in [
        b"writes_a",
        b"writes_b",
        b"writes_c",
        b"writes_d",
        b"writes_e",
        b"writes_f",
        b"writes_g",
        b"writes_h",
        b"writes_i",
    ] {
        run_list(&rt, name, write_list::run_vector)?;
    }
    let reads: [&[u8]; 11] = [
        b"reads_one_a",
        b"reads_one_b",
        b"reads_one_c",
        b"reads_two",
        b"reads_four_a",
        b"reads_four_b",
        b"reads_four_c",
        b"reads_four_d",
        b"reads_four_e",
        b"reads_four_f",
        b"reads_twelve",
    ];
    for name in reads {
        run_list(&rt, name, read_list::run_vector)?;
    }
    Ok(())
}
