// Replays runs whose answers were made by the listed Rust (but for the helper of HALT rows from depth 18 up), in the lists cells_01 to
// cells_04 with p added to some of the cells that come in, records that are refused, records over a forest with a SYSCALL node, and records
// from other address states, one file of data/ a list, and writes how many came out right.
#![tactic(auto)]

mod cases;
mod list;
mod parts;
mod refused;
mod states;

use cases::{Case, Layout, count_right};
use std::io;
use std::rt::Runtime;
use vectors_shared::numbers::Numbers;
use vectors_shared::runner::run_vectors;
use vectors_shared::text::{load, report};

// The list has fixed room, since no heap is used.
fn runs(rt: &impl Runtime, name: &[u8]) -> io::Result<()> {
    let mut numbers = [0u64; 8192];
    load(rt, name, &mut numbers)?;
    let list = Numbers::new(&numbers);
    run_vectors(rt, name, list.behind(1), list.number(0), list::run_vector)
}

// A list of cases that has the layout.
fn run_cases<F: Fn(Case<'_>) -> bool>(
    rt: &impl Runtime,
    name: &[u8],
    layout: Layout,
    is_right: F,
) -> io::Result<()>
    requires { F.IsAlwaysCallable is_right }
{
    let mut numbers = [0u64; 8192];
    load(rt, name, &mut numbers)?;
    let all = numbers[0];
    report(rt, name, count_right(&mut numbers, layout, is_right), all)
}

fn main(rt: HostRuntime) -> io::Result<()> {
    let names: [&[u8]; 16] = [
        b"runs_01",
        b"runs_02",
        b"runs_03",
        b"runs_04",
        b"runs_05",
        b"runs_06",
        b"runs_07",
        b"runs_08",
        b"runs_09",
        b"runs_10",
        b"runs_11",
        b"runs_12",
        b"cells_01",
        b"cells_02",
        b"cells_03",
        b"cells_04",
    ];
    for name in names {
        runs(&rt, name)?;
    }
    run_cases(&rt, b"refused", refused::LAYOUT, refused::is_right)?;
    run_cases(&rt, b"syscall", refused::LAYOUT, refused::is_right)?;
    run_cases(&rt, b"states", states::LAYOUT, states::is_right)
}
