// Runs the vectors of a list.
ghost use Rattle.std.specs.Prelude.{◌≤◌};

use crate::numbers::Numbers;
use crate::text::{load, report};
use std::io;
use std::rt::Runtime;

// What running a vector tells: whether it came out right, and the list behind it, which goes on in both cases.
#[derive(Clone, Copy)]
pub struct Step<'a> {
    pub right: bool,
    pub rest: Numbers<'a>,
}

// How many of the first `all` vectors of a list come out right. Where the list ends before, there are no more.
pub fn count_right<'a, F: FnMut(Numbers<'a>) -> Step<'a>>(
    list: Numbers<'a>,
    all: u64,
    mut vector: F,
) -> u64
    requires { F.IsAlwaysCallable vector }
    ensures { result ≤ all }
{
    let mut right = 0;
    let mut rest = list;
    for k in 0..all {
        if rest.is_empty() {
            return right;
        }
        let step = vector(rest);
        right += u64::from(step.right);
        rest = step.rest;
    }
    right
}

// As many numbers of a list are read. The list has fixed room, since no heap is used.
pub const MOST_NUMBERS: usize = 8192;

// Runs the list of a file, which begins with how many vectors it has, and writes how many `right` says came out right.
pub fn run_list<F: FnOnce(Numbers<'_>) -> u64>(
    rt: &impl Runtime,
    name: &[u8],
    right: F,
) -> io::Result<()>
    requires { F.IsAlwaysCallable right }
{
    let mut numbers = [0u64; MOST_NUMBERS];
    load(rt, name, &mut numbers)?;
    let list = Numbers::new(&numbers);
    report(rt, name, right(list), list.number(0))
}

// Runs the first `all` vectors of a list, and writes how many came out right.
pub fn run_vectors<'a, F: FnMut(Numbers<'a>) -> Step<'a>>(
    rt: &impl Print,
    name: &[u8],
    list: Numbers<'a>,
    all: u64,
    vector: F,
) -> io::Result<()>
    requires { F.IsAlwaysCallable vector }
{
    report(rt, name, count_right(list, all, vector), all)
}
