// Changes to a list: how many runs there are, and for each its first place, its length, and its numbers.
ghost use Rattle.std.specs.Prelude.{◌≤◌, length};

use crate::copies::put;
use crate::numbers::Numbers;

// The longest run.
const MOST_NUMBERS: usize = 900;

// Puts the numbers of the run that begins the list into their places, as many as there are places, and answers the list behind it.
fn put_run<'a>(list: Numbers<'a>, to: &mut [u64]) -> Numbers<'a>
    ensures { length result.list.now ≤ length list.entry.list.now }
{
    let place: usize = list.item(0);
    let length = list.at_most(1, MOST_NUMBERS);
    let numbers = list.behind(2);
    if let Some(places) = to.get_mut(place..) {
        let room = length.min(places.len());
        numbers.fill(&mut places[..room]);
    }
    numbers.behind(length)
}

// Makes the changes that begin the list, and answers the list behind them.
pub fn make_changes<'a>(list: Numbers<'a>, to: &mut [u64]) -> Numbers<'a>
    ensures { length result.list.now ≤ length list.entry.list.now }
{
    let mut rest = list.behind(1);
    for _ in 0..list.number(0) {
        if rest.is_empty() {
            return rest;
        }
        rest = put_run(rest, to);
    }
    rest
}

// Puts the numbers of `count` pairs, each a place and a number, into their places.
pub fn put_pairs(pairs: Numbers<'_>, count: usize, to: &mut [u64]) {
    let mut rest = pairs;
    for _ in 0..count {
        put(rest.number(1), to, rest.item(0));
        rest = rest.behind(2);
    }
}
