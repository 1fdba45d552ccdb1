// Lists of cases: how many cases there are, profile (14), two numbers, the parts and the records of a run, each with its length before it,
// and the cases. Each changes records: how many numbers it changes, and for each its place, 0 for the records' length and then one for each
// of their numbers, and what stands there instead. While a case runs its list is changed, so it is walked by places.
ghost use Rattle.std.specs.Prelude.{◌≤◌, ◌<◌, length};

use crate::parts::{Parts, first_cursor};
use field::cell::item_or;
use rows::records::profile::Profile;
use rows::replay::calls::Replayed;
use vectors_shared::copies::put;
use vectors_shared::numbers::Numbers;

// Where the parts begin.
const PARTS: usize = 17;

// How the cases of a list stand: so many numbers of each before its number and its changes, and so many behind them; and the place from
// which on none begins.
#[derive(Clone, Copy)]
pub struct Layout {
    pub before: usize,
    pub behind: usize,
    pub end: usize,
    ghost few: { (before ≤ 2) × (behind ≤ 31) × (end ≤ 8192) },
}

// A case: its number, the list with its changes made, and the numbers that begin with the case and those behind its changes.
#[derive(Clone, Copy)]
pub struct Case<'a> {
    pub number: u64,
    pub list: Numbers<'a>,
    pub own: Numbers<'a>,
    pub behind: Numbers<'a>,
}

impl Case<'_> {
    // Replays the changed records from an address state.
    pub fn replay(self, state: Numbers<'_>, fragment: &mut [u64]) -> Replayed {
        let profile = Profile::from(self.list.behind(1));
        let (parts, rest) = Parts::read(self.list.behind(PARTS));
        let (records, _) = rest.split_part();
        parts.replay(profile, first_cursor(state), records, fragment)
    }
}

// Exchanges the numbers at two places. No `swap`, since a place past the end of the list holds 0.
fn exchange(list: &mut [u64], a: usize, b: usize) {
    let x = item_or(list, a, 0);
    let y = item_or(list, b, 0);
    put(y, list, a);
    put(x, list, b);
}

// How many numbers the changes at a place change.
fn changes(list: &[u64], at: usize) -> usize
    ensures { result ≤ 16 }
{
    Numbers::new(list).behind(at).at_most(0, 16)
}

// Exchanges each number that the changes at a place name with what stands there instead; a second time all is as it was.
fn exchange_all(list: &mut [u64], records: usize, at: usize)
    requires { (records ≤ 8192) × (at ≤ 8195) }
{
    for k in 0..changes(list, at) {
        let change = at + 1 + 2 * k;
        let number = Numbers::new(list).behind(change).at_most(0, 8192);
        exchange(list, records + number, change + 1);
    }
}

// Whether the case that begins at a place comes out right.
fn case_is_right<F: Fn(Case<'_>) -> bool>(
    list: &mut [u64],
    records: usize,
    at: usize,
    layout: Layout,
    is_right: &F,
) -> bool
    requires callable { F.IsAlwaysCallable is_right.now }
    requires places { (records ≤ 8192) × (at ≤ 8192) }
{
    let number = item_or(list, at + layout.before, 0);
    let change = at + layout.before + 1;
    let behind = change + 1 + 2 * changes(list, change);
    exchange_all(list, records, change);
    let changed = Numbers::new(list);
    let right = is_right(Case {
        number,
        list: changed,
        own: changed.behind(at),
        behind: changed.behind(behind),
    });
    exchange_all(list, records, change);
    right
}

// How many of the list's cases come out right.
pub fn count_right<F: Fn(Case<'_>) -> bool>(
    list: &mut [u64; 8192],
    layout: Layout,
    is_right: F,
) -> u64
    requires { F.IsAlwaysCallable is_right }
{
    let (_, rest) = Parts::read(Numbers::new(list).behind(PARTS));
    let (_, cases) = rest.split_part();
    let records = 8192usize.saturating_sub(rest.len());
    let mut at = 8192usize.saturating_sub(cases.len());
    let mut right = 0;
    for k in 0..list[0] {
        if layout.end <= at {
            return right;
        }
        right += u64::from(case_is_right(list, records, at, layout, &is_right));
        let change = at + layout.before + 1;
        at = change + 1 + 2 * changes(list, change) + layout.behind;
    }
    right
}
