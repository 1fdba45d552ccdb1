// A list: how many runs it has, and for each: profile (14), fragment size, height, first stack top (16), address state (2); nodes, digests,
// batches, groups, opcodes, directory, addresses, parents and ends, each with its length before it; how many fragments, and for each its
// records with their length before them, then the rows, built cells (25), address state (2) and queue positions (3) that it leaves; the
// cells of the finished trace with their number before them. What is expected was made by the listed Rust, but for the helper of HALT rows
// from depth 18 up, which is the documentation's.

use crate::parts::{Parts, begins_with_left, first_cursor};
use groups::constants::Row;
use rows::passes::finish::finish;
use rows::passes::fragments::Fragments;
use rows::records::address_state::Cursor;
use rows::records::profile::Profile;
use vectors_shared::numbers::{FromLowBits, Numbers};
use vectors_shared::runner::Step;

// What a run is given before its fragments.
#[derive(Clone, Copy)]
struct Run<'a> {
    profile: Profile,
    size: usize,
    height: usize,
    top: [u64; 16],
    first: Cursor,
    parts: Parts<'a>,
}

impl<'a> Run<'a> {
    // The run that begins the list, and the numbers from those of its fragments on.
    fn read(list: Numbers<'a>) -> (Self, Numbers<'a>) {
        let (parts, fragments) = Parts::read(list.behind(34));
        let run = Self {
            profile: Profile::from(list),
            size: list.item(14),
            height: list.item(15),
            top: list.behind(16).array(),
            first: first_cursor(list.behind(32)),
            parts,
        };
        (run, fragments)
    }

    // Replays the fragments, each on its part of the buffer and from what is left of the one before, and gathers their counts and built cells.
    fn replay<'b>(
        &self,
        list: Numbers<'b>,
        counts: &mut [u32],
        built: &mut [u64],
        buffer: &mut [u64],
    ) -> Step<'b> {
        let size = Row::WIDTH * self.size.min(64);
        let mut from = self.first;
        let mut step = Step {
            right: true,
            rest: list,
        };
        let mut end = 0;
        for (count, cells) in counts.iter_mut().zip(built.chunks_exact_mut(25)) {
            let start = buffer.len().min(end);
            end = start + size.min(buffer.len() - start);
            let (records, answer) = step.rest.split_part();
            let left = self
                .parts
                .replay(self.profile, from, records, &mut buffer[start..end]);
            step.right &= left.refusal == 0 && begins_with_left(answer, &left);
            step.rest = answer.behind(31);
            *count = u32::from_low_bits(left.rows as u64);
            cells.copy_from_slice(&left.built);
            from = Cursor {
                state: left.state,
                at: left.at,
            };
        }
        step
    }

    // Whether the finisher makes of the buffer the trace.
    fn is_finished(
        &self,
        counts: &[u32],
        built: &[u64],
        buffer: &mut [u64],
        trace: &[u64],
    ) -> bool {
        let fragments = Fragments {
            size: self.size,
            counts,
            built,
        };
        let answer = finish(self.profile, buffer, &fragments, self.top, self.height);
        answer.is_ok() && *buffer == *trace
    }
}

// The run that begins the list, on as many counts and built cells as it has fragments, and on a buffer of its height.
pub fn run_vector<'a>(list: Numbers<'a>) -> Step<'a> {
    let mut counts = [0u32; 32];
    let mut built = [0u64; 800];
    let mut buffer = [u64::MAX; 3136];
    let (run, fragments) = Run::read(list);
    let all = fragments.at_most(0, 32);
    let counts = &mut counts[..all];
    let built = &mut built[..25 * all];
    let buffer = &mut buffer[..Row::WIDTH * run.height.min(64)];
    let replayed = run.replay(fragments.behind(1), counts, built, buffer);
    let (trace, rest) = replayed.rest.split_part();
    Step {
        right: replayed.right && run.is_finished(counts, built, buffer, trace),
        rest,
    }
}
