// A list: how many vectors it has, a base input of 614 numbers, and the vectors. A vector: 0 to start from the base input and a tally of 512
// zeros or 1 to go on from what the vector before left, the call (0 new, 1 store, 2 finish, 3 final state, 4 finish with its tally, 5 none), how
// many numbers it changes in the input, that many pairs of a place and a number, the answer's number, and if that is 0 the numbers that come out:
// the tracer's 46 for new and store, the 49 cells of the row, the tracer's 46 and how many operations follow for a finish, behind them two
// pairs of a place in the tally and the number that it gets (514: none) where the tally is held to it, 25 cells, the row count and the count
// that the passes take for a final state.
//
// The input's places: profile 0 to 13; nodes from 14, digests from 111, batches from 176, groups from 225, operations from 258, block
// addresses from 299, parents from 304, ends from 309, each with its length first; tracer 322 to 367; system 368 to 373;
// stack 374 to 391; helper registers 392 to 398; values to store 399 to 412; the fragment from 413 and the tally from 614, each
// with its length first.
ghost use Rattle.std.specs.Prelude.{◌≤◌};

use crate::given::{positions_of, stack_of, state_of, system_of, tracer_of, values_of};
use crate::told::{final_numbers, tracer_numbers};
use groups::batch::LentBatches;
use groups::helpers::OperationHelperRegisters;
use rows::cycles::cycle::{Finished, finalize_clock_cycle};
use rows::cycles::tracer::CoreTraceGenerationTracer;
use rows::records::address_state::LentQueues;
use rows::records::forest::LentForest;
use rows::records::profile::Profile;
use vectors_shared::changes::put_pairs;
use vectors_shared::copies::put_all;
use vectors_shared::numbers::{Numbers, Part};
use vectors_shared::runner::{Step, count_right};

// Where the vectors of a list begin.
const FIRST_VECTOR: usize = 615;

const NODES: usize = 14;

const DIGESTS: usize = 111;

const BATCHES: usize = 176;

const GROUPS: usize = 225;

const OPS: usize = 258;

const ADDRESSES: usize = 299;

const PARENTS: usize = 304;

const ENDS: usize = 309;

const TRACER: usize = 322;

const SYSTEM: usize = 368;

const STACK: usize = 374;

const REGISTERS: usize = 392;

const VALUES: usize = 399;

const FRAGMENT: usize = 413;

const TALLY: usize = 614;

// The most changes of a vector.
const MOST_CHANGES: usize = 200;

// Where no more than these are left, a list ends: no vector has as many.
const MOST_NUMBERS: usize = 692;

// What a call is given. The room for it and its parts is fixed, since no heap is used.
#[derive(Drop)]
struct Input {
    numbers: [u64; 1129],
}

impl Input {
    // Zeros.
    fn new() -> Self {
        Self { numbers: [0; 1129] }
    }

    // The numbers from a place on.
    fn behind(&self, at: usize) -> Numbers<'_> {
        Numbers::new(&self.numbers).behind(at)
    }

    // The base input of a list, and a tally of zeros.
    fn restart(&mut self, base: Numbers<'_>) {
        self.numbers = [0; 1129];
        base.fill(&mut self.numbers[..TALLY]);
        self.numbers[TALLY] = 512;
    }

    // Puts numbers from a place on.
    fn put(&mut self, at: usize, numbers: &[u64]) {
        put_all(numbers, &mut self.numbers, at);
    }

    // A finish of the tracer on the tally and the fragment, with the rest of what it is given from the input.
    fn finish(
        &self,
        tracer: CoreTraceGenerationTracer,
        tally: &mut [u64],
        fragment: &mut [u64],
    ) -> Finished {
        let nodes: Part<u32, 96> = self.behind(NODES).part();
        let digests: Part<u64, 64> = self.behind(DIGESTS).part();
        let records: Part<u32, 48> = self.behind(BATCHES).part();
        let groups: Part<u64, 32> = self.behind(GROUPS).part();
        let ops: Part<u8, 40> = self.behind(OPS).part();
        let addresses: Part<u64, 4> = self.behind(ADDRESSES).part();
        let parents: Part<u64, 4> = self.behind(PARENTS).part();
        let ends: Part<u64, 12> = self.behind(ENDS).part();
        let forest = LentForest {
            nodes: nodes.lent(),
            digests: digests.lent(),
            batches: LentBatches {
                records: records.lent(),
                groups: groups.lent(),
            },
            ops: ops.lent(),
        };
        let queues = LentQueues {
            addresses: addresses.lent(),
            parents: parents.lent(),
            ends: ends.lent(),
        };
        let profile = Profile::from(self.behind(0));
        let system = system_of(self.behind(SYSTEM));
        let stack = stack_of(self.behind(STACK));
        let registers = OperationHelperRegisters::from(self.behind(REGISTERS));
        finalize_clock_cycle(
            &forest, &queues, profile, system, stack, registers, tracer, tally, fragment,
        )
    }
}

// Whether the tracer is as expected after a call: after a refusal the tracer before with the number kept, else what the list says.
fn tracer_right(number: u64, before: [u64; 46], after: &[u64; 46], list: Numbers<'_>) -> bool {
    if number == 0 {
        return list.begins_with(after);
    }
    let mut kept = before;
    kept[0] = number;
    kept == *after
}

// Whether the fragment is as expected after a finish: as it was, but for the row of an accepted finish, which the list says.
fn fragment_right(
    number: u64,
    rows: usize,
    before: [u64; 200],
    after: &[u64; 200],
    row: Numbers<'_>,
) -> bool {
    let mut expected = before;
    if number == 0 {
        let cells: [u64; 49] = row.array();
        put_all(&cells, &mut expected, 49 * rows.min(4));
    }
    expected == *after
}

fn new_right(input: &mut Input, answer: Numbers<'_>) -> bool {
    let state = state_of(input.behind(TRACER + 16));
    let positions = positions_of(input.behind(TRACER + 18));
    let after = tracer_numbers(CoreTraceGenerationTracer::new(state, positions));
    input.put(TRACER, &after);
    answer.number(0) == 0 && answer.behind(1).begins_with(&after)
}

fn store_right(input: &mut Input, answer: Numbers<'_>) -> bool {
    let tracer = tracer_of(input.behind(TRACER));
    let done = tracer.start_clock_cycle(values_of(input.behind(VALUES)));
    let number = u64::from(done.refusal);
    let after = tracer_numbers(done.tracer);
    input.put(TRACER, &after);
    answer.number(0) == number
        && tracer_right(number, tracer_numbers(tracer), &after, answer.behind(1))
}

// How many operations are expected to follow: none after a refusal, else what the list says.
fn following_right(number: u64, following: u64, list: Numbers<'_>) -> bool {
    following == if number == 0 { list.number(0) } else { 0 }
}

fn finish_right(input: &mut Input, answer: Numbers<'_>) -> bool {
    let tracer = tracer_of(input.behind(TRACER));
    // Filled in place: a `Part` of so many numbers would be copied for each vector.
    let mut fragment = [0u64; 200];
    input.behind(FRAGMENT + 1).fill(&mut fragment);
    let cells = input.behind(FRAGMENT).at_most(0, 200);
    let mut tally = [0u64; 514];
    input.behind(TALLY + 1).fill(&mut tally);
    let counts = input.behind(TALLY).at_most(0, 514);
    let stood = fragment;
    let done = input.finish(tracer, &mut tally[..counts], &mut fragment[..cells]);
    let number = u64::from(done.refusal);
    let after = tracer_numbers(done.tracer);
    input.put(TRACER, &after);
    input.put(FRAGMENT + 1, &fragment);
    input.put(TALLY + 1, &tally);
    answer.number(0) == number
        && fragment_right(
            number,
            tracer.row_write_index,
            stood,
            &fragment,
            answer.behind(1),
        )
        && tracer_right(number, tracer_numbers(tracer), &after, answer.behind(50))
        && following_right(number, done.following, answer.behind(96))
}

// A finish, and the tally behind it: as it was, but for the two numbers that the list says where the finish is accepted.
fn tallied_right(input: &mut Input, answer: Numbers<'_>) -> bool {
    let mut expected: [u64; 514] = input.behind(TALLY + 1).array();
    if answer.number(0) == 0 {
        put_pairs(answer.behind(97), 2, &mut expected);
    }
    finish_right(input, answer) && input.behind(TALLY + 1).begins_with(&expected)
}

// The final state: zeros after a refusal, else what the list says.
fn final_right(input: &Input, answer: Numbers<'_>) -> bool {
    let end = tracer_of(input.behind(TRACER)).into_final_state();
    let number = u64::from(end.refusal);
    let mut expected = [0u64; 27];
    if number == 0 {
        answer.behind(1).fill(&mut expected);
    }
    answer.number(0) == number
        && final_numbers(end) == expected
        && Numbers::new(&expected).begins_with(&end.for_passes().built)
}

#[derive(Clone, Copy)]
enum Call {
    New,
    Store,
    Finish,
    FinalState,
    TalliedFinish,
    Nothing,
}

impl From<u64> for Call {
    fn from(number: u64) -> Self {
        match number {
            0 => Self::New,
            1 => Self::Store,
            2 => Self::Finish,
            3 => Self::FinalState,
            4 => Self::TalliedFinish,
            _ => Self::Nothing,
        }
    }
}

impl Call {
    // Whether the call answers what the list says.
    fn is_right(self, input: &mut Input, answer: Numbers<'_>) -> bool {
        match self {
            Self::New => new_right(input, answer),
            Self::Store => store_right(input, answer),
            Self::Finish => finish_right(input, answer),
            Self::FinalState => final_right(input, answer),
            Self::TalliedFinish => tallied_right(input, answer),
            Self::Nothing => true,
        }
    }

    // How many numbers follow the answer's number; after a refusal there are none.
    fn answer_length(self, number: u64) -> usize
        ensures { result ≤ 100 }
    {
        if number != 0 {
            return 0;
        }
        match self {
            Self::New | Self::Store => 46,
            Self::Finish => 96,
            Self::FinalState => 27,
            Self::TalliedFinish => 100,
            Self::Nothing => 0,
        }
    }
}

// The first vector of what is left of a list.
fn vector<'a>(list: Numbers<'a>, rest: Numbers<'a>, input: &mut Input) -> Step<'a> {
    if rest.len() <= MOST_NUMBERS {
        return Step {
            right: false,
            rest: rest.behind(MOST_NUMBERS),
        };
    }
    if rest.number(0) == 0 {
        input.restart(list.behind(1));
    }
    let call = Call::from(rest.number(1));
    let changes = rest.at_most(2, MOST_CHANGES);
    put_pairs(rest.behind(3), changes, &mut input.numbers);
    let answer = rest.behind(3 + 2 * changes);
    let right = call.is_right(input, answer);
    Step {
        right,
        rest: answer.behind(1 + call.answer_length(answer.number(0))),
    }
}

// How many of the list's vectors come out right.
pub fn right(list: Numbers<'_>) -> u64 {
    let mut input = Input::new();
    count_right(list.behind(FIRST_VECTOR), list.number(0), |rest| {
        vector(list, rest, &mut input)
    })
}
