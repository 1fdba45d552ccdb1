// Replay: a list of storings and cycles, lent as records, on a fresh tracer over one fragment. All records are run without the fragment
// first; where one refuses, its number is answered and nothing is written.
ghost use Rattle.std.specs.Prelude.{◌≡◌, ◌/◌, ◌<◌, length};
ghost use Rattle.groups.specs.Answer.{refusal, accepted, pick};
ghost use Rattle.groups.specs.Refusals.{number_of};
ghost use Rattle.rows.specs.records.Lent.{lent_forest, lent_queues};
ghost use Rattle.rows.specs.replay.Calls.{scanned, refusing, call_done, call_written, through, written, ending, next_state, next_positions, told, replayed, replayed_fragment};
ghost use Rattle.rows.specs.ways.Inner.{lent_setting, storing_done};
ghost use Rattle.rows.specs.ways.Pairs.{Goes};
ghost use Rattle.rows.specs.records.CallRecords.{stored_in_record, finish_in, finishes, call_in};

use crate::cycles::cycle::{cycle_with, kept};
use crate::cycles::scan::{Scan, scan_lent};
use crate::cycles::tracer::CoreTraceGenerationTracer;
use crate::records::address_state::{Cursor, DecoderState, LentQueues, Positions};
use crate::records::call_record::{narrow, registers_at, stack_at, stored_at, system_at};
use crate::records::forest::LentForest;
use crate::records::profile::Profile;
use crate::records::state::{StackState, SystemState};
use crate::replay::directory::directory_entry;
use crate::replay::pairs::{Followed, follow};
use field::cell::item_or;
use groups::helpers::OperationHelperRegisters;
use groups::refusal::Refusal;

// What a replay answers: 0 or the refusal's number, and on 0 how many rows are written, the cells built last (clk, ctx, fn_hash 4; top
// 16, b0, b1, helper), and the address state and queue positions for the next fragment. On a refusal all others are 0. A struct with the
// number, as it is handed to C.
#[repr(C)]
#[derive(Clone, Copy)]
pub struct Replayed {
    pub refusal: u32,
    pub rows: usize,
    pub built: [u64; 25],
    pub state: DecoderState,
    pub at: Positions,
}

// What all calls share: what the scan found, the profile, all forests and their directory, and the queues.
#[derive(Clone, Copy)]
pub struct LentSetting<'a> {
    pub scan: Scan,
    pub profile: Profile,
    pub forests: LentForest<'a>,
    pub directory: &'a [u32],
    pub queues: LentQueues<'a>,
}

// A record that encodes nothing: its number is kept, unless one is.
#[tactic(auto, unfolding(crate::specs::replay::Calls::refusing))]
fn refuse(refusal: Refusal, tracer: CoreTraceGenerationTracer) -> CoreTraceGenerationTracer
    ensures { result ≡ refusing (number_of refusal) tracer }
{
    if tracer.refusal != 0 {
        return tracer;
    }
    kept(u32::from(refusal), tracer)
}

// A storing.
#[tactic(auto, unfolding(crate::specs::ways::Inner::storing_done, crate::specs::records::CallRecords::stored_in_record))]
fn store(numbers: &[u64], tracer: CoreTraceGenerationTracer) -> CoreTraceGenerationTracer
    ensures { result ≡ storing_done tracer (stored_in_record numbers.now) }
{
    match stored_at(numbers) {
        Ok(values) => tracer.start_clock_cycle(values).tracer,
        Err(refusal) => refuse(refusal, tracer),
    }
}

// A finish in the forest of a number. `write` says whether its row is written.
#[tactic(auto, unfolding(crate::specs::replay::Calls::call_done, crate::specs::replay::Calls::call_written, crate::specs::replay::Calls::forest_of))]
fn finish_in(
    write: bool,
    setting: &LentSetting,
    forest_number: u64,
    system: SystemState,
    stack: StackState,
    registers: OperationHelperRegisters,
    tracer: CoreTraceGenerationTracer,
    fragment: &mut [u64],
) -> CoreTraceGenerationTracer
    ensures value { result ≡ call_done (lent_setting setting.now (length fragment.old)) tracer
        (accepted (finishes forest_number system stack registers)) }
    ensures fragment_after { fragment.new ≡ pick write
        (call_written (lent_setting setting.now (length fragment.old))
        tracer (accepted (finishes forest_number system stack registers)) fragment.old)
        fragment.old }
{
    let forest = setting
        .forests
        .part(directory_entry(setting.directory, forest_number));
    let finished = cycle_with(
        write,
        setting.scan,
        &forest,
        &setting.queues,
        setting.profile,
        system,
        stack,
        registers,
        tracer,
        fragment,
    );
    finished.tracer
}

// A cycle of a record.
#[tactic(auto, unfolding(crate::specs::replay::Calls::call_done, crate::specs::records::CallRecords::finish_in, crate::specs::replay::Calls::call_written))]
fn cycle_call(
    write: bool,
    setting: &LentSetting,
    numbers: &[u64],
    tracer: CoreTraceGenerationTracer,
    fragment: &mut [u64],
) -> CoreTraceGenerationTracer
    ensures value { result ≡ call_done (lent_setting setting.now (length fragment.old)) tracer (finish_in numbers.now) }
    ensures fragment_after { fragment.new ≡ pick write
        (call_written (lent_setting setting.now (length fragment.old)) tracer (finish_in numbers.now) fragment.old)
        fragment.old }
{
    let Some(system) = system_at(numbers) else {
        return refuse(Refusal::StoredAbsent, tracer);
    };
    let Some(depth) = narrow(item_or(numbers, 24, 0)) else {
        return refuse(Refusal::StoredAbsent, tracer);
    };
    let Some(registers) = registers_at(numbers) else {
        return refuse(Refusal::StoredAbsent, tracer);
    };
    finish_in(
        write,
        setting,
        item_or(numbers, 1, 0),
        system,
        stack_at(numbers, depth),
        registers,
        tracer,
        fragment,
    )
}

// One call.
#[tactic(auto, unfolding(crate::specs::replay::Calls::call_done, crate::specs::records::CallRecords::call_in, crate::specs::replay::Calls::call_written))]
fn call(
    write: bool,
    setting: &LentSetting,
    numbers: &[u64],
    tracer: CoreTraceGenerationTracer,
    fragment: &mut [u64],
) -> CoreTraceGenerationTracer
    ensures value { result ≡ call_done (lent_setting setting.now (length fragment.old)) tracer (call_in numbers.now) }
    ensures fragment_after { fragment.new ≡ pick write
        (call_written (lent_setting setting.now (length fragment.old)) tracer (call_in numbers.now) fragment.old)
        fragment.old }
{
    if item_or(numbers, 0, 0) == 0 {
        return store(numbers, tracer);
    }
    cycle_call(write, setting, numbers, tracer, fragment)
}

// Record k, and behind a cycle that wrote its row the stretch of pairs that follows.
fn go_on(
    write: bool,
    setting: &LentSetting,
    records: &[u64],
    k: usize,
    tracer: CoreTraceGenerationTracer,
    fragment: &mut [u64],
) -> Followed
    requires { k < length records.now / 32 }
    ensures { Goes (lent_setting setting.now (length fragment.old)) records.now k tracer write fragment.old fragment.new result }
{
    let start = 32 * k;
    let end = start + 32;
    let done = call(write, setting, &records[start..end], tracer, fragment);
    if done.row_write_index <= tracer.row_write_index {
        return Followed {
            next: k + 1,
            tracer: done,
        };
    }
    follow(write, setting, records, k + 1, done, fragment)
}

// All whole records in their order, on a tracer. No `for`: a stretch of pairs is behind more than one record.
#[tactic(auto, unfolding(crate::specs::replay::Calls::through, crate::specs::replay::Calls::written))]
fn run(
    write: bool,
    setting: &LentSetting,
    records: &[u64],
    first: CoreTraceGenerationTracer,
    fragment: &mut [u64],
) -> CoreTraceGenerationTracer
    ensures value { result ≡ through (lent_setting setting.now (length fragment.old)) records.now first (length records.now / 32) }
    ensures fragment_after { fragment.new ≡ pick write
        (written (lent_setting setting.now (length fragment.old)) records.now first fragment.old (length records.now / 32))
        fragment.old }
{
    let mut tracer = first;
    let mut k = 0;
    while k < records.len() / 32 {
        let went = go_on(write, setting, records, k, tracer, fragment);
        tracer = went.tracer;
        k = went.next;
    }
    tracer
}

// A part of a record at the end of the list is refused by 11.
#[tactic(auto, unfolding(crate::specs::replay::Calls::ending))]
fn ended(numbers: usize, tracer: CoreTraceGenerationTracer) -> CoreTraceGenerationTracer
    ensures { result ≡ ending numbers tracer }
{
    if numbers % 32 != 0 {
        return refuse(Refusal::BadLength, tracer);
    }
    tracer
}

// What the next fragment goes on from; zeros on a refusal.
#[tactic(auto, unfolding(crate::specs::replay::Calls::next_state, crate::specs::replay::Calls::next_positions))]
fn next_cursor(tracer: CoreTraceGenerationTracer) -> Cursor
    ensures { (result.state ≡ next_state tracer) × (result.at ≡ next_positions tracer) }
{
    if tracer.refusal == 0 {
        return Cursor {
            state: tracer.decoder_state,
            at: tracer.at,
        };
    }
    Cursor {
        state: DecoderState {
            current_addr: 0,
            parent_addr: 0,
        },
        at: Positions {
            addresses: 0,
            parents: 0,
            ends: 0,
        },
    }
}

// What is answered of the tracer at the end.
#[tactic(auto, unfolding(crate::specs::replay::Calls::told))]
fn answer(tracer: CoreTraceGenerationTracer) -> Replayed
    ensures { result ≡ told tracer }
{
    let last = tracer.into_final_state();
    let end = last.for_passes();
    let built = end.built;
    let next = next_cursor(tracer);
    Replayed {
        refusal: last.refusal,
        rows: end.count as usize,
        built,
        state: next.state,
        at: next.at,
    }
}

// The calls of all records, in their order, on a fresh tracer over the fragment.
#[tactic(auto, unfolding(crate::specs::replay::Calls::replayed, crate::specs::replay::Calls::scanned, crate::specs::replay::Calls::replayed_fragment))]
pub fn replay_calls(
    forests: &LentForest,
    directory: &[u32],
    queues: &LentQueues,
    profile: Profile,
    from: Cursor,
    records: &[u64],
    fragment: &mut [u64],
) -> Replayed
    ensures value { result ≡ replayed (scanned profile (lent_forest forests.now) directory.now (lent_queues queues.now) (length fragment.old))
        from.state from.at records.now }
    ensures fragment_after { fragment.new ≡ replayed_fragment
        (scanned profile (lent_forest forests.now) directory.now (lent_queues queues.now) (length fragment.old))
        from.state from.at records.now fragment.old }
{
    let setting = LentSetting {
        scan: scan_lent(profile, forests.nodes, forests.batches.records, forests.ops),
        profile,
        forests: *forests,
        directory,
        queues: *queues,
    };
    let first = CoreTraceGenerationTracer::new(from.state, from.at);
    let tried = run(false, &setting, records, first, fragment);
    let whole = ended(records.len(), tried);
    if whole.refusal != 0 {
        return answer(whole);
    }
    run(true, &setting, records, first, fragment);
    answer(whole)
}
