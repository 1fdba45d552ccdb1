// The tracer's record: the tracer, and the tally that is lent to its fragment's cycles.
ghost use Rattle.std.specs.Prelude.{◌≡◌};
ghost use Rattle.groups.specs.Answer.{refusal};
ghost use Rattle.rows.specs.records.Lent.{lent_forest, lent_queues};
ghost use Rattle.rows.specs.cycles.Cycles.{tracer_after, following_of, fragment_after};
ghost use Rattle.rows.specs.cycles.LentTally.{tallied_cycle, tally_after};

use crate::cycles::cycle::{Finished, finalize_clock_cycle};
use crate::cycles::tracer::CoreTraceGenerationTracer;
use crate::records::address_state::LentQueues;
use crate::records::forest::LentForest;
use crate::records::profile::Profile;
use crate::records::state::{StackState, SystemState};
use groups::helpers::OperationHelperRegisters;

#[derive(Drop)]
pub struct LiveTracer<'a> {
    pub tracer: CoreTraceGenerationTracer,
    pub tally: &'a mut [u64],
}

// A finish of the record: `finalize_clock_cycle` with its tracer and its tally.
pub fn finish_live<'a>(
    forest: &LentForest,
    queues: &LentQueues,
    profile: Profile,
    system: SystemState,
    stack: StackState,
    registers: OperationHelperRegisters,
    live: LiveTracer<'a>,
    fragment: &mut [u64],
) -> Finished
    ensures refusal_value { result.refusal ≡ refusal (tallied_cycle profile (lent_forest forest.now)
        (lent_queues queues.now) stack registers live.entry.tally.now fragment.old live.entry.tracer) }
    ensures tracer_value { result.tracer ≡ tracer_after system stack live.entry.tracer (tallied_cycle profile (lent_forest forest.now)
        (lent_queues queues.now) stack registers live.entry.tally.now fragment.old live.entry.tracer) }
    ensures following_value { result.following ≡ following_of (tallied_cycle profile (lent_forest forest.now)
        (lent_queues queues.now) stack registers live.entry.tally.now fragment.old live.entry.tracer) }
    ensures live_value { live.exit.1.0.now ≡ tally_after profile live.entry.tally.now fragment.old live.entry.tracer.row_write_index
        (tallied_cycle profile (lent_forest forest.now)
        (lent_queues queues.now) stack registers live.entry.tally.now fragment.old live.entry.tracer) }
    ensures fragment_after { fragment.new ≡ fragment_after fragment.old live.entry.tracer
        (tallied_cycle profile (lent_forest forest.now)
        (lent_queues queues.now) stack registers live.entry.tally.now fragment.old live.entry.tracer) }
{
    finalize_clock_cycle(
        forest,
        queues,
        profile,
        system,
        stack,
        registers,
        live.tracer,
        &mut *live.tally,
        fragment,
    )
}
