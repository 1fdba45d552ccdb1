// Batch flags.
ghost use Rattle.std.specs.Prelude.{◌≡◌};
ghost use Rattle.groups.specs.Constants.{bad_group_count};
ghost use Rattle.groups.specs.Flags.{batch_flags};
ghost use Rattle.groups.specs.Refusals.{told_or};

use field::felt::Felt;

// The three flag cells of a SPAN or RESPAN row.
#[derive(Clone, Copy)]
pub struct BatchFlags(pub u64, pub u64, pub u64);

// The flags by the group count capped at 8. None, refused with 7: there are none for this count.
#[tactic(auto, unfolding(crate::specs::Flags::batch_flags, crate::specs::Flags::flags_up_to8))]
pub fn get_op_batch_flags(count: u64) -> Option<BatchFlags>
    ensures { told_or bad_group_count result ≡ batch_flags count }
{
    match count {
        8.. => Some(BatchFlags(Felt::ONE, Felt::ZERO, Felt::ZERO)),
        4 => Some(BatchFlags(Felt::ZERO, Felt::ONE, Felt::ZERO)),
        2 => Some(BatchFlags(Felt::ZERO, Felt::ZERO, Felt::ONE)),
        1 => Some(BatchFlags(Felt::ZERO, Felt::ONE, Felt::ONE)),
        _ => None,
    }
}
