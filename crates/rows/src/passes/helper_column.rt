// The third finishing pass: each helper cell becomes its inverse, 0 staying 0.
ghost use Rattle.std.specs.Prelude.{◌≡◌, ◌*◌, ◌≤◌, length};
ghost use Rattle.groups.specs.Answer.{refusal};
ghost use Rattle.groups.specs.Constants.{row_width};
ghost use Rattle.groups.specs.Refusals.{told};
ghost use Rattle.rows.specs.records.Buffers.{on_rows};
ghost use Rattle.rows.specs.passes.Passes.{inverted, refusal3, unless_refused};

use crate::records::buffer::{buffer_wrong, fewer_rows};
use field::inverse::invert_column;
use groups::constants::{Column, Row};
use groups::refusal::Refusal;

// What the pass refuses.
#[tactic(auto, unfolding(crate::specs::passes::Passes::refusal3, groups::specs::Answer::first_of))]
fn check_helpers(buffer: &[u64], rows: usize) -> Result<(), Refusal>
    ensures { refusal (told result) ≡ refusal3 buffer.now rows }
{
    if buffer_wrong(buffer.len()) | fewer_rows(buffer.len(), rows) {
        return Err(Refusal::BadLength);
    }
    Ok(())
}

// The pass where nothing is refused.
pub(crate) fn invert_helpers(buffer: &mut [u64], rows: usize)
    requires { row_width * rows ≤ length buffer.old }
    ensures { buffer.new ≡ on_rows rows inverted buffer.old }
{
    invert_column(buffer, rows, Row::WIDTH, Column::HELPER);
}

// Inverts the helper cells of the first `rows` rows, or refuses and changes nothing.
#[tactic(auto, using(crate::proofs::passes::Refusals::fits3))]
pub fn invert_helper_column(buffer: &mut [u64], rows: usize) -> Result<(), Refusal>
    ensures value { refusal (told result) ≡ refusal3 buffer.old rows }
    ensures buffer_after { buffer.new ≡ unless_refused (refusal3 buffer.old rows) buffer.old
        (on_rows rows inverted buffer.old) }
{
    check_helpers(buffer, rows)?;
    invert_helpers(buffer, rows);
    Ok(())
}
