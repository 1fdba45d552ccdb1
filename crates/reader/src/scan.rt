// Refusals 2 and 11 of a buffer that is read.
ghost use Rattle.std.specs.Prelude.{◌≡◌};
ghost use Rattle.groups.specs.Answer.{refusal};
ghost use Rattle.groups.specs.Refusals.{told};
ghost use Rattle.theory_readings.specs.Answers.{reader_refusal};

use groups::constants::Row;
use groups::refusal::Refusal;
use rows::records::profile::{Profile, is_wrong};

// The first of 2 and 11 that holds; `depths` is how many depth numbers are lent.
#[tactic(auto, unfolding(groups::specs::Answer::first_of, theory_readings::specs::Answers::reader_refusal, rows::specs::records::Buffers::buffer_wrong))]
pub(crate) fn refusal(profile: Profile, cells: &[u64], depths: usize) -> Result<(), Refusal>
    ensures { refusal (told result) ≡ reader_refusal profile cells.now depths }
{
    if is_wrong(profile) {
        return Err(Refusal::BadProfile);
    }
    let rows = cells.len() / Row::WIDTH;
    if ((0 < cells.len() % Row::WIDTH) | (Row::MOST < rows)) | (depths < rows) {
        return Err(Refusal::BadLength);
    }
    Ok(())
}
