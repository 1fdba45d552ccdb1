// The block that a row belongs to, by the numbers of an index, whoever made them.
ghost use Rattle.std.specs.Prelude.{◌≡◌};
ghost use Rattle.theory_indexes.specs.Enclosing.{enclosing};
ghost use Rattle.index.specs.Lookups.{told_enclosing};

use groups::refusal::Refusal;

// The place, from 0, of the last block whose start and END rows enclose the row, both included; 11 where the numbers are no multiple of three.
pub fn enclosing_block(index: &[u32], row: usize) -> Result<Option<usize>, Refusal>
    ensures { told_enclosing result ≡ enclosing index.now row }
{
    if index.len() % 3 != 0 {
        return Err(Refusal::BadLength);
    }
    for place in (0..index.len() / 3).rev() {
        let start = index[3 * place] as usize;
        let end = index[3 * place + 1] as usize;
        if (start <= row) & (row <= end) {
            return Ok(Some(place));
        }
    }
    Ok(None)
}
