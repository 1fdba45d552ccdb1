// Four cells that stand together.
ghost use Rattle.std.specs.Prelude.{◌≡◌};
ghost use Rattle.groups.specs.Words.{word_at, read_word};

use field::cell::cell;
use field::felt::reduce;

#[derive(Clone, Copy)]
pub struct Word(pub u64, pub u64, pub u64, pub u64);

// The four cells from cell `at` on, each read modulo p, 0 past the end of the slice.
#[tactic(auto, using(field::proofs::CellLaws::cell_past), unfolding(crate::specs::Words::word_at))]
pub fn word_at(cells: &[u64], at: usize) -> Word
    ensures { result ≡ word_at cells.now at }
{
    if cells.len() <= at {
        return Word(0, 0, 0, 0);
    }
    Word(
        cell(cells, at),
        cell(cells, at + 1),
        cell(cells, at + 2),
        cell(cells, at + 3),
    )
}

// The word with each number read modulo p.
pub fn read_word(word: Word) -> Word
    ensures { result ≡ read_word word }
{
    Word(
        reduce(word.0),
        reduce(word.1),
        reduce(word.2),
        reduce(word.3),
    )
}

// An element of the quadratic extension, by its two coefficients.
#[derive(Clone, Copy)]
pub struct QuadFelt(pub u64, pub u64);
