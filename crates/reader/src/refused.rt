// Why a buffer is no trace, and where.
ghost use Rattle.std.specs.Prelude.{◌≡◌};
ghost use Rattle.groups.specs.declared.refusal.Refusal.{Refusal};
ghost use Rattle.reader.specs.Reads.{refused_for};

use groups::refusal::Refusal;

// The refusal, and its row; the row is 0 where the refusal is of no row.
#[derive(Clone, Copy, Debug, PartialEq, Eq)]
pub struct TraceRefused {
    pub refusal: Refusal,
    pub row: usize,
}

impl From<Refusal> for TraceRefused {
    ghost from_gives = { λ refusal refused. refused ≡ refused_for refusal 0 };

    fn from(refusal: Refusal) -> TraceRefused {
        TraceRefused { refusal, row: 0 }
    }
}

impl TraceRefused {
    // A row that fits no word of the grammar.
    pub(crate) fn no_word(row: usize) -> Self
        ensures { result ≡ refused_for Refusal.NoWordOfGrammar row }
    {
        Self {
            refusal: Refusal::NoWordOfGrammar,
            row,
        }
    }
}
