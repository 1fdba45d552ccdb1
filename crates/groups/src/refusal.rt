// What a call refuses. `specs/Refusals.antt` has the documents' number of each, and their words.
ghost use Rattle.std.specs.Prelude.{◌≡◌};
ghost use Rattle.groups.specs.Answer.{refusal};
ghost use Rattle.groups.specs.Refusals.{number_of, told};

#[derive(Clone, Copy, Debug, PartialEq, Eq)]
pub enum Refusal {
    BigOpcode,
    BadProfile,
    NoSuchNode,
    WrongNodeKind,
    NoSuchBatch,
    NoSuchOperation,
    BadGroupCount,
    OverTotal,
    BigHelperValue,
    LowDepth,
    BadLength,
    NoWordOfGrammar,
    WrongFlagOrCount,
    NoBodyEnd,
    Block65Deep,
    AddressQueueEmpty,
    ParentQueueEmpty,
    EndQueueEmpty,
    StoredAbsent,
    NoRowLeft,
    FragmentNotFull,
    NoFragments,
    ShortIndex,
    ShortText,
    NoDump,
    SyscallStart,
    TallyFull,
}

// The documents' number of a refusal; 30, 33 and 34 are those of change requests to come.
impl From<Refusal> for u32 {
    ghost from_gives = { λ refusal number. number ≡ number_of refusal };

    fn from(refusal: Refusal) -> u32 {
        match refusal {
            Refusal::BigOpcode => 1,
            Refusal::BadProfile => 2,
            Refusal::NoSuchNode => 3,
            Refusal::WrongNodeKind => 4,
            Refusal::NoSuchBatch => 5,
            Refusal::NoSuchOperation => 6,
            Refusal::BadGroupCount => 7,
            Refusal::OverTotal => 8,
            Refusal::BigHelperValue => 9,
            Refusal::LowDepth => 10,
            Refusal::BadLength => 11,
            Refusal::NoWordOfGrammar => 12,
            Refusal::WrongFlagOrCount => 13,
            Refusal::NoBodyEnd => 14,
            Refusal::Block65Deep => 15,
            Refusal::AddressQueueEmpty => 20,
            Refusal::ParentQueueEmpty => 21,
            Refusal::EndQueueEmpty => 22,
            Refusal::StoredAbsent => 23,
            Refusal::NoRowLeft => 24,
            Refusal::FragmentNotFull => 25,
            Refusal::NoFragments => 26,
            Refusal::ShortIndex => 27,
            Refusal::ShortText => 28,
            Refusal::NoDump => 29,
            Refusal::SyscallStart => 31,
            Refusal::TallyFull => 32,
        }
    }
}

// The number that a call answers: 0 where it is accepted.
pub fn answered_number<T: Drop>(answer: Result<T, Refusal>) -> u32
    ensures { result ≡ refusal (told answer) }
{
    match answer {
        Ok(_) => 0,
        Err(refusal) => u32::from(refusal),
    }
}
