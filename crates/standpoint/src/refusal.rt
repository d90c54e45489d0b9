// Why a call refuses.
ghost use Rattle.std.specs.Prelude.{◌≡◌};
ghost use Rattle.standpoint.specs.Refusals.{number_of};

// Every refusal of every call. It leaves all as it was, but where a load stops at a record: those before it remain accepted.
#[derive(Clone, Copy)]
pub enum Refusal {
    // No begin was performed yet.
    NotBegun,
    // The sizes are outside their ranges.
    SizesOutOfRange,
    // There are fewer rows than tautologies.
    TooFewRows,
    // The statement has no such shape, a number past its size, or an unused number that is not 0.
    DoesNotFit,
    // The statement names an individual where none may be accepted.
    MisplacedIndividual,
    // The base is sealed by an earlier settle.
    Sealed,
    // The statement is new, and all rows are taken.
    RowsTaken,
    // The statement is not settled.
    Unsettled,
    // The buffer is too short.
    BufferTooShort,
    // The step at this place, counted from 1, is the first that is wrong.
    WrongStep(usize),
    // The step list is empty.
    NoSteps,
    // The file is not 1 to 128 whole blocks.
    FileLength,
    // The sum of a block differs.
    SumDiffers,
    // The mark, kind byte, number, count or an unused byte of a block is wrong.
    BlockLayout,
    // The code of a record is no grade.
    NoGrade,
    // A kept step rests on one that was not settled earlier.
    RestsOnLater,
}

impl Refusal {
    // The number by which the refusal is known. A match, since one case carries a place.
    pub fn number(self) -> u8
        ensures { result ≡ number_of self }
    {
        match self {
            Refusal::NotBegun => 1,
            Refusal::SizesOutOfRange => 2,
            Refusal::TooFewRows => 3,
            Refusal::DoesNotFit => 4,
            Refusal::MisplacedIndividual => 5,
            Refusal::Sealed => 6,
            Refusal::RowsTaken => 7,
            Refusal::Unsettled => 8,
            Refusal::BufferTooShort => 9,
            Refusal::WrongStep(_) => 10,
            Refusal::NoSteps => 11,
            Refusal::FileLength => 12,
            Refusal::SumDiffers => 13,
            Refusal::BlockLayout => 14,
            Refusal::NoGrade => 15,
            Refusal::RestsOnLater => 16,
        }
    }
}
