// The grades of the kinds at hand: types of their own, and not one number type with a bound, since a tally is no odds.
ghost use Rattle.std.specs.Prelude.{◌≤◌};

// A tally, 0 to 4,294,967,295.
#[derive(Clone, Copy, PartialEq, Eq, PartialOrd, Ord)]
pub struct TallyGrade {
    pub value: u32,
    ghost within: { value ≤ 4294967295 },
}

// A letter; A is best.
#[derive(Clone, Copy, PartialEq, Eq, PartialOrd, Ord)]
pub enum LetterGrade {
    A,
    B,
    C,
    D,
    E,
}

// Odds, 0 to 255.
#[derive(Clone, Copy, PartialEq, Eq, PartialOrd, Ord)]
pub struct OddsGrade {
    pub value: u8,
    ghost within: { value ≤ 255 },
}
