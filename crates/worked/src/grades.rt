// Grades by their numbers.
ghost use Rattle.std.specs.Prelude.{◌≡◌, ◌≤◌};
ghost use Rattle.standpoint.specs.Grades.{tally_grade, odds_grade};

use standpoint::{OddsGrade, TallyGrade};

pub(crate) fn tally(value: u32) -> TallyGrade
    ensures value { result.value ≡ value }
    ensures grade { (h : value ≤ 4294967295) → result ≡ tally_grade value h }
{
    TallyGrade { value }
}

pub(crate) fn odds(value: u8) -> OddsGrade
    ensures value { result.value ≡ value }
    ensures grade { (h : value ≤ 255) → result ≡ odds_grade value h }
{
    OddsGrade { value }
}
