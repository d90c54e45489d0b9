// Each list of calls, performed on a new reasoner over memory of its own. The memory is of one type each, since the check has no
// bound for an array of grades of any kind.
ghost use Rattle.std.specs.Prelude.{◌≡◌, List, length};
ghost use Rattle.std.proofs.Common.{lit≤};
ghost use Rattle.standpoint.specs.declared.kinds.grades.LetterGrade.TheVariants.{D};
ghost use Rattle.standpoint.specs.Grades.{tally_grade, odds_grade};
ghost use Rattle.replay.specs.Pasts.{Outcome};
ghost use Rattle.saturation.specs.Rows.{rows_in};
ghost use Rattle.worked.specs.Lists.{bare_outcomes, clash_outcomes, detour_outcomes};
ghost use Rattle.worked.specs.Cases.{ComeTo};

use crate::grades::{odds, tally};
use crate::lists::{bare_calls, clash_calls, detour_calls};
use replay::{Call, Done, replay};
use saturation::Row;
use standpoint::{Kind, Letter, LetterGrade, Odds, OddsGrade, Refusal, Step, Tally, TallyGrade};

// Performs calls that write no steps.
fn perform<K: Kind>(
    kind: &K,
    rows: &mut [Row],
    grades: &mut [K::Grade],
    calls: &[Call<K::Grade>],
    outcomes: &mut [Result<Done<K::Grade>, Refusal>],
)
    ensures { (expected : List (Outcome K.Grade)) → ComeTo (K.Kind.algebra kind.now) (rows_in rows.old grades.old) calls.now expected → length outcomes.old ≡ length calls.now → outcomes.new ≡ expected }
{
    let mut steps: [Step<K::Grade>; 0] = [];
    replay(kind, rows, grades, calls, outcomes, &mut steps);
}

// Over lent memory, since what they come to rests on how many rows there are.
pub(crate) fn bare(
    rows: &mut [Row],
    grades: &mut [TallyGrade],
) -> [Result<Done<TallyGrade>, Refusal>; 3]
    ensures { result ≡ bare_outcomes (rows_in rows.old grades.old) }
{
    let mut outcomes = [Ok(Done::Began); 3];
    perform(&Tally, rows, grades, &bare_calls(), &mut outcomes);
    outcomes
}

pub(crate) fn clash_of_tallies() -> [Result<Done<TallyGrade>, Refusal>; 5]
    ensures { result ≡ clash_outcomes (tally_grade 2 (lit≤ tt)) }
{
    let calls = clash_calls(tally(1), tally(1));
    let mut outcomes = [Ok(Done::Began); 5];
    perform(
        &Tally,
        &mut [Row::EMPTY; 47],
        &mut [tally(0); 47],
        &calls,
        &mut outcomes,
    );
    outcomes
}

pub(crate) fn clash_of_letters() -> [Result<Done<LetterGrade>, Refusal>; 5]
    ensures { result ≡ clash_outcomes D }
{
    let calls = clash_calls(LetterGrade::B, LetterGrade::D);
    let mut outcomes = [Ok(Done::Began); 5];
    perform(
        &Letter,
        &mut [Row::EMPTY; 47],
        &mut [LetterGrade::A; 47],
        &calls,
        &mut outcomes,
    );
    outcomes
}

pub(crate) fn clash_of_odds() -> [Result<Done<OddsGrade>, Refusal>; 5]
    ensures { result ≡ clash_outcomes (odds_grade 180 (lit≤ tt)) }
{
    let calls = clash_calls(odds(200), odds(230));
    let mut outcomes = [Ok(Done::Began); 5];
    perform(
        &Odds,
        &mut [Row::EMPTY; 47],
        &mut [odds(255); 47],
        &calls,
        &mut outcomes,
    );
    outcomes
}

pub(crate) fn detour() -> [Result<Done<TallyGrade>, Refusal>; 6]
    ensures { result ≡ detour_outcomes }
{
    let mut outcomes = [Ok(Done::Began); 6];
    perform(
        &Tally,
        &mut [Row::EMPTY; 106],
        &mut [tally(0); 106],
        &detour_calls(),
        &mut outcomes,
    );
    outcomes
}
