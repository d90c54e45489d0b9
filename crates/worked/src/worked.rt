// The worked cases together.
ghost use Rattle.std.specs.Prelude.{◌≡◌};
ghost use Rattle.std.proofs.Common.{lit≤};
ghost use Rattle.standpoint.specs.declared.kinds.grades.LetterGrade.TheVariants.{D};
ghost use Rattle.standpoint.specs.Grades.{tally_grade, odds_grade};
ghost use Rattle.worked.specs.Bases.{WorkedRuns};
ghost use Rattle.worked.specs.Cases.{WorkedCases, joins};
ghost use Rattle.worked.specs.Lists.{bare_outcomes, clash_outcomes, detour_outcomes};

use crate::calls::{bare, clash_of_letters, clash_of_odds, clash_of_tallies, detour};
use crate::grades::tally;
use crate::joins::{Joins, joined};
use replay::Done;
use saturation::Row;
use standpoint::{Kind, LetterGrade, OddsGrade, Refusal, TallyGrade};

// What the calls of the worked cases came to.
#[derive(Drop)]
pub struct Worked {
    // Nothing accepted, on so many rows.
    pub on_three: [Result<Done<TallyGrade>, Refusal>; 3],
    pub on_four: [Result<Done<TallyGrade>, Refusal>; 3],
    pub on_five: [Result<Done<TallyGrade>, Refusal>; 3],
    pub on_six: [Result<Done<TallyGrade>, Refusal>; 3],
    pub on_seven: [Result<Done<TallyGrade>, Refusal>; 3],
    // An individual is throughout what nothing is.
    pub tallies: [Result<Done<TallyGrade>, Refusal>; 5],
    pub letters: [Result<Done<LetterGrade>, Refusal>; 5],
    pub odds: [Result<Done<OddsGrade>, Refusal>; 5],
    // A derivation is better than the accepted grade.
    pub detour: [Result<Done<TallyGrade>, Refusal>; 6],
    pub joins: Joins,
}

// Performs the worked cases. The theorem says what such calls come to on every memory that is large enough, and, where nothing
// is accepted, on memory of any size and for this kind.
pub fn worked_cases<K: Kind>(kind: &K) -> Worked
    ensures cases { WorkedCases (K.Kind.algebra kind.now) }
    ensures runs { WorkedRuns }
    ensures on_three { result.on_three ≡ bare_outcomes 3 }
    ensures on_four { result.on_four ≡ bare_outcomes 4 }
    ensures on_five { result.on_five ≡ bare_outcomes 5 }
    ensures on_six { result.on_six ≡ bare_outcomes 6 }
    ensures on_seven { result.on_seven ≡ bare_outcomes 7 }
    ensures tallies { result.tallies ≡ clash_outcomes (tally_grade 2 (lit≤ tt)) }
    ensures letters { result.letters ≡ clash_outcomes D }
    ensures odds { result.odds ≡ clash_outcomes (odds_grade 180 (lit≤ tt)) }
    ensures detour { result.detour ≡ detour_outcomes }
    ensures joins { result.joins ≡ joins }
{
    Worked {
        on_three: bare(&mut [Row::EMPTY; 3], &mut [tally(0); 3]),
        on_four: bare(&mut [Row::EMPTY; 4], &mut [tally(0); 4]),
        on_five: bare(&mut [Row::EMPTY; 5], &mut [tally(0); 5]),
        on_six: bare(&mut [Row::EMPTY; 6], &mut [tally(0); 6]),
        on_seven: bare(&mut [Row::EMPTY; 7], &mut [tally(0); 7]),
        tallies: clash_of_tallies(),
        letters: clash_of_letters(),
        odds: clash_of_odds(),
        detour: detour(),
        joins: joined(),
    }
}
