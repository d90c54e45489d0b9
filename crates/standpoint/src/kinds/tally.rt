// Tallies: how many doubts a statement rests on.
ghost use Rattle.std.specs.Prelude.{◌≡◌, ◌+◌, min};
ghost use Rattle.standpoint.specs.Grades.{tally};
ghost use Rattle.standpoint.specs.GradeLaws.{tally_laws};

use crate::kinds::Kind;
use crate::kinds::grades::TallyGrade;

// Smaller is better; a join is the sum, held at the largest number.
#[derive(Clone, Copy)]
pub struct Tally;

impl Kind for Tally {
    type Grade = TallyGrade;

    ghost algebra = { λ _. tally };

    ghost lawful = { λ k. tally_laws };

    fn start(&self) -> TallyGrade {
        TallyGrade { value: 0 }
    }

    fn no_worse(&self, a: TallyGrade, b: TallyGrade) -> bool {
        a <= b
    }

    fn join(&self, a: TallyGrade, b: TallyGrade) -> TallyGrade {
        TallyGrade {
            value: a.value.saturating_add(b.value),
        }
    }
}
