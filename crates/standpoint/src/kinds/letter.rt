// Letters: how an archive marks its own labels.
ghost use Rattle.standpoint.specs.Grades.{letter};
ghost use Rattle.std.proofs.Common.{rules};

use crate::kinds::Kind;
use crate::kinds::grades::LetterGrade;

// A is best; a join is the worse letter.
#[derive(Clone, Copy)]
pub struct Letter;

impl Kind for Letter {
    type Grade = LetterGrade;

    ghost algebra = { λ _. letter };

    ghost lawful = { Prim.search rules };

    fn start(&self) -> LetterGrade {
        LetterGrade::A
    }

    fn no_worse(&self, a: LetterGrade, b: LetterGrade) -> bool {
        a <= b
    }

    fn join(&self, a: LetterGrade, b: LetterGrade) -> LetterGrade {
        a.max(b)
    }
}
