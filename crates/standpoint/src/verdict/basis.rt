// What a list of steps is checked against.
ghost use Rattle.std.specs.Prelude.{◌≡◌, length};
ghost use Rattle.standpoint.specs.Checking.{Bare};
ghost use Rattle.standpoint.specs.Lists.{In, Tells};
ghost use Rattle.standpoint.specs.Rules.{Tautology};
ghost use Rattle.standpoint.specs.Steps.{Agrees, Right, given};
ghost use Rattle.standpoint.specs.Verdicts.{base_of};

use crate::kinds::Kind;
use crate::sizes::Sizes;
use crate::statement::Statement;
use crate::step::{ACCEPTED, Step, TAUTOLOGY};
use crate::tautologies::is_tautology;
use crate::verdict::equality::{equal, same};
use crate::verdict::grounds::follows;

// A kind of grade, the sizes, and the accepted statements with their grades.
#[derive(Drop)]
pub(super) struct Basis<'a, K: Kind> {
    pub kind: &'a K,
    pub sizes: Sizes,
    pub accepted: &'a [(Statement, K::Grade)],
}

impl<'a, K: Kind> Basis<'a, K> {
    // Whether the step is right behind the earlier ones.
    pub(super) fn right(&self, earlier: &[Step<K::Grade>], step: Step<K::Grade>) -> bool
        ensures { Tells result (Right (K.Kind.algebra self.now.kind.now) (base_of self.now.sizes self.now.accepted.now) earlier.now (length earlier.now) step) }
    {
        step.statement.fits(&self.sizes) && self.agrees(earlier, step)
    }

    // Whether rule, premises, statement and grade of the step agree.
    fn agrees(&self, earlier: &[Step<K::Grade>], step: Step<K::Grade>) -> bool
        ensures { Tells result (Agrees (K.Kind.algebra self.now.kind.now) (base_of self.now.sizes self.now.accepted.now) earlier.now (length earlier.now) step) }
    {
        match step.rule {
            ACCEPTED => self.by_acceptance(step),
            TAUTOLOGY => self.by_tautology(step),
            _ => follows(self.kind, self.sizes.individuals, earlier, step),
        }
    }

    // Whether the step only repeats what was accepted.
    fn by_acceptance(&self, step: Step<K::Grade>) -> bool
        ensures { Tells result (Bare step × In self.now.accepted.now (given step)) }
    {
        bare(step) && among(self.kind, self.accepted, step.statement, step.grade)
    }

    // Whether the step only states a tautology, at the start grade.
    fn by_tautology(&self, step: Step<K::Grade>) -> bool
        ensures { Tells result (Bare step × Tautology self.now.sizes step.statement × (step.grade ≡ (K.Kind.algebra self.now.kind.now).start)) }
    {
        bare(step)
            && is_tautology(&self.sizes, step.statement)
            && equal(self.kind, step.grade, self.kind.start())
    }
}

// Whether the step names no premises.
fn bare<G: Clone + Copy + Drop>(step: Step<G>) -> bool
    ensures { Tells result (Bare step) }
{
    step.first == 0 && step.second == 0 && step.third == 0
}

// Whether the statement was accepted at this grade.
fn among<K: Kind>(
    kind: &K,
    accepted: &[(Statement, K::Grade)],
    statement: Statement,
    grade: K::Grade,
) -> bool
    ensures { Tells result (In accepted.now (statement, grade)) }
{
    for (x, g) in accepted {
        if same(kind, *x, *g, statement, grade) {
            return true;
        }
    }
    false
}
