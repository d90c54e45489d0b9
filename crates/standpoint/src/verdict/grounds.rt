// The grounds of a step: the premises that it names, and what follows from them.
ghost use Rattle.std.specs.Prelude.{length};
ghost use Rattle.standpoint.specs.Checking.{Follows, Gathered, Read};
ghost use Rattle.standpoint.specs.Lists.{Tells};

use crate::kinds::Kind;
use crate::premises::Premises;
use crate::rules::conclude;
use crate::step::Step;
use crate::verdict::equality::same;

// The premises of a step, and their grades joined from the left.
#[derive(Clone, Copy)]
struct Grounds<G: Clone + Copy + Drop> {
    premises: Premises,
    grade: G,
}

// Whether the step's rule gives its statement and its grade from the premises that it names.
pub(super) fn follows<K: Kind>(
    kind: &K,
    individuals: u16,
    earlier: &[Step<K::Grade>],
    step: Step<K::Grade>,
) -> bool
    ensures { Tells result (Follows (K.Kind.algebra kind.now) individuals earlier.now (length earlier.now) step) }
{
    let Some(grounds) = gather(kind, earlier, step) else {
        return false;
    };
    let Some(conclusion) = conclude(individuals, step.rule, grounds.premises) else {
        return false;
    };
    same(kind, conclusion, grounds.grade, step.statement, step.grade)
}

// The grounds that the step names among the earlier ones.
fn gather<K: Kind>(
    kind: &K,
    earlier: &[Step<K::Grade>],
    step: Step<K::Grade>,
) -> Option<Grounds<K::Grade>>
    ensures { Gathered (K.Kind.algebra kind.now) earlier.now (length earlier.now) step result }
{
    let p = read(earlier, step.first)?;
    if step.second == 0 && step.third == 0 {
        let premises = Premises::One(p.statement);
        return Some(Grounds {
            premises,
            grade: p.grade,
        });
    }
    let q = read(earlier, step.second)?;
    let grade = kind.join(p.grade, q.grade);
    if step.third == 0 {
        let premises = Premises::Two(p.statement, q.statement);
        return Some(Grounds { premises, grade });
    }
    let r = read(earlier, step.third)?;
    let premises = Premises::Three(p.statement, q.statement, r.statement);
    Some(Grounds {
        premises,
        grade: kind.join(grade, r.grade),
    })
}

// The step at a place, counted from 1, among the earlier ones.
fn read<G: Clone + Copy + Drop>(earlier: &[Step<G>], place: usize) -> Option<Step<G>>
    ensures { Read earlier.now (length earlier.now) place result }
{
    earlier.get(place.checked_sub(1)?).copied()
}
