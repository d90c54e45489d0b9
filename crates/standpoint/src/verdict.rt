// The check of a step list, for whoever is handed a verdict.
ghost use Rattle.standpoint.specs.Verdicts.{Checked, ContradictionExcludes, DerivedListed, ListDerives, ListMet, NothingContradicts, OneAnswer, base_of};

use crate::kinds::Kind;
use crate::refusal::Refusal;
use crate::sizes::Sizes;
use crate::statement::Statement;
use crate::step::Step;
use basis::Basis;

mod basis;
mod equality;
mod grounds;

// The last grade of a list whose steps are all right. Refuses sizes out of range, then an empty list, then the first
// wrong step.
pub fn check<K: Kind>(
    kind: &K,
    sizes: Sizes,
    accepted: &[(Statement, K::Grade)],
    steps: &[Step<K::Grade>],
) -> Result<K::Grade, Refusal>
    ensures answer { Checked (K.Kind.algebra kind.now) (base_of sizes accepted.now) steps.now result }
    ensures determined { OneAnswer (K.Kind.algebra kind.now) }
    ensures derives { ListDerives (K.Kind.algebra kind.now) }
    ensures listed { DerivedListed (K.Kind.algebra kind.now) }
    ensures met { ListMet (K.Kind.algebra kind.now) }
    ensures excludes { ContradictionExcludes (K.Kind.algebra kind.now) }
    ensures consistent { NothingContradicts (K.Kind.algebra kind.now) }
{
    judge(kind, sizes, accepted, steps)
}

// The check itself; the clauses of `check` say what its answer means.
fn judge<K: Kind>(
    kind: &K,
    sizes: Sizes,
    accepted: &[(Statement, K::Grade)],
    steps: &[Step<K::Grade>],
) -> Result<K::Grade, Refusal>
    ensures { Checked (K.Kind.algebra kind.now) (base_of sizes accepted.now) steps.now result }
{
    sizes.check()?;
    let basis = Basis {
        kind,
        sizes,
        accepted,
    };
    for (n, step) in steps.iter().enumerate() {
        if !basis.right(&steps[..n], *step) {
            return Err(Refusal::WrongStep(n + 1));
        }
    }
    match steps.last() {
        Some(last) => Ok(last.grade),
        None => Err(Refusal::NoSteps),
    }
}
