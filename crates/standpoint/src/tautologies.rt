#![tactic(auto, unfolding(crate::specs::Statements::same))]
// What holds whatever is accepted.
ghost use Rattle.std.specs.Prelude.{◌≡◌};
ghost use Rattle.std.specs.List.{slice_get};
ghost use Rattle.standpoint.specs.Lists.{Tells};
ghost use Rattle.standpoint.specs.Rules.{Tautology};
ghost use Rattle.standpoint.specs.Tautologies.{ListsTautologies, on_concepts, on_roles, on_standpoints, tautologies};

use crate::sizes::Sizes;
use crate::statement::Statement;

// Whether a statement is a tautology.
pub(crate) fn is_tautology(sizes: &Sizes, x: Statement) -> bool
    ensures { Tells result (Tautology sizes.now x) }
{
    on_standpoints(sizes, x) || on_concepts(sizes, x) || on_roles(sizes, x)
}

fn on_standpoints(sizes: &Sizes, x: Statement) -> bool
    ensures { result ≡ on_standpoints sizes.now x }
{
    let s = x.first;
    s < sizes.standpoints && (x == Statement::sharper(s, 0) || x == Statement::sharper(s, s))
}

fn on_concepts(sizes: &Sizes, x: Statement) -> bool
    ensures { result ≡ on_concepts sizes.now x }
{
    let c = x.fourth;
    c < sizes.concepts
        && (x == Statement::nested_inclusion(0, 0, 0, c, c)
            || x == Statement::nested_inclusion(0, 0, 0, c, 0))
}

fn on_roles(sizes: &Sizes, x: Statement) -> bool
    ensures { result ≡ on_roles sizes.now x }
{
    let r = x.second;
    r < sizes.roles && x == Statement::role_inclusion(0, r, r)
}

// How many tautologies there are.
pub fn tautology_count(sizes: &Sizes) -> usize
    ensures { ListsTautologies sizes.now result }
{
    let standpoints = usize::from(sizes.standpoints);
    let concepts = usize::from(sizes.concepts);
    let roles = usize::from(sizes.roles);
    standpoints + standpoints.saturating_sub(1) + concepts + concepts.saturating_sub(1) + roles
}

// The k-th tautology, counted from 0.
pub fn tautology(sizes: &Sizes, k: usize) -> Option<Statement>
    ensures { result ≡ slice_get (tautologies sizes.now) k }
{
    let standpoints = usize::from(sizes.standpoints);
    let concepts = usize::from(sizes.concepts);
    if k < standpoints {
        return Some(Statement::sharper(k as u16, 0));
    }
    let k = k - standpoints;
    if k < standpoints.saturating_sub(1) {
        let s = k as u16 + 1;
        return Some(Statement::sharper(s, s));
    }
    let k = k - standpoints.saturating_sub(1);
    if k < concepts {
        let c = k as u16;
        return Some(Statement::nested_inclusion(0, 0, 0, c, c));
    }
    let k = k - concepts;
    if k < concepts.saturating_sub(1) {
        return Some(Statement::nested_inclusion(0, 0, 0, k as u16 + 1, 0));
    }
    let k = k - concepts.saturating_sub(1);
    if k < usize::from(sizes.roles) {
        let r = k as u16;
        return Some(Statement::role_inclusion(0, r, r));
    }
    None
}
