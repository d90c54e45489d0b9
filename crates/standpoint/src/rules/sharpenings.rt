#![tactic(auto, unfolding(crate::specs::Statements::same))]
// Rules on sharper standpoints.
ghost use Rattle.std.specs.Prelude.{◌≡◌};
ghost use Rattle.standpoint.specs.Conclusions.{sharper_transitive, sharper_than_both, lowered, lowered_inside};

use crate::shape::{NESTED_INCLUSION, ROLE_CHAIN};
use crate::statement::Statement;

// Rule 2: What is sharper than t is sharper than u, where t is.
pub(super) fn sharper_transitive(p: Statement, q: Statement) -> Option<Statement>
    ensures { result ≡ sharper_transitive p q }
{
    let (s, t) = (p.first, p.second);
    let u = q.second;
    if p == Statement::sharper(s, t) && q == Statement::sharper(t, u) {
        Some(Statement::sharper(s, u))
    } else {
        None
    }
}

// Rule 3: What is sharper than both is sharper than what both together are sharper than.
pub(super) fn sharper_than_both(p: Statement, q: Statement, r: Statement) -> Option<Statement>
    ensures { result ≡ sharper_than_both p q r }
{
    let (s, s1) = (p.first, p.second);
    let s2 = q.second;
    let u = r.third;
    if p == Statement::sharper(s, s1)
        && q == Statement::sharper(s, s2)
        && r == Statement::intersection_sharper(s1, s2, u)
    {
        Some(Statement::sharper(s, u))
    } else {
        None
    }
}

// Rule 4: What is said in u holds in a sharper s.
pub(super) fn lowered(x: Statement, q: Statement) -> Option<Statement>
    ensures { result ≡ lowered x q }
{
    let s = q.first;
    if (NESTED_INCLUSION..=ROLE_CHAIN).contains(&x.shape) && q == Statement::sharper(s, x.first) {
        Some(Statement { first: s, ..x })
    } else {
        None
    }
}

// Rule 5: What holds throughout u holds throughout a sharper s.
pub(super) fn lowered_inside(p: Statement, q: Statement) -> Option<Statement>
    ensures { result ≡ lowered_inside p q }
{
    let (t, c, u, d, e) = (p.first, p.second, p.third, p.fourth, p.fifth);
    let s = q.first;
    if p == Statement::nested_inclusion(t, c, u, d, e) && q == Statement::sharper(s, u) {
        Some(Statement::nested_inclusion(t, c, s, d, e))
    } else {
        None
    }
}
