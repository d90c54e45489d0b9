#![tactic(auto, unfolding(crate::specs::Statements::same))]
// The rule on roles.
ghost use Rattle.std.specs.Prelude.{◌≡◌};
ghost use Rattle.standpoint.specs.Conclusions.{role_transitive};

use crate::statement::Statement;

// Rule 1: What lies within r2 lies within r3, where r2 does.
pub(super) fn role_transitive(p: Statement, q: Statement) -> Option<Statement>
    ensures { result ≡ role_transitive p q }
{
    let (s, r1, r2) = (p.first, p.second, p.third);
    let r3 = q.third;
    if p == Statement::role_inclusion(s, r1, r2) && q == Statement::role_inclusion(s, r2, r3) {
        Some(Statement::role_inclusion(s, r1, r3))
    } else {
        None
    }
}
