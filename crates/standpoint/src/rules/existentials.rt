#![tactic(auto, unfolding(crate::specs::Statements::same))]
// Rules on roles to something.
ghost use Rattle.std.specs.Prelude.{◌≡◌};
ghost use Rattle.standpoint.specs.Conclusions.{existential_widened, existential_chained, existential_met};

use crate::statement::Statement;

// Rule 14: An r1 to some d is an r2 to some e.
pub(super) fn existential_widened(p: Statement, q: Statement, r: Statement) -> Option<Statement>
    ensures { result ≡ existential_widened p q r }
{
    let (s, c, r1, d) = (p.first, p.second, p.third, p.fourth);
    let (v, e) = (q.first, q.fifth);
    let r2 = r.third;
    if p == Statement::existential_right(s, c, r1, d)
        && q == Statement::nested_inclusion(v, 0, s, d, e)
        && r == Statement::role_inclusion(s, r1, r2)
    {
        Some(Statement::existential_right(s, c, r2, e))
    } else {
        None
    }
}

// Rule 15: An r1 followed by an r2 is an r3.
pub(super) fn existential_chained(p: Statement, q: Statement, r: Statement) -> Option<Statement>
    ensures { result ≡ existential_chained p q r }
{
    let (s, c, r1, d) = (p.first, p.second, p.third, p.fourth);
    let (r2, e) = (q.third, q.fourth);
    let r3 = r.fourth;
    if p == Statement::existential_right(s, c, r1, d)
        && q == Statement::existential_right(s, d, r2, e)
        && r == Statement::role_chain(s, r1, r2, r3)
    {
        Some(Statement::existential_right(s, c, r3, e))
    } else {
        None
    }
}

// Rule 16: What has an r to some d is f.
pub(super) fn existential_met(p: Statement, q: Statement) -> Option<Statement>
    ensures { result ≡ existential_met p q }
{
    let (s, c, r, d) = (p.first, p.second, p.third, p.fourth);
    let f = q.fourth;
    if p == Statement::existential_right(s, c, r, d)
        && q == Statement::existential_left(s, r, d, f)
    {
        Some(Statement::nested_inclusion(0, 0, s, c, f))
    } else {
        None
    }
}
