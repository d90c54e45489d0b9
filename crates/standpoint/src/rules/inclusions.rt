#![tactic(auto, unfolding(crate::specs::Statements::same))]
// Rules on what concepts lie within.
ghost use Rattle.std.specs.Prelude.{◌≡◌};
ghost use Rattle.standpoint.specs.Conclusions.{inside_transitive, subsumed_nested, subsumed_possible, possible_widened, necessary_then_nested, necessary_then_possible, possible_then_nested, possible_then_possible, conjunction_met, necessary_here, of_all_things};

use crate::statement::Statement;

// Rule 6: Inside, each c is d, and each d is e.
pub(super) fn inside_transitive(p: Statement, q: Statement) -> Option<Statement>
    ensures { result ≡ inside_transitive p q }
{
    let (t, b, s, c, d) = (p.first, p.second, p.third, p.fourth, p.fifth);
    let e = q.fifth;
    if p == Statement::nested_inclusion(t, b, s, c, d)
        && q == Statement::nested_inclusion(t, b, s, d, e)
    {
        Some(Statement::nested_inclusion(t, b, s, c, e))
    } else {
        None
    }
}

// Rule 7: Each b of t is c, and so has what each c has.
pub(super) fn subsumed_nested(p: Statement, q: Statement) -> Option<Statement>
    ensures { result ≡ subsumed_nested p q }
{
    let (v, t, b, c) = (p.first, p.third, p.fourth, p.fifth);
    let (s, d, e) = (q.third, q.fourth, q.fifth);
    if p == Statement::nested_inclusion(v, 0, t, b, c)
        && q == Statement::nested_inclusion(t, c, s, d, e)
    {
        Some(Statement::nested_inclusion(t, b, s, d, e))
    } else {
        None
    }
}

// Rule 8: Each c of t is d, and so is somewhere what each d is somewhere.
pub(super) fn subsumed_possible(p: Statement, q: Statement) -> Option<Statement>
    ensures { result ≡ subsumed_possible p q }
{
    let (v, t, c, d) = (p.first, p.third, p.fourth, p.fifth);
    let (s, e) = (q.third, q.fourth);
    if p == Statement::nested_inclusion(v, 0, t, c, d)
        && q == Statement::possible_inclusion(t, d, s, e)
    {
        Some(Statement::possible_inclusion(t, c, s, e))
    } else {
        None
    }
}

// Rule 9: What is d somewhere in s is e there.
pub(super) fn possible_widened(p: Statement, q: Statement) -> Option<Statement>
    ensures { result ≡ possible_widened p q }
{
    let (t, c, s, d) = (p.first, p.second, p.third, p.fourth);
    let e = q.fifth;
    if p == Statement::possible_inclusion(t, c, s, d)
        && q == Statement::nested_inclusion(t, c, s, d, e)
    {
        Some(Statement::possible_inclusion(t, c, s, e))
    } else {
        None
    }
}

// Rule 10: What is d throughout u has what each d of u has.
pub(super) fn necessary_then_nested(p: Statement, q: Statement) -> Option<Statement>
    ensures { result ≡ necessary_then_nested p q }
{
    let (t, c, u, d) = (p.first, p.second, p.third, p.fifth);
    let (s, e, f) = (q.third, q.fourth, q.fifth);
    if p == Statement::nested_inclusion(t, c, u, 0, d)
        && q == Statement::nested_inclusion(u, d, s, e, f)
    {
        Some(Statement::nested_inclusion(t, c, s, e, f))
    } else {
        None
    }
}

// Rule 11: What is d throughout u is somewhere what each d of u is somewhere.
pub(super) fn necessary_then_possible(p: Statement, q: Statement) -> Option<Statement>
    ensures { result ≡ necessary_then_possible p q }
{
    let (t, c, u, d) = (p.first, p.second, p.third, p.fifth);
    let (s, e) = (q.third, q.fourth);
    if p == Statement::nested_inclusion(t, c, u, 0, d)
        && q == Statement::possible_inclusion(u, d, s, e)
    {
        Some(Statement::possible_inclusion(t, c, s, e))
    } else {
        None
    }
}

// Rule 12: What is d somewhere in u has what each d of u has.
pub(super) fn possible_then_nested(p: Statement, q: Statement) -> Option<Statement>
    ensures { result ≡ possible_then_nested p q }
{
    let (t, c, u, d) = (p.first, p.second, p.third, p.fourth);
    let (s, e, f) = (q.third, q.fourth, q.fifth);
    if p == Statement::possible_inclusion(t, c, u, d)
        && q == Statement::nested_inclusion(u, d, s, e, f)
    {
        Some(Statement::nested_inclusion(t, c, s, e, f))
    } else {
        None
    }
}

// Rule 13: What is d somewhere in u is somewhere what each d of u is somewhere.
pub(super) fn possible_then_possible(p: Statement, q: Statement) -> Option<Statement>
    ensures { result ≡ possible_then_possible p q }
{
    let (t, c, u, d) = (p.first, p.second, p.third, p.fourth);
    let (s, e) = (q.third, q.fourth);
    if p == Statement::possible_inclusion(t, c, u, d)
        && q == Statement::possible_inclusion(u, d, s, e)
    {
        Some(Statement::possible_inclusion(t, c, s, e))
    } else {
        None
    }
}

// Rule 17: What is c1 and c2 is d.
pub(super) fn conjunction_met(p: Statement, q: Statement, r: Statement) -> Option<Statement>
    ensures { result ≡ conjunction_met p q r }
{
    let (t, b, s, c, c1) = (p.first, p.second, p.third, p.fourth, p.fifth);
    let c2 = q.fifth;
    let d = r.fourth;
    if p == Statement::nested_inclusion(t, b, s, c, c1)
        && q == Statement::nested_inclusion(t, b, s, c, c2)
        && r == Statement::conjunction_left(s, c1, c2, d)
    {
        Some(Statement::nested_inclusion(t, b, s, c, d))
    } else {
        None
    }
}

// Rule 18: What each c of s is throughout s, it is where it is c.
pub(super) fn necessary_here(p: Statement) -> Option<Statement>
    ensures { result ≡ necessary_here p }
{
    let (s, c, d) = (p.first, p.second, p.fifth);
    if p == Statement::nested_inclusion(s, c, s, 0, d) {
        Some(Statement::nested_inclusion(0, 0, s, c, d))
    } else {
        None
    }
}

// Rule 19: What holds of all things throughout s holds in s.
pub(super) fn of_all_things(p: Statement) -> Option<Statement>
    ensures { result ≡ of_all_things p }
{
    let (v, s, c, d) = (p.first, p.third, p.fourth, p.fifth);
    if p == Statement::nested_inclusion(v, 0, s, c, d) {
        Some(Statement::nested_inclusion(0, 0, s, c, d))
    } else {
        None
    }
}
