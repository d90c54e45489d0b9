#![tactic(auto, unfolding(crate::specs::Statements::same))]
// Rules on what is empty.
ghost use Rattle.std.specs.Prelude.{◌≡◌};
ghost use Rattle.standpoint.specs.Conclusions.{existential_empty, necessary_empty, possible_empty, individual_empty};

use crate::statement::Statement;

// Rule 20: Nothing has a role to nothing.
pub(super) fn existential_empty(p: Statement) -> Option<Statement>
    ensures { result ≡ existential_empty p }
{
    let (s, c, r) = (p.first, p.second, p.third);
    if p == Statement::existential_right(s, c, r, 1) {
        Some(Statement::nested_inclusion(0, 0, s, c, 1))
    } else {
        None
    }
}

// Rule 21: What is nothing throughout a standpoint is nothing.
pub(super) fn necessary_empty(p: Statement) -> Option<Statement>
    ensures { result ≡ necessary_empty p }
{
    let (t, c, v) = (p.first, p.second, p.third);
    if p == Statement::nested_inclusion(t, c, v, 0, 1) {
        Some(Statement::nested_inclusion(0, 0, t, c, 1))
    } else {
        None
    }
}

// Rule 22: What is nothing somewhere is nothing.
pub(super) fn possible_empty(p: Statement) -> Option<Statement>
    ensures { result ≡ possible_empty p }
{
    let (s, c, v) = (p.first, p.second, p.third);
    if p == Statement::possible_inclusion(s, c, v, 1) {
        Some(Statement::nested_inclusion(0, 0, s, c, 1))
    } else {
        None
    }
}

// Rule 23: An individual is never nothing.
pub(super) fn individual_empty(individuals: u16, p: Statement) -> Option<Statement>
    ensures { result ≡ individual_empty individuals p }
{
    let (v, a, u) = (p.first, p.second, p.third);
    if p == Statement::nested_inclusion(v, a, u, 0, 1) && a >= 2 && a - 2 < individuals {
        Some(Statement::CONTRADICTION)
    } else {
        None
    }
}
