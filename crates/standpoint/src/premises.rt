// The premises of a rule.
use crate::statement::Statement;

// One, two or three premises, in joining order.
#[derive(Clone, Copy)]
pub enum Premises {
    One(Statement),
    Two(Statement, Statement),
    Three(Statement, Statement, Statement),
}
