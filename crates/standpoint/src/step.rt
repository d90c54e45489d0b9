// Steps of a derivation that is written as a list.
use crate::statement::Statement;

// What a step has in the place of a rule where it only repeats what was accepted.
pub const ACCEPTED: u8 = 0;

// The same where it only states a tautology.
pub const TAUTOLOGY: u8 = 24;

// A rule, the places of its premises in the list (from 1, 0 where unused), and what it gives. Plain numbers, since a list
// may come from anyone and hold any: the check says which are wrong.
#[derive(Clone, Copy)]
pub struct Step<G: Clone + Copy + Drop> {
    pub rule: u8,
    pub first: usize,
    pub second: usize,
    pub third: usize,
    pub statement: Statement,
    pub grade: G,
}
