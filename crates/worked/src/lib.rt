//! The worked cases: calls on small memory, and the joins of a few grades, each with what it must come to.
#![tactic(auto)]

pub use joins::Joins;
pub use worked::{Worked, worked_cases};

mod calls;
mod grades;
mod joins;
mod lists;
mod worked;
