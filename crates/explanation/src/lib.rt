//! Explanations: the kept steps that a settled statement rests on, as a list that the step check passes.
#![tactic(auto)]

pub use explaining::explain;

mod explaining;
mod marks;
mod writing;
