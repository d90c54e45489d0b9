//! The reasoner: begin, add, settle and ask over a table of lent memory.
#![tactic(auto)]

pub use asking::{Answer, ask};
pub use calls::{add, begin, settle};

mod asking;
mod calls;
