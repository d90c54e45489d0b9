//! Lists of calls, performed one after the other.
#![tactic(auto)]

pub use call::{Call, Done};
pub use replaying::replay;

mod call;
mod replaying;
