//! Block files: how statements and grades are stored, whether a file is sound, and its load into a reasoner.
#![tactic(auto)]

pub use check::check_file;
pub use fault::{BlockFault, FaultReport, Layer, LoadFault, RecordFault};
pub use loading::load;
pub use stored::StoredKind;

mod blocks;
mod check;
mod fault;
mod layout;
mod loading;
mod stored;
mod sum;
