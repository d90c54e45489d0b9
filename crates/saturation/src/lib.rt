//! Saturation: a table over lent memory that settles statements, best grade first.
#![tactic(auto)]

pub use phase::Phase;
pub use row::{Chain, Kept, Row};
pub use rows::NoRow;
pub use table::Table;

mod attempt;
mod buckets;
mod choose;
mod joins;
mod lane;
mod memory;
mod offer;
mod phase;
mod places;
mod row;
mod rows;
mod run;
mod search;
mod side;
mod table;
mod tournament;
mod turn;
mod walk;
