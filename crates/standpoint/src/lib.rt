//! Standpoint EL+ with graded statements: what a third party needs to verify a verdict.
#![tactic(auto)]

pub use kinds::{Kind, Letter, LetterGrade, Odds, OddsGrade, Surcharge, Tally, TallyGrade};
pub use premises::Premises;
pub use refusal::Refusal;
pub use rules::{Rule, UnknownRule};
pub use sizes::Sizes;
pub use statement::{Sort, Sorts, Statement};
pub use step::{ACCEPTED, Step, TAUTOLOGY};
pub use tautologies::{tautology, tautology_count};
pub use verdict::check;

mod fits;
mod kinds;
mod premises;
mod refusal;
mod rules;
// The shapes of statements by name.
pub mod shape;
mod sizes;
mod statement;
mod step;
mod tautologies;
mod verdict;
