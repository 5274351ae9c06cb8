//! How many clauses and literals the frames of a study and all instances of its axioms have together.
#![tactic(auto)]

mod bounds;
mod frames;
mod pieces;
mod totals;

pub use totals::{TotalFault, check_total};
