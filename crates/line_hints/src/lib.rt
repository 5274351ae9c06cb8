//! The hints of a line of a derivation: fewer, by a shorter way to its conflict, or in an order that reads.
#![tactic(auto)]

mod line_thinning;
mod lines;
mod literal_sets;
mod thinning;
mod turns;
mod ways;

pub use line_thinning::thin_hints;
pub use lines::{clause_of, clause_of_line};
pub use literal_sets::{add_clause, clause_at};
pub use turns::{Sources, hints_in_turn};
