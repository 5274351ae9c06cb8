//! A derivation carried over to another list of clauses, in which each clause that its hints name stands
//! too.
#![tactic(auto)]

mod citing;
pub mod laws;
mod lines;
mod places;

pub use citing::flags_of;
pub use lines::renumber;
pub use places::are_same;
