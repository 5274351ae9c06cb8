//! Another solver's refutation of the clauses of a study, as a story.
#![tactic(auto)]

mod adopting;
mod telling;

pub use adopting::{AdoptFault, adopt};
pub use telling::{Adopted, tell};
