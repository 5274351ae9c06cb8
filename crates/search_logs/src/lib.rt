//! Searches over the clauses of a study that spent their limit: what is kept of them, and what they are
//! evidence of.
#![tactic(auto)]

mod logs;
mod places;

pub use logs::{Logs, SearchLog};
pub use places::all_places;
