//! All rules that satisfy the axioms of a study, with the proof that there is no other: searches over its
//! clauses, in each of which the rules that were found before are left out.
#![tactic(auto)]

mod answers;
mod denying;
mod finding;
mod listing;
mod ordering;

pub use answers::{Ending, RuleList};
pub use listing::all_rules;
