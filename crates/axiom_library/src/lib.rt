//! The library of axioms: the sentences that the bench knows by name, for each kind of rule.
#![tactic(auto)]

mod finding;
pub mod laws;
mod table;

pub use finding::{find, name_at, text_under};
pub use table::{count, text_at};
