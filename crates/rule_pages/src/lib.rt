//! Rules on pages: their names, and tables or lists of their outcomes.
#![tactic(auto)]

mod entries;
mod named;
mod names;
mod reversed;
mod rules;

pub use named::put_name;
pub use names::{Role, RuleName, name_of};
pub use rules::put_rule;
