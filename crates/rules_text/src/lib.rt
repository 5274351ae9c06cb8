//! Writes the text of a list of rules.
#![tactic(auto)]

mod rules;

pub use rules::pour_rules;
