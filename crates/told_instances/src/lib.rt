//! The instances that a story cites.
#![tactic(auto)]

mod numbers;
mod telling;

pub use numbers::{code_of_reason, instance_of_reason};
pub use telling::{axioms_told, instances_told};
