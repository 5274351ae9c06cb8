//! The clauses of the study of some instances.
#![tactic(auto)]

mod grounds;
pub mod laws;

pub use grounds::ground_derived;
