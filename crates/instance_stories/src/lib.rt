//! Stories over instances: their reasons named back to axioms and values, and the instances that they cite.
#![tactic(auto)]

mod codes;
pub mod laws;
mod naming;

pub use codes::{code_of, rising};
pub use naming::story_named;
