//! What a reason rests on: the facts that it needs.
#![tactic(auto)]

mod facts;
mod literals;
mod spoken;

pub use facts::{Facts, add_others};
pub use literals::{is_literal, profile_of};
