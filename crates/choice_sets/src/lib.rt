//! Rules that give a set of alternatives at each profile: their outcomes as a kind, and by which ballots voters
//! gain.
#![tactic(auto)]

mod elements;
mod gains;
mod kind;
pub mod laws;

pub use gains::{Manipulation, gain};
pub use kind::SetsKind;
