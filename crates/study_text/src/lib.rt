//! What a study asks, in lines for a person: its size, each of its axioms with how large it is and how many clauses
//! are kept of it, and the limit that is nearest.
#![tactic(auto)]

mod kept;
mod lines;
mod look;
mod shares;

pub use look::{Look, look_at, pour_look};
