//! Sharp verdicts: stories in which no instance can be left out. What a sharp text says, when it is right,
//! and which of its lines is the first faulty one.
#![tactic(auto)]

mod instances;
mod refusals;
mod sharp;

pub use instances::{Cited, Instances};
pub use refusals::SharpRefusal;
pub use sharp::Sharp;
