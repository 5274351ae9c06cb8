//! What a report says, when it is right, and which of its lines is the first faulty one.
#![tactic(auto)]

pub mod laws;
mod numbers;
mod refusals;
mod verdicts;

pub use numbers::{number_within, read_number};
pub use refusals::Refusal;
pub use verdicts::{Confirmed, Verdict};
