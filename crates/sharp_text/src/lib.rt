//! Writes the text of a sharp verdict.
#![tactic(auto)]

pub mod laws;
mod marks;
mod sharp_verdict;

pub use sharp_verdict::pour_sharp;
