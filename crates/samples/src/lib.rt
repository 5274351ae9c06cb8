//! The studies of numbers, of which large sets are decided one by one.
#![tactic(auto)]

pub mod laws;
mod numbers;

pub use numbers::sample;
