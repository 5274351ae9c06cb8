//! What the words of the program are, where it can be told at a glance.
#![tactic(auto)]

pub mod laws;
