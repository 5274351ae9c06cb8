//! Which status and which bytes answer which words of `explain`, over which files.
#![tactic(auto)]

pub mod laws;
pub mod written;
