//! The top call of the program `explain`: all that it does with its words, over the files of a shelf and into
//! a sink.
#![tactic(auto)]

mod top;

pub use top::{explain, explain_calmly};
