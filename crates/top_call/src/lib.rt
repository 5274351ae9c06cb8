//! The top call: all that the program does with its words, over the files of a shelf and into a sink.
#![tactic(auto)]

mod top;

pub use top::{bench, bench_calmly};
