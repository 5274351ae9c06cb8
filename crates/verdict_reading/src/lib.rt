//! Reads the verdict of a confirmed report or of a confirmed sharp text, whole, into memory.
#![tactic(auto)]

mod collector;
mod files;
mod fitting;
mod lines;
mod parts;
mod reading;
mod sharp_collector;
mod sharp_verdict;
mod text_collector;

pub use files::read_verdict_file;
pub use reading::{Reading, read_verdict};
pub use sharp_verdict::SharpVerdict;
