//! Checks a report or a sharp text in pieces of its bytes, or in a file.
#![tactic(auto)]

mod cutting;
mod files;
mod line_checker;
mod reader;
mod worths;

pub use cutting::cut_line;
pub use files::{FileFault, judge_file, worth_of};
pub use reader::{Reader, check_report};
pub use worths::{JudgedWorth, SharpWorth, Worth};
