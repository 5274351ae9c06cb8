//! Reads the lines that a sharp text has and a report has not, and those that stand past its story: what each
//! says at its place in the grammar.
#![tactic(auto)]

mod last;
mod marks;
mod needs;

pub use marks::{is_end, is_title, read_instances, read_mark_row};
pub use needs::{Need, read_need};
