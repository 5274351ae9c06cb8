//! Reads a line of a report: what it says at its place in the grammar.
#![tactic(auto)]

mod all_axioms;
mod ballots;
mod core_line;
mod head;
mod indexed;
mod lines;
mod literals;
mod numbers;
mod places;
mod reading;
mod reasons;
mod rules;
mod story;
mod values;
mod words;

pub use core_line::read_core;
pub use head::read_count;
pub use indexed::IndexedStudy;
pub use lines::Line;
pub use places::Place;
pub use reading::read_line;
pub use reasons::read_cited;
pub use rules::read_row_parts;
pub use words::{after_first, is_same};
