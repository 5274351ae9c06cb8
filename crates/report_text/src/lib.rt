//! Writes the text of a verdict, and the pieces of which it and other texts are made.
#![tactic(auto)]

mod counts;
mod head;
mod lines;
mod rules;
mod verdict;
mod words;

pub use counts::Count;
pub use head::{About, CoreNames};
pub use lines::Told;
pub use rules::Rows;
pub use verdict::{pour_verdict, print};
pub use words::{InstanceWords, Subject};
