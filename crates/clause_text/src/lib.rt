//! Clause lists and derivations as text: what is written of them, and what a text gives or why it is refused.
#![tactic(auto)]

mod cnf_reading;
mod cnf_writing;
mod faults;
pub mod laws;
mod lines;
mod literals;
mod lrat_reading;
mod lrat_writing;
mod size_text;
mod steps;
mod tokens;

pub use cnf_reading::{Formulas, read_dimacs};
pub use cnf_writing::{DimacsText, write_dimacs};
pub use faults::{CnfFault, LratFault};
pub use lrat_reading::read_lrat;
pub use lrat_writing::{LratText, write_lrat};
pub use size_text::SizeText;
