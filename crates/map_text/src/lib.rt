//! Writes the text of a map of the axioms of a study.
#![tactic(auto)]

mod maps;

pub use maps::pour_map;
