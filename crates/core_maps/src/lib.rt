//! The map of the axioms of a study: all minimal sets that no rule satisfies, and all largest sets that some
//! rule satisfies. Each set that the map does not cover is asked about, and what is found is added, as MARCO
//! does (Liffiton, Previti, Malik, Marques-Silva, 2016).
#![tactic(auto)]

mod answers;
mod asking;
mod encoding;
pub mod laws;
mod mapping;
mod parts;
mod passing;
mod seeking;

pub use answers::{CoreMap, Ending};
pub use mapping::map_axioms;
