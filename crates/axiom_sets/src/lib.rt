//! Sets of the axioms of a study, and maps of what is known of them: which set to ask about next, and a place
//! for what is found. Minimal unsatisfiable and maximal satisfiable sets, as MARCO lists them (Liffiton,
//! Previti, Malik, Marques-Silva, 2016).
#![tactic(auto)]

mod asking;
mod maps;
mod next;
mod ordering;
mod sets;

pub use maps::AxiomMap;
pub use next::Next;
