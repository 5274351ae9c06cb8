//! The lines of answers, as texts that are poured and nowhere built: of studies, clauses and proofs that are
//! refused, of a report or a sharp text that is judged, of the library of axioms, and of a verdict in one
//! line.
#![tactic(auto)]

mod claims;
mod clause_faults;
mod gains;
pub mod laws;
mod library;
mod proof_faults;
mod study_faults;
mod totals;
mod worth;

pub use claims::{ClaimLine, SummaryLine};
pub use clause_faults::GroundLine;
pub use gains::{GainLine, GainWords};
pub use library::LibraryLines;
pub use proof_faults::{CnfLine, LratLine, ProofLine};
pub use study_faults::StudyLine;
pub use totals::TotalLine;
pub use worth::{JudgedLine, WorthLine};
