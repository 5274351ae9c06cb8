//! What the commands share: the answers, and the study, its clauses and the proof that a command is given.
#![tactic(auto)]

mod answer;
mod derivations;
mod grounds;
mod studies;
mod whole;

pub use answer::{Answer, Stop};
pub use derivations::{GivenProof, open_derivation};
pub use grounds::{ground_all, ground_study};
pub use studies::{Opened, open_study};
pub use whole::{WholeSetting, WholeStudy};
