//! Sentences as groups: steps that rest on the same facts in one, and sentences of one shape as one.
#![tactic(auto)]

mod chains;
mod joining;
mod literals;
mod shapes;
mod step_index;

pub use chains::Chains;
pub use joining::{by_of, forget, is_by, join};
pub use shapes::{Reshaped, reshape};
pub use step_index::StepIndex;
