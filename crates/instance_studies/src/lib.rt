//! The study whose axioms are some instances of another study, each an axiom of its own.
#![tactic(auto)]

mod making;
mod names;
mod values;

pub use making::{StudyInstances, derive};
pub use values::values_of;
