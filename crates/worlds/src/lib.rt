//! Whether sentences are true of a rule, or known to be under some literals, and at which instance one fails
//! first.
#![tactic(auto)]

mod algebra;
mod atoms;
mod boards;
mod evaluation;
mod exclusion;
mod failures;
mod kleene;
pub mod laws;
mod literals;
mod tarski;
mod terms;
mod threes;

pub use algebra::Algebra;
pub use boards::Board;
pub use evaluation::eval;
pub use exclusion::excludes;
pub use failures::{first_failure, instance_count};
pub use kleene::partial;
pub use tarski::truth;
