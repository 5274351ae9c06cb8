//! Whether a story is accepted, and else its first faulty line. The checker knows the sentences alone: no
//! clause, no variable and no search.
#![tactic(auto)]

mod grounds;
mod lemmas;
mod lines;
mod reasons;
mod stories;

pub use grounds::Grounds;
pub use lemmas::CheckableLemma;
pub use lines::suppose;
pub use reasons::KnownLiterals;
pub use stories::{CheckableStory, Story, check_story};
