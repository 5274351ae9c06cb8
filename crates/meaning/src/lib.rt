//! What sentences, rules, clauses and stories mean.
#![tactic(auto)]

mod clauses;
mod cores;
pub mod laws;
mod stories;
mod three;

pub use clauses::{Counts, Origin};
pub use cores::{Witness, Witnesses};
pub use stories::{
    Lemma, Literals, PlacedFault, Reason, Steps, StoryFault, StoryRefusal, StoryStep,
};
pub use three::Three;
