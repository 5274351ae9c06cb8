//! What the steps of a story rest on, and its lemmas as sentences.
#![tactic(auto)]

mod accepted;
mod checking;
mod desk;
mod forced;
mod homes;
mod stories;
mod teller;
mod telling;
mod uses;

pub use accepted::AcceptedStory;
pub use stories::tell_story;
