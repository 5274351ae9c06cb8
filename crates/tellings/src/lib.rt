//! Stories told as sentences: which steps one sentence says, what it rests on, and where lemmas stand.
#![tactic(auto)]

pub mod laws;
mod tellings;

pub use tellings::{By, Passage, Placed, Sentence, StoryTelling, Telling, greatest_depth};
