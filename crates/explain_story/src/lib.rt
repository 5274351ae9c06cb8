//! The command `story` of `explain`: the page of what a report or a sharp text says of a study.
#![tactic(auto)]

mod page;
mod story_command;

pub use story_command::story;
