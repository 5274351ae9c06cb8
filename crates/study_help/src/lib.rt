//! What helps with a study that is refused: of a text without a reading the furthest place to which some sentence
//! goes and what may stand there, and else hints.
#![tactic(auto)]

mod help;
mod places;

pub use help::help_with;
