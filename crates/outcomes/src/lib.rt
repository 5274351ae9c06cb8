//! Kinds of outcomes: what holds of an outcome, the variables that stand for it, and its text.
#![tactic(auto)]

mod at_profile;
mod choice;
mod decode;
mod frames;
mod kind;
pub mod laws;
mod places;
mod ranking;
mod setting;
pub mod winners;

pub use at_profile::AtProfile;
pub use choice::ChoiceKind;
pub use kind::OutcomeKind;
pub use ranking::RankingKind;
pub use setting::Setting;
