//! Ballots and profiles by number: their texts, what voters say, and how profiles change.
#![tactic(auto)]

mod changes;
pub mod laws;
mod rankings;
mod reading;
mod space;
mod tables;
mod texts;
mod votes;

pub use rankings::{Alternatives, Ranking};
pub use reading::{NotAProfile, place_of};
pub use space::Space;
pub use tables::{is_above, ranking_count};
pub use texts::{ProfileText, ranking_text};
