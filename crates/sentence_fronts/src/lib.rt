//! How far some sentence goes along with a text, and what may stand there.
#![tactic(auto)]

mod expected;
mod fronts;
mod lexeme_kinds;
mod steps;
mod telling;

pub use fronts::{FurthestPlace, furthest};
pub use lexeme_kinds::{LexemeKind, kind_text};
