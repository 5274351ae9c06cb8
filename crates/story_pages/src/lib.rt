//! Stories on a page: what is forced, and lemmas as sentences, with tables of what is known.
#![tactic(auto)]

mod claims;
mod ends;
mod forced;
mod homes;
mod known;
pub mod laws;
mod lemmas;
mod sentences;

pub use homes::put_story;
pub use sentences::put_axiom;
