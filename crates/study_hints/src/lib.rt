//! What helps with a study that is refused, but for a place in a text: the form of what is faulty, what a name was
//! perhaps meant to be, the values of a size, and the axioms that there are.
#![tactic(auto)]

mod hints;
mod keys;
mod values;
mod words;

pub use hints::{axiom_help, fixed_words, sort_help_in};
