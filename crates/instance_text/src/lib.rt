//! Instances of axioms in words: the values that a number stands for, and the body with these values, as a
//! formula of the sentence language.
#![tactic(auto)]

mod formulas;
mod lines;
mod pieces;
mod saying;
mod terms;

pub use formulas::put_sentence;
pub use saying::{Said, say_instance};
