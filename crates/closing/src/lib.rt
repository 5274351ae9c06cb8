//! Formulas closed by values.
#![tactic(auto)]

mod atoms;
mod formulas;
pub mod laws;
mod terms;

pub use formulas::close;
