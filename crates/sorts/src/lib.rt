//! Sentences against a size: `resolve` gives the tree of a sentence without names, or the first of its
//! faults.
#![tactic(auto)]

mod atoms;
mod constants;
mod faults;
mod formulas;
pub mod laws;
mod resolving;
mod scope;
mod symbols;
mod terms;
mod texts;

pub use faults::SortFault;
pub use resolving::resolve;
pub use texts::{ConstantText, Symbol};
