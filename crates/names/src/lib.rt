//! Places of names in a list, found without going over the list.
#![tactic(auto)]

mod index;

pub use index::NameIndex;
