//! Tests of the crates of sentences, `syntax`, `sentence_fronts`, `sorts` and `axiom_library`: a module for each.
//! The library itself is empty, so that each of those crates is proved once, and without its tests.
#![tactic(auto)]

#[cfg(test)]
mod axiom_library_tests;
#[cfg(test)]
mod fixtures;
#[cfg(test)]
mod fronts_tests;
#[cfg(test)]
mod sorts_tests;
#[cfg(test)]
mod syntax_tests;
