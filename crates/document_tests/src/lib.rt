//! Tests of what documents, numbers and words say, of `study`, `samples` and `words`: a module for each. The
//! library itself is empty, so that each of those crates is proved once, and without its tests.
#![tactic(auto)]

#[cfg(test)]
mod fixtures;
#[cfg(test)]
mod samples_tests;
#[cfg(test)]
mod study_tests;
#[cfg(test)]
mod words_tests;
