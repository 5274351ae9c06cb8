//! Tests of clauses and of how they are made, each module of the crate that it is named for. The library itself is
//! empty.
#![tactic(auto)]

#[cfg(test)]
mod clause_form_tests;
#[cfg(test)]
mod grounding_tests;
#[cfg(test)]
mod lanes_tests;
