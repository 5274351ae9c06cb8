//! Tests of maps of the axioms of studies. The library itself is empty.
#![tactic(auto)]

#[cfg(test)]
mod mapping_tests;
