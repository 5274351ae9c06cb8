//! Tests of `clause_text`: texts of clauses and of derivations. The library itself is empty, so that `clause_text` is
//! proved once, and without its tests.
#![tactic(auto)]

#[cfg(test)]
mod clause_text_tests;
