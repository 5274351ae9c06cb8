//! Tests of `profiles`: ballots, profiles and votes. The library itself is empty, so that `profiles` is proved once,
//! and without its tests.
#![tactic(auto)]

#[cfg(test)]
mod profiles_tests;
