//! Tests of the commands of `explain` over devices in memory, those that fail too. The library itself is empty.
#![tactic(auto)]

#[cfg(test)]
mod fault_tests;
#[cfg(test)]
mod test_calls;
