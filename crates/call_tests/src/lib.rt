//! Tests of the commands over devices in memory, those that fail too, and of the work that two workers share. The
//! library itself is empty.
#![tactic(auto)]

#[cfg(test)]
mod fault_tests;
#[cfg(test)]
mod test_calls;
#[cfg(test)]
mod worker_tests;
