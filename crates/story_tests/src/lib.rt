//! Tests of stories, of how they are told, and of rules, each module of the crate that it is named for. The
//! library itself is empty.
#![tactic(auto)]

#[cfg(test)]
mod premises_tests;
#[cfg(test)]
mod rule_check_tests;
#[cfg(test)]
mod story_tests;
#[cfg(test)]
mod studies_by_text;
