//! The commands that check what others wrote: `check`, `lrat` and `gain`.
#![tactic(auto)]

pub mod check;
pub mod gain;
pub mod lrat;
