//! The words of the program `explain`: the command that they are.
#![tactic(auto)]

mod commands;
mod grammar;
mod reading;

pub use commands::Command;
pub use reading::command_of;
