//! The story that a derivation tells.
#![tactic(auto)]

mod cited;
pub mod laws;
mod marks;
mod stories;
mod teller;
mod telling;

pub use stories::retell;
pub use telling::retell_simply;
