//! Pieces of work among workers. A piece reads values that nobody changes and gives a value of its own, so
//! the parts are the same for every number of workers.
#![tactic(auto)]

mod crews;
mod jobs;
mod pieces;

pub use crews::Crew;
pub use jobs::{Job, Parts};
pub use pieces::map_pieces;
