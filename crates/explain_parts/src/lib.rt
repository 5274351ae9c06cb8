//! What the commands of `explain` share: their replies, and what helps with a study that is refused.
#![tactic(auto)]

mod helped;
mod reply;

pub use helped::Helped;
pub use reply::Reply;
