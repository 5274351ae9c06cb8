//! What is known of up to 64 instances of a sentence at once, whatever the rule.
#![tactic(auto)]

mod building;
mod covers;
mod instances;
mod marks;
mod plans;
mod shapes;
mod sizes;
mod tables;
mod telling;

pub use instances::{values_at, values_of};
pub use marks::is_told;
pub use telling::{Plan, TwoWords, plan_of, told, told_sides};
