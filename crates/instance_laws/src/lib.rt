//! What the body of an instance in words says: a law over its definition.
#![tactic(auto)]

pub mod laws;
