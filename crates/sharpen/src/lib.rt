//! A story in which no instance can be left out.
#![tactic(auto)]

mod marking;
mod sharpening;

pub use sharpening::sharpen;
