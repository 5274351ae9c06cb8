//! Instances of the axioms of a study.

use lists::Items;

/// An instance of an axiom: the place of the axiom in the study, and the number of the instance.
#[derive(Clone, Copy, Debug, PartialEq, Eq)]
pub struct Cited {
    pub axiom: u32,
    pub number: u64,
}

/// A list of instances.
pub type Instances = Items<Cited>;
