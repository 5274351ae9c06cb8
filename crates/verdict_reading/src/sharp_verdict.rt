//! What a sharp text says.

use lists::Items;
use meaning::{Lemma, Witnesses};
use sharp_verdicts::Instances;
use vocab::Places;

/// What a sharp text says: the places of the axioms that its story cites, in order; the story; the instances
/// that the story cites, by axiom and number; and a mark for each of them, which is a rule at which the bodies
/// of the others are true, or an open mark with the limit of the search.
#[derive(Drop)]
pub struct SharpVerdict {
    pub core: Places,
    pub story: Items<Lemma>,
    pub instances: Instances,
    pub marks: Witnesses,
}
