//! Stories: refutations over the sentences alone, which a reader can follow.

use lists::Items;
use vocab::{Env, Literal};

/// Why some literals cannot all hold of one rule: an instance of the axiom at a place of the study, by the
/// values of its leading universals; the outcomes at a profile; or an earlier lemma, by its place.
#[derive(Clone, Copy, Debug, PartialEq, Eq)]
pub enum Reason {
    Axiom(u32, Env),
    Outcome(u32),
    Lemma(u32),
}

/// A literal that is forced, and why.
#[derive(Clone, Copy, Debug, PartialEq, Eq)]
pub struct StoryStep {
    pub literal: Literal,
    pub reason: Reason,
}

/// Literals, in order.
pub type Literals = Items<Literal>;

/// The steps of a lemma, in order.
pub type Steps = Items<StoryStep>;

/// A lemma: what it supposes, what follows, and why that cannot be.
#[derive(Drop)]
pub struct Lemma {
    pub suppose: Literals,
    pub steps: Steps,
    pub last: Reason,
}

/// Why a line of a story is refused: the reason's axiom is not in the core, its lemma is not an earlier one,
/// or it does not refute; the literal or its opposite is already there; or the last lemma supposes something.
#[derive(Clone, Copy, Debug, PartialEq, Eq)]
pub enum StoryFault {
    NotInCore,
    Later,
    NotForced,
    Known,
    Supposes,
}

/// A fault, and the line of its lemma where it stands, the heading being line 0.
#[derive(Clone, Copy, Debug, PartialEq, Eq)]
pub struct PlacedFault {
    pub place: u32,
    pub fault: StoryFault,
}

/// Why a story is refused: the first faulty line and its lemma, from 0, or that there is no lemma. Want of
/// memory may come in place of both.
#[derive(Clone, Copy, Debug, PartialEq, Eq)]
pub enum StoryRefusal {
    Lemma { lemma: u32, fault: PlacedFault },
    Empty,
    NoMemory,
}
