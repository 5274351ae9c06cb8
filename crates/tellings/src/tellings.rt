//! What a story is told by.

ghost use Rattle.std.specs.Prelude.{◌≡◌};
ghost use Rattle.tellings.specs.Tellings.{greatest_depth};

use lists::Items;
use meaning::{Literals, StoryStep};

/// What a sentence names as its reason: the axiom at a place of the study, what is left at profiles, or earlier
/// lemmas. The steps of the sentence have the values, the profiles and the lemmas.
#[derive(Clone, Copy, Debug, PartialEq, Eq)]
pub enum By {
    Axiom(u32),
    Outcome,
    Lemma,
}

/// A sentence: what it names as its reason, and the facts that it rests on.
#[derive(Drop)]
pub struct Sentence {
    pub by: By,
    pub rests: Literals,
}

/// A step, with the number of the sentence that says it, the first being 0.
#[derive(Clone, Copy, Debug, PartialEq, Eq)]
pub struct Placed {
    pub sentence: u32,
    pub step: StoryStep,
}

/// Sentences in order, and the steps that they say, each in one sentence.
#[derive(Drop)]
pub struct Passage {
    pub sentences: Items<Sentence>,
    pub steps: Items<Placed>,
}

/// How a lemma is told: its sentences with its steps, but for those whose facts are forced, and the facts that
/// its last reason rests on.
#[derive(Drop)]
pub struct Telling {
    pub passage: Passage,
    pub end: Literals,
}

/// How a story is told: the facts that axioms force without a supposition, its lemmas, and for each lemma the
/// later one within which it stands, if it doesn't stand by itself.
#[derive(Drop)]
pub struct StoryTelling {
    pub forced: Passage,
    pub lemmas: Items<Telling>,
    pub homes: Items<Option<usize>>,
}

/// So many lemmas stand one within another at most, within one that stands by itself.
#[tactic(auto, unfolding(crate::specs::Tellings::greatest_depth))]
pub fn greatest_depth() -> u32
    ensures { result ≡ greatest_depth }
{
    8
}
