//! An axiom whose clauses are made, and its instances in rounds and pieces.

ghost use Rattle.std.specs.Prelude.{◌≡◌, ◌+◌, ◌<◌, ◌≤◌, ◌^◌, IsTrue};
ghost use Rattle.vocab.specs.Limits.{instance_count};
ghost use Rattle.vocab.specs.Study.{is_sentence};
ghost use Rattle.lanes.specs.Lanes.{IsPlan, IsPremiseToldFrom, IsToldFrom};
ghost use Rattle.lanes.proofs.OnceLaws.{once};
ghost use Rattle.grounding.specs.Pieces.{AreNarrow};

use lanes::{Plan, TwoWords};
use outcomes::OutcomeKind;
use vocab::Axiom;

/// How many instances a piece has.
pub(crate) const PIECE: u64 = 64;

/// How many instances a part has: four pieces, so that less memory is taken and given back.
pub(crate) const PART: u64 = 256;

/// How many pieces a round has at most that is measured, or whose clauses one worker makes.
pub(crate) const ROUND: u64 = 1024;

/// How many pieces a round has at most whose clauses several workers make: each round starts their threads anew.
pub(crate) const LARGE: u64 = 8192;

/// How many pieces a round has at least where nothing is measured.
pub(crate) const SMALL: u64 = 256;

/// The most clauses of a round of several pieces, by their measures.
pub(crate) const MOST_CLAUSES: u64 = 4_000_000;

/// The most literals of a round of several pieces, by their measures.
pub(crate) const MOST_LITERALS: u64 = 60_000_000;

/// An axiom that can be ground: a sentence of at most 40,000,000 instances, with its place in a study, below
/// 4,000,000, and the kind of its rules.
#[derive(Drop)]
pub(crate) struct Groundable<'a, K: OutcomeKind> {
    pub(crate) kind: &'a K,
    pub(crate) named: &'a Axiom,
    pub(crate) place: u32,
    pub(crate) ghost sentence: { IsTrue (is_sentence (K.size kind.now) named.now) },
    pub(crate) ghost few: { instance_count (K.size kind.now) named.now.sentence ≤ 40000000 },
    pub(crate) ghost low: { place < 4000000 },
}

/// An axiom that can be ground, with the plan by which its instances are gone through, and how many they are.
#[derive(Drop)]
pub(crate) struct Planned<'a, K: OutcomeKind> {
    pub(crate) kind: &'a K,
    pub(crate) named: &'a Axiom,
    pub(crate) plan: &'a Plan,
    pub(crate) count: u64,
    pub(crate) ghost sentence: { IsTrue (is_sentence (K.size kind.now) named.now) },
    pub(crate) ghost few: { instance_count (K.size kind.now) named.now.sentence ≤ 40000000 },
    pub(crate) ghost planned: { IsPlan (K.size kind.now) named.now.sentence
        plan.now } by { Prim.hlevel once },
    pub(crate) ghost counted: { count ≡ instance_count (K.size kind.now) named.now.sentence },
}

/// A round that is measured: the instances of a planned axiom from `from` up to `to`, at most 1,024 pieces.
#[derive(Drop)]
pub(crate) struct Round<'a, K: OutcomeKind> {
    pub(crate) planned: &'a Planned<'a, K>,
    pub(crate) from: u64,
    pub(crate) to: u64,
    pub(crate) ghost rising: { from ≤ to },
    pub(crate) ghost within: { to ≤ planned.now.count },
    pub(crate) ghost short: { to ≤ from + 65536 },
}

/// An axiom with its plan, none of whose instances is too wide. The number of an instance is added to
/// `base`, at most 2 ^ 60, so that it says the axiom too.
#[derive(Drop)]
pub(crate) struct Numbered<'a, K: OutcomeKind> {
    pub(crate) kind: &'a K,
    pub(crate) named: &'a Axiom,
    pub(crate) plan: &'a Plan,
    pub(crate) count: u64,
    pub(crate) base: u64,
    pub(crate) ghost sentence: { IsTrue (is_sentence (K.size kind.now) named.now) },
    pub(crate) ghost few: { instance_count (K.size kind.now) named.now.sentence ≤ 40000000 },
    pub(crate) ghost planned: { IsPlan (K.size kind.now) named.now.sentence
        plan.now } by { Prim.hlevel once },
    pub(crate) ghost counted: { count ≡ instance_count (K.size kind.now) named.now.sentence },
    pub(crate) ghost narrow: { AreNarrow (K.size kind.now) named.now.sentence 0 count },
    pub(crate) ghost small: { base ≤ 2 ^ 60 },
}

/// Instances whose clauses are made: those of a numbered axiom from `from` up to `to`, at most 8,192 pieces,
/// all of a round, of a part or of a piece.
#[derive(Drop)]
pub(crate) struct Stretch<'a, K: OutcomeKind> {
    pub(crate) numbered: &'a Numbered<'a, K>,
    pub(crate) from: u64,
    pub(crate) to: u64,
    pub(crate) ghost rising: { from ≤ to },
    pub(crate) ghost within: { to ≤ numbered.now.count },
    pub(crate) ghost short: { to ≤ from + 524288 },
}

/// The instances of a numbered axiom from `from` up to `to`, and what is known of the 64 from `from` on.
#[derive(Drop)]
pub(crate) struct Piece<'a, K: OutcomeKind> {
    pub(crate) numbered: &'a Numbered<'a, K>,
    pub(crate) from: u64,
    pub(crate) to: u64,
    pub(crate) known: TwoWords,
    pub(crate) ghost rising: { from ≤ to },
    pub(crate) ghost within: { to ≤ numbered.now.count },
    pub(crate) ghost told: { IsToldFrom (K.size numbered.now.kind.now) numbered.now.named.now.sentence
        from known.all } by { Prim.hlevel once },
    pub(crate) ghost premise: { IsPremiseToldFrom (K.size numbered.now.kind.now)
        numbered.now.named.now.sentence from known.premise } by { Prim.hlevel once },
}
