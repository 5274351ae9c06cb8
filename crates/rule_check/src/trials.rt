//! An axiom that is tried over a rule, and its instances from one up to another.

ghost use Rattle.std.specs.Prelude.{◌≤◌, IfSome, IsTrue};
ghost use Rattle.vocab.specs.Limits.{instance_count};
ghost use Rattle.vocab.specs.Study.{is_sentence};
ghost use Rattle.meaning.specs.Truth.{is_rule};
ghost use Rattle.lanes.specs.Lanes.{IsPlan};
ghost use Rattle.lanes.proofs.OnceLaws.{once};

use lanes::Plan;
use outcomes::OutcomeKind;
use vocab::{Axiom, Table};

/// An axiom of at most 40 million instances, and a rule over which it is tried.
#[derive(Drop)]
pub(crate) struct Trial<'a, K: OutcomeKind> {
    pub(crate) kind: &'a K,
    pub(crate) table: &'a Table,
    pub(crate) named: &'a Axiom,
    ghost rule: { IsTrue (is_rule (K.size kind.now) table.now) },
    ghost sentence: { IsTrue (is_sentence (K.size kind.now) named.now) },
    ghost few: { instance_count (K.size kind.now) named.now.sentence ≤ 40000000 },
}

/// The instances of an axiom from `from` up to `to`, to be tried over a rule: all, those of a round or of a
/// piece. With a plan of the axiom where that is worth its making.
#[derive(Drop)]
pub(crate) struct Stretch<'a, K: OutcomeKind> {
    pub(crate) trial: &'a Trial<'a, K>,
    pub(crate) plan: &'a Option<Plan>,
    pub(crate) from: u64,
    pub(crate) to: u64,
    ghost rising: { from ≤ to },
    ghost within: { to ≤ instance_count (K.size trial.now.kind.now) trial.now.named.now.sentence },
    ghost planned: { IfSome plan.now (IsPlan (K.size trial.now.kind.now)
        trial.now.named.now.sentence) } by { Prim.hlevel once },
}
