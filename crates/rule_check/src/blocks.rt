//! The least instance that is false of a rule, in blocks of instances of which it may be told which are true
//! whatever the rule.

ghost use Rattle.std.specs.Prelude.{◌≡◌, ◌≤◌, ◌<◌, ◌+◌, IfOk, IfSome, IsTrue};
ghost use Rattle.vocab.specs.Limits.{instance_count};
ghost use Rattle.meaning.specs.Instances.{is_instance_true};
ghost use Rattle.lanes.specs.Lanes.{IsPlan, IsToldFrom};
ghost use Rattle.lanes.proofs.OnceLaws.{once};
ghost use Rattle.rule_check.specs.Pieces.{IsLeastFalse};

use crate::trials::{Stretch, Trial};
use lanes::{Plan, is_told, plan_of, told, values_at};
use lists::NoMemory;
use outcomes::OutcomeKind;
use std::alloc::Global;
use worlds::{first_failure, truth};

/// From how many instances on a plan is worth its making.
const MANY: u64 = 65_536;

/// A block of up to 64 instances of an axiom, from `from` on, which are tried over a rule by the plan of the
/// axiom; with a word whose bits tell which are true whatever the rule.
#[derive(Drop)]
struct Block<'a, K: OutcomeKind> {
    trial: &'a Trial<'a, K>,
    plan: &'a Plan,
    from: u64,
    lanes: u64,
    word: u64,
    ghost few: { lanes ≤ 64 },
    ghost within: { from + lanes ≤ instance_count (K.size trial.now.kind.now) trial.now.named.now.sentence },
    ghost planned: { IsPlan (K.size trial.now.kind.now) trial.now.named.now.sentence
        plan.now } by { Prim.hlevel once },
    ghost told: { IsToldFrom (K.size trial.now.kind.now) trial.now.named.now.sentence from word },
}

/// The plan of the axiom of a trial with so many instances, where they are many and it tells nearly all that
/// is known of them.
pub(crate) fn plan_for<K: OutcomeKind>(
    alloc: Global,
    trial: &Trial<K>,
    count: u64,
) -> Result<Option<Plan>, NoMemory>
    ensures { IfOk result (λ found.
        IfSome found (IsPlan (K.size trial.now.kind.now) trial.now.named.now.sentence)) }
{
    if count < MANY {
        return Ok(None);
    }
    let plan = plan_of(alloc, trial.kind, trial.named)?;
    if plan.is_whole() {
        Ok(Some(plan))
    } else {
        Ok(None)
    }
}

/// Whether an instance of a block is true of the rule, as it is where it is told to be true whatever the rule.
fn is_true_at<K: OutcomeKind>(block: &Block<K>, k: u64) -> bool
    requires lane { k < block.now.lanes }
    ensures { result ≡ is_instance_true (K.size block.now.trial.now.kind.now) block.now.trial.now.table.now
        block.now.trial.now.named.now.sentence (block.now.from + k) }
{
    if is_told(block.word, k) {
        return true;
    }
    let trial = block.trial;
    let values = values_at(trial.kind, trial.named, block.plan, block.from + k);
    truth(
        trial.kind,
        trial.table,
        trial.named.sentence().body(),
        &values,
    )
}

/// The least instance of a block that is false of the rule.
fn block_failure<K: OutcomeKind>(block: &Block<K>) -> Option<u64>
    ensures { IsLeastFalse (K.size block.now.trial.now.kind.now) block.now.trial.now.table.now
        block.now.trial.now.named.now block.now.from (block.now.from + block.now.lanes) result }
{
    for k in 0..block.lanes {
        if !is_true_at(block, k) {
            return Some(block.from + k);
        }
    }
    None
}

/// The least instance of a round that is false of the rule, block by block.
fn told_failure<'a, K: OutcomeKind>(round: &Stretch<'a, K>, plan: &'a Plan) -> Option<u64>
    requires plan { IsPlan (K.size round.now.trial.now.kind.now) round.now.trial.now.named.now.sentence
        plan.now }
    ensures { IsLeastFalse (K.size round.now.trial.now.kind.now) round.now.trial.now.table.now
        round.now.trial.now.named.now round.now.from round.now.to result }
{
    let trial = round.trial;
    let mut number = round.from;
    while number < round.to {
        let lanes = (round.to - number).min(64);
        let word = told(trial.kind, trial.named, plan, number);
        let block = Block {
            trial,
            plan,
            from: number,
            lanes,
            word,
        };
        if let Some(instance) = block_failure(&block) {
            return Some(instance);
        }
        number += lanes;
    }
    None
}

/// The least instance of a round that is false of the rule.
pub(crate) fn least_false<K: OutcomeKind>(round: &Stretch<K>) -> Option<u64>
    ensures { IsLeastFalse (K.size round.now.trial.now.kind.now) round.now.trial.now.table.now
        round.now.trial.now.named.now round.now.from round.now.to result }
{
    let trial = round.trial;
    match round.plan {
        Some(plan) => told_failure(round, plan),
        None => first_failure(trial.kind, trial.table, trial.named, round.from, round.to),
    }
}
