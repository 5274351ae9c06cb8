//! The first axiom that a rule does not satisfy.

ghost use Rattle.std.specs.Prelude.{◌≡◌, nat_lt, length, IsTrue, IfOk};
ghost use Rattle.std.specs.List.{list_all};
ghost use Rattle.vocab.specs.Limits.{instance_count};
ghost use Rattle.meaning.specs.Truth.{is_rule};
ghost use Rattle.verdicts.specs.Faults.{table_fault};
ghost use Rattle.rule_check.specs.Pieces.{IsLeastFalse};

use crate::blocks::plan_for;
use crate::pieces::{ROUND, round_failure};
use crate::trials::{Stretch, Trial};
use crew::Crew;
use edge::Gate;
use lists::NoMemory;
use outcomes::{OutcomeKind, Setting};
use std::alloc::Global;
use std::thread::Threads;
use verdicts::Refusal;
use vocab::Table;
use worlds::instance_count;

/// The least of many instances that is false of the rule, of round after round.
fn least_failure<R: Threads + Sync, K: OutcomeKind, G: Gate>(
    alloc: Global,
    crew: &Crew<R, G>,
    all: &Stretch<K>,
) -> Result<Option<u64>, NoMemory>
    ensures { IfOk result (λ found. IsLeastFalse (K.size all.now.trial.now.kind.now)
        all.now.trial.now.table.now all.now.trial.now.named.now all.now.from all.now.to found) }
{
    let (trial, plan) = (all.trial, all.plan);
    let mut from = all.from;
    while from < all.to {
        let to = from + (all.to - from).min(ROUND);
        let round = Stretch {
            trial,
            plan,
            from,
            to,
        };
        if let Some(instance) = round_failure(alloc, crew, &round)? {
            return Ok(Some(instance));
        }
        from = to;
    }
    Ok(None)
}

/// The least instance of the axiom that is false of the rule.
fn axiom_failure<R: Threads + Sync, K: OutcomeKind, G: Gate>(
    alloc: Global,
    crew: &Crew<R, G>,
    trial: &Trial<K>,
) -> Result<Option<u64>, NoMemory>
    ensures { IfOk result (λ found. IsLeastFalse (K.size trial.now.kind.now) trial.now.table.now
        trial.now.named.now 0 (instance_count (K.size trial.now.kind.now) trial.now.named.now.sentence)
        found) }
{
    let count = instance_count(trial.kind.space(), trial.named.sentence());
    let plan = plan_for(alloc, trial, count)?;
    let all = Stretch {
        trial,
        plan: &plan,
        from: 0,
        to: count,
    };
    least_failure(alloc, crew, &all)
}

/// The first of the axioms at some places that the rule does not satisfy, by its name, with its least failing
/// instance; None where it satisfies them all. Instances are tried in pieces of 4,096, with up to 256 pieces
/// in a round, which are shared among the workers, from 1 to 16. The answer is the same for every number of
/// workers.
pub fn check_rule<R: Threads + Sync, K: OutcomeKind, G: Gate>(
    alloc: Global,
    crew: &Crew<R, G>,
    setting: &Setting<K>,
    table: &Table,
    places: &[u32],
) -> Result<Option<Refusal>, NoMemory>
    requires rule { IsTrue (is_rule setting.now.study.now.size table.now) }
    requires places { IsTrue (list_all (λ k. nat_lt k (length setting.now.study.now.axioms)) places.now) }
    ensures { IfOk result (λ fault. fault ≡ table_fault setting.now.study.now table.now places.now) }
{
    let kind = setting.kind;
    let axioms = setting.study.axioms();
    for place in places {
        let named = axioms.get(*place as usize);
        let trial = Trial { kind, table, named };
        if let Some(instance) = axiom_failure(alloc, crew, &trial)? {
            let name = named.name();
            return Ok(Some(Refusal::Fails {
                axiom: name,
                instance,
            }));
        }
    }
    Ok(None)
}
