//! The first instance of a sentence that is false of a rule.

ghost use Rattle.std.specs.Prelude.{◌≡◌, ◌≤◌, ◌-◌, ◌^◌, min, IsTrue, MatchOption};
ghost use Rattle.vocab.specs.Limits.{instance_count};
ghost use Rattle.vocab.specs.Study.{is_sentence};
ghost use Rattle.vocab.specs.Tree.{tree_of};
ghost use Rattle.meaning.specs.Instances.{AreInstancesTrue, IsFirstFailure};
ghost use Rattle.meaning.specs.Truth.{is_rule};
ghost use Rattle.worlds.specs.Conditions.{IsEvaluable};
ghost use Rattle.worlds.specs.Walk.{AreTrueIn, IsFirstFalseIn};

use crate::tarski::{KindRule, is_true};
use outcomes::OutcomeKind;
use profiles::Space;
use vocab::{Axiom, Env, Formula, Table};

/// How many instances the leading universals of a formula make. The count stands still at the end of `u64`.
pub fn instance_count(space: &Space, formula: &Formula) -> u64
    ensures { result ≡ min (instance_count space.now (tree_of formula.now)) (2 ^ 64 - 1) }
{
    match formula {
        Formula::All(sort, inner) => {
            let count = u64::from(space.size().sort_len(*sort));
            count.saturating_mul(instance_count(space, inner))
        }
        _ => 1,
    }
}

/// The least instance from `from` up to `to` whose body is false of the rule, where the free variables of the
/// formula have the values of the environment. The instances of one value of the outermost universal are a
/// block, and follow those of the value before it.
fn first_false<K: OutcomeKind>(
    rule: &KindRule<K>,
    space: &Space,
    formula: &Formula,
    env: &Env,
    from: u64,
    to: u64,
) -> Option<u64>
    requires same { space.now ≡ K.size rule.now.kind.now }
    requires fits { IsEvaluable space.now (tree_of formula.now) env.now }
    requires within { to ≤ instance_count space.now (tree_of formula.now) }
    ensures { let table = rule.now.table.now in
        MatchOption result (AreTrueIn space.now table (tree_of formula.now) env.now from to)
        (IsFirstFalseIn space.now table (tree_of formula.now) env.now from to) }
{
    if from >= to {
        return None;
    }
    match formula {
        Formula::All(sort, inner) => {
            let count = space.size().sort_len(*sort);
            let block = instance_count(space, inner);
            for value in (from / block) as u32..count {
                let start = u64::from(value).saturating_mul(block);
                if start >= to {
                    return None;
                }
                let (low, high) = (from.saturating_sub(start), block.min(to - start));
                let values = env.with(value);
                if let Some(instance) = first_false(rule, space, inner, &values, low, high) {
                    return Some(start + instance);
                }
            }
            None
        }
        _ => {
            if is_true(rule, formula, env) {
                None
            } else {
                Some(from)
            }
        }
    }
}

/// The least instance of the axiom from `from` up to `to` that is false of the rule. No memory is taken.
pub fn first_failure<K: OutcomeKind>(
    kind: &K,
    table: &Table,
    named: &Axiom,
    from: u64,
    to: u64,
) -> Option<u64>
    requires rule { IsTrue (is_rule (K.size kind.now) table.now) }
    requires sentence { IsTrue (is_sentence (K.size kind.now) named.now) }
    requires within { to ≤ instance_count (K.size kind.now) named.now.sentence }
    ensures { MatchOption result (AreInstancesTrue (K.size kind.now) table.now named.now.sentence from to)
        (IsFirstFailure (K.size kind.now) table.now named.now.sentence from to) }
{
    let rule = KindRule { kind, table };
    first_false(
        &rule,
        kind.space(),
        named.sentence(),
        &Env::none(),
        from,
        to,
    )
}
