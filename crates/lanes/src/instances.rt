//! The values that an instance gives to the leading universals of a sentence.

ghost use Rattle.std.specs.Prelude.{◌≡◌, ◌≤◌, ◌<◌, ◌+◌, ◌*◌, ◌++◌, length, IsTrue};
ghost use Rattle.vocab.specs.Limits.{bases_of, instance_count};
ghost use Rattle.vocab.specs.Formula.{body_of};
ghost use Rattle.vocab.specs.Size.{sort_count};
ghost use Rattle.vocab.specs.Study.{is_sentence};
ghost use Rattle.vocab.specs.Tree.{tree_of};
ghost use Rattle.meaning.specs.Instances.{instance_values};
ghost use Rattle.worlds.specs.Conditions.{IsFormulaAt};
ghost use Rattle.meaning.specs.Space.{digits_of};
ghost use Rattle.lanes.specs.Lanes.{IsPlan, strides};

use crate::telling::Plan;
use meaning::laws::numbers_are_digits;
use outcomes::OutcomeKind;
use profiles::Space;
use profiles::laws::spaces_have_sizes;
use vocab::{Axiom, Env, Formula, Sort};
use worlds::instance_count;
use worlds::laws::bodies_have_values;

/// The values of the environment, and then those that an instance of the formula gives its leading
/// universals: the digits of its number, the first most significant.
fn values_after(space: &Space, formula: &Formula, env: &Env, number: u64) -> Env
    requires room { length env.now + length (bases_of space.now (tree_of formula.now)) ≤ 12 }
    requires few { instance_count space.now (tree_of formula.now) ≤ 40000000 }
    requires within { number < instance_count space.now (tree_of formula.now) }
    ensures { result ≡ env.now ++ digits_of (bases_of space.now (tree_of formula.now)) number }
{
    match formula {
        Formula::All(_, inner) => {
            let block = instance_count(space, inner);
            let values = env.with((number / block) as u32);
            values_after(space, inner, &values, number % block)
        }
        _ => *env,
    }
}

/// The values that an instance of an axiom gives its leading universals.
pub fn values_of<K: OutcomeKind>(kind: &K, named: &Axiom, number: u64) -> Env
    requires sentence { IsTrue (is_sentence (K.size kind.now) named.now) }
    requires few { instance_count (K.size kind.now) named.now.sentence ≤ 40000000 }
    requires within { number < instance_count (K.size kind.now) named.now.sentence }
    ensures values { result ≡ instance_values (K.size kind.now) named.now.sentence number }
    ensures fits { IsFormulaAt (K.size kind.now) (body_of named.now.sentence) result }
{
    bodies_have_values();
    numbers_are_digits();
    values_after(kind.space(), named.sentence(), &Env::none(), number)
}

/// How many instances a value of a universal is worth.
fn worth(space: &Space, sort: Sort, inner: &Formula) -> u32
    requires { sort_count space.now sort * instance_count space.now (tree_of inner.now) ≤ 40000000 }
    ensures value { result ≡ instance_count space.now (tree_of inner.now) }
    ensures few { instance_count space.now (tree_of inner.now) ≤ 40000000 }
{
    spaces_have_sizes(space);
    instance_count(space, inner) as u32
}

/// The values of the environment, and then how many instances each value of the leading universals of a formula
/// is worth.
fn strides_after(space: &Space, formula: &Formula, env: &Env) -> Env
    requires room { length env.now + length (bases_of space.now (tree_of formula.now)) ≤ 12 }
    requires few { instance_count space.now (tree_of formula.now) ≤ 40000000 }
    ensures { result ≡ env.now ++ strides (bases_of space.now (tree_of formula.now)) }
{
    match formula {
        Formula::All(sort, inner) => {
            let block = worth(space, *sort, inner);
            strides_after(space, inner, &env.with(block))
        }
        _ => *env,
    }
}

/// How many instances each value of the leading universals of an axiom is worth.
pub(crate) fn strides_of<K: OutcomeKind>(kind: &K, named: &Axiom) -> Env
    requires sentence { IsTrue (is_sentence (K.size kind.now) named.now) }
    requires few { instance_count (K.size kind.now) named.now.sentence ≤ 40000000 }
    ensures { result ≡ strides (bases_of (K.size kind.now) named.now.sentence) }
{
    strides_after(kind.space(), named.sentence(), &Env::none())
}

/// The same values as those of `values_of`, by what the plan of the axiom keeps.
pub fn values_at<K: OutcomeKind>(kind: &K, named: &Axiom, plan: &Plan, number: u64) -> Env
    requires sentence { IsTrue (is_sentence (K.size kind.now) named.now) }
    requires few { instance_count (K.size kind.now) named.now.sentence ≤ 40000000 }
    requires plan { IsPlan (K.size kind.now) named.now.sentence plan.now }
    requires within { number < instance_count (K.size kind.now) named.now.sentence }
    ensures values { result ≡ instance_values (K.size kind.now) named.now.sentence number }
    ensures fits { IsFormulaAt (K.size kind.now) (body_of named.now.sentence) result }
{
    let _ = kind;
    let _ = named;
    bodies_have_values();
    numbers_are_digits();
    let mut values = Env::none();
    let mut rest = number as u32;
    for k in 0..plan.strides.len() {
        let stride = plan.strides.get(k);
        values = values.with(rest / stride);
        rest %= stride;
    }
    values
}
