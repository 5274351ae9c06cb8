//! The values that an instance gives the leading universals of its axiom.

ghost use Rattle.std.specs.Prelude.{◌≡◌, ◌+◌, ◌<◌, ◌≤◌, ◌++◌, length, IsTrue};
ghost use Rattle.vocab.specs.Formula.{prefix_of};
ghost use Rattle.vocab.specs.Limits.{instance_count};
ghost use Rattle.vocab.specs.Tree.{tree_of};
ghost use Rattle.meaning.specs.Instances.{instance_values};
ghost use Rattle.sharp_verdicts.specs.Instances.{is_present, values_at};

use profiles::Space;
use sharp_verdicts::Cited;
use vocab::{Env, Formula, Study};
use worlds::instance_count;

/// Appends the values that an instance gives the leading universals of a formula.
fn with_values(space: &Space, formula: &Formula, number: u64, values: Env) -> Env
    requires few { length values + length (prefix_of (tree_of formula.now)) ≤ 12 }
    requires within { number < instance_count space.now (tree_of formula.now) }
    requires number { number < 40000000 }
    ensures { result ≡ values ++ instance_values space.now (tree_of formula.now) number }
{
    match formula {
        Formula::All(_, inner) => {
            let block = instance_count(space, inner);
            let value = (number / block) as u32;
            with_values(space, inner, number % block, values.with(value))
        }
        _ => values,
    }
}

/// The values of an instance of a study.
pub fn values_of(space: &Space, study: &Study, cited: Cited) -> Env
    requires size { study.now.size ≡ space.now }
    requires present { IsTrue (is_present study.now cited) }
    ensures { result ≡ values_at study.now cited }
{
    let sentence = study.axioms().get(cited.axiom as usize).sentence();
    with_values(space, sentence, cited.number, Env::none())
}
