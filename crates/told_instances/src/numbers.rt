//! The number of the instance that a reason cites.

ghost use Rattle.std.specs.Prelude.{◌≡◌, [], ◌∷◌, IfSome, MatchOption, IsTrue};
ghost use Rattle.vocab.specs.Tree.{tree_of};
ghost use Rattle.told_instances.specs.Numbered.{number_from, IsNumbered};
ghost use Rattle.told_instances.specs.Told.{codes_in, names_instance, cited_instance, IsSmallInstance};

use instance_stories::code_of;
use meaning::Reason;
use profiles::Space;
use sharp_verdicts::Cited;
use vocab::{Env, Formula, Study};
use worlds::instance_count;

/// The number of an instance by its values from a level on.
fn number_from(space: &Space, formula: &Formula, values: &Env, level: u8) -> u64
    requires { IsNumbered space.now (tree_of formula.now) values.now level }
    ensures { result ≡ number_from space.now (tree_of formula.now) values.now level }
{
    match formula {
        Formula::All(_, inner) => {
            // Its contract says that there are at most 255 values.
            let _count = values.len();
            let block = instance_count(space, inner);
            let rest = number_from(space, inner, values, level + 1);
            u64::from(values.get(level)) * block + rest
        }
        _ => 0,
    }
}

/// The instance that a reason cites, if it cites one. The reason names what there is.
pub fn instance_of_reason(space: &Space, study: &Study, reason: &Reason) -> Option<Cited>
    requires size { study.now.size ≡ space.now }
    requires reason { IsTrue (names_instance study.now reason.now) }
    ensures value { result ≡ cited_instance study.now reason.now }
    ensures small { IfSome result IsSmallInstance }
{
    match reason {
        Reason::Axiom(k, values) => {
            let sentence = study.axioms().get(*k as usize).sentence();
            let number = number_from(space, sentence, values, 0);
            Some(Cited { axiom: *k, number })
        }
        Reason::Outcome(_) | Reason::Lemma(_) => None,
    }
}

/// The number of the instance that a reason cites, if it cites one. The reason names what there is.
pub fn code_of_reason(space: &Space, study: &Study, reason: &Reason) -> Option<u64>
    requires size { study.now.size ≡ space.now }
    requires reason { IsTrue (names_instance study.now reason.now) }
    ensures { MatchOption result
        (codes_in study.now reason.now ≡ [])
        (λ code. codes_in study.now reason.now ≡ code ∷ []) }
{
    match instance_of_reason(space, study, reason) {
        Some(cited) => Some(code_of(cited)),
        None => None,
    }
}
