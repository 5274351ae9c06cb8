//! The first of some instances whose body is false of a table.

ghost use Rattle.std.specs.Prelude.{◌≡◌, IsTrue};
ghost use Rattle.std.specs.List.{list_all};
ghost use Rattle.meaning.specs.Truth.{is_rule};
ghost use Rattle.sharp_verdicts.specs.Instances.{same_instance, others_than, is_present, is_true_of};
ghost use Rattle.sharp_verdicts.specs.SharpFaults.{instances_fault};
ghost use Rattle.sharp_report.specs.Cited.{failing_at};

use outcomes::OutcomeKind;
use sharp_verdicts::{Cited, SharpRefusal};
use verdicts::Refusal;
use vocab::{Study, Table};
use worlds::first_failure;

/// Whether the body of an instance is true of a rule.
fn is_true<K: OutcomeKind>(kind: &K, study: &Study, table: &Table, cited: &Cited) -> bool
    requires size { study.now.size ≡ K.size kind.now }
    requires rule { IsTrue (is_rule study.now.size table.now) }
    requires present { IsTrue (is_present study.now cited.now) }
    ensures { result ≡ is_true_of study.now table.now cited.now }
{
    let axiom = study.axioms().get(cited.axiom as usize);
    first_failure(kind, table, axiom, cited.number, cited.number + 1).is_none()
}

/// What is said of an instance whose body is false.
fn fails(study: &Study, cited: &Cited) -> SharpRefusal
    requires present { IsTrue (is_present study.now cited.now) }
    ensures { result ≡ failing_at study.now cited.now }
{
    let axiom = study.axioms().get(cited.axiom as usize);
    SharpRefusal::Report(Refusal::Fails {
        axiom: axiom.name(),
        instance: cited.number,
    })
}

/// Whether two instances are the same.
pub(crate) fn is_same(cited: &Cited, other: &Cited) -> bool
    ensures { result ≡ same_instance cited.now other.now }
{
    cited == other
}

/// The first of the instances other than one whose body is false of a rule.
pub(crate) fn first_failing<K: OutcomeKind>(
    kind: &K,
    study: &Study,
    table: &Table,
    instances: &[Cited],
    left_out: &Cited,
) -> Option<SharpRefusal>
    requires size { study.now.size ≡ K.size kind.now }
    requires rule { IsTrue (is_rule study.now.size table.now) }
    requires present { IsTrue (list_all (is_present study.now) instances.now) }
    ensures { result ≡ instances_fault study.now table.now (others_than instances.now left_out.now) }
{
    for cited in instances {
        if !is_same(cited, left_out) && !is_true(kind, study, table, cited) {
            return Some(fails(study, cited));
        }
    }
    None
}
