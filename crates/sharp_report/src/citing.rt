//! The instances that a story cites, from its lines.

ghost use Rattle.std.specs.Prelude.{◌≡◌, [], ◌++◌, IfOk, OnOk, IsTrue, List};
ghost use Rattle.std.specs.List.{list_all};
ghost use Rattle.meaning.specs.declared.stories.Lemma.{Lemma};
ghost use Rattle.sharp_verdicts.specs.Instances.{instances_of};
ghost use Rattle.sharp_report.specs.Cited.{reason_in, codes_of_line, names_of_line, has_axiom, Cites, IsCitedBySome};

use instance_stories::rising;
use lists::NoMemory;
use meaning::Reason;
use profiles::Space;
use report_lines::Line;
use sharp_verdicts::Instances;
use std::alloc::Global;
use told_instances::code_of_reason;
use vocab::Study;

/// The reason that a line of a story gives.
fn reason_in(line: &Line) -> Option<Reason>
    ensures { result ≡ reason_in line.now }
{
    match line {
        Line::So(_, reason) => Some(*reason),
        Line::Clash(reason) => Some(*reason),
        _ => None,
    }
}

/// Appends the number of the instance that a line cites.
pub(crate) fn cite(
    space: &Space,
    study: &Study,
    line: &Line,
    cited: &mut Vec<u64>,
) -> Result<(), NoMemory>
    requires size { study.now.size ≡ space.now }
    requires names { IsTrue (names_of_line study.now line.now) }
    ensures { OnOk result (cited.new.items ≡ cited.old.items ++ codes_of_line study.now line.now) }
{
    let Some(reason) = reason_in(line) else {
        return Ok(());
    };
    if let Some(code) = code_of_reason(space, study, &reason) {
        cited.push(code)?;
    }
    Ok(())
}

/// The instances of the numbers that a story cites.
pub(crate) fn listed(
    alloc: Global,
    study: &Study,
    cited: &mut Vec<u64>,
) -> Result<Instances, NoMemory>
    requires cited { IsCitedBySome study.now cited.old.items }
    ensures { IfOk result (λ instances. (story : List Lemma) → Cites study.now cited.old.items story [] →
        instances ≡ instances_of study.now story) }
{
    // Its contract says that the study is one.
    let _axioms = study.axioms();
    let instances = rising(alloc, cited)?;
    Ok(instances)
}

/// Whether some instance is one of the axiom at a place.
fn has_axiom(instances: &Instances, place: u32) -> bool
    ensures { result ≡ has_axiom instances.now place }
{
    instances
        .as_slice()
        .iter()
        .any(|cited| cited.axiom == place)
}

/// Whether there is an instance of each of some axioms.
pub(crate) fn have_axioms(instances: &Instances, core: &[u32]) -> bool
    ensures { result ≡ list_all (has_axiom instances.now) core.now }
{
    for place in core {
        if !has_axiom(instances, *place) {
            return false;
        }
    }
    true
}
