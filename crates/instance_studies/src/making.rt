//! The study of some instances.

ghost use Rattle.std.specs.Prelude.{◌≡◌, ◌≤◌, ◌∷◌, ◌++◌, [], length, IfOk, OnOk, IsTrue};
ghost use Rattle.sharp_verdicts.specs.Derived.{axiom_of, derived_study};
ghost use Rattle.sharp_verdicts.specs.Instances.{is_present};
ghost use Rattle.instance_studies.specs.Instances.{AreInstancesOf};

use crate::names::name_of;
use crate::values::values_of;
use closing::close;
use lists::NoMemory;
use profiles::Space;
use sharp_verdicts::{Cited, Instances};
use std::alloc::Global;
use vocab::{Axiom, Axioms, Study};

/// Instances of a study, no more than a study may have axioms, beside the profiles of the study's size.
#[derive(Drop)]
pub struct StudyInstances<'a> {
    pub space: &'a Space,
    pub study: &'a Study,
    pub cited: &'a Instances,
    pub ghost same: { study.now.size ≡ space.now },
    pub ghost own: { AreInstancesOf study.now cited.now },
}

/// Appends an instance of a study as an axiom of its own.
fn push_instance(
    alloc: Global,
    instances: &StudyInstances,
    cited: Cited,
    axioms: &mut Axioms,
) -> Result<(), NoMemory>
    requires present { IsTrue (is_present instances.now.study.now cited) }
    requires few { length axioms.old ≤ 4000000 }
    ensures { OnOk result (axioms.new ≡
        axioms.old ++ axiom_of instances.now.study.now (length axioms.old) cited ∷ []) }
{
    let study = instances.study;
    let name = name_of(alloc, axioms.len() as u32)?;
    let values = values_of(instances.space, study, cited);
    let body = close(alloc, study.axioms().get(cited.axiom as usize), &values)?;
    axioms.push(Axiom::new(name, body))?;
    Ok(())
}

/// The study whose axioms are these instances, each an axiom of its own, named `i0`, `i1` and so on.
pub fn derive(alloc: Global, instances: &StudyInstances) -> Result<Study, NoMemory>
    ensures { IfOk result
        (λ derived. derived ≡ derived_study instances.now.study.now instances.now.cited.now) }
{
    let study = instances.study;
    // Its contract says that the study is one.
    let _axioms = study.axioms();
    let mut axioms = Axioms::new(alloc);
    for cited in instances.cited.as_slice() {
        push_instance(alloc, instances, *cited, &mut axioms)?;
    }
    Ok(Study::new(study.size(), study.conflicts(), axioms))
}
