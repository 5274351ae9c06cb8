//! The reduction of a refutation among instances.

ghost use Rattle.std.specs.Prelude.{◌≡◌, IfOk};
ghost use Rattle.sharp_verdicts.specs.Derived.{derived_study};
ghost use Rattle.instance_cores.specs.Cores.{AreInstancesCited, IsReducedTo};

use crate::refuted::RefutedStudy;
use core_reduce::{Reduced, reduce};
use crew::Crew;
use edge::Gate;
use instance_grounds::ground_derived;
use lists::NoMemory;
use outcomes::OutcomeKind;
use renumbering::renumber;
use search_logs::all_places;
use sharp_verdicts::Instances;
use std::alloc::Global;
use std::thread::Threads;
use vocab::Study;

/// Reduces a refutation over the study of the instances that its proof names: to a core of these, with a mark
/// for each.
pub fn reduce_instances<R: Threads + Sync, K: OutcomeKind, G: Gate>(
    alloc: Global,
    crew: &Crew<R, G>,
    refuted: &RefutedStudy<K>,
    instances: &Instances,
    derived: &Study,
) -> Result<Reduced, NoMemory>
    requires cited { AreInstancesCited refuted.now.setting.now.study.now
        refuted.now.refutation.now.clauses refuted.now.refutation.now.proof instances.now }
    requires derived { derived.now ≡ derived_study refuted.now.setting.now.study.now instances.now }
    ensures { IfOk result (IsReducedTo derived.now) }
{
    let setting = refuted.setting;
    let refutation = refuted.refutation;
    let clauses = ground_derived(alloc, crew, setting, instances, derived)?;
    let proof = renumber(
        alloc,
        refutation.clauses.clauses(),
        clauses.clauses(),
        &refutation.proof,
    )?;
    let all = all_places(alloc, derived)?;
    let reduced = reduce(alloc, setting.kind, derived, &all, clauses, &proof)?;
    Ok(reduced)
}
