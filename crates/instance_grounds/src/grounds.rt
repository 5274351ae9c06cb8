//! The clauses of the study of some instances.

ghost use Rattle.std.specs.Prelude.{◌≡◌, IfOk};
ghost use Rattle.vocab.specs.Study.{IsStudy, Question};
ghost use Rattle.meaning.specs.StudyClauses.{study_clauses};
ghost use Rattle.search_logs.specs.Spent.{all_places};
ghost use Rattle.sharp_verdicts.specs.Totals.{IsWithinTotal};
ghost use Rattle.instance_stories.specs.Derived.{IsDerivedFrom};

use clause_form::{Ground, GroundFault};
use crew::Crew;
use edge::Gate;
use grounding::ground;
use lists::NoMemory;
use outcomes::{OutcomeKind, Setting};
use search_logs::all_places;
use sharp_verdicts::Instances;
use std::alloc::Global;
use std::thread::Threads;
use vocab::Study;

/// The clauses of all axioms of a study that is derived by some instances of another, which are never
/// refused: no instance of the other study is too wide, and all of them together are within the limits of a
/// list of clauses.
pub fn ground_derived<R: Threads + Sync, K: OutcomeKind, G: Gate>(
    alloc: Global,
    crew: &Crew<R, G>,
    setting: &Setting<K>,
    instances: &Instances,
    derived: &Study,
) -> Result<Ground, NoMemory>
    requires total { IsWithinTotal setting.now.study.now }
    requires derived { IsDerivedFrom setting.now.study.now instances.now derived.now }
    ensures { IfOk result
        (λ clauses. clauses ≡ study_clauses derived.now.size derived.now.axioms (all_places derived.now)) }
{
    let _instances = instances;
    // Its contract says that the study is one.
    let _axioms = setting.study.axioms();
    let all = all_places(alloc, derived)?;
    match ground(alloc, crew, setting.kind, derived, &all) {
        Ok(clauses) => Ok(clauses),
        Err(GroundFault::NoMemory) => Err(NoMemory),
        Err(GroundFault::Wide { .. }) => unreachable!(),
        Err(GroundFault::Full { .. }) => unreachable!(),
    }
}
