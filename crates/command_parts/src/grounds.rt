//! The clauses of all axioms of a study.

ghost use Rattle.std.specs.Prelude.{◌≡◌, None, IfOk, IfErr};
ghost use Rattle.clause_form.specs.Refusals.{IsRefused};
ghost use Rattle.meaning.specs.StudyClauses.{study_clauses};
ghost use Rattle.search_logs.specs.Spent.{all_places};
ghost use Rattle.answers.specs.Grounding.{clauses_fault};

use clause_form::{Ground, GroundFault};
use crew::Crew;
use edge::Gate;
use grounding::ground;
use kinds::over_kind;
use outcomes::{OutcomeKind, Setting};
use search_logs::all_places;
use std::alloc::Global;
use std::thread::Threads;
use vocab::Study;

/// The clauses of all axioms of a study, over its kind, made among workers, which changes none of them.
/// Error: the first refusal, or want of memory.
pub fn ground_all<R: Threads + Sync, K: OutcomeKind, G: Gate>(
    alloc: Global,
    crew: &Crew<R, G>,
    setting: &Setting<K>,
) -> Result<Ground, GroundFault>
    ensures clauses { IfOk result (λ made. made ≡ study_clauses setting.now.study.now.size
        setting.now.study.now.axioms (all_places setting.now.study.now)) }
    ensures none { IfOk result (λ made. clauses_fault setting.now.study.now ≡ None) }
    ensures fault { IfErr result (λ fault. IsRefused fault (clauses_fault setting.now.study.now)) }
{
    let Ok(all) = all_places(alloc, setting.study) else {
        return Err(GroundFault::NoMemory);
    };
    ground(alloc, crew, setting.kind, setting.study, &all)
}

/// The same of a study, over its kind.
pub fn ground_study<R: Threads + Sync, G: Gate>(
    alloc: Global,
    crew: &Crew<R, G>,
    study: &Study,
) -> Result<Ground, GroundFault>
    ensures clauses { IfOk result (λ made. made ≡
        study_clauses study.now.size study.now.axioms (all_places study.now)) }
    ensures none { IfOk result (λ made. clauses_fault study.now ≡ None) }
    ensures fault { IfErr result (λ fault. IsRefused fault (clauses_fault study.now)) }
{
    over_kind!(
        study.size(),
        kind,
        {
            let setting = Setting { kind: &kind, study };
            ground_all(alloc, crew, &setting)
        }
    )
}
