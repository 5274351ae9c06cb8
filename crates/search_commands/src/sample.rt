//! The command `sample`: decides the study of a number, and says so in one line.

ghost use Rattle.std.specs.Prelude.{◌≡◌, ◌≢◌, Err, IfOk, length};
ghost use Rattle.core_reduce.specs.Answers.{IsDecision};
ghost use Rattle.answers.specs.Grounding.{OverClauses, all_clauses};
ghost use Rattle.answers.specs.Sample.{IsSampled, IsSummed};
ghost use Rattle.command_parts.specs.Answers.{HasText, run_of, text_of};

use crate::decide::verdict_of;
use clause_form::GroundFault;
use command_parts::{Answer, Stop, ground_all};
use core_reduce::Decision;
use crew::Crew;
use edge::Gate;
use kinds::over_kind;
use lists::NoMemory;
use outcomes::{OutcomeKind, Setting};
use std::alloc::Global;
use std::thread::Threads;
use vocab::Study;

/// The summary of what a decision came to.
fn summary_of<K: OutcomeKind>(
    alloc: Global,
    kind: &K,
    number: u32,
    study: Study,
    clauses: u32,
    decision: Decision,
) -> Result<Answer, NoMemory>
    requires size { study.size ≡ K.size kind.now }
    requires decision { IsDecision study decision }
    requires clauses { clauses ≡ length (all_clauses study) }
    ensures summed { IfOk result (λ answer. IsSummed number study (run_of answer) (text_of answer)) }
    ensures has_text { IfOk result HasText }
{
    let setting = Setting {
        kind,
        study: &study,
    };
    let found = verdict_of(alloc, &setting, decision)?;
    Ok(Answer::Summary {
        number,
        study,
        clauses,
        verdict: found.verdict,
        logs: found.logs,
    })
}

/// Decides the study of a number, of a kind, or says why its clauses are refused.
fn sample_over<R: Threads + Sync, K: OutcomeKind, G: Gate>(
    alloc: Global,
    crew: &Crew<R, G>,
    kind: &K,
    number: u32,
    study: Study,
) -> Result<Answer, Stop>
    requires size { study.size ≡ K.size kind.now }
    ensures row { IfOk result (λ answer. OverClauses study (run_of answer) (text_of answer)
        (IsSummed number study (run_of answer) (text_of answer))) }
    ensures has_text { IfOk result HasText }
    ensures read { result ≢ Err Stop.ReadFault }
{
    let setting = Setting {
        kind,
        study: &study,
    };
    let clauses = match ground_all(alloc, crew, &setting) {
        Ok(clauses) => clauses,
        Err(GroundFault::NoMemory) => return Err(Stop::NoMemory),
        Err(fault) => return Ok(Answer::NoClauses(study, fault)),
    };
    let count = clauses.clauses().len();
    let decision = core_reduce::decide(alloc, kind, &study, clauses)?;
    Ok(summary_of(alloc, kind, number, study, count, decision)?)
}

/// Decides the study of a number, or says why its clauses are refused.
fn sample_study<R: Threads + Sync, G: Gate>(
    alloc: Global,
    crew: &Crew<R, G>,
    number: u32,
    study: Study,
) -> Result<Answer, Stop>
    ensures row { IfOk result (λ answer. OverClauses study (run_of answer) (text_of answer)
        (IsSummed number study (run_of answer) (text_of answer))) }
    ensures has_text { IfOk result HasText }
    ensures read { result ≢ Err Stop.ReadFault }
{
    over_kind!(
        study.size(),
        kind,
        sample_over(alloc, crew, &kind, number, study)
    )
}

/// Decides the study of a number with one worker; the gate is told of each piece of its work. No file is
/// read. Error: `Stop::NoMemory` alone.
pub fn sample<R: Threads + Sync, G: Gate>(
    rt: &R,
    alloc: Global,
    gate: &G,
    number: u32,
) -> Result<Answer, Stop>
    ensures row { IfOk result (λ answer. IsSampled number (run_of answer) (text_of answer)) }
    ensures has_text { IfOk result HasText }
    ensures read { result ≢ Err Stop.ReadFault }
{
    let study = samples::sample(alloc, number)?;
    let crew = Crew {
        rt,
        gate,
        workers: 1,
    };
    sample_study(alloc, &crew, number, study)
}
