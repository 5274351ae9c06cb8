//! The command `proof`: reads a study, and searches for a refutation of its clauses.

ghost use Rattle.std.specs.Prelude.{◌≢◌, Some, Err, IfOk};
ghost use Rattle.core_reduce.specs.Proofs.{IsProvedRight};
ghost use Rattle.words.specs.Words.{Proof};
ghost use Rattle.answers.specs.Proof.{Proves};
ghost use Rattle.answers.specs.Grounding.{OverClauses};
ghost use Rattle.command_parts.specs.Answers.{HasText, run_of, text_of};
ghost use Rattle.command_parts.specs.Answered.{Answers};

use clause_form::GroundFault;
use command_parts::{
    Answer, Opened, Stop, WholeSetting, WholeStudy, ground_all, open_study, over_whole,
};
use core_reduce::{Proved, Shown};
use crew::Crew;
use edge::{Gate, Shelf};
use kinds::over_kind;
use outcomes::{OutcomeKind, Setting};
use std::alloc::Global;
use std::thread::Threads;
use verdicts::Verdict;
use vocab::Study;

/// What is shown of a search over the clauses of a study.
fn answer_of(study: &Study, proved: Proved) -> Answer
    requires { IsProvedRight study.now proved }
    ensures shown { Proves study.now (run_of result) (text_of result) }
    ensures has_text { HasText result }
{
    let _ = study;
    let Proved { shown, logs } = proved;
    match shown {
        Shown::Possible(table) => Answer::Claim(Verdict::Possible(table), logs),
        Shown::Refuted(lines) => Answer::Refutation(lines),
        Shown::Undecided => Answer::Claim(Verdict::Undecided, logs),
    }
}

/// Searches over the clauses of a study of a kind, or says why these are refused.
fn prove_over<R: Threads + Sync, K: OutcomeKind, G: Gate>(
    alloc: Global,
    crew: &Crew<R, G>,
    whole: WholeSetting<K>,
) -> Result<Answer, Stop>
    ensures row { IfOk result (λ answer. OverClauses whole.entry.study (run_of answer) (text_of answer)
        (Proves whole.entry.study (run_of answer) (text_of answer))) }
    ensures has_text { IfOk result HasText }
    ensures read { result ≢ Err Stop.ReadFault }
{
    let setting = Setting {
        kind: whole.kind,
        study: &whole.study,
    };
    let clauses = match ground_all(alloc, crew, &setting) {
        Ok(clauses) => clauses,
        Err(GroundFault::NoMemory) => return Err(Stop::NoMemory),
        Err(fault) => return Ok(Answer::NoClauses(whole.study, fault)),
    };
    let proved = core_reduce::prove(alloc, whole.kind, &whole.study, &clauses)?;
    Ok(answer_of(&whole.study, proved))
}

/// Searches over the clauses of a study, or says why these are refused.
fn prove_study<R: Threads + Sync, G: Gate>(
    alloc: Global,
    crew: &Crew<R, G>,
    whole: WholeStudy,
) -> Result<Answer, Stop>
    ensures row { IfOk result (λ answer. OverClauses whole.study (run_of answer) (text_of answer)
        (Proves whole.study (run_of answer) (text_of answer))) }
    ensures has_text { IfOk result HasText }
    ensures read { result ≢ Err Stop.ReadFault }
{
    over_whole!(whole, setting, prove_over(alloc, crew, setting))
}

/// Reads the study, and searches over the clauses that `export` writes of it: a trimmed refutation of them,
/// or that a rule satisfies all axioms, or neither where the search spent the study's limit. The clauses are
/// made among 1 to 16 workers, which changes none; the gate is told of each piece of that work. Errors:
/// `Stop::ReadFault` where the shelf fails, and `Stop::NoMemory`.
pub fn proof<R: Threads + Sync, S: Shelf, G: Gate>(
    alloc: Global,
    crew: &Crew<R, G>,
    shelf: &mut S,
    study: &str,
) -> Result<Answer, Stop>
    ensures { Answers (Some (Proof study.now crew.now.workers)) (S.files shelf.old)
        (S.left shelf.old) (S.left shelf.new) (S.faults shelf.old) (S.faults shelf.new) result }
{
    match open_study(alloc, shelf, study) {
        Ok(Opened::Study(whole)) => { prove_study(alloc, crew, whole) }
        Ok(Opened::Refused(answer)) => Ok(answer),
        Err(stop) => Err(stop),
    }
}
