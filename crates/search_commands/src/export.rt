//! The command `export`: reads a study, and writes its clauses.

ghost use Rattle.std.specs.Prelude.{◌≢◌, Some, Err, IfOk};
ghost use Rattle.words.specs.Words.{Export};
ghost use Rattle.answers.specs.Export.{IsWritten};
ghost use Rattle.answers.specs.Grounding.{OverClauses};
ghost use Rattle.command_parts.specs.Answers.{HasText, run_of, text_of};
ghost use Rattle.command_parts.specs.Answered.{Answers};

use clause_form::GroundFault;
use command_parts::{
    Answer, Opened, Stop, WholeSetting, WholeStudy, ground_all, open_study, over_whole,
};
use core_reduce::variables;
use crew::Crew;
use edge::{Gate, Shelf};
use kinds::over_kind;
use outcomes::{OutcomeKind, Setting};
use std::alloc::Global;
use std::thread::Threads;

/// The clauses of a study of a kind, or why they are refused.
fn export_over<R: Threads + Sync, K: OutcomeKind, G: Gate>(
    alloc: Global,
    crew: &Crew<R, G>,
    whole: WholeSetting<K>,
) -> Result<Answer, Stop>
    ensures row { IfOk result (λ answer. OverClauses whole.entry.study (run_of answer) (text_of answer)
        (IsWritten whole.entry.study (run_of answer) (text_of answer))) }
    ensures has_text { IfOk result HasText }
    ensures read { result ≢ Err Stop.ReadFault }
{
    let setting = Setting {
        kind: whole.kind,
        study: &whole.study,
    };
    match ground_all(alloc, crew, &setting) {
        Ok(clauses) => Ok(Answer::Clauses {
            size: whole.study.size(),
            variables: variables(whole.kind),
            clauses,
        }),
        Err(GroundFault::NoMemory) => Err(Stop::NoMemory),
        Err(fault) => Ok(Answer::NoClauses(whole.study, fault)),
    }
}

/// The clauses of a study, or why they are refused.
fn export_study<R: Threads + Sync, G: Gate>(
    alloc: Global,
    crew: &Crew<R, G>,
    whole: WholeStudy,
) -> Result<Answer, Stop>
    ensures row { IfOk result (λ answer. OverClauses whole.study (run_of answer) (text_of answer)
        (IsWritten whole.study (run_of answer) (text_of answer))) }
    ensures has_text { IfOk result HasText }
    ensures read { result ≢ Err Stop.ReadFault }
{
    over_whole!(whole, setting, export_over(alloc, crew, setting))
}

/// Reads the study, and makes the clauses of all its axioms. These are made among 1 to 16 workers, which
/// changes none; the gate is told of each piece of that work. Errors: `Stop::ReadFault` where the shelf
/// fails, and `Stop::NoMemory`.
pub fn export<R: Threads + Sync, S: Shelf, G: Gate>(
    alloc: Global,
    crew: &Crew<R, G>,
    shelf: &mut S,
    study: &str,
) -> Result<Answer, Stop>
    ensures { Answers (Some (Export study.now crew.now.workers)) (S.files shelf.old)
        (S.left shelf.old) (S.left shelf.new) (S.faults shelf.old) (S.faults shelf.new) result }
{
    match open_study(alloc, shelf, study) {
        Ok(Opened::Study(whole)) => { export_study(alloc, crew, whole) }
        Ok(Opened::Refused(answer)) => Ok(answer),
        Err(stop) => Err(stop),
    }
}
