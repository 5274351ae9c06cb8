//! The command `sharpen`: reads a study, and searches for a rule, or for a story that there is none, in
//! which no instance can be left out.

ghost use Rattle.std.specs.Prelude.{◌≢◌, Some, Err, IfOk};
ghost use Rattle.search_logs.specs.Spent.{AreSpentLogs};
ghost use Rattle.sharp_verdicts.specs.Totals.{IsWithinTotal};
ghost use Rattle.core_reduce.specs.Answers.{IsDecision, IsRefutation};
ghost use Rattle.words.specs.Words.{Sharpen};
ghost use Rattle.answers.specs.Grounding.{OverClauses};
ghost use Rattle.answers.specs.Sharpen.{Sharpens};
ghost use Rattle.command_parts.specs.Answers.{HasText, run_of, text_of};
ghost use Rattle.command_parts.specs.Answered.{Answers};

use clause_form::GroundFault;
use command_parts::{
    Answer, Opened, Stop, WholeSetting, WholeStudy, ground_all, open_study, over_whole,
};
use core_reduce::{Decision, Finding, Refutation};
use crew::Crew;
use edge::{Gate, Shelf};
use instance_cores::RefutedStudy;
use instance_totals::{TotalFault, check_total};
use kinds::over_kind;
use lists::NoMemory;
use outcomes::{OutcomeKind, Setting};
use search_logs::Logs;
use sharp_text::laws::right_sharp_verdicts_have_texts;
use std::alloc::Global;
use std::thread::Threads;
use verdicts::Verdict;

/// What a refutation is sharpened to, with the logs of the decision that found it.
fn sharpened<R: Threads + Sync, K: OutcomeKind, G: Gate>(
    alloc: Global,
    crew: &Crew<R, G>,
    whole: WholeSetting<K>,
    refutation: &Refutation,
    logs: Logs,
) -> Result<Answer, NoMemory>
    requires total { IsWithinTotal whole.study }
    requires refutation { IsRefutation whole.study logs refutation.now }
    requires spent { AreSpentLogs whole.study logs }
    ensures row { IfOk result (λ answer. Sharpens whole.entry.study (run_of answer) (text_of answer)) }
    ensures has_text { IfOk result HasText }
{
    // Its contract says that a right sharp verdict has a text.
    right_sharp_verdicts_have_texts();
    let setting = Setting {
        kind: whole.kind,
        study: &whole.study,
    };
    let refuted = RefutedStudy {
        setting: &setting,
        refutation,
    };
    let sharp = sharpen::sharpen(alloc, crew, &refuted)?;
    Ok(Answer::Sharp(whole.study, sharp, logs))
}

/// What a decision comes to: an impossibility is sharpened, and each other verdict is reported as `decide`
/// reports it.
fn answer_of<R: Threads + Sync, K: OutcomeKind, G: Gate>(
    alloc: Global,
    crew: &Crew<R, G>,
    whole: WholeSetting<K>,
    decision: Decision,
) -> Result<Answer, NoMemory>
    requires total { IsWithinTotal whole.study }
    requires decision { IsDecision whole.study decision }
    ensures row { IfOk result (λ answer. Sharpens whole.entry.study (run_of answer) (text_of answer)) }
    ensures has_text { IfOk result HasText }
{
    let Decision { finding, logs } = decision;
    match finding {
        Finding::Possible(table) => {
            Ok(Answer::Report(whole.study, Verdict::Possible(table), logs))
        }
        Finding::Impossible(refutation) => sharpened(alloc, crew, whole, &refutation, logs),
        Finding::Undecided => Ok(Answer::Report(whole.study, Verdict::Undecided, logs)),
    }
}

/// Decides a study of a kind and sharpens an impossibility, or says why its clauses or all its instances
/// together are refused.
fn sharpen_over<R: Threads + Sync, K: OutcomeKind, G: Gate>(
    alloc: Global,
    crew: &Crew<R, G>,
    whole: WholeSetting<K>,
) -> Result<Answer, Stop>
    ensures row { IfOk result (λ answer. OverClauses whole.entry.study (run_of answer) (text_of answer)
        (Sharpens whole.entry.study (run_of answer) (text_of answer))) }
    ensures has_text { IfOk result HasText }
    ensures read { result ≢ Err Stop.ReadFault }
{
    let setting = Setting {
        kind: whole.kind,
        study: &whole.study,
    };
    let clauses = match ground_all(alloc, crew, &setting) {
        Ok(clauses) => clauses,
        Err(GroundFault::NoMemory) => return Err(Stop::NoMemory),
        Err(fault) => return Ok(Answer::NoClauses(whole.study, fault)),
    };
    match check_total(alloc, crew, &setting) {
        Ok(()) => {}
        Err(TotalFault::Over(counts)) => return Ok(Answer::OverTotal(counts)),
        Err(TotalFault::NoMemory) => return Err(Stop::NoMemory),
    }
    let decision = core_reduce::decide(alloc, whole.kind, &whole.study, clauses)?;
    Ok(answer_of(alloc, crew, whole, decision)?)
}

/// Decides a study and sharpens an impossibility, or says why its clauses or all its instances together are
/// refused.
fn sharpen_study<R: Threads + Sync, G: Gate>(
    alloc: Global,
    crew: &Crew<R, G>,
    whole: WholeStudy,
) -> Result<Answer, Stop>
    ensures row { IfOk result (λ answer. OverClauses whole.study (run_of answer) (text_of answer)
        (Sharpens whole.study (run_of answer) (text_of answer))) }
    ensures has_text { IfOk result HasText }
    ensures read { result ≢ Err Stop.ReadFault }
{
    over_whole!(whole, setting, sharpen_over(alloc, crew, setting))
}

/// Reads the study, and decides it as `decide` does; of an impossibility it tells a story in which each
/// instance of an axiom is needed, with a rule at which all the others hold, or marked open where the search
/// for one spent the study's limit. The clauses of the axioms are made, and its instances counted, among 1 to
/// 16 workers, which changes none; the gate is told of each piece of that work. Errors: `Stop::ReadFault`
/// where the shelf fails, and `Stop::NoMemory`.
pub fn sharpen<R: Threads + Sync, S: Shelf, G: Gate>(
    alloc: Global,
    crew: &Crew<R, G>,
    shelf: &mut S,
    study: &str,
) -> Result<Answer, Stop>
    ensures { Answers (Some (Sharpen study.now crew.now.workers)) (S.files shelf.old)
        (S.left shelf.old) (S.left shelf.new) (S.faults shelf.old) (S.faults shelf.new) result }
{
    match open_study(alloc, shelf, study) {
        Ok(Opened::Study(whole)) => { sharpen_study(alloc, crew, whole) }
        Ok(Opened::Refused(answer)) => Ok(answer),
        Err(stop) => Err(stop),
    }
}
