//! The command `decide`: reads a study, and searches for a rule, or for a story that there is none.

ghost use Rattle.std.specs.Prelude.{◌≡◌, ◌≢◌, Some, Err, IfOk};
ghost use Rattle.verdicts.specs.declared.verdicts.Verdict.TheVariants.{Impossible};
ghost use Rattle.core_reduce.specs.Answers.{IsDecision};
ghost use Rattle.words.specs.Words.{Decide};
ghost use Rattle.answers.specs.Decide.{IsReported};
ghost use Rattle.answers.specs.Grounding.{OverClauses};
ghost use Rattle.command_parts.specs.Answers.{HasText, run_of, text_of};
ghost use Rattle.command_parts.specs.Answered.{Answers};
ghost use Rattle.search_commands.specs.Found.{IsVerdict};

use adopt::{Adopted, tell};
use clause_form::GroundFault;
use command_parts::{
    Answer, Opened, Stop, WholeSetting, WholeStudy, ground_all, open_study, over_whole,
};
use core_reduce::{Decision, Finding, Reduced};
use crew::Crew;
use edge::{Gate, Shelf};
use kinds::over_kind;
use lists::NoMemory;
use outcomes::{OutcomeKind, Setting};
use search_logs::Logs;
use std::alloc::Global;
use std::thread::Threads;
use verdicts::Verdict;

/// A verdict, and the searches that spent their limit on the way to it.
#[derive(Drop)]
pub(crate) struct Found {
    pub verdict: Verdict,
    pub logs: Logs,
}

/// The verdict of a refutation that was told.
pub(crate) fn impossible(told: Adopted) -> Found
    ensures verdict { result.verdict ≡ Impossible told.core told.story told.witnesses }
    ensures logs { result.logs ≡ told.logs }
{
    let Adopted {
        core,
        story,
        witnesses,
        logs,
    } = told;
    Found {
        verdict: Verdict::Impossible {
            core,
            story,
            witnesses,
        },
        logs,
    }
}

/// The verdict of a decision, with its logs.
pub(crate) fn verdict_of<K: OutcomeKind>(
    alloc: Global,
    setting: &Setting<K>,
    decision: Decision,
) -> Result<Found, NoMemory>
    requires { IsDecision setting.now.study.now decision }
    ensures right { IfOk result (λ found. IsVerdict setting.now.study.now found.logs found.verdict) }
    ensures logs { IfOk result (λ found. found.logs ≡ decision.logs) }
{
    let Decision { finding, logs } = decision;
    match finding {
        Finding::Possible(table) => Ok(Found {
            verdict: Verdict::Possible(table),
            logs,
        }),
        Finding::Impossible(refutation) => {
            let told = tell(alloc, setting, Reduced { refutation, logs })?;
            Ok(impossible(told))
        }
        Finding::Undecided => Ok(Found {
            verdict: Verdict::Undecided,
            logs,
        }),
    }
}

/// The report of what a decision came to.
fn report_of<K: OutcomeKind>(
    alloc: Global,
    whole: WholeSetting<K>,
    decision: Decision,
) -> Result<Answer, NoMemory>
    requires { IsDecision whole.study decision }
    ensures reported { IfOk result
        (λ answer. IsReported whole.entry.study (run_of answer) (text_of answer)) }
    ensures has_text { IfOk result HasText }
{
    let setting = Setting {
        kind: whole.kind,
        study: &whole.study,
    };
    let found = verdict_of(alloc, &setting, decision)?;
    Ok(Answer::Report(whole.study, found.verdict, found.logs))
}

/// Decides a study of a kind, or says why its clauses are refused.
fn decide_over<R: Threads + Sync, K: OutcomeKind, G: Gate>(
    alloc: Global,
    crew: &Crew<R, G>,
    whole: WholeSetting<K>,
) -> Result<Answer, Stop>
    ensures row { IfOk result (λ answer. OverClauses whole.entry.study (run_of answer) (text_of answer)
        (IsReported whole.entry.study (run_of answer) (text_of answer))) }
    ensures has_text { IfOk result HasText }
    ensures read { result ≢ Err Stop.ReadFault }
{
    let setting = Setting {
        kind: whole.kind,
        study: &whole.study,
    };
    let clauses = match ground_all(alloc, crew, &setting) {
        Ok(clauses) => clauses,
        Err(GroundFault::NoMemory) => return Err(Stop::NoMemory),
        Err(fault) => return Ok(Answer::NoClauses(whole.study, fault)),
    };
    let decision = core_reduce::decide(alloc, whole.kind, &whole.study, clauses)?;
    Ok(report_of(alloc, whole, decision)?)
}

/// Decides a study, or says why its clauses are refused.
fn decide_study<R: Threads + Sync, G: Gate>(
    alloc: Global,
    crew: &Crew<R, G>,
    whole: WholeStudy,
) -> Result<Answer, Stop>
    ensures row { IfOk result (λ answer. OverClauses whole.study (run_of answer) (text_of answer)
        (IsReported whole.study (run_of answer) (text_of answer))) }
    ensures has_text { IfOk result HasText }
    ensures read { result ≢ Err Stop.ReadFault }
{
    over_whole!(whole, setting, decide_over(alloc, crew, setting))
}

/// Reads the study, and decides it: a rule that satisfies all its axioms, or a core of them with a story that
/// no rule satisfies these, or neither where the search spent the study's limit. The clauses of the axioms
/// are made among 1 to 16 workers, which changes none; the gate is told of each piece of that work. Errors:
/// `Stop::ReadFault` where the shelf fails, and `Stop::NoMemory`.
pub fn decide<R: Threads + Sync, S: Shelf, G: Gate>(
    alloc: Global,
    crew: &Crew<R, G>,
    shelf: &mut S,
    study: &str,
) -> Result<Answer, Stop>
    ensures { Answers (Some (Decide study.now crew.now.workers)) (S.files shelf.old)
        (S.left shelf.old) (S.left shelf.new) (S.faults shelf.old) (S.faults shelf.new) result }
{
    match open_study(alloc, shelf, study) {
        Ok(Opened::Study(whole)) => { decide_study(alloc, crew, whole) }
        Ok(Opened::Refused(answer)) => Ok(answer),
        Err(stop) => Err(stop),
    }
}
