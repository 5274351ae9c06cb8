//! The command `check`: reads a study, and then a report or a sharp text over it.

ghost use Rattle.std.specs.Prelude.{◌≡◌, ◌≤◌, Some, IfSome, IfOk, IsErrOf};
ghost use Rattle.edge.specs.Faults.{Rose};
ghost use Rattle.edge.specs.Shelf.{Files, OthersStay};
ghost use Rattle.report_files.specs.Files.{IsJudgedWorthOf};
ghost use Rattle.words.specs.Words.{Check};
ghost use Rattle.answers.specs.Check.{IsJudged};
ghost use Rattle.command_parts.specs.Answers.{HasText, run_of, answer_status, text_of};
ghost use Rattle.command_parts.specs.Answered.{Answers};

use command_parts::{Answer, Opened, Stop, WholeStudy, open_study};
use crew::Crew;
use edge::{Gate, Shelf};
use kinds::over_kind;
use report::Topic;
use report_files::{FileFault, JudgedWorth, judge_file};
use std::alloc::Global;
use std::thread::Threads;

/// What a text is worth over a study, by the study's kind.
fn check_by_kind<R: Threads + Sync, S: Shelf, G: Gate>(
    alloc: Global,
    crew: &Crew<R, G>,
    shelf: &mut S,
    whole: &WholeStudy,
    report: &str,
) -> Result<JudgedWorth, FileFault>
    ensures worth { IfSome (S.files shelf.old)
        (λ files. IfOk result (IsJudgedWorthOf whole.now.study files report.now)) }
    ensures failed { IsErrOf result FileFault.Failed →
        Rose (S.faults shelf.old report.now) (S.faults shelf.new report.now) }
    ensures others { OthersStay (S.left shelf.old) (S.left shelf.new) report.now }
{
    over_kind!(
        whole.study.size(),
        kind,
        {
            let topic = Topic {
                kind: &kind,
                study: &whole.study,
            };
            judge_file(alloc, crew, &topic, shelf, report)
        }
    )
}

/// Reads the text and judges it.
fn judge_report<R: Threads + Sync, S: Shelf, G: Gate>(
    alloc: Global,
    crew: &Crew<R, G>,
    shelf: &mut S,
    whole: &WholeStudy,
    report: &str,
) -> Result<Answer, Stop>
    ensures judged { IfOk result (λ answer. (files : Files) → S.files shelf.old ≡ Some files →
        IsJudged files report.now whole.now.study (run_of answer) (text_of answer)) }
    ensures status { IfOk result (λ answer. answer_status answer ≤ 1) }
    ensures has_text { IfOk result HasText }
    ensures fault { IsErrOf result Stop.ReadFault →
        Rose (S.faults shelf.old report.now) (S.faults shelf.new report.now) }
    ensures others { OthersStay (S.left shelf.old) (S.left shelf.new) report.now }
{
    let worth = check_by_kind(alloc, crew, shelf, whole, report)?;
    Ok(Answer::Judged(worth))
}

/// Reads the study, and then the report or the sharp text over it. Where the study is refused, what the shelf
/// has left under the report's name stays as it was. The axioms of a rule are checked among 1 to 16 workers,
/// which changes no answer; the gate is told of each piece of that work. Errors: `Stop::ReadFault` where the
/// shelf fails, and `Stop::NoMemory`.
pub fn check<R: Threads + Sync, S: Shelf, G: Gate>(
    alloc: Global,
    crew: &Crew<R, G>,
    shelf: &mut S,
    study: &str,
    report: &str,
) -> Result<Answer, Stop>
    ensures { Answers (Some (Check study.now report.now crew.now.workers)) (S.files shelf.old)
        (S.left shelf.old) (S.left shelf.new) (S.faults shelf.old) (S.faults shelf.new) result }
{
    match open_study(alloc, shelf, study) {
        Ok(Opened::Study(whole)) => { judge_report(alloc, crew, shelf, &whole, report) }
        Ok(Opened::Refused(answer)) => Ok(answer),
        Err(stop) => Err(stop),
    }
}
