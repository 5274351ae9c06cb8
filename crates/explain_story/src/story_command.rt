//! The command `story`: reads a study, and then the verdict that a report or a sharp text over it confirms.

ghost use Rattle.std.specs.Prelude.{◌≡◌, ◌≤◌, Some, IfSome, IfOk, IsErrOf};
ghost use Rattle.edge.specs.Faults.{Rose};
ghost use Rattle.edge.specs.Shelf.{Files, OthersStay};
ghost use Rattle.verdict_reading.specs.Readings.{IsReadOf, ReadingHolds};
ghost use Rattle.explain_words.specs.Words.{Story};
ghost use Rattle.explain_answers.specs.Story.{IsToldOf};
ghost use Rattle.explain_parts.specs.Replies.{HasReplyText, Replies, status_of, reply_text};
ghost use Rattle.explain_story.specs.Replied.{IsReplyTo};

use crate::page::{make_page, make_sharp_page};
use command_parts::{Answer, Opened, Stop, WholeStudy, open_study};
use crew::Crew;
use edge::{Gate, Shelf};
use explain_parts::Reply;
use kinds::over_kind;
use lists::NoMemory;
use report::Topic;
use report_files::{FileFault, JudgedWorth, SharpWorth, Worth};
use std::alloc::Global;
use std::thread::Threads;
use verdict_reading::{Reading, read_verdict_file};
use vocab::Study;

/// What is read of a report over a study, by the study's kind.
fn read_by_kind<R: Threads + Sync, S: Shelf, G: Gate>(
    alloc: Global,
    crew: &Crew<R, G>,
    shelf: &mut S,
    whole: &WholeStudy,
    report: &str,
) -> Result<Reading, FileFault>
    ensures read { IfSome (S.files shelf.old)
        (λ files. IfOk result (IsReadOf whole.now.study files report.now)) }
    ensures holds { IfOk result (ReadingHolds whole.now.study) }
    ensures failed { IsErrOf result FileFault.Failed →
        Rose (S.faults shelf.old report.now) (S.faults shelf.new report.now) }
    ensures others { OthersStay (S.left shelf.old) (S.left shelf.new) report.now }
{
    over_kind!(
        whole.study.size(),
        kind,
        {
            let topic = Topic {
                kind: &kind,
                study: &whole.study,
            };
            read_verdict_file(alloc, crew, &topic, shelf, report)
        }
    )
}

/// The reply to what was read of a report over a study, of the files of these names. Error: want of memory for
/// the page.
fn reply_to(
    alloc: Global,
    study: &Study,
    name: &str,
    report: &str,
    reading: &Reading,
) -> Result<Reply, NoMemory>
    requires { ReadingHolds study.now reading.now }
    ensures { IfOk result (IsReplyTo study.now name.now report.now reading.now) }
{
    match reading {
        Reading::Confirmed(verdict) => {
            let page = make_page(alloc, study, name, report, verdict)?;
            Ok(Reply::Page(page))
        }
        Reading::Faulty { line, refusal } => Ok(Reply::Refused(Answer::Judged(
            JudgedWorth::Report(Worth::Faulty {
                line: *line,
                refusal: *refusal,
            }),
        ))),
        Reading::TooLong => Ok(Reply::Refused(Answer::Judged(JudgedWorth::Report(Worth::TooLong)))),
        Reading::SharpConfirmed(sharp) => {
            let page = make_sharp_page(alloc, study, name, report, sharp)?;
            Ok(Reply::Page(page))
        }
        Reading::SharpFaulty { line, refusal } => Ok(Reply::Refused(Answer::Judged(
            JudgedWorth::Sharp(SharpWorth::Faulty {
                line: *line,
                refusal: *refusal,
            }),
        ))),
        Reading::SharpTooLong => Ok(Reply::Refused(Answer::Judged(JudgedWorth::Sharp(
            SharpWorth::TooLong,
        )))),
    }
}

/// Reads the report over the study of a file, and makes the page of its verdict.
fn read_story<R: Threads + Sync, S: Shelf, G: Gate>(
    alloc: Global,
    crew: &Crew<R, G>,
    shelf: &mut S,
    whole: &WholeStudy,
    name: &str,
    report: &str,
) -> Result<Reply, Stop>
    ensures told { IfOk result (λ reply. (files : Files) → S.files shelf.old ≡ Some files →
        IsToldOf files name.now report.now whole.now.study (status_of reply) (reply_text reply)) }
    ensures status { IfOk result (λ reply. status_of reply ≤ 1) }
    ensures has_text { IfOk result HasReplyText }
    ensures fault { IsErrOf result Stop.ReadFault →
        Rose (S.faults shelf.old report.now) (S.faults shelf.new report.now) }
    ensures others { OthersStay (S.left shelf.old) (S.left shelf.new) report.now }
{
    let reading = read_by_kind(alloc, crew, shelf, whole, report)?;
    let reply = reply_to(alloc, &whole.study, name, report, &reading)?;
    Ok(reply)
}

/// Reads the study, and then the verdict that the report over it confirms. Both are refused as `check` refuses
/// them; where the study is, what the shelf has left under the report's name stays as it was. The axioms of a
/// rule are checked among 1 to 16 workers, which changes no reply; the gate is told of each piece of that
/// work. Errors: `Stop::ReadFault` where the shelf fails, and `Stop::NoMemory`.
pub fn story<R: Threads + Sync, S: Shelf, G: Gate>(
    alloc: Global,
    crew: &Crew<R, G>,
    shelf: &mut S,
    study: &str,
    report: &str,
) -> Result<Reply, Stop>
    ensures { Replies (Some (Story study.now report.now crew.now.workers)) (S.files shelf.old)
        (S.left shelf.old) (S.left shelf.new) (S.faults shelf.old) (S.faults shelf.new) result }
{
    match open_study(alloc, shelf, study) {
        Ok(Opened::Study(whole)) => { read_story(alloc, crew, shelf, &whole, study, report) }
        Ok(Opened::Refused(answer)) => Ok(Reply::Refused(answer)),
        Err(stop) => Err(stop),
    }
}
