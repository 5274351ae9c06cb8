//! The command `rules`: reads a study, and lists the rules that satisfy its axioms.

ghost use Rattle.std.specs.Prelude.{◌≢◌, Some, Err, IfOk};
ghost use Rattle.answers.specs.Grounding.{OverClauses};
ghost use Rattle.explain_words.specs.Words.{Rules};
ghost use Rattle.explain_answers.specs.Rules.{IsRuleListWritten};
ghost use Rattle.explain_answers.specs.Story.{bare_run};
ghost use Rattle.explain_parts.specs.Replies.{HasReplyText, Replies, status_of, reply_text};

use clause_form::GroundFault;
use command_parts::{
    Answer, Opened, Stop, WholeSetting, WholeStudy, ground_all, open_study, over_whole,
};
use crew::Crew;
use edge::{Gate, Shelf};
use explain_parts::Reply;
use kinds::over_kind;
use outcomes::{OutcomeKind, Setting};
use rule_lists::all_rules;
use std::alloc::Global;
use std::thread::Threads;

/// Lists the rules of a study of a kind, or says why its clauses are refused.
fn list_over<R: Threads + Sync, K: OutcomeKind, G: Gate>(
    alloc: Global,
    crew: &Crew<R, G>,
    whole: WholeSetting<K>,
    most: u32,
) -> Result<Reply, Stop>
    ensures row { IfOk result (λ reply.
        OverClauses whole.entry.study (bare_run (status_of reply)) (reply_text reply)
        (IsRuleListWritten whole.entry.study most (status_of reply) (reply_text reply))) }
    ensures has_text { IfOk result HasReplyText }
    ensures read { result ≢ Err Stop.ReadFault }
{
    let setting = Setting {
        kind: whole.kind,
        study: &whole.study,
    };
    let clauses = match ground_all(alloc, crew, &setting) {
        Ok(clauses) => clauses,
        Err(GroundFault::NoMemory) => return Err(Stop::NoMemory),
        Err(fault) => return Ok(Reply::Refused(Answer::NoClauses(whole.study, fault))),
    };
    let list = all_rules(alloc, whole.kind, &whole.study, &clauses, most)?;
    Ok(Reply::Rules(whole.study, list))
}

/// Lists the rules of a study, or says why its clauses are refused.
fn list_study<R: Threads + Sync, G: Gate>(
    alloc: Global,
    crew: &Crew<R, G>,
    whole: WholeStudy,
    most: u32,
) -> Result<Reply, Stop>
    ensures row { IfOk result (λ reply.
        OverClauses whole.study (bare_run (status_of reply)) (reply_text reply)
        (IsRuleListWritten whole.study most (status_of reply) (reply_text reply))) }
    ensures has_text { IfOk result HasReplyText }
    ensures read { result ≢ Err Stop.ReadFault }
{
    over_whole!(whole, setting, list_over(alloc, crew, setting, most))
}

/// Reads the study, makes the clauses of its axioms, and lists the rules that satisfy all of them, at most
/// `most`. The study and its clauses are refused as `decide` refuses them. The clauses are made among 1 to 16
/// workers, which changes no reply; the gate is told of each piece of that work. Errors: `Stop::ReadFault`
/// where the shelf fails, and `Stop::NoMemory`.
pub fn rules<R: Threads + Sync, S: Shelf, G: Gate>(
    alloc: Global,
    crew: &Crew<R, G>,
    shelf: &mut S,
    study: &str,
    most: u32,
) -> Result<Reply, Stop>
    ensures { Replies (Some (Rules study.now most crew.now.workers)) (S.files shelf.old)
        (S.left shelf.old) (S.left shelf.new) (S.faults shelf.old) (S.faults shelf.new) result }
{
    match open_study(alloc, shelf, study) {
        Ok(Opened::Study(whole)) => { list_study(alloc, crew, whole, most) }
        Ok(Opened::Refused(answer)) => Ok(Reply::Refused(answer)),
        Err(stop) => Err(stop),
    }
}
