//! The command `cores`: reads a study, and maps which sets of its axioms some rule satisfies.

ghost use Rattle.std.specs.Prelude.{◌≢◌, Some, Err, IfOk};
ghost use Rattle.answers.specs.Grounding.{OverClauses};
ghost use Rattle.explain_words.specs.Words.{Cores};
ghost use Rattle.explain_answers.specs.Cores.{IsMapped};
ghost use Rattle.explain_answers.specs.Story.{bare_run};
ghost use Rattle.explain_parts.specs.Replies.{HasReplyText, Replies, status_of, reply_text};

use clause_form::GroundFault;
use command_parts::{
    Answer, Opened, Stop, WholeSetting, WholeStudy, ground_all, open_study, over_whole,
};
use core_maps::map_axioms;
use crew::Crew;
use edge::{Gate, Shelf};
use explain_parts::Reply;
use kinds::over_kind;
use outcomes::{OutcomeKind, Setting};
use std::alloc::Global;
use std::thread::Threads;

/// Maps the axioms of a study of a kind, or says why its clauses are refused.
fn map_over<R: Threads + Sync, K: OutcomeKind, G: Gate>(
    alloc: Global,
    crew: &Crew<R, G>,
    whole: WholeSetting<K>,
) -> Result<Reply, Stop>
    ensures row { IfOk result (λ reply.
        OverClauses whole.entry.study (bare_run (status_of reply)) (reply_text reply)
        (IsMapped whole.entry.study (status_of reply) (reply_text reply))) }
    ensures has_text { IfOk result HasReplyText }
    ensures read { result ≢ Err Stop.ReadFault }
{
    let setting = Setting {
        kind: whole.kind,
        study: &whole.study,
    };
    let clauses = match ground_all(alloc, crew, &setting) {
        Ok(clauses) => clauses,
        Err(GroundFault::NoMemory) => return Err(Stop::NoMemory),
        Err(fault) => return Ok(Reply::Refused(Answer::NoClauses(whole.study, fault))),
    };
    let map = map_axioms(alloc, whole.kind, &whole.study, &clauses)?;
    Ok(Reply::Cores(whole.study, map))
}

/// Maps the axioms of a study, or says why its clauses are refused.
fn map_study<R: Threads + Sync, G: Gate>(
    alloc: Global,
    crew: &Crew<R, G>,
    whole: WholeStudy,
) -> Result<Reply, Stop>
    ensures row { IfOk result (λ reply.
        OverClauses whole.study (bare_run (status_of reply)) (reply_text reply)
        (IsMapped whole.study (status_of reply) (reply_text reply))) }
    ensures has_text { IfOk result HasReplyText }
    ensures read { result ≢ Err Stop.ReadFault }
{
    over_whole!(whole, setting, map_over(alloc, crew, setting))
}

/// Reads the study, makes the clauses of its axioms, and maps their sets: the least that no rule satisfies, and
/// the largest that some rule satisfies. The study and its clauses are refused as `decide` refuses them. The
/// clauses are made among 1 to 16 workers, which changes no reply; the gate is told of each piece of that work.
/// Errors: `Stop::ReadFault` where the shelf fails, and `Stop::NoMemory`.
pub fn cores<R: Threads + Sync, S: Shelf, G: Gate>(
    alloc: Global,
    crew: &Crew<R, G>,
    shelf: &mut S,
    study: &str,
) -> Result<Reply, Stop>
    ensures { Replies (Some (Cores study.now crew.now.workers)) (S.files shelf.old)
        (S.left shelf.old) (S.left shelf.new) (S.faults shelf.old) (S.faults shelf.new) result }
{
    match open_study(alloc, shelf, study) {
        Ok(Opened::Study(whole)) => { map_study(alloc, crew, whole) }
        Ok(Opened::Refused(answer)) => Ok(Reply::Refused(answer)),
        Err(stop) => Err(stop),
    }
}
