//! The command `study`: reads a study, and tells what it asks, or where it is refused what helps.

ghost use Rattle.std.specs.Prelude.{◌≡◌, ◌≢◌, Some, Ok, Err, IfOk};
ghost use Rattle.answers.specs.Grounding.{OverClauses};
ghost use Rattle.study.specs.Reading.{IsStudyOf};
ghost use Rattle.explain_words.specs.Words.{Look};
ghost use Rattle.explain_answers.specs.Look.{IsLookAt, IsLooked};
ghost use Rattle.explain_answers.specs.Story.{bare_run};
ghost use Rattle.explain_parts.specs.Replies.{HasReplyText, Replies, status_of, reply_text};

use clause_form::GroundFault;
use command_parts::{Answer, Stop, ground_all};
use crew::Crew;
use edge::{Gate, ReadFault, Shelf, read_all};
use explain_parts::{Helped, Reply};
use kinds::over_kind;
use outcomes::{OutcomeKind, Setting};
use std::alloc::Global;
use std::thread::Threads;
use study::{StudyFault, read_study};
use study_help::help_with;
use study_text::look_at;
use vocab::Study;

/// The most bytes of a study.
const MOST_STUDY_BYTES: u32 = 1_048_576;

/// Looks at a study of a kind, or says why its clauses are refused.
fn look_over<R: Threads + Sync, K: OutcomeKind, G: Gate>(
    alloc: Global,
    crew: &Crew<R, G>,
    kind: &K,
    study: Study,
) -> Result<Reply, Stop>
    requires size { study.size ≡ K.size kind.now }
    ensures row { IfOk result (λ reply. OverClauses study (bare_run (status_of reply)) (reply_text reply)
        (IsLooked study (status_of reply) (reply_text reply))) }
    ensures has_text { IfOk result HasReplyText }
    ensures read { result ≢ Err Stop.ReadFault }
{
    let setting = Setting {
        kind,
        study: &study,
    };
    let clauses = match ground_all(alloc, crew, &setting) {
        Ok(clauses) => clauses,
        Err(GroundFault::NoMemory) => return Err(Stop::NoMemory),
        Err(fault) => return Ok(Reply::Refused(Answer::NoClauses(study, fault))),
    };
    let look = look_at(alloc, kind, &study, &clauses)?;
    Ok(Reply::Look(study, look))
}

/// Looks at a study, or says why its clauses are refused.
fn look_study<R: Threads + Sync, G: Gate>(
    alloc: Global,
    crew: &Crew<R, G>,
    study: Study,
) -> Result<Reply, Stop>
    ensures row { IfOk result (λ reply. OverClauses study (bare_run (status_of reply)) (reply_text reply)
        (IsLooked study (status_of reply) (reply_text reply))) }
    ensures has_text { IfOk result HasReplyText }
    ensures read { result ≢ Err Stop.ReadFault }
{
    over_kind!(study.size(), kind, look_over(alloc, crew, &kind, study))
}

/// Refuses bytes that give no study, and says what helps.
fn help_study(alloc: Global, bytes: &[u8], fault: StudyFault) -> Result<Reply, Stop>
    requires { IsStudyOf bytes.now (Err fault) }
    ensures said { IfOk result (λ reply. IsLookAt bytes.now (status_of reply) (reply_text reply)) }
    ensures has_text { IfOk result HasReplyText }
    ensures read { result ≢ Err Stop.ReadFault }
{
    let help = help_with(alloc, bytes, &fault)?;
    let refusal = Answer::NoStudy(fault);
    Ok(Reply::Helped(Helped { refusal, help }))
}

/// What is said of the bytes of a study.
fn look_bytes<R: Threads + Sync, G: Gate>(
    alloc: Global,
    crew: &Crew<R, G>,
    bytes: &[u8],
) -> Result<Reply, Stop>
    ensures said { IfOk result (λ reply. IsLookAt bytes.now (status_of reply) (reply_text reply)) }
    ensures has_text { IfOk result HasReplyText }
    ensures read { result ≢ Err Stop.ReadFault }
{
    match read_study(alloc, bytes) {
        Ok(study) => look_study(alloc, crew, study),
        Err(StudyFault::NoMemory) => Err(Stop::NoMemory),
        Err(fault) => help_study(alloc, bytes, fault),
    }
}

/// Reads the study, makes the clauses of its axioms, and tells what it asks. The study and its clauses are refused
/// as `decide` refuses them, and after the line of a study that is refused stands what helps. The clauses are made
/// among 1 to 16 workers, which changes no reply; the gate is told of each piece of that work. Errors:
/// `Stop::ReadFault` where the shelf fails, and `Stop::NoMemory`.
pub fn look<R: Threads + Sync, S: Shelf, G: Gate>(
    alloc: Global,
    crew: &Crew<R, G>,
    shelf: &mut S,
    study: &str,
) -> Result<Reply, Stop>
    ensures { Replies (Some (Look study.now crew.now.workers)) (S.files shelf.old)
        (S.left shelf.old) (S.left shelf.new) (S.faults shelf.old) (S.faults shelf.new) result }
{
    match read_all(alloc, shelf, study, MOST_STUDY_BYTES) {
        Ok(bytes) => { look_bytes(alloc, crew, bytes.as_slice()) }
        Err(ReadFault::TooLong) => Ok(Reply::Refused(Answer::LongStudy)),
        Err(ReadFault::Failed) => Err(Stop::ReadFault),
        Err(ReadFault::NoMemory) => Err(Stop::NoMemory),
    }
}
