//! The command `instance`: reads a study, and tells an instance of one of its axioms.

ghost use Rattle.std.specs.Prelude.{◌≡◌, ◌≢◌, Some, Err, IfOk};
ghost use Rattle.explain_words.specs.Words.{Instance};
ghost use Rattle.explain_answers.specs.Instance.{IsInstanceSaid};
ghost use Rattle.explain_parts.specs.Replies.{HasReplyText, Replies, status_of, reply_text};

use command_parts::{Opened, Stop, open_study};
use edge::Shelf;
use explain_parts::Reply;
use instance_text::say_instance;
use kinds::over_kind;
use lists::NoMemory;
use outcomes::OutcomeKind;
use std::alloc::Global;
use vocab::Study;

/// What is said of an instance, over a study beside its kind.
fn say_over<K: OutcomeKind>(
    alloc: Global,
    kind: &K,
    study: &Study,
    axiom_name: &str,
    number: u32,
) -> Result<Reply, NoMemory>
    requires { study.now.size ≡ K.size kind.now }
    ensures said { IfOk result (λ reply.
        IsInstanceSaid study.now axiom_name.now number (status_of reply) (reply_text reply)) }
    ensures has_text { IfOk result HasReplyText }
{
    let said = say_instance(alloc, kind, study, axiom_name, number)?;
    Ok(Reply::Instance(said))
}

/// What is said of an instance, by the study's kind.
fn say_by_kind(
    alloc: Global,
    study: &Study,
    axiom_name: &str,
    number: u32,
) -> Result<Reply, NoMemory>
    ensures said { IfOk result (λ reply.
        IsInstanceSaid study.now axiom_name.now number (status_of reply) (reply_text reply)) }
    ensures has_text { IfOk result HasReplyText }
{
    over_kind!(
        study.size(),
        kind,
        say_over(alloc, &kind, study, axiom_name, number)
    )
}

/// What is said of an instance. Error: `Stop::NoMemory`.
fn say(alloc: Global, study: &Study, axiom_name: &str, number: u32) -> Result<Reply, Stop>
    ensures said { IfOk result (λ reply.
        IsInstanceSaid study.now axiom_name.now number (status_of reply) (reply_text reply)) }
    ensures has_text { IfOk result HasReplyText }
    ensures read { result ≢ Err Stop.ReadFault }
{
    match say_by_kind(alloc, study, axiom_name, number) {
        Ok(reply) => Ok(reply),
        Err(_) => Err(Stop::NoMemory),
    }
}

/// Reads the study, which is refused as `check` refuses it, and tells the instance of a number of the axiom of a
/// name: its values and its body, or why there is none. Errors: `Stop::ReadFault` where the shelf fails, and
/// `Stop::NoMemory`.
pub fn instance<S: Shelf>(
    alloc: Global,
    shelf: &mut S,
    study: &str,
    axiom_name: &str,
    number: u32,
) -> Result<Reply, Stop>
    ensures { Replies (Some (Instance study.now axiom_name.now number)) (S.files shelf.old)
        (S.left shelf.old) (S.left shelf.new) (S.faults shelf.old) (S.faults shelf.new) result }
{
    match open_study(alloc, shelf, study) {
        Ok(Opened::Study(whole)) => say(alloc, &whole.study, axiom_name, number),
        Ok(Opened::Refused(answer)) => Ok(Reply::Refused(answer)),
        Err(stop) => Err(stop),
    }
}
