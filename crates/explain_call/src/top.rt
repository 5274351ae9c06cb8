//! The top call: from words and files to a status and bytes.

ghost use Rattle.words.specs.Words.{texts};
ghost use Rattle.explain_words.specs.Words.{request_of};
ghost use Rattle.explain_answers.specs.Call.{IsExplainCall};
ghost use Rattle.explain_answers.specs.Completeness.{AreExplained, calm_devices};
ghost use Rattle.explain_parts.specs.Replies.{Replies};

use command_parts::Stop;
use crew::Crew;
use edge::{CalmShelf, CalmSink, Failed, Gate, Shelf, Sink};
use explain_answers::laws;
use explain_commands::{cores, instance, look, rules};
use explain_parts::Reply;
use explain_story::story;
use explain_words::{Command, command_of};
use std::alloc::Global;
use std::thread::Threads;
use texts::write_text;

/// The reply to the words, over the files of the shelf.
fn reply<R: Threads + Sync, S: Shelf, G: Gate>(
    rt: &R,
    alloc: Global,
    gate: &G,
    words: &[String],
    shelf: &mut S,
) -> Result<Reply, Stop>
    ensures { Replies (request_of (texts words.now)) (S.files shelf.old)
        (S.left shelf.old) (S.left shelf.new) (S.faults shelf.old) (S.faults shelf.new) result }
{
    match command_of(alloc, words) {
        Ok(
            Some(
                Command::Story {
                    study,
                    report,
                    workers,
                },
            ),
        ) => {
            let crew = Crew { rt, gate, workers };
            story(alloc, &crew, shelf, study, report)
        }
        Ok(
            Some(
                Command::Instance {
                    study,
                    axiom_name,
                    number,
                },
            ),
        ) => instance(alloc, shelf, study, axiom_name, number),
        Ok(
            Some(
                Command::Rules {
                    study,
                    most,
                    workers,
                },
            ),
        ) => {
            let crew = Crew { rt, gate, workers };
            rules(alloc, &crew, shelf, study, most)
        }
        Ok(Some(Command::Cores { study, workers })) => {
            let crew = Crew { rt, gate, workers };
            cores(alloc, &crew, shelf, study)
        }
        Ok(Some(Command::Look { study, workers })) => {
            let crew = Crew { rt, gate, workers };
            look(alloc, &crew, shelf, study)
        }
        Ok(None) => Ok(Reply::Usage),
        Err(_) => Err(Stop::NoMemory),
    }
}

/// All that the program does: replies to the words, over the files of the shelf, into the sink. The status is
/// 0 where a page, an instance, a list of rules, a map or what a study asks was written, 1 where the report is
/// refused, 2 where the words are no command, 3 where the study is refused or has no such instance, 4 where a
/// search spent its limit before the list of rules was known to be whole, or before the map was, 5 where a file
/// could not be read, 6 where the text could not be written, and 7 where no memory was found.
pub fn explain<R: Threads + Sync, S: Shelf, K: Sink, G: Gate>(
    rt: &R,
    alloc: Global,
    words: &[String],
    shelf: &mut S,
    out: &mut K,
    gate: &G,
) -> u8
    ensures { IsExplainCall (texts words.now) (record {
      told = S.files shelf.old;
      left_before = S.left shelf.old;
      left_now = S.left shelf.new;
      faults_before = S.faults shelf.old;
      faults_now = S.faults shelf.new;
      taken_before = K.taken out.old;
      taken_now = K.taken out.new;
      sink_faults_before = K.faults out.old;
      sink_faults_now = K.faults out.new;
    }) result }
{
    let reply = match reply(rt, alloc, gate, words, shelf) {
        Ok(reply) => reply,
        Err(Stop::ReadFault) => return 5,
        Err(Stop::NoMemory) => return 7,
    };
    match write_text(&reply, out) {
        Ok(()) => reply.into_status(alloc),
        Err(Failed) => 6,
    }
}

/// A call over devices that never fail: what the row says is answered, or memory is wanting.
pub fn explain_calmly<R: Threads + Sync, G: Gate>(
    rt: &R,
    alloc: Global,
    words: &[String],
    shelf: &mut CalmShelf,
    gate: &G,
) -> u8
    ensures call { IsExplainCall (texts words.now) (calm_devices (⟦<CalmShelf as Shelf>⟧.files shelf.old)
        (⟦<CalmShelf as Shelf>⟧.left shelf.old) (⟦<CalmShelf as Shelf>⟧.left shelf.new)) result }
    ensures answered { AreExplained (texts words.now) (calm_devices (⟦<CalmShelf as Shelf>⟧.files shelf.old)
        (⟦<CalmShelf as Shelf>⟧.left shelf.old) (⟦<CalmShelf as Shelf>⟧.left shelf.new)) result }
{
    let status = explain(rt, alloc, words, shelf, &mut CalmSink::new(), gate);
    laws::calls_are_complete();
    status
}
