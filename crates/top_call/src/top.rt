//! The top call: from words and files to a run and bytes.

ghost use Rattle.std.specs.Prelude.{◌≢◌, None};
ghost use Rattle.words.specs.Words.{texts, request_of};
ghost use Rattle.answers.specs.Call.{IsCall};
ghost use Rattle.command_parts.specs.Answered.{Answers};

use answers::{Run, laws};
use check_commands::check::check;
use check_commands::gain::gain;
use check_commands::lrat::lrat;
use command_parts::{Answer, Stop};
use crew::Crew;
use edge::{CalmShelf, CalmSink, Failed, Gate, Shelf, Sink};
use search_commands::adoption::adopt;
use search_commands::decide::decide;
use search_commands::export::export;
use search_commands::proof::proof;
use search_commands::sample::sample;
use search_commands::sharpening::sharpen;
use std::alloc::Global;
use std::thread::Threads;
use texts::write_text;
use words::{Command, command_of};

/// The answer to the words, over the files of the shelf.
fn answer<R: Threads + Sync, S: Shelf, G: Gate>(
    rt: &R,
    alloc: Global,
    gate: &G,
    words: &[String],
    shelf: &mut S,
) -> Result<Answer, Stop>
    ensures { Answers (request_of (texts words.now)) (S.files shelf.old)
        (S.left shelf.old) (S.left shelf.new) (S.faults shelf.old) (S.faults shelf.new) result }
{
    match command_of(alloc, words) {
        Ok(
            Some(
                Command::Check {
                    study,
                    report,
                    workers,
                },
            ),
        ) => {
            let crew = Crew { rt, gate, workers };
            check(alloc, &crew, shelf, study, report)
        }
        Ok(Some(Command::Decide { study, workers })) => {
            let crew = Crew { rt, gate, workers };
            decide(alloc, &crew, shelf, study)
        }
        Ok(Some(Command::Export { study, workers })) => {
            let crew = Crew { rt, gate, workers };
            export(alloc, &crew, shelf, study)
        }
        Ok(Some(Command::Proof { study, workers })) => {
            let crew = Crew { rt, gate, workers };
            proof(alloc, &crew, shelf, study)
        }
        Ok(Some(Command::Lrat { cnf, proof })) => lrat(alloc, shelf, cnf, proof),
        Ok(Some(Command::Axioms { kind })) => Ok(Answer::Library(kind)),
        Ok(Some(Command::Sample { number })) => sample(rt, alloc, gate, number),
        Ok(
            Some(
                Command::Adopt {
                    study,
                    proof,
                    workers,
                },
            ),
        ) => {
            let crew = Crew { rt, gate, workers };
            adopt(alloc, &crew, shelf, study, proof)
        }
        Ok(Some(Command::Gain { study, report })) => { gain(rt, alloc, gate, shelf, study, report) }
        Ok(Some(Command::Sharpen { study, workers })) => {
            let crew = Crew { rt, gate, workers };
            sharpen(alloc, &crew, shelf, study)
        }
        Ok(None) => Ok(Answer::Usage),
        Err(_) => Err(Stop::NoMemory),
    }
}

/// All that the program does: answers the words, over the files of the shelf, into the sink.
pub fn bench<R: Threads + Sync, S: Shelf, K: Sink, G: Gate>(
    rt: &R,
    alloc: Global,
    words: &[String],
    shelf: &mut S,
    out: &mut K,
    gate: &G,
) -> Run
    ensures { IsCall (texts words.now) (record {
      told = S.files shelf.old;
      left_before = S.left shelf.old;
      left_now = S.left shelf.new;
      faults_before = S.faults shelf.old;
      faults_now = S.faults shelf.new;
      taken_before = K.taken out.old;
      taken_now = K.taken out.new;
      sink_faults_before = K.faults out.old;
      sink_faults_now = K.faults out.new;
    }) result }
{
    let answer = match answer(rt, alloc, gate, words, shelf) {
        Ok(answer) => answer,
        Err(Stop::ReadFault) => return Run::bare(alloc, 5),
        Err(Stop::NoMemory) => return Run::bare(alloc, 7),
    };
    match write_text(&answer, out) {
        Ok(()) => answer.into_run(alloc),
        Err(Failed) => {
            let mut run = answer.into_run(alloc);
            run.status = 6;
            run
        }
    }
}

/// A call over devices that never fail, and so with a status that is neither 5 nor 6.
pub fn bench_calmly<R: Threads + Sync, G: Gate>(
    rt: &R,
    alloc: Global,
    words: &[String],
    shelf: &mut CalmShelf,
    gate: &G,
) -> Run
    ensures call { IsCall (texts words.now) (record {
      told = ⟦<CalmShelf as Shelf>⟧.files shelf.old;
      left_before = ⟦<CalmShelf as Shelf>⟧.left shelf.old;
      left_now = ⟦<CalmShelf as Shelf>⟧.left shelf.new;
      faults_before = λ _. 0;
      faults_now = λ _. 0;
      taken_before = None;
      taken_now = None;
      sink_faults_before = 0;
      sink_faults_now = 0;
    }) result }
    ensures no_read_fault { result.status ≢ 5 }
    ensures no_write_fault { result.status ≢ 6 }
{
    let run = bench(rt, alloc, words, shelf, &mut CalmSink::new(), gate);
    laws::calls_are_complete();
    run
}
