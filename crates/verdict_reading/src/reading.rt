//! The verdict of a report or of a sharp text in memory.

ghost use Rattle.std.specs.Prelude.{◌≡◌, ◌+◌, ◌<◌, ◌==◌, ℕ, Bool, List, length, IfOk};
ghost use Rattle.vocab.specs.Study.{Question};
ghost use Rattle.verdicts.specs.FirstFault.{Good};
ghost use Rattle.verdicts.specs.Judge.{conclude};
ghost use Rattle.verdicts.specs.Places.{Standing};
ghost use Rattle.sharp_verdicts.specs.Judged.{AsReport, AsSharp};
ghost use Rattle.sharp_verdicts.specs.SharpJudge.{sharp_conclude};
ghost use Rattle.sharp_verdicts.specs.SharpPlaces.{SharpStanding};
ghost use Rattle.verdict_reading.specs.Collected.{Collects};
ghost use Rattle.verdict_reading.specs.SharpCollected.{SharpCollects};
ghost use Rattle.verdict_reading.specs.Told.{HasCollected, IsFirstFaulty, TellsOf};
ghost use Rattle.verdict_reading.specs.Readings.{reading_of, judged_whole, judged_end, judged_lines, IsTextRead, IsRightOf};

use crate::collector::Collector;
use crate::lines::{Told, has_sharp_title, read_lines};
use crate::sharp_collector::SharpCollector;
use crate::sharp_verdict::SharpVerdict;
use crate::text_collector::{TextCollector, TextRefusal};
use crew::Crew;
use edge::Gate;
use lists::NoMemory;
use outcomes::OutcomeKind;
use report::{Subject, Topic};
use sharp_report::SharpRefusal;
use std::alloc::Global;
use std::thread::Threads;
use verdicts::{Refusal, Verdict};

/// What is read of a report: the verdict that it confirms; its first faulty line, from 1, with the refusal; or
/// that it has more than 268,435,456 bytes, and no line that ends within them is faulty. The same of a sharp
/// text, which is a text whose first line is `bench sharp 1`.
#[derive(Drop)]
pub enum Reading {
    Confirmed(Verdict),
    Faulty { line: u32, refusal: Refusal },
    TooLong,
    SharpConfirmed(SharpVerdict),
    SharpFaulty { line: u32, refusal: SharpRefusal },
    SharpTooLong,
}

/// What is read of a report where no line is faulty: of one that is whole the end has to be read, and nothing
/// may follow it.
fn end_of_report(
    alloc: Global,
    collector: Collector,
    whole: bool,
    line: u32,
    ended: bool,
) -> Result<Reading, NoMemory>
    ensures { (study : Question) (s : Standing) (rest : List ℕ) → Collects study collector s →
        ended ≡ (length rest == 0) →
        IfOk result (λ reading.
        reading ≡ reading_of (AsReport (judged_end conclude whole line rest (Good s)))) }
{
    if !whole {
        return Ok(Reading::TooLong);
    }
    if !ended {
        return Ok(Reading::Faulty {
            line,
            refusal: Refusal::Form,
        });
    }
    let verdict = collector.into_verdict(alloc)?;
    match verdict {
        Some(verdict) => Ok(Reading::Confirmed(verdict)),
        None => Ok(Reading::Faulty {
            line,
            refusal: Refusal::Form,
        }),
    }
}

/// The same of a sharp text.
fn end_of_sharp(
    alloc: Global,
    collector: SharpCollector,
    whole: bool,
    line: u32,
    ended: bool,
) -> Result<Reading, NoMemory>
    ensures { (study : Question) (s : SharpStanding) (rest : List ℕ) → SharpCollects study collector s →
        ended ≡ (length rest == 0) →
        IfOk result (λ reading.
        reading ≡ reading_of (AsSharp (judged_end (sharp_conclude study) whole line rest (Good s)))) }
{
    if !whole {
        return Ok(Reading::SharpTooLong);
    }
    if !ended {
        return Ok(Reading::SharpFaulty {
            line,
            refusal: SharpRefusal::Report(Refusal::Form),
        });
    }
    let verdict = collector.into_verdict(alloc)?;
    match verdict {
        Some(verdict) => Ok(Reading::SharpConfirmed(verdict)),
        None => Ok(Reading::SharpFaulty {
            line,
            refusal: SharpRefusal::Report(Refusal::Form),
        }),
    }
}

/// What is read of a text where no line is faulty.
fn end_of(
    alloc: Global,
    collector: TextCollector,
    whole: bool,
    line: u32,
    ended: bool,
) -> Result<Reading, NoMemory>
    ensures { (study : Question) (sharp : Bool) (lines : List (List ℕ)) (rest : List ℕ) →
        HasCollected study sharp collector lines → line ≡ length lines + 1 → ended ≡ (length rest == 0) →
        IfOk result (λ reading. reading ≡ reading_of (judged_lines study sharp whole lines rest)) }
{
    match collector {
        TextCollector::Report(collector) => end_of_report(alloc, collector, whole, line, ended),
        TextCollector::Sharp(collector) => end_of_sharp(alloc, collector, whole, line, ended),
    }
}

/// What is read where this is the first faulty line.
fn refused_at(line: u32, refusal: TextRefusal) -> Reading
    ensures { (study : Question) (sharp whole : Bool) (lines : List (List ℕ)) (rest : List ℕ) →
        IsFirstFaulty study sharp lines line refusal →
        result ≡ reading_of (judged_lines study sharp whole lines rest) }
{
    match refusal {
        TextRefusal::Report(refusal) => Reading::Faulty { line, refusal },
        TextRefusal::Sharp(refusal) => Reading::SharpFaulty { line, refusal },
    }
}

/// What is read of a text of whose lines this is told, or of the front of a longer one.
fn reading_at(
    alloc: Global,
    collector: TextCollector,
    told: Told,
    whole: bool,
) -> Result<Reading, NoMemory>
    ensures { (study : Question) (sharp : Bool) (lines : List (List ℕ)) (rest : List ℕ) →
        TellsOf study sharp collector lines rest told →
        IfOk result (λ reading. reading ≡ reading_of (judged_lines study sharp whole lines rest)) }
{
    match told {
        Told::Refused { line, refusal } => Ok(refused_at(line, refusal)),
        Told::Good { line, ended } => end_of(alloc, collector, whole, line, ended),
    }
}

/// What is read of a text, or of the front of a longer one.
pub(crate) fn read_text<R: Threads + Sync, G: Gate, K: OutcomeKind>(
    crew: &Crew<R, G>,
    alloc: Global,
    topic: &Topic<K>,
    text: &[u8],
    whole: bool,
) -> Result<Reading, NoMemory>
    requires room { length text.now < 4294967294 }
    ensures { IfOk result (IsTextRead topic.now.study.now whole text.now) }
{
    let subject = Subject::new(alloc, topic, crew.workers)?;
    let mut collector = TextCollector::new(&subject, has_sharp_title(text))?;
    let told = read_lines(crew, &subject, &mut collector, text)?;
    reading_at(alloc, collector, told, whole)
}

/// What is read of a text over the study, which has at most 40 axioms: it is judged as a sharp text where its
/// first line is `bench sharp 1`, and else as a report. The verdict is read exactly where that judge confirms
/// the text, and else its refusal at the same line. The axioms of a rule are checked among 1 to 16 workers,
/// which changes no answer. Error: want of memory.
pub fn read_verdict<R: Threads + Sync, K: OutcomeKind, G: Gate>(
    alloc: Global,
    crew: &Crew<R, G>,
    topic: &Topic<K>,
    text: &[u8],
) -> Result<Reading, NoMemory>
    requires room { length text.now < 4294967294 }
    ensures value { IfOk result (λ reading.
        reading ≡ reading_of (judged_whole topic.now.study.now text.now)) }
    ensures right { IfOk result (IsRightOf topic.now.study.now text.now) }
{
    read_text(crew, alloc, topic, text, true)
}
