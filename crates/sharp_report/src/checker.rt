//! Checks a sharp text line by line.

ghost use Rattle.std.specs.Prelude.{◌≡◌, ◌≢◌, ◌+◌, ◌≤◌, ◌<◌, List, ℕ, [], ◌∷◌, ◌++◌, length, Some, Err, IfOk, OnOk, MatchResult};
ghost use Rattle.vocab.specs.Study.{HasFewAxioms};
ghost use Rattle.sharp_verdicts.specs.SharpJudge.{sharp_judge, sharp_conclude, at_sharp_end};
ghost use Rattle.sharp_verdicts.specs.SharpPlaces.{SharpPlace as WantedPlace, SharpStanding};
ghost use Rattle.vocab.specs.Study.{Question};
ghost use Rattle.sharp_report.specs.SharpStands.{held_sharp_place, SharpStandsFor, IsSharpReady};
ghost use Rattle.sharp_report.specs.SharpAnswers.{sharp_told_of, SharpConcludes};

use crate::faults::SharpFault;
use crate::judging::SharpJudging;
use crate::places::SharpPlace;
use crate::progress::SharpProgress;
use crew::Crew;
use edge::Gate;
use lists::NoMemory;
use outcomes::OutcomeKind;
use report::{Subject, Topic};
use sharp_verdicts::SharpRefusal;
use std::alloc::Global;
use std::thread::Threads;
use verdicts::Refusal;
use vocab::Study;

/// What is answered where no line is faulty, of a place and of what follows the last line end, with the
/// number of the line that it would be.
fn end_of(place: SharpPlace, rest: &[u8], line: u32) -> Result<(), SharpFault>
    ensures { (study : Question) (s : SharpStanding) (p : WantedPlace) → place ≡ held_sharp_place p →
        SharpConcludes (at_sharp_end study line rest.now p s) result }
{
    match place {
        SharpPlace::AtSharpNothing if rest.is_empty() => Ok(()),
        _ => Err(SharpFault::Line {
            line,
            refusal: SharpRefusal::Report(Refusal::Form),
        }),
    }
}

/// Checks a sharp text line by line. It stands for the lines that it was given; after its first fault it
/// answers that fault to every call.
#[derive(Drop)]
pub struct SharpChecker<'a, K: OutcomeKind> {
    pub subject: Subject<'a, K>,
    pub progress: SharpProgress,
}

impl<'a, K: OutcomeKind> SharpChecker<'a, K> {
    /// A checker that stands for no line. The study has at most 40 axioms, and there are from 1 to 16 workers.
    pub fn new(
        alloc: Global,
        kind: &'a K,
        study: &'a Study,
        workers: u8,
    ) -> Result<SharpChecker<'a, K>, NoMemory>
        requires some { 1 ≤ workers }
        requires few { workers ≤ 16 }
        requires size { study.now.size ≡ K.size kind.now }
        requires listed { HasFewAxioms study.now }
        ensures study { IfOk result (λ checker. checker.subject.setting.study.now ≡ study.now) }
        ensures kind { IfOk result (λ checker. checker.subject.setting.kind.now ≡ kind.now) }
        ensures workers { IfOk result (λ checker. checker.subject.workers ≡ workers) }
        ensures stands { IfOk result (λ checker. SharpStandsFor study.now checker.progress []) }
    {
        let topic = Topic { kind, study };
        let subject = Subject::new(alloc, &topic, workers)?;
        let judging = SharpJudging::new(&subject)?;
        let progress = SharpProgress {
            judging,
            lines: 0,
            fault: None,
        };
        Ok(SharpChecker { subject, progress })
    }

    /// Takes the next line, without its line end. Err is want of memory alone, now or before; what is wrong
    /// with a line is kept.
    pub fn take<R: Threads + Sync, G: Gate>(
        &mut self,
        rt: &R,
        gate: &G,
        text: &[u8],
    ) -> Result<(), NoMemory>
        requires room { self.old.progress.lines < 4294967294 }
        requires ready { IsSharpReady self.old.subject.setting.study.now self.old.progress }
        ensures subject { self.new.subject ≡ self.old.subject }
        ensures lines { self.new.progress.lines ≡ self.old.progress.lines + 1 }
        ensures ready { IsSharpReady self.old.subject.setting.study.now self.new.progress }
        ensures lasts { (fault : SharpFault) →
            self.old.progress.fault ≡ Some fault → self.new.progress.fault ≡ Some fault }
        ensures wanting { MatchResult result
            (λ _. self.new.progress.fault ≢ Some SharpFault.NoMemory)
            (λ _. self.new.progress.fault ≡ Some SharpFault.NoMemory) }
        ensures taken { OnOk result ((lines : List (List ℕ)) →
            SharpStandsFor self.old.subject.setting.study.now self.old.progress lines →
            SharpStandsFor self.old.subject.setting.study.now self.new.progress (lines ++ text.now ∷ [])) }
    {
        self.progress.lines += 1;
        match self.progress.fault {
            Some(_) => self.sufficed(),
            None => {
                let crew = Crew {
                    rt,
                    gate,
                    workers: self.subject.workers,
                };
                self.progress.fault = self
                    .progress
                    .judging
                    .judge(&crew, &self.subject, self.progress.lines, text);
                self.sufficed()
            }
        }
    }

    /// Whether memory sufficed so far.
    fn sufficed(&self) -> Result<(), NoMemory>
        ensures { MatchResult result
            (λ _. self.now.progress.fault ≢ Some SharpFault.NoMemory)
            (λ _. self.now.progress.fault ≡ Some SharpFault.NoMemory) }
    {
        match self.progress.fault {
            Some(SharpFault::NoMemory) => Err(NoMemory),
            _ => Ok(()),
        }
    }

    /// Takes the next line, without its line end. Ok comes exactly where no line so far is faulty; else the
    /// first faulty one is answered. After want of memory that is the answer to every call.
    pub fn line<R: Threads + Sync, G: Gate>(
        &mut self,
        rt: &R,
        gate: &G,
        text: &[u8],
    ) -> Result<(), SharpFault>
        requires room { self.old.progress.lines < 4294967294 }
        requires ready { IsSharpReady self.old.subject.setting.study.now self.old.progress }
        ensures subject { self.new.subject ≡ self.old.subject }
        ensures lines { self.new.progress.lines ≡ self.old.progress.lines + 1 }
        ensures ready { IsSharpReady self.old.subject.setting.study.now self.new.progress }
        ensures told { result ≡ sharp_told_of self.new.progress.fault }
        ensures lasts { (fault : SharpFault) →
            self.old.progress.fault ≡ Some fault → self.new.progress.fault ≡ Some fault }
        ensures taken { (lines : List (List ℕ)) →
            SharpStandsFor self.old.subject.setting.study.now self.old.progress lines →
            self.new.progress.fault ≢ Some SharpFault.NoMemory →
            SharpStandsFor self.old.subject.setting.study.now self.new.progress (lines ++ text.now ∷ []) }
    {
        self.take(rt, gate, text)?;
        self.told()
    }

    /// What is answered of the lines so far.
    fn told(&self) -> Result<(), SharpFault>
        ensures { result ≡ sharp_told_of self.now.progress.fault }
    {
        match self.progress.fault {
            Some(fault) => Err(fault),
            None => Ok(()),
        }
    }

    /// What is answered of the sharp text that has these lines, each with its line end, and then the rest.
    pub fn conclude(&self, rest: &[u8]) -> Result<(), SharpFault>
        requires room { self.now.progress.lines ≤ 4294967294 }
        ensures value { (lines : List (List ℕ)) →
            SharpStandsFor self.now.subject.setting.study.now self.now.progress lines →
            SharpConcludes (sharp_conclude self.now.subject.setting.study.now (length lines + 1) rest.now
            (sharp_judge self.now.subject.setting.study.now lines)) result }
        ensures wanting { self.now.progress.fault ≡ Some SharpFault.NoMemory →
            result ≡ Err SharpFault.NoMemory }
    {
        match self.progress.fault {
            Some(fault) => Err(fault),
            None => end_of(self.progress.judging.place, rest, self.progress.lines + 1),
        }
    }

    /// What is answered of the sharp text that has these lines, each with its line end: Ok exactly where it
    /// is confirmed. Before the line `end` was read, the line after the last is refused as `Form`.
    pub fn finish(&self) -> Result<(), SharpFault>
        requires room { self.now.progress.lines ≤ 4294967294 }
        ensures value { (lines : List (List ℕ)) →
            SharpStandsFor self.now.subject.setting.study.now self.now.progress lines →
            SharpConcludes (sharp_conclude self.now.subject.setting.study.now (length lines + 1) []
            (sharp_judge self.now.subject.setting.study.now lines)) result }
        ensures wanting { self.now.progress.fault ≡ Some SharpFault.NoMemory →
            result ≡ Err SharpFault.NoMemory }
    {
        self.conclude(b"")
    }
}
