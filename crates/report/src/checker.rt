//! Checks a report line by line.

ghost use Rattle.std.specs.Prelude.{◌≡◌, ◌≢◌, ◌+◌, ◌≤◌, ◌<◌, List, ℕ, [], ◌∷◌, ◌++◌, length, Some, option_map, Err, IfOk, OnOk, MatchResult, IsTrue};
ghost use Rattle.std.specs.List.{list_all};
ghost use Rattle.vocab.specs.Study.{HasFewAxioms};
ghost use Rattle.verdicts.specs.declared.verdicts.Verdict.TheVariants.{Undecided};
ghost use Rattle.verdicts.specs.Judge.{judge, conclude, rule_of, at_end, has_no_end, ended};
ghost use Rattle.verdicts.specs.Places.{Place as WantedPlace, AtNothing};
ghost use Rattle.report_lines.specs.Held.{held_place};
ghost use Rattle.report.specs.Answers.{told_of, is_rule_end, IsReportedRule, TellsAll, Concludes, ConfirmsRight, ConfirmsAll, ConfirmsTrue};
ghost use Rattle.report.specs.Stands.{StandsFor, StandsForSome};

use crate::faults::ReportFault;
use crate::judging::Judging;
use crate::progress::Progress;
use crate::subject::{Subject, Topic};
use crew::Crew;
use edge::Gate;
use lists::NoMemory;
use outcomes::OutcomeKind;
use outcomes::laws::kinds_have_sizes;
use report_lines::Place;
use std::alloc::Global;
use std::thread::Threads;
use verdicts::{Confirmed, Refusal};
use vocab::{Study, Table};

/// What is answered where no line is faulty, of a place and of what follows the last line end, with the
/// number of the line that it would be.
fn end_of(place: Place, rest: &[u8], line: u32) -> Result<Confirmed, ReportFault>
    ensures { (p : WantedPlace) → place ≡ held_place p → p ≢ AtNothing Undecided →
        Concludes (at_end line rest.now p) result }
{
    match place {
        Place::AtNothing(Some(claim)) if rest.is_empty() => Ok(claim),
        _ => Err(ReportFault::Line {
            line,
            refusal: Refusal::Form,
        }),
    }
}

/// Whether a confirmed report with a rule ends here.
fn is_rule_end(place: Place) -> bool
    ensures { result ≡ is_rule_end place }
{
    matches!(place, Place::AtNothing(Some(Confirmed::Possible)))
}

/// Checks a report line by line. It stands for the lines that it was given; after its first fault it answers
/// that fault to every call.
#[derive(Drop)]
pub struct Checker<'a, K: OutcomeKind> {
    pub subject: Subject<'a, K>,
    pub progress: Progress,
}

impl<'a, K: OutcomeKind> Checker<'a, K> {
    /// A checker that stands for no line. The study has at most 40 axioms, and those of a rule are checked
    /// among so many workers, from 1 to 16.
    pub fn new(
        alloc: Global,
        kind: &'a K,
        study: &'a Study,
        workers: u8,
    ) -> Result<Checker<'a, K>, NoMemory>
        requires some { 1 ≤ workers }
        requires few { workers ≤ 16 }
        requires size { study.now.size ≡ K.size kind.now }
        requires listed { HasFewAxioms study.now }
        ensures study { IfOk result (λ checker. checker.subject.setting.study.now ≡ study.now) }
        ensures kind { IfOk result (λ checker. checker.subject.setting.kind.now ≡ kind.now) }
        ensures workers { IfOk result (λ checker. checker.subject.workers ≡ workers) }
        ensures stands { IfOk result (λ checker. StandsFor study.now checker.progress []) }
    {
        let topic = Topic { kind, study };
        let subject = Subject::new(alloc, &topic, workers)?;
        let judging = Judging::new(&subject)?;
        let progress = Progress {
            judging,
            lines: 0,
            fault: None,
        };
        Ok(Checker { subject, progress })
    }

    /// Takes the next line, without its line end. Err is want of memory alone, now or before; what is wrong
    /// with a line is kept.
    pub fn take<R: Threads + Sync, G: Gate>(
        &mut self,
        rt: &R,
        gate: &G,
        text: &[u8],
    ) -> Result<(), NoMemory>
        requires room { self.old.progress.lines < 4294967294 }
        requires ready { StandsForSome self.old.subject.setting.study.now self.old.progress }
        ensures subject { self.new.subject ≡ self.old.subject }
        ensures lines { self.new.progress.lines ≡ self.old.progress.lines + 1 }
        ensures ready { StandsForSome self.old.subject.setting.study.now self.new.progress }
        ensures lasts { (fault : ReportFault) →
            self.old.progress.fault ≡ Some fault → self.new.progress.fault ≡ Some fault }
        ensures wanting { MatchResult result
            (λ _. self.new.progress.fault ≢ Some ReportFault.NoMemory)
            (λ _. self.new.progress.fault ≡ Some ReportFault.NoMemory) }
        ensures taken { OnOk result ((lines : List (List ℕ)) →
            StandsFor self.old.subject.setting.study.now self.old.progress lines →
            StandsFor self.old.subject.setting.study.now self.new.progress (lines ++ text.now ∷ [])) }
    {
        self.progress.lines += 1;
        match self.progress.fault {
            Some(_) => self.sufficed(),
            None => {
                let crew = Crew {
                    rt,
                    gate,
                    workers: self.subject.workers,
                };
                self.progress.fault = self
                    .progress
                    .judging
                    .judge(&crew, &self.subject, self.progress.lines, text);
                self.sufficed()
            }
        }
    }

    /// Whether memory sufficed so far.
    fn sufficed(&self) -> Result<(), NoMemory>
        ensures { MatchResult result
            (λ _. self.now.progress.fault ≢ Some ReportFault.NoMemory)
            (λ _. self.now.progress.fault ≡ Some ReportFault.NoMemory) }
    {
        match self.progress.fault {
            Some(ReportFault::NoMemory) => Err(NoMemory),
            _ => Ok(()),
        }
    }

    /// Takes the next line, without its line end. Ok comes exactly where no line so far is faulty; else the
    /// first faulty one is answered. After want of memory that is the answer to every call.
    pub fn line<R: Threads + Sync, G: Gate>(
        &mut self,
        rt: &R,
        gate: &G,
        text: &[u8],
    ) -> Result<(), ReportFault>
        requires room { self.old.progress.lines < 4294967294 }
        requires ready { StandsForSome self.old.subject.setting.study.now self.old.progress }
        ensures subject { self.new.subject ≡ self.old.subject }
        ensures lines { self.new.progress.lines ≡ self.old.progress.lines + 1 }
        ensures ready { StandsForSome self.old.subject.setting.study.now self.new.progress }
        ensures told { result ≡ told_of self.new.progress.fault }
        ensures lasts { (fault : ReportFault) →
            self.old.progress.fault ≡ Some fault → self.new.progress.fault ≡ Some fault }
        ensures taken { (lines : List (List ℕ)) →
            StandsFor self.old.subject.setting.study.now self.old.progress lines →
            self.new.progress.fault ≢ Some ReportFault.NoMemory →
            StandsFor self.old.subject.setting.study.now self.new.progress (lines ++ text.now ∷ []) }
    {
        self.take(rt, gate, text)?;
        self.told()
    }

    /// What is answered of the lines so far.
    fn told(&self) -> Result<(), ReportFault>
        ensures { result ≡ told_of self.now.progress.fault }
    {
        match self.progress.fault {
            Some(fault) => Err(fault),
            None => Ok(()),
        }
    }

    /// What is answered of the report that has these lines, each with its line end, and then the rest.
    pub fn conclude(&self, rest: &[u8]) -> Result<Confirmed, ReportFault>
        requires room { self.now.progress.lines ≤ 4294967294 }
        ensures value { (lines : List (List ℕ)) →
            StandsFor self.now.subject.setting.study.now self.now.progress lines →
            Concludes (conclude (length lines + 1) rest.now
            (judge self.now.subject.setting.study.now lines)) result }
        ensures wanting { self.now.progress.fault ≡ Some ReportFault.NoMemory →
            result ≡ Err ReportFault.NoMemory }
    {
        match self.progress.fault {
            Some(fault) => Err(fault),
            None => end_of(self.progress.judging.place, rest, self.progress.lines + 1),
        }
    }

    /// The table of the rule, where these lines, each with its line end, are a confirmed report with one: None
    /// exactly where they are not.
    pub fn table(&self) -> Option<&Table>
        requires room { self.now.progress.lines ≤ 4294967294 }
        ensures value { (lines : List (List ℕ)) →
            StandsFor self.now.subject.setting.study.now self.now.progress lines →
            option_map (λ table. table.now) result ≡
            rule_of (conclude (length lines + 1) [] (judge self.now.subject.setting.study.now lines)) }
        ensures right { (lines : List (List ℕ)) →
            StandsFor self.now.subject.setting.study.now self.now.progress lines →
            IsReportedRule self.now.subject.setting.study.now (ended lines)
            (option_map (λ table. table.now) result) }
        ensures all { (lines : List (List ℕ)) →
            StandsFor self.now.subject.setting.study.now self.now.progress lines →
            IsTrue (list_all has_no_end lines) →
            TellsAll self.now.subject.setting.study.now (ended lines)
            (option_map (λ table. table.now) result) }
    {
        match self.progress.fault {
            Some(_) => None,
            None => {
                if is_rule_end(self.progress.judging.place) {
                    Some(&self.progress.judging.rows)
                } else {
                    None
                }
            }
        }
    }

    /// What is answered of the report that has these lines, each with its line end: Ok exactly where it is
    /// confirmed. Before the line `end` was read, the line after the last is refused as `Form`.
    pub fn finish(&self) -> Result<Confirmed, ReportFault>
        requires room { self.now.progress.lines ≤ 4294967294 }
        ensures value { (lines : List (List ℕ)) →
            StandsFor self.now.subject.setting.study.now self.now.progress lines →
            Concludes (conclude (length lines + 1) []
            (judge self.now.subject.setting.study.now lines)) result }
        ensures right { (lines : List (List ℕ)) →
            StandsFor self.now.subject.setting.study.now self.now.progress lines →
            ConfirmsRight self.now.subject.setting.study.now (ended lines) result }
        ensures all { (lines : List (List ℕ)) →
            StandsFor self.now.subject.setting.study.now self.now.progress lines →
            IsTrue (list_all has_no_end lines) →
            ConfirmsAll self.now.subject.setting.study.now (ended lines) result }
        ensures holds { (lines : List (List ℕ)) →
            StandsFor self.now.subject.setting.study.now self.now.progress lines →
            ConfirmsTrue self.now.subject.setting.study.now result }
        ensures wanting { self.now.progress.fault ≡ Some ReportFault.NoMemory →
            result ≡ Err ReportFault.NoMemory }
    {
        // Its contract says that the size of the study is one that the bench takes.
        kinds_have_sizes(self.subject.setting.kind);
        self.conclude(b"")
    }
}
