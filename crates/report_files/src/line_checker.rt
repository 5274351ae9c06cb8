//! Takes the lines of a text that may be a report or a sharp text.

ghost use Rattle.std.specs.Prelude.{◌≡◌, ◌+◌, ◌≤◌, ◌<◌, List, ℕ, [], ◌∷◌, ◌++◌, length, option_map, is_some, IfOk, OnOk, IfSome, IsTrue};
ghost use Rattle.verdicts.specs.declared.verdicts.Verdict.TheVariants.{Possible};
ghost use Rattle.verdicts.specs.Judge.{judge, conclude, rule_of};
ghost use Rattle.verdicts.specs.Report.{is_right};
ghost use Rattle.report.specs.Answers.{Concludes};
ghost use Rattle.sharp_verdicts.specs.SharpJudge.{sharp_judge, sharp_conclude};
ghost use Rattle.sharp_report.specs.SharpAnswers.{SharpConcludes};
ghost use Rattle.report_files.specs.Lines.{is_undecided, begins, lines_given, has_fault, sharp_fault_of, StandsForLines, StandsBefore};

use crew::Crew;
use edge::Gate;
use lists::NoMemory;
use outcomes::OutcomeKind;
use report::{Checker, ReportFault, Topic};
use sharp_lines::is_title;
use sharp_report::{SharpChecker, SharpFault, SharpRefusal};
use std::alloc::Global;
use std::marker::Model;
use std::thread::Threads;
use verdicts::{Confirmed, Refusal};
use vocab::Table;

/// Checks the lines of a text. They are those of a sharp text where it admits these and the first line is
/// their title, and else those of a report. The checker of sharp texts is made when that line comes; from then
/// on the one of reports is given no line.
pub(crate) struct LineChecker<'a, K: OutcomeKind> {
    report: Checker<'a, K>,
    sharp: Option<SharpChecker<'a, K>>,
    admits: bool,
}

impl<K: OutcomeKind> Drop for LineChecker<'_, K> {
    fn drop(self) {
        let LineChecker {
            report: _,
            sharp: _,
            admits: _,
        } = self;
    }
}

impl<'a, K: OutcomeKind> Model for LineChecker<'a, K> {
    ghost use Rattle.std.specs.Prelude.{IfSome, option_map};
    ghost use Rattle.std.specs.Coded.{codes};
    ghost use Rattle.vocab.specs.TreeCode.{titled_code};
    ghost use Rattle.report.specs.Stands.{StandsForSome};
    ghost use Rattle.report_files.specs.Lines.{CheckerState, IsSharpPart};

    ghost Value = { CheckerState };

    ghost coded = { Prim.hlevel (codes, titled_code) };

    ghost view = { λ c.
        record {
          study = c.report.subject.setting.study.now;
          admits = c.admits;
          report = c.report.progress;
          sharp = option_map (λ s. s.progress) c.sharp;
        } };

    ghost invariant = { λ c. StandsForSome c.report.subject.setting.study.now c.report.progress
        × IfSome c.sharp (λ s.
        IsSharpPart c.report.subject.setting.study.now s.subject.setting.study.now s.progress) };
}

impl<'a, K: OutcomeKind> LineChecker<'a, K> {
    /// A checker that was given no line.
    pub(crate) fn new<R, G>(
        alloc: Global,
        crew: &Crew<R, G>,
        topic: &Topic<'a, K>,
        admits: bool,
    ) -> Result<LineChecker<'a, K>, NoMemory>
        ensures study { IfOk result (λ checker. checker.study ≡ topic.now.study.now) }
        ensures admits { IfOk result (λ checker. checker.admits ≡ admits) }
        ensures stands { IfOk result (λ checker. StandsForLines checker []) }
    {
        let report = Checker::new(alloc, topic.kind, topic.study, crew.workers)?;
        Ok(LineChecker {
            report,
            sharp: None,
            admits,
        })
    }

    /// Whether sharp texts are admitted, and no line was given, so that the next one tells whether it is one.
    fn is_undecided(&self) -> bool
        ensures { result ≡ is_undecided self.now }
    {
        self.admits && self.sharp.is_none() && self.report.progress.lines == 0
    }

    /// Whether a sharp text begins with this line.
    fn begins(&self, line: &[u8]) -> bool
        ensures { result ≡ begins self.now line.now }
    {
        self.is_undecided() && is_title(line)
    }

    /// Makes the checker of sharp texts where one begins with this line.
    fn begin(&mut self, line: &[u8]) -> Result<(), NoMemory>
        ensures study { self.new.study ≡ self.old.study }
        ensures admits { self.new.admits ≡ self.old.admits }
        ensures count { OnOk result (lines_given self.new ≡ lines_given self.old) }
        ensures stands { OnOk result ((lines : List (List ℕ)) →
            StandsForLines self.old lines → StandsBefore self.new lines line.now) }
    {
        if self.begins(line) {
            let subject = &self.report.subject;
            let (kind, study) = (subject.setting.kind, subject.setting.study);
            let sharp = SharpChecker::new(subject.alloc, kind, study, subject.workers)?;
            self.sharp = Some(sharp);
        }
        Ok(())
    }

    /// Gives the line to the checker whose it is.
    fn give<R: Threads + Sync, G: Gate>(
        &mut self,
        crew: &Crew<R, G>,
        line: &[u8],
    ) -> Result<(), NoMemory>
        requires { lines_given self.old < 4294967294 }
        ensures study { self.new.study ≡ self.old.study }
        ensures admits { self.new.admits ≡ self.old.admits }
        ensures count { OnOk result (lines_given self.new ≡ lines_given self.old + 1) }
        ensures taken { OnOk result ((lines : List (List ℕ)) →
            StandsBefore self.old lines line.now → StandsForLines self.new (lines ++ line.now ∷ [])) }
    {
        match &mut self.sharp {
            None => self.report.take(crew.rt, crew.gate, line),
            Some(sharp) => sharp.take(crew.rt, crew.gate, line),
        }
    }

    /// Takes the next line, without its line end. Err is want of memory alone, now or before; what is wrong
    /// with a line is kept.
    pub(crate) fn take<R: Threads + Sync, G: Gate>(
        &mut self,
        crew: &Crew<R, G>,
        line: &[u8],
    ) -> Result<(), NoMemory>
        requires { lines_given self.old < 4294967294 }
        ensures study { self.new.study ≡ self.old.study }
        ensures admits { self.new.admits ≡ self.old.admits }
        ensures count { OnOk result (lines_given self.new ≡ lines_given self.old + 1) }
        ensures taken { OnOk result ((lines : List (List ℕ)) →
            StandsForLines self.old lines → StandsForLines self.new (lines ++ line.now ∷ [])) }
    {
        self.begin(line)?;
        self.give(crew, line)
    }

    /// Whether it is at a sharp text.
    pub(crate) fn is_sharp(&self) -> bool
        ensures { result ≡ is_some self.now.sharp }
    {
        self.sharp.is_some()
    }

    /// Whether a line was faulty, or memory was wanting.
    pub(crate) fn is_faulty(&self) -> bool
        ensures { result ≡ has_fault self.now }
    {
        match &self.sharp {
            None => self.report.progress.fault.is_some(),
            Some(sharp) => sharp.progress.fault.is_some(),
        }
    }

    /// The first fault as a report.
    pub(crate) fn fault(&self) -> Option<ReportFault>
        ensures { result ≡ self.now.report.fault }
    {
        self.report.progress.fault
    }

    /// The first fault as a sharp text, where it is at one.
    pub(crate) fn sharp_fault(&self) -> Option<SharpFault>
        ensures { result ≡ sharp_fault_of self.now }
    {
        match &self.sharp {
            None => None,
            Some(sharp) => sharp.progress.fault,
        }
    }

    /// What the judge of reports answers of the text that has these lines, each with its line end, and then
    /// the rest. It refuses the title of a sharp text.
    pub(crate) fn conclude(&self, rest: &[u8]) -> Result<Confirmed, ReportFault>
        requires { lines_given self.now ≤ 4294967294 }
        ensures { (lines : List (List ℕ)) → StandsForLines self.now lines →
            Concludes (conclude (length lines + 1) rest.now (judge self.now.study lines)) result }
    {
        match &self.sharp {
            None => self.report.conclude(rest),
            Some(_) => Err(ReportFault::Line {
                line: 1,
                refusal: Refusal::Form,
            }),
        }
    }

    /// What the judge of sharp texts answers of it, where these are admitted. It refuses a first line that is
    /// not their title.
    pub(crate) fn conclude_sharp(&self, rest: &[u8]) -> Result<(), SharpFault>
        requires { lines_given self.now ≤ 4294967294 }
        ensures { (lines : List (List ℕ)) → IsTrue self.now.admits → StandsForLines self.now lines →
            SharpConcludes (sharp_conclude self.now.study (length lines + 1) rest.now
            (sharp_judge self.now.study lines)) result }
    {
        match &self.sharp {
            None => Err(SharpFault::Line {
                line: 1,
                refusal: SharpRefusal::Report(Refusal::Form),
            }),
            Some(sharp) => sharp.conclude(rest),
        }
    }

    /// The table of the rule, where the lines, each with its line end, are a confirmed report with one.
    pub(crate) fn table(&self) -> Option<&Table>
        requires { lines_given self.now ≤ 4294967294 }
        ensures value { (lines : List (List ℕ)) → StandsForLines self.now lines →
            option_map (λ table. table.now) result ≡
            rule_of (conclude (length lines + 1) [] (judge self.now.study lines)) }
        ensures right { (lines : List (List ℕ)) → StandsForLines self.now lines →
            IfSome result (λ table. IsTrue (is_right self.now.study (Possible table.now))) }
    {
        match &self.sharp {
            None => self.report.table(),
            Some(_) => None,
        }
    }
}
