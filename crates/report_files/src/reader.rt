//! Reads a report or a sharp text in pieces of its bytes.

ghost use Rattle.std.specs.Prelude.{◌≡◌, ◌+◌, ◌≤◌, ◌<◌, List, ℕ, [], ◌∷◌, ◌++◌, length, is_some, option_map, Err, IfOk, IfSome, IsTrue, IsFalse, OnOk, ◌⊎◌};
ghost use Rattle.vocab.specs.Study.{HasFewAxioms};
ghost use Rattle.verdicts.specs.declared.verdicts.Verdict.TheVariants.{Possible};
ghost use Rattle.verdicts.specs.Judge.{answer, rule_of};
ghost use Rattle.verdicts.specs.Report.{is_right};
ghost use Rattle.report.specs.Answers.{Concludes, ConfirmsRight, ConfirmsAll, ConfirmsTrue};
ghost use Rattle.sharp_verdicts.specs.SharpJudge.{sharp_answer};
ghost use Rattle.sharp_report.specs.SharpAnswers.{SharpConcludes};
ghost use Rattle.report_files.specs.Lines.{lines_given, has_fault, sharp_fault_of, StandsForLines};
ghost use Rattle.report_files.specs.Pieces.{head_of, StandsForText, HasTaken};

use crate::cutting::cut_line;
use crate::line_checker::LineChecker;
use crew::Crew;
use edge::Gate;
use lists::NoMemory;
use outcomes::OutcomeKind;
use outcomes::laws::kinds_have_sizes;
use report::{ReportFault, Topic};
use sharp_report::SharpFault;
use std::alloc::Global;
use std::marker::Model;
use std::thread::Threads;
use verdicts::Confirmed;
use vocab::{Study, Table};

/// As many bytes of a line as tell that it is too long.
const HELD: usize = 4097;

/// Checks a report that comes in pieces of its bytes, which may end anywhere, or also a sharp text, if it
/// admits these: then the first line tells which of both the text is. Of a line that has not ended it holds
/// at most 4,097 bytes.
#[derive(Drop)]
pub struct Reader<'a, K: OutcomeKind> {
    checker: LineChecker<'a, K>,
    held: Vec<u8>,
}

impl<'a, K: OutcomeKind> Model for Reader<'a, K> {
    ghost use Rattle.std.specs.Prelude.{◌≤◌, length};
    ghost use Rattle.std.specs.Coded.{codes};
    ghost use Rattle.vocab.specs.TreeCode.{titled_code};
    ghost use Rattle.report_files.specs.Pieces.{ReaderState};

    ghost Value = { ReaderState };

    ghost coded = { Prim.hlevel (codes, titled_code) };

    ghost view = { λ r.
        record {
          checker = r.checker;
          held = r.held.items;
        } };

    ghost invariant = { λ r. length r.held.items ≤ 4097 };
}

impl<'a, K: OutcomeKind> Reader<'a, K> {
    /// A reader of reports alone that has read nothing: it refuses the title of a sharp text as a line of a
    /// report.
    pub fn new<R, G>(
        alloc: Global,
        crew: &Crew<R, G>,
        topic: &Topic<'a, K>,
    ) -> Result<Reader<'a, K>, NoMemory>
        ensures study { IfOk result (λ reader. reader.checker.study ≡ topic.now.study.now) }
        ensures reports { IfOk result (λ reader. IsFalse reader.checker.admits) }
        ensures stands { IfOk result (λ reader. StandsForText reader []) }
    {
        let checker = LineChecker::new(alloc, crew, topic, false)?;
        Ok(Reader {
            checker,
            held: Vec::new(alloc),
        })
    }

    /// A reader of reports and sharp texts that has read nothing.
    pub fn of_texts<R, G>(
        alloc: Global,
        crew: &Crew<R, G>,
        topic: &Topic<'a, K>,
    ) -> Result<Reader<'a, K>, NoMemory>
        ensures study { IfOk result (λ reader. reader.checker.study ≡ topic.now.study.now) }
        ensures texts { IfOk result (λ reader. IsTrue reader.checker.admits) }
        ensures stands { IfOk result (λ reader. StandsForText reader []) }
    {
        let checker = LineChecker::new(alloc, crew, topic, true)?;
        Ok(Reader {
            checker,
            held: Vec::new(alloc),
        })
    }

    /// Holds the next bytes of a line that has not ended, as far as there is room.
    fn hold(&mut self, piece: &[u8]) -> Result<(), NoMemory>
        ensures checker { self.new.checker ≡ self.old.checker }
        ensures held { OnOk result (self.new.held ≡ head_of (self.old.held ++ piece.now)) }
    {
        let room = HELD - self.held.len();
        let count = piece.len().min(room);
        self.held.extend_from_slice(&piece[..count])?;
        Ok(())
    }

    /// Ends the line that is held with this piece.
    fn end_line<R: Threads + Sync, G: Gate>(
        &mut self,
        crew: &Crew<R, G>,
        piece: &[u8],
    ) -> Result<(), NoMemory>
        requires { lines_given self.old.checker < 4294967294 }
        ensures study { self.new.checker.study ≡ self.old.checker.study }
        ensures admits { self.new.checker.admits ≡ self.old.checker.admits }
        ensures lines { OnOk result (lines_given self.new.checker ≡ lines_given self.old.checker + 1) }
        ensures ended { OnOk result (self.new.held ≡ []) }
        ensures taken { OnOk result ((lines : List (List ℕ)) (rest : List ℕ) →
            StandsForLines self.old.checker lines → self.old.held ≡ head_of rest →
            StandsForLines self.new.checker (lines ++ (rest ++ piece.now) ∷ [])) }
    {
        if self.held.is_empty() {
            return self.checker.take(crew, piece);
        }
        self.hold(piece)?;
        self.checker.take(crew, self.held.as_slice())?;
        self.held.clear();
        Ok(())
    }

    /// Takes the next bytes of the text. Of the crew the runtime and the gate serve: among how many workers
    /// the axioms of a rule are checked was said when the reader was made.
    pub fn piece<R: Threads + Sync, G: Gate>(
        &mut self,
        crew: &Crew<R, G>,
        bytes: &[u8],
    ) -> Result<(), NoMemory>
        requires { lines_given self.old.checker + length bytes.now < 4294967294 }
        ensures study { self.new.checker.study ≡ self.old.checker.study }
        ensures admits { self.new.checker.admits ≡ self.old.checker.admits }
        ensures lines { OnOk result
            (lines_given self.new.checker ≤ lines_given self.old.checker + length bytes.now) }
        ensures taken { OnOk result (HasTaken self.old self.new bytes.now) }
    {
        let mut rest = bytes;
        while let Some((line, after)) = cut_line(rest) {
            self.end_line(crew, line)?;
            rest = after;
        }
        self.hold(rest)
    }

    /// Whether the text is a sharp text that is judged as one.
    pub fn is_sharp(&self) -> bool
        ensures { result ≡ is_some self.now.checker.sharp }
    {
        self.checker.is_sharp()
    }

    /// Whether a line was faulty, so that no byte after it plays a part.
    pub fn is_faulty(&self) -> bool
        ensures { result ≡ has_fault self.now.checker }
    {
        self.checker.is_faulty()
    }

    /// The first fault of a report, if there was one.
    pub fn fault(&self) -> Option<ReportFault>
        ensures { result ≡ self.now.checker.report.fault }
    {
        self.checker.fault()
    }

    /// The first fault of a sharp text, if there was one.
    pub fn sharp_fault(&self) -> Option<SharpFault>
        ensures { result ≡ sharp_fault_of self.now.checker }
    {
        self.checker.sharp_fault()
    }

    /// What the judge of reports answers of the text: Ok exactly where it is a confirmed report.
    pub fn end(&self) -> Result<Confirmed, ReportFault>
        requires { lines_given self.now.checker ≤ 4294967294 }
        ensures { (text : List ℕ) → StandsForText self.now text →
            Concludes (answer self.now.checker.study text) result }
    {
        self.checker.conclude(self.held.as_slice())
    }

    /// What the judge of sharp texts answers of the text, where these are admitted: Ok exactly where it is a
    /// confirmed sharp text.
    pub fn end_sharp(&self) -> Result<(), SharpFault>
        requires { lines_given self.now.checker ≤ 4294967294 }
        ensures { (text : List ℕ) → IsTrue self.now.checker.admits → StandsForText self.now text →
            SharpConcludes (sharp_answer self.now.checker.study text) result }
    {
        self.checker.conclude_sharp(self.held.as_slice())
    }

    /// The table of the rule, where the text is a confirmed report with one.
    pub fn table(&self) -> Option<&Table>
        requires { lines_given self.now.checker ≤ 4294967294 }
        ensures value { (text : List ℕ) → StandsForText self.now text →
            option_map (λ table. table.now) result ≡ rule_of (answer self.now.checker.study text) }
        ensures right { (text : List ℕ) → StandsForText self.now text →
            IfSome result (λ table. IsTrue (is_right self.now.checker.study (Possible table.now))) }
    {
        if self.held.is_empty() {
            self.checker.table()
        } else {
            None
        }
    }
}

/// What is answered of the text of a report over the study, which has at most 40 axioms: Ok exactly where it
/// is confirmed, and else its first faulty line with its refusal. Want of memory may come in place of both.
/// The answer is the same for every number of workers, from 1 to 16.
pub fn check_report<R: Threads + Sync, K: OutcomeKind, G: Gate>(
    rt: &R,
    alloc: Global,
    gate: &G,
    workers: u8,
    kind: &K,
    study: &Study,
    text: &[u8],
) -> Result<Confirmed, ReportFault>
    requires some { 1 ≤ workers }
    requires few { workers ≤ 16 }
    requires size { study.now.size ≡ K.size kind.now }
    requires listed { HasFewAxioms study.now }
    requires room { length text.now < 4294967294 }
    ensures value { (result ≡ Err ReportFault.NoMemory) ⊎ Concludes (answer study.now text.now) result }
    ensures right { ConfirmsRight study.now text.now result }
    ensures all { (result ≡ Err ReportFault.NoMemory) ⊎ ConfirmsAll study.now text.now result }
    ensures holds { ConfirmsTrue study.now result }
{
    // Its contract says that the size of the study is one that the bench takes.
    kinds_have_sizes(kind);
    let crew = Crew { rt, gate, workers };
    let topic = Topic { kind, study };
    let mut reader = Reader::new(alloc, &crew, &topic)?;
    reader.piece(&crew, text)?;
    reader.end()
}
