//! The parts of a verdict, which the lines of its report or of its sharp text give one by one.

ghost use Rattle.std.specs.Prelude.{◌≡◌, ◌≤◌, [], OnOk};
ghost use Rattle.verdicts.specs.declared.verdicts.Verdict.TheVariants.{Possible, Impossible};
ghost use Rattle.verdict_reading.specs.Parts.{with_lemma, with_row, with_open, with_line, with_sharp_line};

use crate::fitting::fitted;
use crate::sharp_verdict::SharpVerdict;
use lists::{Items, NoMemory};
use meaning::{Lemma, Literals, Reason, Steps, StoryStep, Witness, Witnesses};
use report_lines::Line;
use sharp_report::SharpLine;
use sharp_verdicts::Instances;
use std::alloc::Global;
use std::mem::replace;
use verdicts::Verdict;
use vocab::{Places, Table};

/// What the lines so far have given of a verdict, but its core: the lemmas that are read; what the present one
/// supposes, and its steps; the outcomes of the table that is being read; and the witnesses that are read.
#[derive(Drop)]
pub(crate) struct Parts {
    pub(crate) earlier: Items<Lemma>,
    pub(crate) suppose: Literals,
    pub(crate) steps: Steps,
    pub(crate) rows: Table,
    pub(crate) witnesses: Witnesses,
}

impl Parts {
    /// Nothing is given.
    pub(crate) fn new(alloc: Global) -> Parts
        ensures { result ≡ record { earlier = []; suppose = []; steps = []; rows = []; witnesses = [] } }
    {
        Parts {
            earlier: Items::new(alloc),
            suppose: Items::new(alloc),
            steps: Items::new(alloc),
            rows: Items::new(alloc),
            witnesses: Items::new(alloc),
        }
    }

    /// Puts the present lemma to the earlier ones. Its steps then take no more memory than they need.
    fn end_lemma(&mut self, alloc: Global, last: Reason) -> Result<(), NoMemory>
        ensures { OnOk result (self.new ≡ with_lemma last self.old) }
    {
        let suppose = replace(&mut self.suppose, Items::new(alloc));
        let steps = replace(&mut self.steps, Items::new(alloc));
        let steps = fitted(alloc, steps)?;
        self.earlier.push(Lemma {
            suppose,
            steps,
            last,
        })?;
        Ok(())
    }

    /// Takes a row of a table that has so many, and puts the table to the witnesses where it is that of one,
    /// and whole.
    fn take_row(
        &mut self,
        alloc: Global,
        count: u32,
        of_witness: bool,
        outcome: u8,
    ) -> Result<(), NoMemory>
        ensures { OnOk result (self.new ≡ with_row count of_witness outcome self.old) }
    {
        self.rows.push(outcome)?;
        if of_witness && self.rows.len() == count as usize {
            let table = replace(&mut self.rows, Items::new(alloc));
            self.witnesses.push(Witness::Rule(table))?;
        }
        Ok(())
    }

    /// Puts an open mark to the witnesses, with the limit of its search.
    fn take_open(&mut self, limit: u32) -> Result<(), NoMemory>
        ensures { OnOk result (self.new ≡ with_open limit self.old) }
    {
        self.witnesses.push(Witness::Open(limit))?;
        Ok(())
    }

    /// Takes a line, where a table has `count` rows and the searches of the study learn at most `limit`
    /// clauses; `of_witness` tells whether a row is one of a witness.
    pub(crate) fn take(
        &mut self,
        alloc: Global,
        count: u32,
        limit: u32,
        of_witness: bool,
        line: &Line,
    ) -> Result<(), NoMemory>
        ensures { OnOk result (self.new ≡ with_line count limit of_witness line.now self.old) }
    {
        match line {
            Line::Suppose(literal) => {
                self.suppose.push(*literal)?;
                Ok(())
            }
            Line::So(literal, reason) => {
                self.steps.push(StoryStep {
                    literal: *literal,
                    reason: *reason,
                })?;
                Ok(())
            }
            Line::Clash(reason) => self.end_lemma(alloc, *reason),
            Line::Row(_, outcome) => self.take_row(alloc, count, of_witness, *outcome),
            Line::WithOpen(_, _) => self.take_open(limit),
            _ => Ok(()),
        }
    }

    /// Takes a line of a sharp text, whose marks are put to the witnesses; `of_mark` tells whether a row is one
    /// of a mark.
    pub(crate) fn take_sharp(
        &mut self,
        alloc: Global,
        count: u32,
        limit: u32,
        of_mark: bool,
        line: &SharpLine,
    ) -> Result<(), NoMemory>
        ensures { OnOk result (self.new ≡ with_sharp_line count limit of_mark line.now self.old) }
    {
        match line {
            SharpLine::Plain(plain) => self.take(alloc, count, limit, of_mark, plain),
            SharpLine::NeedsOpen => self.take_open(limit),
            _ => Ok(()),
        }
    }

    /// The verdict of the rule that is read.
    pub(crate) fn into_possible(self) -> Verdict
        ensures { result ≡ Possible self.rows }
    {
        let Parts {
            rows,
            earlier: _,
            suppose: _,
            steps: _,
            witnesses: _,
        } = self;
        Verdict::Possible(rows)
    }

    /// The verdict of the story and the witnesses that are read, with its core.
    pub(crate) fn into_impossible(self, core: Places) -> Verdict
        ensures { result ≡ Impossible core self.earlier self.witnesses }
    {
        let Parts {
            earlier,
            witnesses,
            suppose: _,
            steps: _,
            rows: _,
        } = self;
        Verdict::Impossible {
            core,
            story: earlier,
            witnesses,
        }
    }

    /// The sharp verdict of the story and the marks that are read, with its core and its instances.
    pub(crate) fn into_sharp(self, core: Places, instances: Instances) -> SharpVerdict
        ensures { result ≡ record {
          core = core;
          story = self.earlier;
          instances = instances;
          marks = self.witnesses;
        } }
    {
        let Parts {
            earlier,
            witnesses,
            suppose: _,
            steps: _,
            rows: _,
        } = self;
        SharpVerdict {
            core,
            story: earlier,
            instances,
            marks: witnesses,
        }
    }
}
