//! What a checker of sharp texts keeps of the lines that it took.

ghost use Rattle.std.specs.Prelude.{◌≡◌, ◌<◌, IfOk, IfSome, slice_get};
ghost use Rattle.sharp_verdicts.specs.SharpFaults.{listed_instances};
ghost use Rattle.sharp_verdicts.specs.SharpJudge.{after_mark};
ghost use Rattle.sharp_verdicts.specs.SharpPlaces.{AtSharpNothing, SharpStanding, sharp_start};
ghost use Rattle.sharp_report.specs.SharpStands.{held_sharp_place, SharpStands, HasMarks};
ghost use Rattle.vocab.specs.Study.{Question};

mod need_lines;
mod row_lines;
mod story_lines;
mod taking;

use crate::places::SharpPlace;
use lists::{Items, NoMemory};
use outcomes::OutcomeKind;
use report::{Judging, Subject};
use sharp_verdicts::{Cited, Instances};
use std::alloc::Global;
use vocab::Table;

/// What a checker keeps of the lines that it took: the place in the grammar; what the lines of the report
/// have given; the numbers of the instances that its story cites so far; once it is read, these instances;
/// how many marks are read; and the outcomes of the table that is being read.
#[derive(Drop)]
pub struct SharpJudging {
    pub(crate) place: SharpPlace,
    pub(crate) told: Judging,
    pub(crate) cited: Vec<u64>,
    pub(crate) instances: Instances,
    pub(crate) marks: usize,
    pub(crate) rows: Table,
}

impl SharpJudging {
    /// Nothing is read.
    pub fn new<K: OutcomeKind>(subject: &Subject<K>) -> Result<SharpJudging, NoMemory>
        ensures { IfOk result (λ judging. SharpStands subject.now.setting.study.now judging sharp_start) }
    {
        Ok(SharpJudging {
            place: SharpPlace::AtSharp,
            told: Judging::new(subject)?,
            cited: Vec::new(subject.alloc),
            instances: Items::new(subject.alloc),
            marks: 0,
            rows: Items::new(subject.alloc),
        })
    }

    /// The place in the grammar: which line is wanted next.
    pub fn place(&self) -> SharpPlace
        ensures { (study : Question) (s : SharpStanding) → SharpStands study self.now s →
            result ≡ held_sharp_place s.place }
    {
        self.place
    }

    /// The places of the core's axioms, none before they are read.
    pub fn core(&self) -> &[u32]
        ensures { (study : Question) (s : SharpStanding) → SharpStands study self.now s →
            result.now ≡ s.told.core }
    {
        self.told.core()
    }

    /// The instances that the story cites, once all lines are read.
    pub fn instances(&self) -> &[Cited]
        ensures { (study : Question) (s : SharpStanding) → SharpStands study self.now s →
            s.place ≡ AtSharpNothing → result.now ≡ listed_instances study s }
    {
        self.instances.as_slice()
    }

    /// The instance whose mark comes next.
    pub(crate) fn next_instance(&self) -> Option<Cited>
        ensures value { result ≡ slice_get self.now.instances self.now.marks }
        ensures few { IfSome result (λ _. self.now.marks < 18446744073709551615) }
    {
        if self.marks < self.instances.len() {
            Some(*self.instances.get(self.marks))
        } else {
            None
        }
    }

    /// Goes to the next mark, or to the end, with an empty table.
    pub(crate) fn after_mark(&mut self, alloc: Global)
        ensures { (study : Question) (s : SharpStanding) → HasMarks study self.old s →
            SharpStands study self.new (after_mark study s) }
    {
        self.rows = Items::new(alloc);
        if self.marks == self.instances.len() {
            self.place = SharpPlace::AtSharpEnd;
        } else {
            self.place = SharpPlace::AtNeed;
        }
    }
}
