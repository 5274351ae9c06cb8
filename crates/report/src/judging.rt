//! What a checker keeps of the lines that it took.

ghost use Rattle.std.specs.Prelude.{◌≡◌, IfOk};
ghost use Rattle.vocab.specs.Study.{Question};
ghost use Rattle.verdicts.specs.Places.{Standing, start};
ghost use Rattle.report_lines.specs.Held.{held_place};
ghost use Rattle.report.specs.Stands.{Stands};

mod core_lines;
mod head_lines;
mod story_lines;
mod table_lines;
mod taking;
mod witness_lines;

use crate::subject::Subject;
use lists::{Items, NoMemory};
use meaning::{Lemma, Literals};
use outcomes::OutcomeKind;
use report_lines::Place;
use vocab::{Places, Table};
use worlds::Board;

/// What a checker keeps of the lines that it took: the place in the grammar; the version of the report; the
/// outcomes of the table that is being read; the core; how many lemmas there will be; the suppositions of
/// those that are read; what the present one supposes; on the board, all that it has supposed or forced; and
/// how many witnesses are read.
#[derive(Drop)]
pub struct Judging {
    pub(crate) place: Place,
    pub(crate) version: u8,
    pub(crate) rows: Table,
    pub(crate) core: Places,
    pub(crate) count: u64,
    pub(crate) earlier: Items<Lemma>,
    pub(crate) suppose: Literals,
    pub(crate) board: Board,
    pub(crate) witnesses: usize,
}

impl Judging {
    /// Nothing is read.
    pub fn new<K: OutcomeKind>(subject: &Subject<K>) -> Result<Judging, NoMemory>
        ensures { IfOk result (λ judging. Stands subject.now.setting.study.now judging start) }
    {
        Ok(Judging {
            place: Place::AtTitle,
            version: 1,
            rows: Items::new(subject.alloc),
            core: Items::new(subject.alloc),
            count: 0,
            earlier: Items::new(subject.alloc),
            suppose: Items::new(subject.alloc),
            board: Board::new(subject.alloc, subject.setting.kind)?,
            witnesses: 0,
        })
    }

    /// The place in the grammar: which line is wanted next.
    pub fn place(&self) -> Place
        ensures { (s : Standing) (study : Question) → Stands study self.now s →
            result ≡ held_place s.place }
    {
        self.place
    }

    /// The places of the core's axioms, none before they are read.
    pub fn core(&self) -> &[u32]
        ensures { (s : Standing) (study : Question) → Stands study self.now s → result.now ≡ s.core }
    {
        self.core.as_slice()
    }
}
