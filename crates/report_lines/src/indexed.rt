//! A study with an index of the names of its axioms.

ghost use Rattle.std.specs.Prelude.{◌≡◌, ◌<◌, length, map, IfOk, IfSome};
ghost use Rattle.names.specs.Names.{FindsFirst};
ghost use Rattle.vocab.specs.Study.{IsStudy};
ghost use Rattle.verdicts.specs.Reading.{read_axiom};

use lists::NoMemory;
use names::NameIndex;
use std::alloc::Global;
use std::marker::Model;
use vocab::{Axioms, Study};

/// A study whose axioms are found by their names, without going over all of them. A contract sees the study.
pub struct IndexedStudy<'a> {
    study: &'a Study,
    index: NameIndex,
}

/// Written out, so that letting go of it is one call.
impl Drop for IndexedStudy<'_> {
    fn drop(self) {
        let IndexedStudy { study: _, index: _ } = self;
    }
}

impl<'a> Model for IndexedStudy<'a> {
    ghost use Rattle.std.specs.Coded.{codes};
    ghost use Rattle.std.specs.Prelude.{map};
    ghost use Rattle.names.specs.Names.{FindsFirst};
    ghost use Rattle.vocab.specs.Study.{Question};
    ghost use Rattle.vocab.specs.TreeCode.{titled_code};

    ghost Value = { Question };

    ghost coded = { Prim.hlevel (codes, titled_code) };

    ghost view = { λ s. s.study.now };

    ghost invariant = { λ s. FindsFirst s.index 0 (map (λ a. a.name) s.study.now.axioms) };
}

/// The places of the axioms by their names; of two of one name, that of the first.
fn index_of(alloc: Global, study: &Study) -> Result<NameIndex, NoMemory>
    ensures { IfOk result (λ index. FindsFirst index 0 (map (λ a. a.name) study.now.axioms)) }
{
    let axioms = study.axioms().as_slice();
    let mut index = NameIndex::new(alloc);
    for place in (0..axioms.len()).rev() {
        let name = axioms[place].name();
        index.put(alloc, name.bytes(), place)?;
    }
    Ok(index)
}

impl<'a> IndexedStudy<'a> {
    /// The study with its index. Error: no memory was found.
    pub fn new(alloc: Global, study: &'a Study) -> Result<IndexedStudy<'a>, NoMemory>
        ensures { IfOk result (λ indexed. indexed ≡ study.now) }
    {
        let index = index_of(alloc, study)?;
        Ok(IndexedStudy { study, index })
    }

    /// The study.
    pub fn study(&self) -> &'a Study
        ensures { result.now ≡ self.now }
    {
        self.study
    }

    /// The axioms, and what holds of them.
    pub(crate) fn axioms(&self) -> &Axioms
        ensures axioms { result.now ≡ self.now.axioms }
        ensures study { IsStudy self.now }
    {
        self.study.axioms()
    }

    /// The place of the first axiom of a name.
    pub(crate) fn place_of(&self, word: &[u8]) -> Option<u32>
        ensures value { result ≡ read_axiom self.now.axioms word.now }
        ensures within { IfSome result (λ k. k < length self.now.axioms) }
        ensures few { IfSome result (λ k. k < 4000000) }
    {
        let _axioms = self.axioms();
        match self.index.place_of(word) {
            Some(place) => Some(place as u32),
            None => None,
        }
    }
}
