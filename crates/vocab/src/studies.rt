//! Axioms and studies.

ghost use Rattle.std.specs.Prelude.{◌≡◌, ◌<◌, [], ◌∷◌, ◌++◌, length, slice_get, OnOk, OnErr};
ghost use Rattle.vocab.specs.Tree.{tree_of};

use crate::names::Name;
use crate::sentences::Formula;
use crate::sizes::Size;
use lists::Items;
use std::marker::Model;

/// A named sentence.
#[derive(Drop)]
pub struct Axiom {
    name: Name,
    sentence: Formula,
}

impl Model for Axiom {
    ghost use Rattle.vocab.specs.Titled.{Titled};
    ghost use Rattle.vocab.specs.Tree.{tree_of};
    ghost use Rattle.vocab.specs.TreeCode.{titled_code};

    ghost Value = { Titled };

    ghost coded = { titled_code };

    ghost view = { λ a. record { name = a.name; sentence = tree_of a.sentence } };
}

impl Axiom {
    /// The axiom of this name and sentence.
    pub fn new(name: Name, sentence: Formula) -> Axiom
        ensures { result ≡ record { name = name; sentence = tree_of sentence } }
    {
        Axiom { name, sentence }
    }

    /// The name.
    pub fn name(&self) -> Name
        ensures { result ≡ self.now.name }
    {
        self.name
    }

    /// The sentence.
    pub fn sentence(&self) -> &Formula
        ensures { tree_of result.now ≡ self.now.sentence }
    {
        &self.sentence
    }
}

/// A list of axioms.
pub type Axioms = Items<Axiom>;

/// A size, a limit on learned clauses, and the axioms.
#[derive(Drop)]
pub struct Study {
    size: Size,
    conflicts: u32,
    axioms: Axioms,
}

impl Model for Study {
    ghost use Rattle.std.specs.Coded.{codes};
    ghost use Rattle.vocab.specs.Study.{Question, IsStudy};
    ghost use Rattle.vocab.specs.TreeCode.{titled_code};

    ghost Value = { Question };

    ghost coded = { Prim.hlevel (codes, titled_code) };

    ghost view = { λ s. record { size = s.size; conflicts = s.conflicts; axioms = s.axioms } };

    ghost invariant = { λ s. IsStudy (record { size = s.size; conflicts = s.conflicts; axioms = s.axioms }) };
}

impl Study {
    ghost use Rattle.vocab.specs.Study.{Question, IsStudy};

    /// The study of these parts.
    pub fn new(size: Size, conflicts: u32, axioms: Axioms) -> Study
        requires { IsStudy (record { size = size; conflicts = conflicts; axioms = axioms }) }
        ensures { result ≡ record { size = size; conflicts = conflicts; axioms = axioms } }
    {
        Study {
            size,
            conflicts,
            axioms,
        }
    }

    /// The size.
    pub fn size(&self) -> Size
        ensures { result ≡ self.now.size }
    {
        self.size
    }

    /// The most clauses that a search may learn.
    pub fn conflicts(&self) -> u32
        ensures { result ≡ self.now.conflicts }
    {
        self.conflicts
    }

    /// The axioms, and what holds of them.
    pub fn axioms(&self) -> &Axioms
        ensures axioms { result.now ≡ self.now.axioms }
        ensures study { IsStudy self.now }
    {
        &self.axioms
    }
}
