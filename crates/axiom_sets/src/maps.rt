//! Maps of the sets of some axioms.

ghost use Rattle.std.specs.Prelude.{◌≡◌, ◌<◌, [], IsTrue, IsFalse, OnOk, OnErr};
ghost use Rattle.axiom_sets.specs.Sets.{is_set, has_whole};
ghost use Rattle.axiom_sets.specs.Maps.{decides, covers, IsTidy, HasImpossible, HasPossible, HasOpen};
ghost use Rattle.axiom_sets.specs.Counts.{left_to_ask};

use crate::ordering::put;
use crate::sets::{has_whole, without_larger, without_smaller};
use lists::{Items, NoMemory};
use std::alloc::Global;
use vocab::Places;

/// What is known of the sets of some axioms: least sets that no rule satisfies; largest sets that some rule
/// satisfies; and least sets of which a search spent its limit. The sets of a list stand by the number of
/// their axioms, and then by their places.
pub struct AxiomMap {
    pub impossible: Items<Places>,
    pub possible: Items<Places>,
    pub open: Items<Places>,
}

/// Written out, so that letting go of a map is one call.
impl Drop for AxiomMap {
    fn drop(self) {
        let AxiomMap {
            impossible: _,
            possible: _,
            open: _,
        } = self;
    }
}

impl AxiomMap {
    /// The map that says nothing.
    pub fn new(alloc: Global) -> AxiomMap
        ensures impossible { result.impossible ≡ [] }
        ensures possible { result.possible ≡ [] }
        ensures open_sets { result.open ≡ [] }
    {
        AxiomMap {
            impossible: Items::new(alloc),
            possible: Items::new(alloc),
            open: Items::new(alloc),
        }
    }

    /// Whether a set lies within a possible one.
    pub fn is_possible(&self, set: &Places) -> bool
        ensures { result ≡ has_whole self.now.possible set.now }
    {
        has_whole(self.possible.as_slice(), set.as_slice())
    }

    /// Adds a set of some of so many axioms that no rule satisfies, which the map does not decide. The impossible
    /// sets within which it lies go, and so do such open ones. Where there is no memory, the map stays.
    pub fn add_impossible(&mut self, alloc: Global, count: u32, set: Places) -> Result<(), NoMemory>
        requires tidy { IsTidy count self.old }
        requires set { IsTrue (is_set count set) }
        requires fresh { IsFalse (decides self.old set) }
        ensures added { OnOk result (HasImpossible self.old self.new set) }
        ensures same { OnErr result (self.new ≡ self.old) }
        ensures tidy { OnOk result (IsTidy count self.new) }
        ensures fewer { OnOk result (left_to_ask count self.new < left_to_ask count self.old) }
    {
        let _ = count;
        let mut impossible = without_larger(alloc, self.impossible.as_slice(), set.as_slice())?;
        let open_sets = without_larger(alloc, self.open.as_slice(), set.as_slice())?;
        put(&mut impossible, set)?;
        self.impossible = Items::from_vec(impossible);
        self.open = Items::from_vec(open_sets);
        Ok(())
    }

    /// Adds a set of some of so many axioms that some rule satisfies, which the map does not decide. The possible
    /// sets that lie within it go, and so do such open ones. Where there is no memory, the map stays.
    pub fn add_possible(&mut self, alloc: Global, count: u32, set: Places) -> Result<(), NoMemory>
        requires tidy { IsTidy count self.old }
        requires set { IsTrue (is_set count set) }
        requires fresh { IsFalse (decides self.old set) }
        ensures added { OnOk result (HasPossible self.old self.new set) }
        ensures same { OnErr result (self.new ≡ self.old) }
        ensures tidy { OnOk result (IsTidy count self.new) }
        ensures fewer { OnOk result (left_to_ask count self.new < left_to_ask count self.old) }
    {
        let _ = count;
        let mut possible = without_smaller(alloc, self.possible.as_slice(), set.as_slice())?;
        let open_sets = without_smaller(alloc, self.open.as_slice(), set.as_slice())?;
        put(&mut possible, set)?;
        self.possible = Items::from_vec(possible);
        self.open = Items::from_vec(open_sets);
        Ok(())
    }

    /// Adds a set of some of so many axioms over which a search spent its limit, which the map does not cover.
    /// The open sets within which it lies go. Where there is no memory, the map stays.
    pub fn add_open(&mut self, alloc: Global, count: u32, set: Places) -> Result<(), NoMemory>
        requires tidy { IsTidy count self.old }
        requires set { IsTrue (is_set count set) }
        requires fresh { IsFalse (covers self.old set) }
        ensures added { OnOk result (HasOpen self.old self.new set) }
        ensures same { OnErr result (self.new ≡ self.old) }
        ensures tidy { OnOk result (IsTidy count self.new) }
        ensures fewer { OnOk result (left_to_ask count self.new < left_to_ask count self.old) }
    {
        let _ = count;
        let mut open_sets = without_larger(alloc, self.open.as_slice(), set.as_slice())?;
        put(&mut open_sets, set)?;
        self.open = Items::from_vec(open_sets);
        Ok(())
    }
}
