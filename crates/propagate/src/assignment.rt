//! A partial assignment, without the watches of the clauses.

ghost use Rattle.std.specs.Prelude.{◌≡◌, ℕ, ◌+◌, ◌<◌, ◌≤◌, [], ◌∷◌, ◌++◌, true, false, length, OnOk, OnErr, IfOk, IfSome, IfNone, All, take, slice_index_or, None, Some, option_and_then};
ghost use Rattle.std.specs.Option.{option_map};
ghost use Rattle.propagate.specs.Values.{value_in, IsUnassigned, AllFail, IsLastLeft, StaysWithin, StartsAtOne};
ghost use Rattle.propagate.specs.Entries.{entry_of, up_to};
ghost use Rattle.propagate.specs.TrailState.{TrailState, IsTrail, known, clause_at, IsLearnable, empty_over, learned, decided, forced_by, cut_to};
ghost use Rattle.propagate.specs.Scan.{IsScanOf};
ghost use Rattle.propagate.specs.Outcome.{Ends};

use crate::scan::Scan;
use crate::{Entry, marks};
use cnf::{Clauses, Lit, Store};
use lists::NoMemory;
use std::alloc::Global;
use std::marker::Model;

/// A partial assignment: the assigned literals in order, over a list of clauses. Each has a level, and it was
/// decided or forced by a clause. `Trail` adds the watches and unit propagation. Only `new` and `learn` take
/// memory: they make the room for all that the other calls add.
#[derive(Drop)]
pub struct Assignment {
    clauses: Store,
    marks: Vec<Option<Entry>>,
    entries: Vec<Entry>,
    level: u32,
    propagated: bool,
}

impl Model for Assignment {
    ghost use Rattle.std.specs.Prelude.{[], length, vec_capacity};
    ghost use Rattle.propagate.specs.TrailState.{TrailState, TrailPartsAgree};

    ghost Value = { TrailState };

    ghost view = { λ t.
        record {
          clauses = t.clauses;
          variables = length t.marks.items;
          entries = t.entries.items;
          level = t.level;
          propagated = t.propagated;
          watches = [];
        } };

    ghost invariant = { λ t. TrailPartsAgree t.marks.items (vec_capacity t.entries) (record {
      clauses = t.clauses;
      variables = length t.marks.items;
      entries = t.entries.items;
      level = t.level;
      propagated = t.propagated;
      watches = [];
    }) };
}

impl Assignment {
    /// The assignment over these clauses that has no entry. No variable of a clause is above the number of
    /// variables.
    pub fn new(alloc: Global, clauses: &Clauses, variables: u32) -> Result<Assignment, NoMemory>
        requires { All (StaysWithin variables) clauses.now.clauses }
        ensures form { IfOk result IsTrail }
        ensures state { IfOk result (λ t. t ≡ empty_over clauses.now.clauses variables) }
    {
        let _count = clauses.len();
        let store = copied(alloc, clauses)?;
        let marks = marks::unmarked(alloc, variables)?;
        let entries = Vec::with_capacity(alloc, variables as usize)?;
        Ok(Assignment {
            clauses: store,
            marks,
            entries,
            level: 0,
            propagated: false,
        })
    }

    /// Adds a clause after the others, and gives its number, from 0. The entries stay. The clause is one from
    /// which unit propagation gets nothing below the current level. Without memory the assignment stays as it
    /// is.
    pub fn learn(&mut self, clause: &[Lit]) -> Result<u32, NoMemory>
        requires room { length self.old.clauses < 4294967295 }
        requires variables { StaysWithin self.old.variables clause.now }
        requires learnable { IsLearnable self.old clause.now }
        ensures form { IsTrail self.new }
        ensures number { IfOk result (λ k. k ≡ length self.old.clauses) }
        ensures state { OnOk result (self.new ≡ learned self.old clause.now) }
        ensures err { OnErr result (self.new ≡ self.old) }
    {
        read(clause);
        let k = self.clauses.len() as u32;
        self.clauses.push(clause)?;
        self.propagated = false;
        Ok(k)
    }

    /// Decides an unassigned literal, at the next level. The assignment is propagated.
    pub fn decide(&mut self, lit: Lit)
        requires variable { lit.variable ≤ self.old.variables }
        requires unassigned { IsUnassigned (known self.old) lit }
        requires propagated { self.old.propagated ≡ true }
        ensures form { IsTrail self.new }
        ensures state { self.new ≡ decided self.old lit }
    {
        let _variable = lit.variable();
        let level = self.level + 1;
        let e = Entry {
            literal: lit,
            level,
            reason: None,
        };
        marks::put(&mut self.marks, &mut self.entries, e);
        self.level = level;
        self.propagated = false;
    }

    /// Removes the entries above a level, which is not above the current one.
    pub fn back_to(&mut self, level: u32)
        requires { level ≤ self.old.level }
        ensures form { IsTrail self.new }
        ensures state { self.new ≡ cut_to self.old level }
        ensures front { up_to level self.old.entries ≡ take
            (length (up_to level self.old.entries)) self.old.entries }
    {
        marks::cut_back(&mut self.marks, &mut self.entries, level);
        self.level = level;
        self.propagated = false;
    }

    /// The number of entries.
    pub fn len(&self) -> u32
        ensures length { result ≡ length self.now.entries }
        ensures form { IsTrail self.now }
    {
        self.entries.as_slice().len() as u32
    }

    /// The literal of the entry at a place, from 0.
    pub fn at(&self, place: u32) -> Lit
        requires { place < length self.now.entries }
        ensures { (d : _) → result ≡ (slice_index_or self.now.entries place d).literal }
    {
        self.entries.as_slice()[place as usize].literal
    }

    /// The entry of a variable.
    pub fn entry(&self, variable: u32) -> Option<Entry>
        ensures { result ≡ entry_of self.now.entries variable }
    {
        let marks = self.marks.as_slice();
        if variable == 0 {
            return None;
        }
        if variable as usize > marks.len() {
            return None;
        }
        marks[variable as usize - 1]
    }

    /// The value of a variable.
    #[tactic(auto, using(crate::proofs::EntryLemmas::value_from_entry, crate::proofs::EntryLemmas::no_value_from_entry))]
    pub fn value(&self, variable: u32) -> Option<bool>
        ensures { result ≡ value_in (known self.now) variable }
    {
        match self.entry(variable) {
            Some(e) => Some(e.literal.positive()),
            None => None,
        }
    }

    /// The number of the clause that forced the entry of a variable.
    pub fn reason(&self, variable: u32) -> Option<u32>
        ensures { result ≡ option_and_then (λ e. e.reason) (entry_of self.now.entries variable) }
    {
        self.entry(variable).and_then(|e| e.reason)
    }

    /// The level of the entry of a variable.
    pub fn level_of(&self, variable: u32) -> Option<u32>
        ensures { result ≡ option_map (λ e. e.level) (entry_of self.now.entries variable) }
    {
        self.entry(variable).map(|e| e.level)
    }

    /// The current level.
    pub fn level(&self) -> u32
        ensures { result ≡ self.now.level }
    {
        self.level
    }

    /// The clause of a number, from 0.
    pub fn clause(&self, k: u32) -> &[Lit]
        requires { k < length self.now.clauses }
        ensures literals { result.now ≡ clause_at self.now k }
    {
        self.clauses.get(k as usize)
    }

    /// The level of the entry at a place.
    pub fn level_at(&self, place: u32) -> u32
        requires { place < length self.now.entries }
        ensures { (d : _) → result ≡ (slice_index_or self.now.entries place d).level }
    {
        self.entries.as_slice()[place as usize].level
    }

    /// Sets whether it is propagated: closed under unit propagation.
    pub fn mark_propagated(&mut self, propagated: bool)
        ensures form { IsTrail self.new }
        ensures state { self.new ≡ record self.old { propagated = propagated } }
    {
        self.propagated = propagated;
    }

    /// The number of clauses.
    pub fn clause_count(&self) -> u32
        ensures { result ≡ length self.now.clauses }
    {
        self.clauses.len() as u32
    }

    /// How the clause of a number stands.
    pub fn scan(&self, k: usize) -> Scan
        requires { k < length self.now.clauses }
        ensures { IsScanOf (known self.now) (clause_at self.now k) result }
    {
        self.scan_clause(self.clauses.get(k))
    }

    /// How a clause stands.
    fn scan_clause(&self, clause: &[Lit]) -> Scan
        ensures { IsScanOf (known self.now) clause.now result }
    {
        let mut left: Option<Lit> = None;
        for lit in clause {
            match self.value(lit.variable()) {
                Some(value) => {
                    if value == lit.positive() {
                        return Scan::AtRest;
                    }
                }
                None => match left {
                    None => left = Some(*lit),
                    Some(first) => {
                        if first != *lit {
                            return Scan::AtRest;
                        }
                    }
                },
            }
        }
        match left {
            None => Scan::Falsified,
            Some(lit) => Scan::LastLeft(lit),
        }
    }

    /// Adds the last literal that is left of a clause.
    pub fn force(&mut self, lit: Lit, k: u32)
        requires clause { k < length self.old.clauses }
        requires unit { IsLastLeft (known self.old) (clause_at self.old k) lit }
        ensures form { IsTrail self.new }
        ensures state { self.new ≡ forced_by self.old lit k }
    {
        let _variable = lit.variable();
        let e = Entry {
            literal: lit,
            level: self.level,
            reason: Some(k),
        };
        marks::put(&mut self.marks, &mut self.entries, e);
        self.propagated = false;
    }
}

/// The same clauses, whose variables are from 1.
fn copied(alloc: Global, clauses: &Clauses) -> Result<Store, NoMemory>
    ensures same { IfOk result (λ store. store ≡ clauses.now.clauses) }
    ensures from_one { OnOk result (All StartsAtOne clauses.now.clauses) }
{
    let mut store = Store::new(alloc);
    for k in 0..clauses.len() {
        let clause = clauses.get(k);
        read(clause);
        store.push(clause)?;
    }
    Ok(store)
}

/// Reads each literal of a clause, and so learns that its variables are from 1.
fn read(clause: &[Lit])
    ensures { StartsAtOne clause.now }
{
    for lit in clause {
        let _variable = lit.variable();
    }
}
