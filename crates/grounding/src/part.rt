//! The clauses of some instances.

ghost use Rattle.std.specs.Prelude.{◌≡◌, ℕ, List, ◌<◌, [], ◌∷◌, ◌++◌, All, length, slice_get, Some, OnOk, OnErr, IsTrue};
ghost use Rattle.cnf.specs.Sat.{Clause};
ghost use Rattle.clause_form.specs.Sources.{clauses_in, origin_of_number, origins_in};
ghost use Rattle.grounding.specs.Parts.{IsThere, KeepSame, with_origin};

use crate::sorting::literal_code;
use cnf::{Lit, Store};
use lists::NoMemory;
use std::alloc::Global;
use std::marker::Model;

/// How many clauses of two literals a part remembers.
const RECENT: usize = 64;

/// Clauses, each with the number that says its origin. A clause of two literals that repeats an earlier one is
/// left out where the part remembers that one: of equal clauses the first alone is kept in the end.
#[derive(Drop)]
pub(crate) struct Part {
    clauses: Store,
    origins: Vec<u64>,
    recent: Vec<(u32, u32)>,
}

impl Model for Part {
    ghost use Rattle.std.specs.Prelude.{◌≡◌, List, All, length};
    ghost use Rattle.meaning.specs.StudyClauses.{Sourced};
    ghost use Rattle.clause_form.specs.Sources.{sourced};
    ghost use Rattle.grounding.specs.Parts.{IsThere};

    ghost Value = { List Sourced };

    ghost view = { λ p. sourced p.clauses p.origins.items };

    ghost invariant = { λ p. (length p.origins.items ≡ length p.clauses) ×
        All (IsThere p.clauses) p.recent.items };
}

/// Whether two codes stand in their place of a list.
fn is_recent(recent: &[(u32, u32)], pair: (u32, u32)) -> bool
    ensures { IsTrue result → (k : ℕ) × (k < length recent.now) × (slice_get recent.now k ≡ Some pair) }
{
    let k = pair.1 as usize % RECENT;
    k < recent.len() && recent[k].0 == pair.0 && recent[k].1 == pair.1
}

/// Puts two codes into their place of a list, which is made where there is none.
fn remember(recent: &mut Vec<(u32, u32)>, pair: (u32, u32)) -> Result<(), NoMemory>
    ensures { (clauses : List Clause) → All (IsThere clauses) recent.old.items → IsThere clauses pair →
        All (IsThere clauses) recent.new.items }
{
    if recent.is_empty() {
        recent.resize(RECENT, (0, 0))?;
    }
    let k = pair.1 as usize % RECENT;
    if k < recent.len() {
        recent[k] = pair;
    }
    Ok(())
}

impl Part {
    /// No clause.
    pub(crate) fn new(alloc: Global) -> Part
        ensures { result ≡ [] }
    {
        Part {
            clauses: Store::new(alloc),
            origins: Vec::new(alloc),
            recent: Vec::new(alloc),
        }
    }

    /// The number of clauses.
    pub(crate) fn len(&self) -> usize
        ensures { result ≡ length self.now }
    {
        self.clauses.len()
    }

    /// The clause at a place, from 0.
    pub(crate) fn clause(&self, k: usize) -> &[Lit]
        requires { k < length self.now }
        ensures { slice_get (clauses_in self.now) k ≡ Some result.now }
    {
        self.clauses.get(k)
    }

    /// The number that says the origin of the clause at a place, from 0.
    pub(crate) fn origin(&self, k: usize) -> u64
        requires { k < length self.now }
        ensures { slice_get (origins_in self.now) k ≡ Some (origin_of_number result) }
    {
        self.origins[k]
    }

    /// Adds a clause at the end.
    pub(crate) fn push(&mut self, clause: &[Lit], origin: u64) -> Result<(), NoMemory>
        ensures ok { OnOk result (self.new ≡ self.old ++ with_origin clause.now origin ∷ []) }
    {
        self.origins.reserve(1)?;
        self.clauses.push(clause)?;
        self.origins.push_reserved(origin);
        Ok(())
    }

    /// Lets go of what the part remembers, once all its clauses are there.
    pub(crate) fn forget(&mut self, alloc: Global)
        ensures { self.new ≡ self.old }
    {
        self.recent = Vec::new(alloc);
    }

    /// Adds a clause of two literals, unless it is one of those that the part remembers.
    pub(crate) fn push_two(&mut self, first: Lit, second: Lit, origin: u64) -> Result<(), NoMemory>
        ensures { OnOk result
            (KeepSame self.new (self.old ++ with_origin (first ∷ second ∷ []) origin ∷ [])) }
    {
        let pair = (literal_code(first), literal_code(second));
        if is_recent(self.recent.as_slice(), pair) {
            return Ok(());
        }
        self.push(&[first, second], origin)?;
        remember(&mut self.recent, pair)?;
        Ok(())
    }
}
