//! Of equal clauses of one axiom the first.

ghost use Rattle.std.specs.Prelude.{◌≡◌, List, [], ◌∷◌, ◌++◌, not, false, length, Err, OnOk, IfOk, if◌then◌else◌};
ghost use Rattle.cnf.specs.ClauseList.{IsFullFor, with_clause};
ghost use Rattle.cnf.specs.Sat.{Clause};
ghost use Rattle.grounding.specs.Distinct.{HasSeen, codes_of, has_codes, has_pair_code, is_seen, items_of, seen_with};

use crate::sorting::literal_code;
use cnf::{Clauses, Lit, PushFault};
use indexmap::IndexSet;
use lists::NoMemory;
use smallvec::SmallVec;
use std::alloc::Global;
use std::marker::Model;

/// The clauses that were seen, by the codes of their literals. Most clauses have two literals; their codes
/// stand in place.
#[derive(Drop)]
pub(crate) struct Seen {
    pairs: IndexSet<(u32, u32)>,
    others: IndexSet<SmallVec<u32, 4>>,
}

impl Model for Seen {
    ghost use Rattle.grounding.specs.Distinct.{Codes, items_of};

    ghost Value = { Codes };

    ghost view = { λ s. (s.pairs.keys, items_of s.others.keys) };
}

/// Adds two codes, unless they are there. True where they were added.
fn is_new_pair(pairs: &mut IndexSet<(u32, u32)>, pair: (u32, u32)) -> Result<bool, NoMemory>
    ensures fresh { IfOk result (λ fresh. fresh ≡ not (has_pair_code pairs.old.keys pair)) }
    ensures keys { IfOk result
        (λ _. pairs.new.keys ≡
        (if has_pair_code pairs.old.keys pair then pairs.old.keys else pairs.old.keys ++ pair ∷ [])) }
{
    match pairs.insert(pair) {
        Ok(fresh) => Ok(fresh),
        Err(_) => Err(NoMemory),
    }
}

/// The codes of a clause.
fn key_of(alloc: Global, clause: &[Lit]) -> Result<SmallVec<u32, 4>, NoMemory>
    ensures { IfOk result (λ key. key.items ≡ codes_of clause.now) }
{
    let mut key = SmallVec::new(alloc);
    for lit in clause {
        key.push(literal_code(*lit))?;
    }
    Ok(key)
}

/// Adds the codes of a clause, unless they are there. True where they were added.
fn is_new_key(
    alloc: Global,
    others: &mut IndexSet<SmallVec<u32, 4>>,
    clause: &[Lit],
) -> Result<bool, NoMemory>
    ensures fresh { IfOk result
        (λ fresh. fresh ≡ not (has_codes (items_of others.old.keys) (codes_of clause.now))) }
    ensures keys { IfOk result
        (λ _. items_of others.new.keys ≡
        (if has_codes (items_of others.old.keys) (codes_of clause.now) then items_of others.old.keys
        else items_of others.old.keys ++ codes_of clause.now ∷ [])) }
{
    let key = key_of(alloc, clause)?;
    match others.insert(key) {
        Ok(fresh) => Ok(fresh),
        Err(_) => Err(NoMemory),
    }
}

impl Seen {
    /// No clause.
    pub(crate) fn new(alloc: Global) -> Seen
        ensures { HasSeen result [] }
    {
        Seen {
            pairs: IndexSet::new(alloc),
            others: IndexSet::new(alloc),
        }
    }

    /// Adds a clause, unless an equal one is there. True where it was added.
    fn is_new(&mut self, alloc: Global, clause: &[Lit]) -> Result<bool, NoMemory>
        ensures fresh { IfOk result
            (λ fresh. (before : List Clause) → HasSeen self.old before → fresh ≡
            not (is_seen before clause.now)) }
        ensures seen { IfOk result
            (λ _. (before : List Clause) → HasSeen self.old before →
            HasSeen self.new (seen_with before clause.now)) }
    {
        if clause.len() == 2 {
            let pair = (literal_code(clause[0]), literal_code(clause[1]));
            return is_new_pair(&mut self.pairs, pair);
        }
        is_new_key(alloc, &mut self.others, clause)
    }
}

/// Appends a clause with its origin, unless an equal one was seen.
pub(crate) fn keep(
    alloc: Global,
    seen: &mut Seen,
    clause: &[Lit],
    origin: u64,
    out: &mut Clauses,
) -> Result<(), PushFault>
    ensures kept { OnOk result ((before : List Clause) → HasSeen seen.old before →
        (out.new ≡ (if is_seen before clause.now then out.old else with_clause out.old clause.now origin))) }
    ensures seen { OnOk result ((before : List Clause) → HasSeen seen.old before →
        HasSeen seen.new (seen_with before clause.now)) }
    ensures full { result ≡ Err PushFault.Full →
        ((before : List Clause) → HasSeen seen.old before →
        (is_seen before clause.now ≡ false) × IsFullFor out.old (length clause.now)) }
{
    match seen.is_new(alloc, clause) {
        Ok(true) => out.push(clause, origin),
        Ok(false) => Ok(()),
        Err(_) => Err(PushFault::NoMemory),
    }
}
