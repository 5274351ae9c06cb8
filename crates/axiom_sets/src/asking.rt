//! Clauses of the sets that a map does not cover: one variable an axiom, which is true where the axiom is left
//! out.

ghost use Rattle.std.specs.Prelude.{◌≡◌, ◌<◌, ◌^◌, Err, map, ◌++◌, length, IfOk, OnOk, IsTrue};
ghost use Rattle.std.specs.List.{list_all};
ghost use Rattle.cnf.specs.Assignment.{value_of};
ghost use Rattle.axiom_sets.specs.Sets.{is_set};
ghost use Rattle.axiom_sets.specs.Maps.{IsTidy};
ghost use Rattle.axiom_sets.specs.Next.{lacks_some, goes_beyond, uncovered_clauses, AreTooMany, chosen};

use crate::maps::AxiomMap;
use crate::sets::has_place;
use cnf::{Bits, Clauses, Lit, PushFault};
use lists::{Items, NoMemory};
use std::alloc::Global;
use vocab::Places;

/// The clause that some axiom of the set is left out.
fn lacks_some(alloc: Global, count: u32, set: &[u32]) -> Result<Vec<Lit>, NoMemory>
    requires few { count < 2 ^ 31 }
    requires set { IsTrue (is_set count set.now) }
    ensures { IfOk result (λ clause. clause.items ≡ lacks_some set.now) }
{
    let _ = count;
    let mut clause = Vec::new(alloc);
    for place in set {
        clause.push(Lit::new(*place + 1, true))?;
    }
    Ok(clause)
}

/// The clause that some axiom that is none of the set is not left out.
fn goes_beyond(alloc: Global, count: u32, set: &[u32]) -> Result<Vec<Lit>, NoMemory>
    requires few { count < 2 ^ 31 }
    ensures { IfOk result (λ clause. clause.items ≡ goes_beyond count set.now) }
{
    let mut clause = Vec::new(alloc);
    for place in 0..count {
        if !has_place(set, place) {
            clause.push(Lit::new(place + 1, false))?;
        }
    }
    Ok(clause)
}

/// Adds for each set of a list the clause that some axiom of it is left out.
fn push_lacking(
    alloc: Global,
    count: u32,
    sets: &[Places],
    clauses: &mut Clauses,
) -> Result<(), PushFault>
    requires few { count < 2 ^ 31 }
    requires sets { IsTrue (list_all (is_set count) sets.now) }
    ensures ok { OnOk result (clauses.new.clauses ≡ clauses.old.clauses ++ map lacks_some sets.now) }
    ensures full { result ≡ Err PushFault.Full →
        AreTooMany (clauses.old.clauses ++ map lacks_some sets.now) }
{
    for set in sets {
        match lacks_some(alloc, count, set.as_slice()) {
            Ok(clause) => match clauses.push(clause.as_slice(), 0) {
                Ok(()) => {}
                Err(fault) => return Err(fault),
            },
            Err(_) => return Err(PushFault::NoMemory),
        }
    }
    Ok(())
}

/// Adds for each set of a list the clause that some axiom that is none of it is not left out.
fn push_beyond(
    alloc: Global,
    count: u32,
    sets: &[Places],
    clauses: &mut Clauses,
) -> Result<(), PushFault>
    requires few { count < 2 ^ 31 }
    ensures ok { OnOk result
        (clauses.new.clauses ≡ clauses.old.clauses ++ map (goes_beyond count) sets.now) }
    ensures full { result ≡ Err PushFault.Full →
        AreTooMany (clauses.old.clauses ++ map (goes_beyond count) sets.now) }
{
    for set in sets {
        match goes_beyond(alloc, count, set.as_slice()) {
            Ok(clause) => match clauses.push(clause.as_slice(), 0) {
                Ok(()) => {}
                Err(fault) => return Err(fault),
            },
            Err(_) => return Err(PushFault::NoMemory),
        }
    }
    Ok(())
}

/// What is asked of a set that the map does not cover. The error is a limit of the list, or want of memory.
pub(crate) fn uncovered_clauses(
    alloc: Global,
    count: u32,
    sets: &AxiomMap,
) -> Result<Clauses, PushFault>
    requires few { count < 2 ^ 31 }
    requires tidy { IsTidy count sets.now }
    ensures ok { IfOk result (λ list. list.clauses ≡ uncovered_clauses count sets.now) }
    ensures full { result ≡ Err PushFault.Full → AreTooMany (uncovered_clauses count sets.now) }
{
    let mut clauses = Clauses::new(alloc);
    match push_lacking(alloc, count, sets.impossible.as_slice(), &mut clauses) {
        Ok(()) => {}
        Err(fault) => return Err(fault),
    }
    match push_beyond(alloc, count, sets.possible.as_slice(), &mut clauses) {
        Ok(()) => {}
        Err(fault) => return Err(fault),
    }
    match push_lacking(alloc, count, sets.open.as_slice(), &mut clauses) {
        Ok(()) => {}
        Err(fault) => return Err(fault),
    }
    Ok(clauses)
}

/// The places of the axioms that are not left out.
pub(crate) fn chosen(alloc: Global, bits: &Bits, count: u32) -> Result<Places, NoMemory>
    requires few { count < 2 ^ 31 }
    requires all { length bits.now ≡ count }
    ensures { IfOk result (λ set. set ≡ chosen (value_of bits.now) count) }
{
    let mut set = Items::new(alloc);
    for place in 0..count {
        if !bits.get(place + 1) {
            set.push(place)?;
        }
    }
    Ok(set)
}
