//! Lines with new ids.

ghost use Rattle.std.specs.Prelude.{◌≡◌, ◌<◌, ◌-◌, ◌^◌, All, length, map, IfOk, IsTrue};
ghost use Rattle.cnf.specs.declared.derivations.Line.{Line as LineOf};
ghost use Rattle.cnf.specs.Fresh.{added_by};
ghost use Rattle.cnf.specs.Trimmed.{is_trimmed};
ghost use Rattle.renumbering.specs.Renumbered.{HasIdsBelow, StandsSomewhere, new_id, renumbered_step, renumbered_line};

use crate::citing::flags_of;
use crate::places::places_of;
use cnf::{Clauses, Derivation, Ids, Line, Lit, Lits, Step};
use lists::{Items, NoMemory};
use std::alloc::Global;

/// The new id of an old one, where the old list has as many clauses as there are places.
fn new_id(after: u32, places: &[u32], id: u64) -> u64
    requires { id < 2 ^ 63 }
    ensures { result ≡ new_id (length places.now) after places.now id }
{
    if id == 0 {
        return 0;
    }
    let place = id - 1;
    let before = places.len() as u64;
    if place < before {
        u64::from(places[place as usize]) + 1
    } else {
        u64::from(after) + (place - before) + 1
    }
}

/// The new ids of old ones.
fn new_ids(alloc: Global, after: u32, places: &[u32], ids: &[u64]) -> Result<Ids, NoMemory>
    requires { All (λ id. id < 2 ^ 63) ids.now }
    ensures { IfOk result (λ new. new ≡ map (new_id (length places.now) after places.now) ids.now) }
{
    let mut new = Items::with_room(alloc, ids.len())?;
    for id in ids {
        new.push(new_id(after, places, *id))?;
    }
    Ok(new)
}

/// A copy of a clause.
fn copied(alloc: Global, clause: &[Lit]) -> Result<Lits, NoMemory>
    ensures { IfOk result (λ copy. copy ≡ clause.now) }
{
    let mut copy = Items::with_room(alloc, clause.len())?;
    copy.append(clause)?;
    Ok(copy)
}

/// A step with new ids.
fn new_step(alloc: Global, after: u32, places: &[u32], step: &Step) -> Result<Step, NoMemory>
    requires { HasIdsBelow (2 ^ 63) step.now }
    ensures { IfOk result (λ new. new ≡ renumbered_step (length places.now) after places.now step.now) }
{
    match step {
        Step::Add { id, clause, hints } => Ok(Step::Add {
            id: new_id(after, places, *id),
            clause: copied(alloc, clause.as_slice())?,
            hints: new_ids(alloc, after, places, hints.as_slice())?,
        }),
        Step::Drop { ids } => Ok(Step::Drop {
            ids: new_ids(alloc, after, places, ids.as_slice())?,
        }),
    }
}

/// The lines with new ids.
fn new_lines(
    alloc: Global,
    after: u32,
    places: &[u32],
    lines: &[Line],
) -> Result<Derivation, NoMemory>
    requires { All (λ (line : LineOf). HasIdsBelow (2 ^ 63) line.step) lines.now }
    ensures { IfOk result
        (λ new. new ≡ map (renumbered_line (length places.now) after places.now) lines.now) }
{
    let mut new = Items::with_room(alloc, lines.len())?;
    for line in lines {
        let step = new_step(alloc, after, places, &line.step)?;
        new.push(Line { at: line.at, step })?;
    }
    Ok(new)
}

/// Carries a trimmed derivation over to another list of clauses, in which each clause stands that its hints
/// name.
pub fn renumber(
    alloc: Global,
    old: &Clauses,
    new: &Clauses,
    lines: &Derivation,
) -> Result<Derivation, NoMemory>
    requires trimmed { IsTrue (is_trimmed old.now.clauses lines.now) }
    requires few { length lines.now < 2 ^ 32 - 1 }
    requires stand { StandsSomewhere old.now.clauses new.now.clauses lines.now }
    ensures trimmed { IfOk result (λ moved. IsTrue (is_trimmed new.now.clauses moved)) }
    ensures added { IfOk result
        (λ moved. map (λ l. added_by l.step) moved ≡ map (λ l. added_by l.step) lines.now) }
    ensures count { IfOk result (λ moved. length moved ≡ length lines.now) }
{
    let flags = flags_of(alloc, old.len(), lines.as_slice())?;
    let places = places_of(alloc, old, new, flags.as_slice())?;
    let moved = new_lines(alloc, new.len(), places.as_slice(), lines.as_slice())?;
    Ok(moved)
}
