//! Sets of literals.

use cnf::{Clauses, Lit, PushFault};
use lists::NoMemory;
use std::alloc::Global;

/// A set of literals over some variables: a flag for each literal.
#[derive(Drop)]
pub struct LiteralSet {
    flags: Vec<bool>,
}

/// The place of the flag of a literal.
fn place_of(lit: Lit) -> usize {
    let place = 2 * lit.variable() as usize;
    if lit.positive() { place + 1 } else { place }
}

impl LiteralSet {
    /// The empty set over this many variables. A literal of another variable is in no set.
    pub fn new(alloc: Global, variables: u32) -> Result<LiteralSet, NoMemory> {
        let flags = vec![in alloc; false; 2 * variables as usize + 2]?;
        Ok(LiteralSet { flags })
    }

    /// Whether a literal is in the set.
    pub fn has(&self, lit: Lit) -> bool {
        let place = place_of(lit);
        if place < self.flags.len() {
            self.flags[place]
        } else {
            false
        }
    }

    /// Puts a literal into the set, or takes it out.
    pub fn set(&mut self, lit: Lit, is_in: bool) {
        let place = place_of(lit);
        if place < self.flags.len() {
            self.flags[place] = is_in;
        }
    }

    /// Puts literals into the set, or takes them out.
    pub fn set_all(&mut self, literals: &[Lit], is_in: bool) {
        for lit in literals {
            self.set(*lit, is_in);
        }
    }

    /// Puts the opposites of the literals of a clause into the set.
    pub fn put_opposites(&mut self, clause: &[Lit]) {
        for lit in clause {
            self.set(lit.opposite(), true);
        }
    }
}

/// How a clause stands to a set of literals, which are true: it is false, it forces its last literal, or it
/// says nothing.
#[derive(Clone, Copy)]
pub enum Standing {
    False,
    Forces(Lit),
    Rest,
}

/// How a clause stands where the literals of a set are known: it forces only what is allowed.
pub fn stands(clause: &[Lit], known: &LiteralSet, allowed: &LiteralSet) -> Standing {
    let mut left: Option<Lit> = None;
    for lit in clause {
        if known.has(*lit) {
            return Standing::Rest;
        }
        if !known.has(lit.opposite()) {
            if left.is_some() {
                return Standing::Rest;
            }
            left = Some(*lit);
        }
    }
    match left {
        None => Standing::False,
        Some(lit) => {
            if allowed.has(lit) {
                Standing::Forces(lit)
            } else {
                Standing::Rest
            }
        }
    }
}

/// What a clause can serve for where only the literals of a set are ever known: to be false, to force its one
/// literal of the set, or for nothing.
pub fn service(clause: &[Lit], allowed: &LiteralSet) -> Standing {
    let mut forced: Option<Lit> = None;
    for lit in clause {
        if allowed.has(*lit) {
            if forced.is_some() {
                return Standing::Rest;
            }
            forced = Some(*lit);
        } else if !allowed.has(lit.opposite()) {
            return Standing::Rest;
        }
    }
    match forced {
        None => Standing::False,
        Some(lit) => Standing::Forces(lit),
    }
}

/// The clause of a number, or the empty one.
pub fn clause_at(clauses: &Clauses, k: u32) -> &[Lit] {
    if k < clauses.len() {
        return clauses.get(k);
    }
    &[]
}

/// The item at a place from the end of a list.
pub fn from_end<T: Copy>(items: &[T], place: usize) -> Option<T> {
    if place < items.len() {
        Some(items[items.len() - 1 - place])
    } else {
        None
    }
}

/// Adds a clause at the end of a list that is not full.
pub fn add_clause(clauses: &mut Clauses, clause: &[Lit], origin: u64) -> Result<(), NoMemory> {
    match clauses.push(clause, origin) {
        Ok(()) => Ok(()),
        Err(PushFault::Full) => Ok(()),
        Err(PushFault::NoMemory) => Err(NoMemory),
    }
}

/// The origin of the clause of a number, or 0.
pub fn origin_at(clauses: &Clauses, k: u32) -> u64 {
    if k < clauses.len() {
        return clauses.origin(k);
    }
    0
}
