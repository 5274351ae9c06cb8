//! Sentences as they are written, with names for variables.

ghost use Rattle.std.specs.Prelude.{◌≡◌, ◌<◌, [], ◌∷◌, ◌++◌, length, slice_get, OnOk, OnErr};
ghost use Rattle.vocab.specs.Terms.{terms_of};

use crate::kinds::Sort;
use crate::names::Name;
use lists::NoMemory;
use std::alloc::Global;

/// A term, with names for variables and functions: a variable, a voter from 1, an alternative from 0, a
/// ballot by its letters, or a function at its arguments.
#[derive(Drop)]
#[cycle(terms)]
pub enum NamedTerm {
    Var(Name),
    Voter(u16),
    Alt(u8),
    Ballot(Name),
    Call(Name, Terms),
}

/// The arguments of a call.
#[derive(Drop)]
#[cycle(terms)]
pub struct Terms {
    items: Vec<NamedTerm>,
}

impl Terms {
    /// The empty list.
    pub fn new(alloc: Global) -> Self
        ensures { terms_of result ≡ [] }
    {
        Terms {
            items: Vec::new(alloc),
        }
    }

    /// Appends the term.
    pub fn push(&mut self, item: NamedTerm) -> Result<(), NoMemory>
        ensures ok { OnOk result (terms_of self.new ≡ terms_of self.old ++ item ∷ []) }
        ensures err { OnErr result (terms_of self.new ≡ terms_of self.old) }
    {
        self.items.push(item)?;
        Ok(())
    }

    /// The length.
    pub fn len(&self) -> usize
        ensures { result ≡ length (terms_of self.now) }
    {
        self.items.len()
    }

    /// The term at a place.
    pub fn get(&self, place: usize) -> &NamedTerm
        requires { place < length (terms_of self.now) }
        ensures { slice_get (terms_of self.now) place ≡ Some result.now }
    {
        &self.items[place]
    }
}

/// A sentence, with names for variables, functions and predicates.
#[derive(Drop)]
pub enum Named {
    Pred(Name, Terms),
    Equal(NamedTerm, NamedTerm),
    Not(Box<Named>),
    Both(Box<Named>, Box<Named>),
    Either(Box<Named>, Box<Named>),
    Implies(Box<Named>, Box<Named>),
    Same(Box<Named>, Box<Named>),
    All(Name, Sort, Box<Named>),
    Exists(Name, Sort, Box<Named>),
}
