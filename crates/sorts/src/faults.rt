//! Why a sentence cannot be resolved.

ghost use Rattle.std.specs.Prelude.{◌≡◌};

use crate::texts::{ConstantText, Symbol};
use lists::NoMemory;
use vocab::Name;

/// Why a sentence is none of a size. Of several reasons the first in the order of visiting counts: a formula
/// before its parts, and parts from left to right.
#[derive(Clone, Copy, Debug, PartialEq, Eq)]
pub enum SortFault {
    /// A variable of this name that no quantifier outside binds.
    Unbound(Name),
    /// A name that is no predicate's stands as an atom, or one that is no function's in a term.
    Symbol(Name),
    /// A symbol with more arguments than it has, or with fewer.
    Arity(Symbol),
    /// An argument of another sort than its symbol asks for, with the argument's place from 1. Of an equality
    /// the two terms are of different sorts, and the place is 2.
    Sort(Symbol, u8),
    /// `wins` is said of rules whose outcome is a ranking, or `ranks` of others.
    Kind(Symbol),
    /// A constant that is no value of the size.
    Constant(ConstantText),
    /// No memory was found. It may come in place of any other answer.
    NoMemory,
}

impl From<NoMemory> for SortFault {
    ghost use Rattle.sorts.specs.declared.faults.SortFault.TheVariants.{NoMemory as no_memory};

    ghost from_gives = { λ _ fault. fault ≡ no_memory };

    fn from(_: NoMemory) -> Self {
        SortFault::NoMemory
    }
}
