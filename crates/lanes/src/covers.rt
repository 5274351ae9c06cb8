//! Which variables an atom reads.

ghost use Rattle.std.specs.Prelude.{◌≡◌, ◌||◌, nat_eq};
ghost use Rattle.std.specs.List.{list_any};
ghost use Rattle.vocab.specs.Tree.{atom_tree, term_tree, tree_of};
ghost use Rattle.lanes.specs.Covers.{covers_atom, covers_leaf, covers_term, is_kept, is_lane, is_no_lane};

use crate::shapes::Shape;
use vocab::{Atom, Formula, Term};

/// Whether a level is among some.
fn has(levels: &[u8], level: u8) -> bool
    ensures { result ≡ list_any (nat_eq level) levels.now }
{
    for k in 0..levels.len() {
        if levels[k] == level {
            return true;
        }
    }
    false
}

/// Whether a level is that of no lane.
fn is_no_lane(shape: &Shape, level: u8) -> bool
    ensures { result ≡ is_no_lane shape.now level }
{
    level < shape.outer || level - shape.outer >= shape.bases.len()
}

/// Whether a level is that of a lane, but for so many of the first.
fn is_lane(shape: &Shape, skip: u8, level: u8) -> bool
    ensures { result ≡ is_lane shape.now skip level }
{
    shape.outer <= level && skip <= level - shape.outer && level - shape.outer < shape.bases.len()
}

/// Whether a level is that of such a lane, or among some of no lane.
fn is_kept(shape: &Shape, skip: u8, levels: &[u8], level: u8) -> bool
    ensures { result ≡ is_kept shape.now skip levels.now level }
{
    is_lane(shape, skip, level) || (is_no_lane(shape, level) && has(levels, level))
}

/// Whether each variable of a term is kept.
pub(crate) fn covers_term(shape: &Shape, skip: u8, levels: &[u8], term: &Term) -> bool
    ensures { result ≡ covers_term shape.now skip levels.now (term_tree term.now) }
{
    match term {
        Term::Var(level) => is_kept(shape, skip, levels, *level),
        Term::Const(_) => true,
        Term::With(a, b, c)
        | Term::SwapVoters(a, b, c)
        | Term::SwapAlts(a, b, c)
        | Term::Swap(a, b, c) => {
            covers_term(shape, skip, levels, a)
                && covers_term(shape, skip, levels, b)
                && covers_term(shape, skip, levels, c)
        }
    }
}

/// Whether each variable that decides what is known of an atom whatever the rule is kept.
pub(crate) fn covers_atom(shape: &Shape, skip: u8, levels: &[u8], atom: &Atom) -> bool
    ensures { result ≡ covers_atom shape.now skip levels.now (atom_tree atom.now) }
{
    match atom {
        Atom::Equal(a, b) | Atom::Ranks(a, b, _) => {
            covers_term(shape, skip, levels, a) && covers_term(shape, skip, levels, b)
        }
        Atom::Wins(_, _) => true,
        Atom::Better(a, b, c) | Atom::Casts(a, b, c) | Atom::Majority(a, b, c) => {
            covers_term(shape, skip, levels, a)
                && covers_term(shape, skip, levels, b)
                && covers_term(shape, skip, levels, c)
        }
        Atom::Prefers(a, b, c, d) => {
            covers_term(shape, skip, levels, a)
                && covers_term(shape, skip, levels, b)
                && covers_term(shape, skip, levels, c)
                && covers_term(shape, skip, levels, d)
        }
    }
}

/// The same of a formula that is an atom; of any other it is false.
pub(crate) fn covers_leaf(shape: &Shape, skip: u8, levels: &[u8], leaf: &Formula) -> bool
    ensures { result ≡ covers_leaf shape.now skip levels.now (tree_of leaf.now) }
{
    match leaf {
        Formula::Leaf(atom) => covers_atom(shape, skip, levels, atom),
        _ => false,
    }
}

/// Whether a term reads a variable.
fn reads(term: &Term, level: u8) -> bool {
    match term {
        Term::Var(own) => *own == level,
        Term::Const(_) => false,
        Term::With(a, b, c)
        | Term::SwapVoters(a, b, c)
        | Term::SwapAlts(a, b, c)
        | Term::Swap(a, b, c) => reads(a, level) || reads(b, level) || reads(c, level),
    }
}

/// Whether what is known of an atom rests on a variable.
pub(crate) fn rests_on(atom: &Atom, level: u8) -> bool {
    match atom {
        Atom::Equal(a, b) | Atom::Ranks(a, b, _) => reads(a, level) || reads(b, level),
        Atom::Wins(_, _) => false,
        Atom::Better(a, b, c) | Atom::Casts(a, b, c) | Atom::Majority(a, b, c) => {
            reads(a, level) || reads(b, level) || reads(c, level)
        }
        Atom::Prefers(a, b, c, d) => {
            reads(a, level) || reads(b, level) || reads(c, level) || reads(d, level)
        }
    }
}
