//! Sentences whose variables are numbered by the quantifiers around them.

ghost use Rattle.std.specs.Prelude.{◌≡◌, ◌≤◌, length};
ghost use Rattle.vocab.specs.Formula.{prefix_of, body_of, quantifier_depth};
ghost use Rattle.vocab.specs.Sorted.{swaps_in_term, swaps_in_atom, swaps_alts};
ghost use Rattle.vocab.specs.Tree.{atom_tree, term_tree, tree_of};

use crate::kinds::Sort;

/// A term. A variable is the number of quantifiers that stand outside its own.
#[derive(Drop)]
pub enum Term {
    Var(u8),
    Const(u32),
    With(Box<Term>, Box<Term>, Box<Term>),
    SwapVoters(Box<Term>, Box<Term>, Box<Term>),
    SwapAlts(Box<Term>, Box<Term>, Box<Term>),
    Swap(Box<Term>, Box<Term>, Box<Term>),
}

/// A predicate at its terms.
#[derive(Drop)]
pub enum Atom {
    Equal(Term, Term),
    Prefers(Term, Term, Term, Term),
    Better(Term, Term, Term),
    Casts(Term, Term, Term),
    Majority(Term, Term, Term),
    Wins(Term, Term),
    Ranks(Term, Term, Term),
}

/// A formula.
#[derive(Drop)]
pub enum Formula {
    Leaf(Atom),
    Not(Box<Formula>),
    Both(Box<Formula>, Box<Formula>),
    Either(Box<Formula>, Box<Formula>),
    Implies(Box<Formula>, Box<Formula>),
    Same(Box<Formula>, Box<Formula>),
    All(Sort, Box<Formula>),
    Exists(Sort, Box<Formula>),
}

impl Term {
    fn swaps_alts(&self) -> bool
        ensures { result ≡ swaps_in_term (term_tree self.now) }
    {
        match self {
            Term::Var(_) | Term::Const(_) => false,
            Term::SwapAlts(_, _, _) => true,
            Term::With(a, b, c) | Term::SwapVoters(a, b, c) | Term::Swap(a, b, c) => {
                a.swaps_alts() || b.swaps_alts() || c.swaps_alts()
            }
        }
    }
}

impl Atom {
    fn swaps_alts(&self) -> bool
        ensures { result ≡ swaps_in_atom (atom_tree self.now) }
    {
        match self {
            Atom::Equal(a, b) | Atom::Wins(a, b) => a.swaps_alts() || b.swaps_alts(),
            Atom::Better(a, b, c)
            | Atom::Casts(a, b, c)
            | Atom::Majority(a, b, c)
            | Atom::Ranks(a, b, c) => a.swaps_alts() || b.swaps_alts() || c.swaps_alts(),
            Atom::Prefers(a, b, c, d) => {
                a.swaps_alts() || b.swaps_alts() || c.swaps_alts() || d.swaps_alts()
            }
        }
    }
}

impl Formula {
    /// Whether the sentence exchanges two alternatives in a profile.
    pub fn swaps_alts(&self) -> bool
        ensures { result ≡ swaps_alts (tree_of self.now) }
    {
        match self {
            Formula::Leaf(atom) => atom.swaps_alts(),
            Formula::Not(inner) => inner.swaps_alts(),
            Formula::Both(left, right)
            | Formula::Either(left, right)
            | Formula::Implies(left, right)
            | Formula::Same(left, right) => left.swaps_alts() || right.swaps_alts(),
            Formula::All(_, inner) | Formula::Exists(_, inner) => inner.swaps_alts(),
        }
    }

    /// How many universal quantifiers lead the formula.
    pub fn prefix(&self) -> u8
        requires { quantifier_depth (tree_of self.now) ≤ 12 }
        ensures { result ≡ length (prefix_of (tree_of self.now)) }
    {
        match self {
            Formula::All(_, inner) => inner.prefix() + 1,
            _ => 0,
        }
    }

    /// What follows the leading universals.
    pub fn body(&self) -> &Formula
        ensures { tree_of result.now ≡ body_of (tree_of self.now) }
    {
        match self {
            Formula::All(_, inner) => inner.body(),
            _ => self,
        }
    }
}
