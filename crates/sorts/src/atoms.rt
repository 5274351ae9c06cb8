//! Resolving atoms.

ghost use Rattle.std.specs.Prelude.{◌≡◌, ◌≤◌, [], ◌∷◌, ◌++◌, codes, length};
ghost use Rattle.vocab.specs.NamedView.{named_term_tree, named_terms_tree};
ghost use Rattle.vocab.specs.Terms.{terms_of};
ghost use Rattle.vocab.specs.Tree.{atom_tree, term_tree, Equal};
ghost use Rattle.sorts.specs.Faults.{fault_unless, are_same, predicate_faults, term_faults, argument_faults, argument_count, sort_of};
ghost use Rattle.sorts.specs.Resolved.{resolved_term, resolved_terms, predicate_tree, said_of_three};
ghost use Rattle.sorts.specs.ScopeView.{scope_of};
ghost use Rattle.sorts.specs.Symbols.{predicate_of, predicate_sorts};
ghost use Rattle.sorts.specs.Visits.{IsVisit};

use crate::faults::SortFault;
use crate::scope::Scope;
use crate::symbols::{Predicate, predicate_named};
use crate::terms::{Three, argument, is_there, sort_of, term, three_arguments};
use crate::texts::Symbol;
use profiles::Space;
use std::alloc::Global;
use vocab::{Atom, Name, NamedTerm, Sort, Terms};

/// A predicate at its arguments, under some quantifiers.
pub fn predicate(
    alloc: Global,
    space: &Space,
    scope: &Scope,
    name: &Name,
    arguments: &Terms,
) -> Result<Atom, SortFault>
    requires { length (scope_of scope.now) ≤ 12 }
    ensures { IsVisit (predicate_faults space.now.kind name.now (predicate_of name.now)
        (argument_count (named_terms_tree arguments.now))
        (λ sorts. argument_faults space.now (scope_of scope.now) name.now 1 sorts
        (named_terms_tree arguments.now)))
        (λ a. atom_tree a ≡ predicate_tree (predicate_of name.now)
        (resolved_terms space.now (scope_of scope.now) (named_terms_tree arguments.now))) result }
{
    let Some(predicate) = predicate_named(name) else {
        return Err(SortFault::Symbol(*name));
    };
    let symbol = Symbol::of(*name);
    if arguments.len() != predicate.arity() {
        return Err(SortFault::Arity(symbol));
    }
    let size = space.size();
    if !predicate.is_said_of(size.kind()) {
        return Err(SortFault::Kind(symbol));
    }
    said(alloc, space, scope, symbol, predicate, arguments)
}

/// A predicate at as many arguments as it has.
fn said(
    alloc: Global,
    space: &Space,
    scope: &Scope,
    symbol: Symbol,
    predicate: Predicate,
    arguments: &Terms,
) -> Result<Atom, SortFault>
    requires few { length (scope_of scope.now) ≤ 12 }
    requires count { length (terms_of arguments.now) ≡ length (predicate_sorts predicate) }
    ensures { IsVisit (argument_faults space.now (scope_of scope.now) symbol 1 (predicate_sorts predicate)
        (named_terms_tree arguments.now))
        (λ a. atom_tree a ≡ predicate_tree (Some predicate)
        (resolved_terms space.now (scope_of scope.now) (named_terms_tree arguments.now))) result }
{
    match predicate {
        Predicate::Prefers => preference(alloc, space, scope, symbol, arguments),
        Predicate::Wins => victory(alloc, space, scope, symbol, arguments),
        Predicate::Better | Predicate::Casts | Predicate::Majority | Predicate::Ranks => {
            said_of_three(alloc, space, scope, symbol, predicate, arguments)
        }
    }
}

/// `prefers` at its four arguments.
fn preference(
    alloc: Global,
    space: &Space,
    scope: &Scope,
    symbol: Symbol,
    arguments: &Terms,
) -> Result<Atom, SortFault>
    requires few { length (scope_of scope.now) ≤ 12 }
    requires count { length (terms_of arguments.now) ≡ 4 }
    ensures { IsVisit (argument_faults space.now (scope_of scope.now) symbol 1
        (predicate_sorts Predicate.Prefers) (named_terms_tree arguments.now))
        (λ a. atom_tree a ≡ predicate_tree (Some Predicate.Prefers)
        (resolved_terms space.now (scope_of scope.now) (named_terms_tree arguments.now))) result }
{
    let voter = argument(
        alloc,
        space,
        scope,
        symbol,
        1,
        Sort::Voter,
        arguments.get(0),
    )?;
    let above = argument(alloc, space, scope, symbol, 2, Sort::Alt, arguments.get(1))?;
    let below = argument(alloc, space, scope, symbol, 3, Sort::Alt, arguments.get(2))?;
    let profile = argument(
        alloc,
        space,
        scope,
        symbol,
        4,
        Sort::Profile,
        arguments.get(3),
    )?;
    Ok(Atom::Prefers(voter, above, below, profile))
}

/// `wins` at its two arguments.
fn victory(
    alloc: Global,
    space: &Space,
    scope: &Scope,
    symbol: Symbol,
    arguments: &Terms,
) -> Result<Atom, SortFault>
    requires few { length (scope_of scope.now) ≤ 12 }
    requires count { length (terms_of arguments.now) ≡ 2 }
    ensures { IsVisit (argument_faults space.now (scope_of scope.now) symbol 1
        (predicate_sorts Predicate.Wins) (named_terms_tree arguments.now))
        (λ a. atom_tree a ≡ predicate_tree (Some Predicate.Wins)
        (resolved_terms space.now (scope_of scope.now) (named_terms_tree arguments.now))) result }
{
    let winner = argument(alloc, space, scope, symbol, 1, Sort::Alt, arguments.get(0))?;
    let profile = argument(
        alloc,
        space,
        scope,
        symbol,
        2,
        Sort::Profile,
        arguments.get(1),
    )?;
    Ok(Atom::Wins(winner, profile))
}

/// One of the other predicates at its three arguments.
fn said_of_three(
    alloc: Global,
    space: &Space,
    scope: &Scope,
    symbol: Symbol,
    predicate: Predicate,
    arguments: &Terms,
) -> Result<Atom, SortFault>
    requires few { length (scope_of scope.now) ≤ 12 }
    requires three { length (predicate_sorts predicate) ≡ 3 }
    requires count { length (terms_of arguments.now) ≡ 3 }
    ensures { IsVisit (argument_faults space.now (scope_of scope.now) symbol 1 (predicate_sorts predicate)
        (named_terms_tree arguments.now))
        (λ a. atom_tree a ≡ predicate_tree (Some predicate)
        (resolved_terms space.now (scope_of scope.now) (named_terms_tree arguments.now))) result }
{
    let sorts = three_sorts(predicate);
    let terms = three_arguments(alloc, space, scope, symbol, sorts, arguments)?;
    Ok(relate(predicate, terms))
}

/// The sorts of the arguments of a predicate that has three.
fn three_sorts(predicate: Predicate) -> (Sort, Sort, Sort)
    requires { length (predicate_sorts predicate) ≡ 3 }
    ensures { predicate_sorts predicate ≡ result.0 ∷ result.1 ∷ result.2 ∷ [] }
{
    match predicate {
        Predicate::Better => (Sort::Ballot, Sort::Alt, Sort::Alt),
        Predicate::Casts => (Sort::Voter, Sort::Ballot, Sort::Profile),
        Predicate::Majority | Predicate::Ranks => (Sort::Alt, Sort::Alt, Sort::Profile),
        Predicate::Prefers | Predicate::Wins => unreachable!(),
    }
}

/// A predicate that has three arguments, at three terms.
fn relate(predicate: Predicate, terms: Three) -> Atom
    requires { length (predicate_sorts predicate) ≡ 3 }
    ensures { atom_tree result ≡ said_of_three predicate (term_tree terms.first) (term_tree terms.second)
        (term_tree terms.third) }
{
    match predicate {
        Predicate::Better => Atom::Better(terms.first, terms.second, terms.third),
        Predicate::Casts => Atom::Casts(terms.first, terms.second, terms.third),
        Predicate::Majority => Atom::Majority(terms.first, terms.second, terms.third),
        Predicate::Ranks => Atom::Ranks(terms.first, terms.second, terms.third),
        Predicate::Prefers | Predicate::Wins => unreachable!(),
    }
}

/// Whether two sorts are there and are the same.
fn are_same(left: Option<Sort>, right: Option<Sort>) -> bool
    ensures { result ≡ are_same left right }
{
    match left {
        None => false,
        Some(sort) => is_there(sort, right),
    }
}

/// An equality, under some quantifiers: both terms are visited before their sorts are compared.
pub fn equality(
    alloc: Global,
    space: &Space,
    scope: &Scope,
    left: &NamedTerm,
    right: &NamedTerm,
) -> Result<Atom, SortFault>
    requires { length (scope_of scope.now) ≤ 12 }
    ensures { IsVisit (term_faults space.now (scope_of scope.now) (named_term_tree left.now)
        ++ term_faults space.now (scope_of scope.now) (named_term_tree right.now)
        ++ fault_unless (are_same (sort_of (scope_of scope.now) (named_term_tree left.now))
        (sort_of (scope_of scope.now) (named_term_tree right.now))) (SortFault.Sort (codes "=") 2))
        (λ a. atom_tree a ≡ Equal (resolved_term space.now (scope_of scope.now) (named_term_tree left.now))
        (resolved_term space.now (scope_of scope.now) (named_term_tree right.now))) result }
{
    let first = term(alloc, space, scope, left)?;
    let second = term(alloc, space, scope, right)?;
    if are_same(sort_of(scope, left), sort_of(scope, right)) {
        Ok(Atom::Equal(first, second))
    } else {
        Err(SortFault::Sort(Symbol::equality(), 2))
    }
}
