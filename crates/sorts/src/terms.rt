//! Resolving terms.

ghost use Rattle.std.specs.Prelude.{◌≡◌, ◌≢◌, ◌<◌, ◌≤◌, ◌+◌, [], ◌∷◌, ◌++◌, length, IfOk};
ghost use Rattle.vocab.specs.NamedView.{named_term_tree, named_terms_tree};
ghost use Rattle.vocab.specs.Terms.{terms_of};
ghost use Rattle.vocab.specs.Tree.{term_tree, Var};
ghost use Rattle.sorts.specs.Faults.{where_none, fault_unless, function_faults, term_faults, argument_faults, argument_count, sort_of};
ghost use Rattle.sorts.specs.Resolved.{resolved_term, resolved_terms, applied, function_tree};
ghost use Rattle.sorts.specs.Scope.{sort_in, level_in};
ghost use Rattle.sorts.specs.ScopeView.{scope_of};
ghost use Rattle.sorts.specs.Symbols.{function_of, function_sorts, given_sort};
ghost use Rattle.sorts.specs.Visits.{IsVisit};
ghost use Rattle.vocab.specs.Sorted.{is_option_sort};

use crate::constants::{alternative, ballot, voter};
use crate::faults::SortFault;
use crate::scope::Scope;
use crate::symbols::{Function, function_named, is_same};
use crate::texts::Symbol;
use lists::NoMemory;
use profiles::Space;
use std::alloc::Global;
use vocab::{Name, NamedTerm, Sort, Term, Terms};

/// Three terms in order.
#[derive(Drop)]
pub struct Three {
    pub first: Term,
    pub second: Term,
    pub third: Term,
}

/// The sort of a term, where its own symbol has one.
pub fn sort_of(scope: &Scope, term: &NamedTerm) -> Option<Sort>
    ensures { result ≡ sort_of (scope_of scope.now) (named_term_tree term.now) }
{
    match term {
        NamedTerm::Var(name) => scope.sort_of(name),
        NamedTerm::Voter(_) => Some(Sort::Voter),
        NamedTerm::Alt(_) => Some(Sort::Alt),
        NamedTerm::Ballot(_) => Some(Sort::Ballot),
        NamedTerm::Call(name, _) => match function_named(name) {
            None => None,
            Some(function) => Some(function.given_sort()),
        },
    }
}

/// Whether there is a sort, and it is this one.
pub fn is_there(sort: Sort, found: Option<Sort>) -> bool
    ensures { result ≡ is_option_sort sort found }
{
    match found {
        None => false,
        Some(other) => is_same(sort, other),
    }
}

fn variable(scope: &Scope, name: &Name) -> Result<Term, SortFault>
    requires { length (scope_of scope.now) ≤ 12 }
    ensures { IsVisit (where_none (sort_in name.now (scope_of scope.now)) (SortFault.Unbound name.now))
        (λ t. term_tree t ≡ Var (level_in name.now (scope_of scope.now))) result }
{
    match scope.sort_of(name) {
        None => Err(SortFault::Unbound(*name)),
        Some(_) => Ok(Term::Var(scope.level_of(name))),
    }
}

fn apply(alloc: Global, function: Function, terms: Three) -> Result<Term, NoMemory>
    ensures { IfOk result (λ t. term_tree t ≡ applied function (term_tree terms.first)
        (term_tree terms.second) (term_tree terms.third)) }
{
    let first = Box::new(alloc, terms.first)?;
    let second = Box::new(alloc, terms.second)?;
    let third = Box::new(alloc, terms.third)?;
    match function {
        Function::With => Ok(Term::With(first, second, third)),
        Function::SwapVoters => Ok(Term::SwapVoters(first, second, third)),
        Function::SwapAlts => Ok(Term::SwapAlts(first, second, third)),
        Function::Swap => Ok(Term::Swap(first, second, third)),
    }
}

/// A term under some quantifiers.
#[cycle(terms)]
pub fn term(
    alloc: Global,
    space: &Space,
    scope: &Scope,
    named: &NamedTerm,
) -> Result<Term, SortFault>
    requires { length (scope_of scope.now) ≤ 12 }
    ensures { IsVisit (term_faults space.now (scope_of scope.now) (named_term_tree named.now))
        (λ t. term_tree t ≡ resolved_term space.now (scope_of scope.now) (named_term_tree named.now)) result }
{
    match named {
        NamedTerm::Var(name) => variable(scope, name),
        NamedTerm::Voter(number) => voter(space, *number),
        NamedTerm::Alt(number) => alternative(space, *number),
        NamedTerm::Ballot(letters) => ballot(space, letters),
        NamedTerm::Call(name, arguments) => call(alloc, space, scope, name, arguments),
    }
}

/// A function at its arguments.
#[cycle(terms)]
fn call(
    alloc: Global,
    space: &Space,
    scope: &Scope,
    name: &Name,
    arguments: &Terms,
) -> Result<Term, SortFault>
    requires { length (scope_of scope.now) ≤ 12 }
    ensures { IsVisit (function_faults name.now (function_of name.now)
        (argument_count (named_terms_tree arguments.now))
        (λ sorts. argument_faults space.now (scope_of scope.now) name.now 1 sorts
        (named_terms_tree arguments.now)))
        (λ t. term_tree t ≡ function_tree (function_of name.now)
        (resolved_terms space.now (scope_of scope.now) (named_terms_tree arguments.now))) result }
{
    let Some(function) = function_named(name) else {
        return Err(SortFault::Symbol(*name));
    };
    let symbol = Symbol::of(*name);
    if arguments.len() != 3 {
        return Err(SortFault::Arity(symbol));
    }
    let terms = three_arguments(alloc, space, scope, symbol, function.sorts(), arguments)?;
    Ok(apply(alloc, function, terms)?)
}

/// The three arguments of a symbol.
#[cycle(terms)]
pub fn three_arguments(
    alloc: Global,
    space: &Space,
    scope: &Scope,
    symbol: Symbol,
    sorts: (Sort, Sort, Sort),
    arguments: &Terms,
) -> Result<Three, SortFault>
    requires few { length (scope_of scope.now) ≤ 12 }
    requires count { length (terms_of arguments.now) ≡ 3 }
    ensures { IsVisit (argument_faults space.now (scope_of scope.now) symbol 1
        (sorts.0 ∷ sorts.1 ∷ sorts.2 ∷ []) (named_terms_tree arguments.now))
        (λ x. resolved_terms space.now (scope_of scope.now) (named_terms_tree arguments.now)
        ≡ term_tree x.first ∷ term_tree x.second ∷ term_tree x.third ∷ []) result }
{
    let first = argument(alloc, space, scope, symbol, 1, sorts.0, arguments.get(0))?;
    let second = argument(alloc, space, scope, symbol, 2, sorts.1, arguments.get(1))?;
    let third = argument(alloc, space, scope, symbol, 3, sorts.2, arguments.get(2))?;
    Ok(Three {
        first,
        second,
        third,
    })
}

/// An argument of a symbol, at its place from 1.
#[cycle(terms)]
pub fn argument(
    alloc: Global,
    space: &Space,
    scope: &Scope,
    symbol: Symbol,
    place: u8,
    sort: Sort,
    given: &NamedTerm,
) -> Result<Term, SortFault>
    requires { length (scope_of scope.now) ≤ 12 }
    ensures { IsVisit (term_faults space.now (scope_of scope.now) (named_term_tree given.now)
        ++ fault_unless (is_option_sort sort (sort_of (scope_of scope.now) (named_term_tree given.now)))
        (SortFault.Sort symbol place))
        (λ t. term_tree t ≡ resolved_term space.now (scope_of scope.now) (named_term_tree given.now)) result }
{
    let tree = term(alloc, space, scope, given)?;
    if is_there(sort, sort_of(scope, given)) {
        Ok(tree)
    } else {
        Err(SortFault::Sort(symbol, place))
    }
}
