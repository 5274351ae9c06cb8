//! Atoms closed by values.

ghost use Rattle.std.specs.Prelude.{◌≡◌, IfOk};
ghost use Rattle.vocab.specs.Tree.{atom_tree, term_tree, Equal, Prefers, WinsAt};
ghost use Rattle.closing.specs.Closed.{closed_atom, closed_term};

use crate::terms::term;
use lists::NoMemory;
use std::alloc::Global;
use vocab::{Atom, Env, Term};

/// Two terms in order.
#[derive(Drop)]
struct Two {
    first: Term,
    second: Term,
}

/// Three terms in order.
#[derive(Drop)]
struct Three {
    first: Term,
    second: Term,
    third: Term,
}

/// Two terms closed by the values.
fn two_terms(alloc: Global, values: &Env, first: &Term, second: &Term) -> Result<Two, NoMemory>
    ensures first { IfOk result (λ x. term_tree x.first ≡ closed_term values.now (term_tree first.now)) }
    ensures second { IfOk result (λ x. term_tree x.second ≡ closed_term values.now (term_tree second.now)) }
{
    let first = term(alloc, values, first)?;
    let second = term(alloc, values, second)?;
    Ok(Two { first, second })
}

/// Three terms closed by the values.
fn three_terms(
    alloc: Global,
    values: &Env,
    first: &Term,
    second: &Term,
    third: &Term,
) -> Result<Three, NoMemory>
    ensures first { IfOk result (λ x. term_tree x.first ≡ closed_term values.now (term_tree first.now)) }
    ensures second { IfOk result (λ x. term_tree x.second ≡ closed_term values.now (term_tree second.now)) }
    ensures third { IfOk result (λ x. term_tree x.third ≡ closed_term values.now (term_tree third.now)) }
{
    let first = term(alloc, values, first)?;
    let Two {
        first: second,
        second: third,
    } = two_terms(alloc, values, second, third)?;
    Ok(Three {
        first,
        second,
        third,
    })
}

/// An atom closed by the values.
pub fn atom(alloc: Global, values: &Env, given: &Atom) -> Result<Atom, NoMemory>
    ensures { IfOk result (λ a. atom_tree a ≡ closed_atom values.now (atom_tree given.now)) }
{
    match given {
        Atom::Equal(s, t) => {
            let Two { first, second } = two_terms(alloc, values, s, t)?;
            Ok(Atom::Equal(first, second))
        }
        Atom::Prefers(i, x, y, p) => {
            let Two {
                first: voter,
                second: above,
            } = two_terms(alloc, values, i, x)?;
            let Two {
                first: below,
                second: profile,
            } = two_terms(alloc, values, y, p)?;
            Ok(Atom::Prefers(voter, above, below, profile))
        }
        Atom::Better(b, x, y) => {
            let parts = three_terms(alloc, values, b, x, y)?;
            Ok(Atom::Better(parts.first, parts.second, parts.third))
        }
        Atom::Casts(i, b, p) => {
            let parts = three_terms(alloc, values, i, b, p)?;
            Ok(Atom::Casts(parts.first, parts.second, parts.third))
        }
        Atom::Majority(x, y, p) => {
            let parts = three_terms(alloc, values, x, y, p)?;
            Ok(Atom::Majority(parts.first, parts.second, parts.third))
        }
        Atom::Wins(x, p) => {
            let Two { first, second } = two_terms(alloc, values, x, p)?;
            Ok(Atom::Wins(first, second))
        }
        Atom::Ranks(x, y, p) => {
            let parts = three_terms(alloc, values, x, y, p)?;
            Ok(Atom::Ranks(parts.first, parts.second, parts.third))
        }
    }
}
