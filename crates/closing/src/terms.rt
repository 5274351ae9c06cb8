//! Terms closed by values.

ghost use Rattle.std.specs.Prelude.{◌≡◌, IfOk};
ghost use Rattle.vocab.specs.Tree.{term_tree};
ghost use Rattle.closing.specs.Closed.{closed_term, closed_variable};

use lists::NoMemory;
use std::alloc::Global;
use vocab::{Env, Term};

/// Three terms in order.
#[derive(Drop)]
struct Three {
    first: Box<Term>,
    second: Box<Term>,
    third: Box<Term>,
}

/// A variable: a constant where it has a value, and else one of fewer quantifiers.
fn variable(values: &Env, level: u8) -> Term
    ensures { term_tree result ≡ closed_variable values.now level }
{
    if level < values.len() {
        Term::Const(values.get(level))
    } else {
        Term::Var(level - values.len())
    }
}

/// A term closed by the values.
#[cycle(terms)]
pub fn term(alloc: Global, values: &Env, given: &Term) -> Result<Term, NoMemory>
    ensures { IfOk result (λ t. term_tree t ≡ closed_term values.now (term_tree given.now)) }
{
    match given {
        Term::Var(level) => Ok(variable(values, *level)),
        Term::Const(value) => Ok(Term::Const(*value)),
        Term::With(p, i, b) => {
            let parts = three_terms(alloc, values, p, i, b)?;
            Ok(Term::With(parts.first, parts.second, parts.third))
        }
        Term::SwapVoters(p, i, j) => {
            let parts = three_terms(alloc, values, p, i, j)?;
            Ok(Term::SwapVoters(parts.first, parts.second, parts.third))
        }
        Term::SwapAlts(p, x, y) => {
            let parts = three_terms(alloc, values, p, x, y)?;
            Ok(Term::SwapAlts(parts.first, parts.second, parts.third))
        }
        Term::Swap(x, y, z) => {
            let parts = three_terms(alloc, values, x, y, z)?;
            Ok(Term::Swap(parts.first, parts.second, parts.third))
        }
    }
}

/// A term closed by the values, in a box.
#[cycle(terms)]
fn boxed(alloc: Global, values: &Env, given: &Term) -> Result<Box<Term>, NoMemory>
    ensures { IfOk result (λ b. term_tree b.value ≡ closed_term values.now (term_tree given.now)) }
{
    Ok(Box::new(alloc, term(alloc, values, given)?)?)
}

/// Three terms closed by the values.
#[cycle(terms)]
fn three_terms(
    alloc: Global,
    values: &Env,
    first: &Term,
    second: &Term,
    third: &Term,
) -> Result<Three, NoMemory>
    ensures first { IfOk result
        (λ x. term_tree x.first.value ≡ closed_term values.now (term_tree first.now)) }
    ensures second { IfOk result
        (λ x. term_tree x.second.value ≡ closed_term values.now (term_tree second.now)) }
    ensures third { IfOk result
        (λ x. term_tree x.third.value ≡ closed_term values.now (term_tree third.now)) }
{
    Ok(Three {
        first: boxed(alloc, values, first)?,
        second: boxed(alloc, values, second)?,
        third: boxed(alloc, values, third)?,
    })
}
