//! Formulas closed by values.

ghost use Rattle.std.specs.Prelude.{◌≡◌, IfOk};
ghost use Rattle.vocab.specs.Tree.{tree_of};
ghost use Rattle.closing.specs.Closed.{closed, closed_body};

use crate::atoms::atom;
use lists::NoMemory;
use std::alloc::Global;
use vocab::{Axiom, Env, Formula};

/// Two formulas in order.
#[derive(Drop)]
struct Two {
    left: Box<Formula>,
    right: Box<Formula>,
}

/// A formula in a box. Where a walk ends early, what is dropped is a box: to drop a formula in place would
/// write out the drop of each of its forms there.
fn boxed(alloc: Global, part: Formula) -> Result<Box<Formula>, NoMemory>
    ensures { IfOk result (λ b. tree_of b.value ≡ tree_of part) }
{
    Ok(Box::new(alloc, part)?)
}

/// A formula closed by the values.
#[cycle(formulas)]
fn formula(alloc: Global, values: &Env, given: &Formula) -> Result<Formula, NoMemory>
    ensures { IfOk result (λ f. tree_of f ≡ closed values.now (tree_of given.now)) }
{
    match given {
        Formula::Leaf(leaf) => Ok(Formula::Leaf(atom(alloc, values, leaf)?)),
        Formula::Not(inner) => Ok(Formula::Not(boxed_formula(alloc, values, inner)?)),
        Formula::Both(left, right) => {
            let parts = two_formulas(alloc, values, left, right)?;
            Ok(Formula::Both(parts.left, parts.right))
        }
        Formula::Either(left, right) => {
            let parts = two_formulas(alloc, values, left, right)?;
            Ok(Formula::Either(parts.left, parts.right))
        }
        Formula::Implies(left, right) => {
            let parts = two_formulas(alloc, values, left, right)?;
            Ok(Formula::Implies(parts.left, parts.right))
        }
        Formula::Same(left, right) => {
            let parts = two_formulas(alloc, values, left, right)?;
            Ok(Formula::Same(parts.left, parts.right))
        }
        Formula::All(sort, inner) => {
            Ok(Formula::All(*sort, boxed_formula(alloc, values, inner)?))
        }
        Formula::Exists(sort, inner) => {
            Ok(Formula::Exists(*sort, boxed_formula(alloc, values, inner)?))
        }
    }
}

/// A formula closed by the values, in a box.
#[cycle(formulas)]
fn boxed_formula(alloc: Global, values: &Env, given: &Formula) -> Result<Box<Formula>, NoMemory>
    ensures { IfOk result (λ b. tree_of b.value ≡ closed values.now (tree_of given.now)) }
{
    Ok(boxed(alloc, formula(alloc, values, given)?)?)
}

/// Two formulas closed by the values.
#[cycle(formulas)]
fn two_formulas(
    alloc: Global,
    values: &Env,
    left: &Formula,
    right: &Formula,
) -> Result<Two, NoMemory>
    ensures left { IfOk result (λ x. tree_of x.left.value ≡ closed values.now (tree_of left.now)) }
    ensures right { IfOk result (λ x. tree_of x.right.value ≡ closed values.now (tree_of right.now)) }
{
    let left = boxed_formula(alloc, values, left)?;
    let right = boxed_formula(alloc, values, right)?;
    Ok(Two { left, right })
}

/// The body of the instance of an axiom at the values of its leading universals, as a sentence of its own:
/// the values stand in place of the outer variables, as constants, and the levels of the others are lowered.
/// There is one value in range for each leading universal.
pub fn close(alloc: Global, named: &Axiom, values: &Env) -> Result<Formula, NoMemory>
    ensures { IfOk result (λ f. tree_of f ≡ closed_body named.now values.now) }
{
    formula(alloc, values, named.sentence().body())
}
