//! Resolving formulas.

ghost use Rattle.std.specs.Prelude.{◌≡◌, ◌≤◌, ◌+◌, ◌∷◌, ◌++◌, length, IfOk};
ghost use Rattle.vocab.specs.NamedDepth.{quantifiers};
ghost use Rattle.vocab.specs.NamedView.{named_tree};
ghost use Rattle.vocab.specs.Tree.{tree_of};
ghost use Rattle.sorts.specs.Faults.{faults};
ghost use Rattle.sorts.specs.Resolved.{resolved};
ghost use Rattle.sorts.specs.ScopeView.{scope_of};
ghost use Rattle.sorts.specs.Visits.{IsVisit};

use crate::atoms::{equality, predicate};
use crate::faults::SortFault;
use crate::scope::Scope;
use lists::NoMemory;
use profiles::Space;
use std::alloc::Global;
use vocab::{Formula, Named, Sort};

/// A formula in a box. Where a visit ends early, what is dropped is a box: to drop a formula in place would
/// write out the drop of each of its forms there.
fn boxed(alloc: Global, part: Formula) -> Result<Box<Formula>, NoMemory>
    ensures { IfOk result (λ b. tree_of b.value ≡ tree_of part) }
{
    Ok(Box::new(alloc, part)?)
}

/// Two formulas in order.
#[derive(Drop)]
struct Two {
    left: Box<Formula>,
    right: Box<Formula>,
}

/// A formula under some quantifiers.
#[cycle(formulas)]
pub fn formula(
    alloc: Global,
    space: &Space,
    scope: &Scope,
    named: &Named,
) -> Result<Formula, SortFault>
    requires { length (scope_of scope.now) + quantifiers (named_tree named.now) ≤ 12 }
    ensures { IsVisit (faults space.now (scope_of scope.now) (named_tree named.now))
        (λ f. tree_of f ≡ resolved space.now (scope_of scope.now) (named_tree named.now)) result }
{
    match named {
        Named::Pred(name, arguments) => {
            Ok(Formula::Leaf(predicate(alloc, space, scope, name, arguments)?))
        }
        Named::Equal(left, right) => Ok(Formula::Leaf(equality(alloc, space, scope, left, right)?)),
        Named::Not(part) => Ok(Formula::Not(boxed_formula(alloc, space, scope, part)?)),
        Named::Both(left, right) => {
            let parts = two_formulas(alloc, space, scope, left, right)?;
            Ok(Formula::Both(parts.left, parts.right))
        }
        Named::Either(left, right) => {
            let parts = two_formulas(alloc, space, scope, left, right)?;
            Ok(Formula::Either(parts.left, parts.right))
        }
        Named::Implies(left, right) => {
            let parts = two_formulas(alloc, space, scope, left, right)?;
            Ok(Formula::Implies(parts.left, parts.right))
        }
        Named::Same(left, right) => {
            let parts = two_formulas(alloc, space, scope, left, right)?;
            Ok(Formula::Same(parts.left, parts.right))
        }
        Named::All(name, sort, body) => {
            let inside = Scope::Inside(*name, *sort, scope);
            Ok(Formula::All(*sort, boxed_formula(alloc, space, &inside, body)?))
        }
        Named::Exists(name, sort, body) => {
            let inside = Scope::Inside(*name, *sort, scope);
            Ok(Formula::Exists(*sort, boxed_formula(alloc, space, &inside, body)?))
        }
    }
}

/// A formula under some quantifiers, in a box.
#[cycle(formulas)]
fn boxed_formula(
    alloc: Global,
    space: &Space,
    scope: &Scope,
    named: &Named,
) -> Result<Box<Formula>, SortFault>
    requires { length (scope_of scope.now) + quantifiers (named_tree named.now) ≤ 12 }
    ensures { IsVisit (faults space.now (scope_of scope.now) (named_tree named.now))
        (λ b. tree_of b.value ≡ resolved space.now (scope_of scope.now) (named_tree named.now)) result }
{
    Ok(boxed(alloc, formula(alloc, space, scope, named)?)?)
}

/// Two formulas under the same quantifiers, the left one first.
#[cycle(formulas)]
fn two_formulas(
    alloc: Global,
    space: &Space,
    scope: &Scope,
    left: &Named,
    right: &Named,
) -> Result<Two, SortFault>
    requires left { length (scope_of scope.now) + quantifiers (named_tree left.now) ≤ 12 }
    requires right { length (scope_of scope.now) + quantifiers (named_tree right.now) ≤ 12 }
    ensures { IsVisit (faults space.now (scope_of scope.now) (named_tree left.now) ++ faults space.now
        (scope_of scope.now) (named_tree right.now))
        (λ x. (tree_of x.left.value ≡ resolved space.now (scope_of scope.now) (named_tree left.now))
        × (tree_of x.right.value ≡ resolved space.now (scope_of scope.now) (named_tree right.now))) result }
{
    let left = boxed_formula(alloc, space, scope, left)?;
    let right = boxed_formula(alloc, space, scope, right)?;
    Ok(Two { left, right })
}
