//! The one recursion over sentences.

ghost use Rattle.std.specs.Prelude.{◌≡◌, ◌+◌, IsTrue, IfOk, IfErr};
ghost use Rattle.vocab.specs.declared.literals.Literal.{Literal};
ghost use Rattle.vocab.specs.Size.{sort_count};
ghost use Rattle.vocab.specs.Tree.{Not, Both, Either, Implies, Same, All, Exists, tree_of};
ghost use Rattle.meaning.specs.Literals.{is_literal};
ghost use Rattle.meaning.specs.Written.{write_out};
ghost use Rattle.worlds.specs.Conditions.{IsFormulaAt};
ghost use Rattle.worlds.specs.Evaluations.{CanEvaluate, Evaluates};
ghost use Rattle.worlds.specs.Meanings.{SameMeaning};

use crate::algebra::Algebra;
use crate::atoms::eval_atom;
use profiles::Space;
use profiles::laws::spaces_have_sizes;
use vocab::{Env, Formula, Sort};

/// The value of a formula, where its free variables have the values of the environment: one that stands for
/// the formula written out, or a stop that the algebra may answer. Sides and values that cannot matter any
/// more are left out. No memory is taken but what the algebra takes.
pub fn eval<A: Algebra>(
    space: &Space,
    formula: &Formula,
    env: &Env,
    algebra: &mut A,
) -> Result<A::V, A::Stop>
    requires fits { IsFormulaAt space.now (tree_of formula.now) env.now }
    requires takes { (l : Literal) → IsTrue (is_literal space.now l) → A.takes algebra.old l }
    ensures ok { IfOk result (λ v. A.stands algebra.old v
        (write_out space.now (tree_of formula.now) env.now)) }
    ensures err { IfErr result A.may_stop }
    ensures same { SameMeaning (A.stands algebra.old) (A.stands algebra.new) (A.takes algebra.old)
        (A.takes algebra.new) }
{
    eval_formula(space, formula, env, algebra)
}

/// The recursion of `eval`, with a function for each connective: a call then has room for the values of one
/// alone.
#[cycle(eval)]
pub(crate) fn eval_formula<A: Algebra>(
    space: &Space,
    formula: &Formula,
    env: &Env,
    algebra: &mut A,
) -> Result<A::V, A::Stop>
    requires { CanEvaluate space.now (A.takes algebra.old) (tree_of formula.now) env.now }
    ensures { Evaluates A.stands A.takes A.may_stop algebra.old algebra.new
        (write_out space.now (tree_of formula.now) env.now) result }
{
    match formula {
        Formula::Leaf(atom) => eval_atom(space, atom, env, algebra),
        Formula::Not(inner) => eval_not(space, inner, env, algebra),
        Formula::Both(left, right) => eval_both(space, left, right, env, algebra),
        Formula::Either(left, right) => eval_either(space, left, right, env, algebra),
        Formula::Implies(left, right) => eval_implies(space, left, right, env, algebra),
        Formula::Same(left, right) => eval_same(space, left, right, env, algebra),
        Formula::All(sort, inner) => eval_all(space, *sort, inner, env, algebra),
        Formula::Exists(sort, inner) => eval_exists(space, *sort, inner, env, algebra),
    }
}

/// A negation.
#[cycle(eval)]
fn eval_not<A: Algebra>(
    space: &Space,
    inner: &Formula,
    env: &Env,
    algebra: &mut A,
) -> Result<A::V, A::Stop>
    requires { CanEvaluate space.now (A.takes algebra.old) (Not (tree_of inner.now)) env.now }
    ensures { Evaluates A.stands A.takes A.may_stop algebra.old algebra.new
        (write_out space.now (Not (tree_of inner.now)) env.now) result }
{
    let a = eval_formula(space, inner, env, algebra)?;
    algebra.not(a)
}

/// A conjunction. Where its first side is false, the other is left out.
#[cycle(eval)]
fn eval_both<A: Algebra>(
    space: &Space,
    left: &Formula,
    right: &Formula,
    env: &Env,
    algebra: &mut A,
) -> Result<A::V, A::Stop>
    requires { CanEvaluate space.now (A.takes algebra.old)
        (Both (tree_of left.now) (tree_of right.now)) env.now }
    ensures { Evaluates A.stands A.takes A.may_stop algebra.old algebra.new
        (write_out space.now (Both (tree_of left.now) (tree_of right.now)) env.now) result }
{
    let a = eval_formula(space, left, env, algebra)?;
    if algebra.is_known(&a, false) {
        return Ok(a);
    }
    let b = eval_formula(space, right, env, algebra)?;
    algebra.and(a, b)
}

/// A disjunction. Where its first side is true, the other is left out.
#[cycle(eval)]
fn eval_either<A: Algebra>(
    space: &Space,
    left: &Formula,
    right: &Formula,
    env: &Env,
    algebra: &mut A,
) -> Result<A::V, A::Stop>
    requires { CanEvaluate space.now (A.takes algebra.old)
        (Either (tree_of left.now) (tree_of right.now)) env.now }
    ensures { Evaluates A.stands A.takes A.may_stop algebra.old algebra.new
        (write_out space.now (Either (tree_of left.now) (tree_of right.now)) env.now) result }
{
    let a = eval_formula(space, left, env, algebra)?;
    if algebra.is_known(&a, true) {
        return Ok(a);
    }
    let b = eval_formula(space, right, env, algebra)?;
    algebra.or(a, b)
}

/// An implication. Where its first side is false, the other is left out.
#[cycle(eval)]
fn eval_implies<A: Algebra>(
    space: &Space,
    left: &Formula,
    right: &Formula,
    env: &Env,
    algebra: &mut A,
) -> Result<A::V, A::Stop>
    requires { CanEvaluate space.now (A.takes algebra.old)
        (Implies (tree_of left.now) (tree_of right.now)) env.now }
    ensures { Evaluates A.stands A.takes A.may_stop algebra.old algebra.new
        (write_out space.now (Implies (tree_of left.now) (tree_of right.now)) env.now) result }
{
    let a = eval_formula(space, left, env, algebra)?;
    let not_a = algebra.not(a)?;
    if algebra.is_known(&not_a, true) {
        return Ok(not_a);
    }
    let b = eval_formula(space, right, env, algebra)?;
    algebra.or(not_a, b)
}

/// An equivalence.
#[cycle(eval)]
fn eval_same<A: Algebra>(
    space: &Space,
    left: &Formula,
    right: &Formula,
    env: &Env,
    algebra: &mut A,
) -> Result<A::V, A::Stop>
    requires { CanEvaluate space.now (A.takes algebra.old)
        (Same (tree_of left.now) (tree_of right.now)) env.now }
    ensures { Evaluates A.stands A.takes A.may_stop algebra.old algebra.new
        (write_out space.now (Same (tree_of left.now) (tree_of right.now)) env.now) result }
{
    let a = eval_formula(space, left, env, algebra)?;
    let b = eval_formula(space, right, env, algebra)?;
    algebra.same(a, b)
}

/// A universal, from the last value of its sort to the first. Where a value makes it false, those before are
/// left out.
#[cycle(eval)]
fn eval_all<A: Algebra>(
    space: &Space,
    sort: Sort,
    inner: &Formula,
    env: &Env,
    algebra: &mut A,
) -> Result<A::V, A::Stop>
    requires { CanEvaluate space.now (A.takes algebra.old) (All sort (tree_of inner.now)) env.now }
    ensures { Evaluates A.stands A.takes A.may_stop algebra.old algebra.new
        (write_out space.now (All sort (tree_of inner.now)) env.now) result }
{
    let last = last_value(space, sort);
    let mut value = eval_formula(space, inner, &env.with(last), algebra)?;
    for v in (0..last).rev() {
        if algebra.is_known(&value, false) {
            return Ok(value);
        }
        let first = eval_formula(space, inner, &env.with(v), algebra)?;
        value = algebra.and(first, value)?;
    }
    Ok(value)
}

/// An existential, from the last value of its sort to the first. Where a value makes it true, those before
/// are left out.
#[cycle(eval)]
fn eval_exists<A: Algebra>(
    space: &Space,
    sort: Sort,
    inner: &Formula,
    env: &Env,
    algebra: &mut A,
) -> Result<A::V, A::Stop>
    requires { CanEvaluate space.now (A.takes algebra.old) (Exists sort (tree_of inner.now)) env.now }
    ensures { Evaluates A.stands A.takes A.may_stop algebra.old algebra.new
        (write_out space.now (Exists sort (tree_of inner.now)) env.now) result }
{
    let last = last_value(space, sort);
    let mut value = eval_formula(space, inner, &env.with(last), algebra)?;
    for v in (0..last).rev() {
        if algebra.is_known(&value, true) {
            return Ok(value);
        }
        let first = eval_formula(space, inner, &env.with(v), algebra)?;
        value = algebra.or(first, value)?;
    }
    Ok(value)
}

/// The last value of a sort, of which each has one.
fn last_value(space: &Space, sort: Sort) -> u32
    ensures { result + 1 ≡ sort_count space.now sort }
{
    spaces_have_sizes(space);
    space.size().sort_len(sort) - 1
}
