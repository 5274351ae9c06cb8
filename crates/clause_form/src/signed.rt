//! The clauses of a formula of one sign alone.

ghost use Rattle.std.specs.Prelude.{◌≡◌, ◌+◌, Bool, not, List, IfOk, IfSome, IsTrue, IsFalse, if◌then◌else◌};
ghost use Rattle.vocab.specs.Size.{Extent, sort_count};
ghost use Rattle.vocab.specs.Tree.{Not, Both, Either, Implies, Same, All, Exists, tree_of};
ghost use Rattle.cnf.specs.Sat.{opposite_lit};
ghost use Rattle.meaning.specs.Clauses.{Disjunction, known_truth, minus, plus};
ghost use Rattle.meaning.specs.Kleene.{three_of};
ghost use Rattle.meaning.specs.Literals.{is_literal};
ghost use Rattle.meaning.specs.Written.{Written, Neg, And, Or, Iff, write_out};
ghost use Rattle.worlds.specs.Conditions.{IsFormulaAt};
ghost use Rattle.clause_form.specs.Forms.{IsForm};
ghost use Rattle.clause_form.specs.Rows.{AreSome, IsRows};
ghost use Rattle.clause_form.specs.Signed.{IsSide, IsSound, IsShort, met, rows_of};

use crate::bounds::values;
use crate::forms::{Form, form_of};
use crate::known::what_is_known;
use crate::rows::{Rows, both, crossed, each, one, pair};
use cnf::Lit;
use lists::NoMemory;
use meaning::Three;
use outcomes::OutcomeKind;
use std::alloc::Global;
use std::convert::Infallible;
use vocab::{Atom, Env, Formula, Literal, Sort};
use worlds::{Algebra, eval};

/// What is known of a formula whatever the rule, or else its clauses of one sign: the plus clauses where the
/// sign is positive, and else the minus clauses.
#[derive(Drop)]
pub(crate) enum Side {
    Known(bool),
    Open(Rows),
}

/// What an atom is: known, or a literal. Nothing is said of what is joined.
#[derive(Clone, Copy)]
enum Short {
    Known(bool),
    Fact(Lit),
    Joined,
}

/// The values of atoms.
#[derive(Drop)]
struct ShortAlgebra<'a, K> {
    kind: &'a K,
}

impl<K: OutcomeKind> Algebra for ShortAlgebra<'_, K> {
    type V = Short;

    type Stop = Infallible;

    ghost stands = { λ a v w. IsShort (K.size a.kind.now) v w };

    ghost may_stop = { λ _. ⊥ };

    ghost takes = { λ a l. IsTrue (is_literal (K.size a.kind.now) l) };

    fn known(&mut self, truth: bool) -> Result<Short, Infallible> {
        Ok(Short::Known(truth))
    }

    fn literal(&mut self, literal: &Literal) -> Result<Short, Infallible> {
        Ok(Short::Fact(self.kind.lit(literal)))
    }

    fn not(&mut self, _a: Short) -> Result<Short, Infallible> {
        Ok(Short::Joined)
    }

    fn and(&mut self, _a: Short, _b: Short) -> Result<Short, Infallible> {
        Ok(Short::Joined)
    }

    fn or(&mut self, _a: Short, _b: Short) -> Result<Short, Infallible> {
        Ok(Short::Joined)
    }

    fn same(&mut self, _a: Short, _b: Short) -> Result<Short, Infallible> {
        Ok(Short::Joined)
    }
}

/// What an atom is. Nothing is said of a formula that is none.
fn short_of<K: OutcomeKind>(kind: &K, formula: &Formula, env: &Env) -> Short
    requires { IsFormulaAt (K.size kind.now) (tree_of formula.now) env.now }
    ensures { IsShort (K.size kind.now) result (write_out (K.size kind.now) (tree_of formula.now) env.now) }
{
    let mut algebra = ShortAlgebra { kind };
    match eval(kind.space(), formula, env, &mut algebra) {
        Ok(short) => short,
    }
}

/// The side of a form for one sign; the other side is let go.
fn side_of_form(form: Form, positive: bool) -> Side
    ensures { (size : Extent) (x : Written) → IsForm size form x → IsSide size positive result x }
{
    match form {
        Form::Known(truth) => Side::Known(truth),
        Form::Open(plus, minus) => {
            if positive {
                Side::Open(plus)
            } else {
                Side::Open(minus)
            }
        }
    }
}

/// An atom. What is none is taken by its form.
fn atom_side<K: OutcomeKind>(
    alloc: Global,
    kind: &K,
    formula: &Formula,
    env: &Env,
    positive: bool,
) -> Result<Side, NoMemory>
    requires fits { IsFormulaAt (K.size kind.now) (tree_of formula.now) env.now }
    ensures { IfOk result (λ side. IsSide (K.size kind.now) positive side
        (write_out (K.size kind.now) (tree_of formula.now) env.now)) }
{
    match short_of(kind, formula, env) {
        Short::Known(truth) => Ok(Side::Known(truth)),
        Short::Fact(lit) => Ok(Side::Open(one(with_sign(lit, positive)))),
        Short::Joined => {
            let form = form_of(alloc, kind, formula, env)?;
            Ok(side_of_form(form, positive))
        }
    }
}

/// A literal or its opposite.
fn with_sign(lit: Lit, positive: bool) -> Lit
    ensures { result ≡ (if positive then lit else opposite_lit lit) }
{
    if positive { lit } else { lit.opposite() }
}

/// Whether nothing in a formula depends on the rule.
fn is_plain(formula: &Formula) -> bool {
    match formula {
        Formula::Leaf(Atom::Wins(_, _)) => false,
        Formula::Leaf(Atom::Ranks(_, _, _)) => false,
        Formula::Leaf(_) => true,
        Formula::Not(f) => is_plain(f),
        Formula::Both(f, g) => is_plain(f) && is_plain(g),
        Formula::Either(f, g) => is_plain(f) && is_plain(g),
        Formula::Implies(f, g) => is_plain(f) && is_plain(g),
        Formula::Same(f, g) => is_plain(f) && is_plain(g),
        Formula::All(_, f) => is_plain(f),
        Formula::Exists(_, f) => is_plain(f),
    }
}

/// The truth of a formula of which nothing depends on the rule.
fn plain_truth<K: OutcomeKind>(kind: &K, formula: &Formula, env: &Env) -> Option<bool>
    requires fits { IsFormulaAt (K.size kind.now) (tree_of formula.now) env.now }
    ensures { IfSome result (λ truth.
        known_truth (write_out (K.size kind.now) (tree_of formula.now) env.now) ≡ three_of truth) }
{
    if !is_plain(formula) {
        return None;
    }
    match what_is_known(kind, formula, env) {
        Three::True => Some(true),
        Three::False => Some(false),
        Three::Unknown => None,
    }
}

/// The clauses of both, or those of each joined with those of each.
fn met(alloc: Global, added: bool, p: &Rows, q: Rows) -> Result<Rows, NoMemory>
    ensures { IfOk result (λ r. (size : Extent) (xs ys : List Disjunction) → AreSome size p.now xs →
        AreSome size q ys → IsRows size r (met added xs ys)) }
{
    if added {
        let rows = both(alloc, p, q)?;
        return Ok(rows);
    }
    let rows = each(alloc, p, q)?;
    Ok(rows)
}

/// The side of a negation, of the side of other sign.
fn negation(a: Side) -> Side
    ensures { (size : Extent) (positive : Bool) (x : Written) → IsSide size (not positive) a x →
        IsSide size positive result (Neg x) }
{
    match a {
        Side::Known(truth) => Side::Known(!truth),
        Side::Open(rows) => Side::Open(rows),
    }
}

/// The side of a conjunction.
fn conjunction(alloc: Global, positive: bool, a: Side, b: Side) -> Result<Side, NoMemory>
    ensures { IfOk result (λ side. (size : Extent) (x y : Written) → IsSide size positive a x →
        IsSide size positive b y → IsSide size positive side (And x y)) }
{
    match a {
        Side::Known(true) => Ok(b),
        Side::Known(false) => Ok(Side::Known(false)),
        Side::Open(p) => match b {
            Side::Known(true) => Ok(Side::Open(p)),
            Side::Known(false) => Ok(Side::Known(false)),
            Side::Open(q) => {
                let rows = met(alloc, positive, &p, q)?;
                Ok(Side::Open(rows))
            }
        },
    }
}

/// The side of a disjunction.
fn disjunction(alloc: Global, positive: bool, a: Side, b: Side) -> Result<Side, NoMemory>
    ensures { IfOk result (λ side. (size : Extent) (x y : Written) → IsSide size positive a x →
        IsSide size positive b y → IsSide size positive side (Or x y)) }
{
    match a {
        Side::Known(true) => Ok(Side::Known(true)),
        Side::Known(false) => Ok(b),
        Side::Open(p) => match b {
            Side::Known(true) => Ok(Side::Known(true)),
            Side::Known(false) => Ok(Side::Open(p)),
            Side::Open(q) => {
                let rows = met(alloc, !positive, &p, q)?;
                Ok(Side::Open(rows))
            }
        },
    }
}

/// Whether what is known is this.
fn is_known(side: &Side, truth: bool) -> bool
    ensures no { IsTrue result → IsFalse truth → (size : Extent) (positive : Bool) (x y : Written) →
        IsSide size positive side.now x →
        IsSide size positive side.now (And x y) × IsSide size positive side.now (And y x) }
    ensures yes { IsTrue result → IsTrue truth → (size : Extent) (positive : Bool) (x y : Written) →
        IsSide size positive side.now x →
        IsSide size positive side.now (Or x y) × IsSide size positive side.now (Or y x) }
{
    match side {
        Side::Known(known) => *known == truth,
        Side::Open(_) => false,
    }
}

/// The last value of a sort.
fn last_value<K: OutcomeKind>(kind: &K, sort: Sort) -> u32
    ensures { result + 1 ≡ sort_count (K.size kind.now) sort }
{
    values(kind.space(), sort) - 1
}

/// The side of a formula.
#[cycle(side)]
pub(crate) fn side_of<K: OutcomeKind>(
    alloc: Global,
    kind: &K,
    formula: &Formula,
    env: &Env,
    positive: bool,
) -> Result<Side, NoMemory>
    requires sound { IsSound (K.size kind.now) (tree_of formula.now) env.now }
    ensures { IfOk result (λ side. IsSide (K.size kind.now) positive side
        (write_out (K.size kind.now) (tree_of formula.now) env.now)) }
{
    if let Some(truth) = plain_truth(kind, formula, env) {
        return Ok(Side::Known(truth));
    }
    match formula {
        Formula::Leaf(_) => atom_side(alloc, kind, formula, env, positive),
        Formula::Not(inner) => not_side(alloc, kind, inner, env, positive),
        Formula::Both(left, right) => both_side(alloc, kind, left, right, env, positive),
        Formula::Either(left, right) => either_side(alloc, kind, left, right, env, positive),
        Formula::Implies(left, right) => implies_side(alloc, kind, left, right, env, positive),
        Formula::Same(left, right) => same_side(alloc, kind, left, right, env, positive),
        Formula::All(sort, inner) => all_side(alloc, kind, *sort, inner, env, positive),
        Formula::Exists(sort, inner) => exists_side(alloc, kind, *sort, inner, env, positive),
    }
}

/// A negation.
#[cycle(side)]
fn not_side<K: OutcomeKind>(
    alloc: Global,
    kind: &K,
    inner: &Formula,
    env: &Env,
    positive: bool,
) -> Result<Side, NoMemory>
    requires { IsSound (K.size kind.now) (Not (tree_of inner.now)) env.now }
    ensures { IfOk result (λ side. IsSide (K.size kind.now) positive side
        (write_out (K.size kind.now) (Not (tree_of inner.now)) env.now)) }
{
    let a = side_of(alloc, kind, inner, env, !positive)?;
    Ok(negation(a))
}

/// A conjunction. Where its first side is false, the other is left out.
#[cycle(side)]
fn both_side<K: OutcomeKind>(
    alloc: Global,
    kind: &K,
    left: &Formula,
    right: &Formula,
    env: &Env,
    positive: bool,
) -> Result<Side, NoMemory>
    requires { IsSound (K.size kind.now) (Both (tree_of left.now) (tree_of right.now)) env.now }
    ensures { IfOk result (λ side. IsSide (K.size kind.now) positive side
        (write_out (K.size kind.now) (Both (tree_of left.now) (tree_of right.now)) env.now)) }
{
    let a = side_of(alloc, kind, left, env, positive)?;
    if is_known(&a, false) {
        return Ok(a);
    }
    let b = side_of(alloc, kind, right, env, positive)?;
    conjunction(alloc, positive, a, b)
}

/// A disjunction. Where its first side is true, the other is left out.
#[cycle(side)]
fn either_side<K: OutcomeKind>(
    alloc: Global,
    kind: &K,
    left: &Formula,
    right: &Formula,
    env: &Env,
    positive: bool,
) -> Result<Side, NoMemory>
    requires { IsSound (K.size kind.now) (Either (tree_of left.now) (tree_of right.now)) env.now }
    ensures { IfOk result (λ side. IsSide (K.size kind.now) positive side
        (write_out (K.size kind.now) (Either (tree_of left.now) (tree_of right.now)) env.now)) }
{
    let a = side_of(alloc, kind, left, env, positive)?;
    if is_known(&a, true) {
        return Ok(a);
    }
    let b = side_of(alloc, kind, right, env, positive)?;
    disjunction(alloc, positive, a, b)
}

/// An implication. Where its first side is false, the other is left out.
#[cycle(side)]
fn implies_side<K: OutcomeKind>(
    alloc: Global,
    kind: &K,
    left: &Formula,
    right: &Formula,
    env: &Env,
    positive: bool,
) -> Result<Side, NoMemory>
    requires { IsSound (K.size kind.now) (Implies (tree_of left.now) (tree_of right.now)) env.now }
    ensures { IfOk result (λ side. IsSide (K.size kind.now) positive side
        (write_out (K.size kind.now) (Implies (tree_of left.now) (tree_of right.now)) env.now)) }
{
    let a = side_of(alloc, kind, left, env, !positive)?;
    let not_a = negation(a);
    if is_known(&not_a, true) {
        return Ok(not_a);
    }
    let b = side_of(alloc, kind, right, env, positive)?;
    disjunction(alloc, positive, not_a, b)
}

/// The clauses of an equivalence, of which both signs of both sides are open.
fn crossed_rows(
    alloc: Global,
    positive: bool,
    p: Rows,
    m: Rows,
    q: Rows,
    n: Rows,
) -> Result<Rows, NoMemory>
    ensures { IfOk result (λ r. (size : Extent) (x y : Written) → known_truth x ≡ Three.Unknown →
        known_truth y ≡ Three.Unknown → IsRows size p (plus x) → IsRows size m (minus x) →
        IsRows size q (plus y) → IsRows size n (minus y) → IsRows size r (rows_of positive (Iff x y))) }
{
    if positive {
        let rows = crossed(alloc, &m, q, &p, n)?;
        return Ok(rows);
    }
    let rows = crossed(alloc, &m, n, &p, q)?;
    Ok(rows)
}

/// The side of an equivalence.
fn equivalence(alloc: Global, positive: bool, a: Form, b: Form) -> Result<Side, NoMemory>
    ensures { IfOk result (λ side. (size : Extent) (x y : Written) → IsForm size a x →
        IsForm size b y → IsSide size positive side (Iff x y)) }
{
    match a {
        Form::Known(true) => Ok(side_of_form(b, positive)),
        Form::Known(false) => Ok(negation(side_of_form(b, !positive))),
        Form::Open(p, m) => match b {
            Form::Known(true) => Ok(side_of_form(Form::Open(p, m), positive)),
            Form::Known(false) => Ok(negation(side_of_form(Form::Open(p, m), !positive))),
            Form::Open(q, n) => {
                let rows = crossed_rows(alloc, positive, p, m, q, n)?;
                Ok(Side::Open(rows))
            }
        },
    }
}

/// What an atom is, and nothing of a formula that is none.
fn atom_of<K: OutcomeKind>(kind: &K, formula: &Formula, env: &Env) -> Short
    requires { IsFormulaAt (K.size kind.now) (tree_of formula.now) env.now }
    ensures { IsShort (K.size kind.now) result (write_out (K.size kind.now) (tree_of formula.now) env.now) }
{
    match formula {
        Formula::Leaf(_) => short_of(kind, formula, env),
        _ => Short::Joined,
    }
}

/// The clauses of an equivalence of two literals.
fn pair_of(positive: bool, l: Lit, k: Lit) -> Rows
    ensures { (size : Extent) (x y : Written) → IsShort size (Short.Fact l) x →
        IsShort size (Short.Fact k) y → IsRows size result (rows_of positive (Iff x y)) }
{
    if positive {
        return pair(l, k.opposite(), l.opposite(), k);
    }
    pair(l, k, l.opposite(), k.opposite())
}

/// The side of an equivalence of a literal and another, and None where the other is none.
fn pair_with<K: OutcomeKind>(
    kind: &K,
    l: Lit,
    g: &Formula,
    env: &Env,
    positive: bool,
) -> Option<Side>
    requires { IsFormulaAt (K.size kind.now) (tree_of g.now) env.now }
    ensures { IfSome result (λ side. (x : Written) → IsShort (K.size kind.now) (Short.Fact l) x →
        IsSide (K.size kind.now) positive side
        (Iff x (write_out (K.size kind.now) (tree_of g.now) env.now))) }
{
    match atom_of(kind, g, env) {
        Short::Fact(k) => Some(Side::Open(pair_of(positive, l, k))),
        _ => None,
    }
}

/// The side of an equivalence of two literals, and None of others.
fn pair_side<K: OutcomeKind>(
    kind: &K,
    f: &Formula,
    g: &Formula,
    env: &Env,
    positive: bool,
) -> Option<Side>
    requires left { IsFormulaAt (K.size kind.now) (tree_of f.now) env.now }
    requires right { IsFormulaAt (K.size kind.now) (tree_of g.now) env.now }
    ensures { IfSome result (λ side. IsSide (K.size kind.now) positive side
        (Iff (write_out (K.size kind.now) (tree_of f.now) env.now)
        (write_out (K.size kind.now) (tree_of g.now) env.now))) }
{
    match atom_of(kind, f, env) {
        Short::Fact(l) => {
            let side = pair_with(kind, l, g, env, positive)?;
            Some(side)
        }
        _ => None,
    }
}

/// An equivalence: both signs of both sides serve, so that of the sides there are forms, but for two literals.
fn same_side<K: OutcomeKind>(
    alloc: Global,
    kind: &K,
    left: &Formula,
    right: &Formula,
    env: &Env,
    positive: bool,
) -> Result<Side, NoMemory>
    requires left { IsFormulaAt (K.size kind.now) (tree_of left.now) env.now }
    requires right { IsFormulaAt (K.size kind.now) (tree_of right.now) env.now }
    ensures { IfOk result (λ side. IsSide (K.size kind.now) positive side
        (write_out (K.size kind.now) (Same (tree_of left.now) (tree_of right.now)) env.now)) }
{
    if let Some(side) = pair_side(kind, left, right, env, positive) {
        return Ok(side);
    }
    let a = form_of(alloc, kind, left, env)?;
    let b = form_of(alloc, kind, right, env)?;
    let side = equivalence(alloc, positive, a, b)?;
    Ok(side)
}

/// A universal, from the last value of its sort to the first. Where a value makes it false, those before are
/// left out.
#[cycle(side)]
fn all_side<K: OutcomeKind>(
    alloc: Global,
    kind: &K,
    sort: Sort,
    inner: &Formula,
    env: &Env,
    positive: bool,
) -> Result<Side, NoMemory>
    requires { IsSound (K.size kind.now) (All sort (tree_of inner.now)) env.now }
    ensures { IfOk result (λ side. IsSide (K.size kind.now) positive side
        (write_out (K.size kind.now) (All sort (tree_of inner.now)) env.now)) }
{
    let last = last_value(kind, sort);
    let mut value = side_of(alloc, kind, inner, &env.with(last), positive)?;
    for v in (0..last).rev() {
        if is_known(&value, false) {
            return Ok(value);
        }
        let first = side_of(alloc, kind, inner, &env.with(v), positive)?;
        value = conjunction(alloc, positive, first, value)?;
    }
    Ok(value)
}

/// An existential, from the last value of its sort to the first. Where a value makes it true, those before
/// are left out.
#[cycle(side)]
fn exists_side<K: OutcomeKind>(
    alloc: Global,
    kind: &K,
    sort: Sort,
    inner: &Formula,
    env: &Env,
    positive: bool,
) -> Result<Side, NoMemory>
    requires { IsSound (K.size kind.now) (Exists sort (tree_of inner.now)) env.now }
    ensures { IfOk result (λ side. IsSide (K.size kind.now) positive side
        (write_out (K.size kind.now) (Exists sort (tree_of inner.now)) env.now)) }
{
    let last = last_value(kind, sort);
    let mut value = side_of(alloc, kind, inner, &env.with(last), positive)?;
    for v in (0..last).rev() {
        if is_known(&value, true) {
            return Ok(value);
        }
        let first = side_of(alloc, kind, inner, &env.with(v), positive)?;
        value = disjunction(alloc, positive, first, value)?;
    }
    Ok(value)
}
