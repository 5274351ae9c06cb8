//! Atoms, evaluated: a truth value where the rule does not matter, and else a literal.

ghost use Rattle.std.specs.Prelude.{◌≡◌, IsTrue, ◌==◌};
ghost use Rattle.vocab.specs.declared.literals.Literal.{Literal};
ghost use Rattle.vocab.specs.Tree.{AtomTree, Leaf, Equal, Prefers, Better, Casts, Majority, WinsAt, Ranks, atom_tree, term_tree};
ghost use Rattle.meaning.specs.Literals.{is_literal};
ghost use Rattle.meaning.specs.Space.{prefers, better, casts, majority};
ghost use Rattle.meaning.specs.Truth.{value};
ghost use Rattle.meaning.specs.Written.{write_atom};
ghost use Rattle.worlds.specs.Conditions.{IsAtomAt};
ghost use Rattle.worlds.specs.Evaluations.{CanEvaluate, Evaluates};

use crate::algebra::Algebra;
use crate::terms::value;
use profiles::Space;
use vocab::{Atom, Env, Literal, Term};

/// The value of an atom.
pub(crate) fn eval_atom<A: Algebra>(
    space: &Space,
    atom: &Atom,
    env: &Env,
    algebra: &mut A,
) -> Result<A::V, A::Stop>
    requires { CanEvaluate space.now (A.takes algebra.old) (Leaf (atom_tree atom.now)) env.now }
    ensures { Evaluates A.stands A.takes A.may_stop algebra.old algebra.new
        (write_atom space.now env.now (atom_tree atom.now)) result }
{
    match atom {
        Atom::Equal(s, t) => algebra.known(are_equal(space, s, t, env)),
        Atom::Prefers(i, x, y, p) => algebra.known(prefers(space, i, x, y, p, env)),
        Atom::Better(b, x, y) => algebra.known(is_better(space, b, x, y, env)),
        Atom::Casts(i, b, p) => algebra.known(casts(space, i, b, p, env)),
        Atom::Majority(x, y, p) => algebra.known(has_majority(space, x, y, p, env)),
        Atom::Wins(x, p) => algebra.literal(&wins(space, x, p, env)),
        Atom::Ranks(x, y, p) => eval_ranks(space, x, y, p, env, algebra),
    }
}

/// Whether two terms have one value.
fn are_equal(space: &Space, s: &Term, t: &Term, env: &Env) -> bool
    requires { IsAtomAt space.now (Equal (term_tree s.now) (term_tree t.now)) env.now }
    ensures { result ≡ (value space.now env.now (term_tree s.now) == value space.now env.now
        (term_tree t.now)) }
{
    value(space, s, env) == value(space, t, env)
}

/// Whether a voter's ballot has one alternative above another.
fn prefers(space: &Space, i: &Term, x: &Term, y: &Term, p: &Term, env: &Env) -> bool
    requires { IsAtomAt space.now (Prefers (term_tree i.now) (term_tree x.now) (term_tree y.now)
        (term_tree p.now)) env.now }
    ensures { result ≡ prefers space.now (value space.now env.now (term_tree i.now))
        (value space.now env.now (term_tree x.now))
        (value space.now env.now (term_tree y.now)) (value space.now env.now (term_tree p.now)) }
{
    let voter = value(space, i, env);
    let above = value(space, x, env);
    let below = value(space, y, env);
    space.prefers(voter, above, below, value(space, p, env))
}

/// Whether a ballot has one alternative above another.
fn is_better(space: &Space, b: &Term, x: &Term, y: &Term, env: &Env) -> bool
    requires { IsAtomAt space.now (Better (term_tree b.now) (term_tree x.now) (term_tree y.now)) env.now }
    ensures { result ≡ better space.now (value space.now env.now (term_tree b.now))
        (value space.now env.now (term_tree x.now))
        (value space.now env.now (term_tree y.now)) }
{
    let ballot = value(space, b, env);
    let above = value(space, x, env);
    space.better(ballot, above, value(space, y, env))
}

/// Whether a voter's ballot is this one.
fn casts(space: &Space, i: &Term, b: &Term, p: &Term, env: &Env) -> bool
    requires { IsAtomAt space.now (Casts (term_tree i.now) (term_tree b.now) (term_tree p.now)) env.now }
    ensures { result ≡ casts space.now (value space.now env.now (term_tree i.now))
        (value space.now env.now (term_tree b.now))
        (value space.now env.now (term_tree p.now)) }
{
    let voter = value(space, i, env);
    let ballot = value(space, b, env);
    space.casts(voter, ballot, value(space, p, env))
}

/// Whether more voters have one alternative above another than the other way round.
fn has_majority(space: &Space, x: &Term, y: &Term, p: &Term, env: &Env) -> bool
    requires { IsAtomAt space.now (Majority (term_tree x.now) (term_tree y.now) (term_tree p.now)) env.now }
    ensures { result ≡ majority space.now (value space.now env.now (term_tree x.now))
        (value space.now env.now (term_tree y.now))
        (value space.now env.now (term_tree p.now)) }
{
    let above = value(space, x, env);
    let below = value(space, y, env);
    space.majority(above, below, value(space, p, env))
}

/// The literal that an alternative wins at a profile.
fn wins(space: &Space, x: &Term, p: &Term, env: &Env) -> Literal
    requires fits { IsAtomAt space.now (WinsAt (term_tree x.now) (term_tree p.now)) env.now }
    ensures value { result ≡ Literal.Wins (value space.now env.now (term_tree x.now))
        (value space.now env.now (term_tree p.now)) }
    ensures literal { IsTrue (is_literal space.now result) }
{
    let alternative = value(space, x, env);
    let profile = value(space, p, env);
    let size = space.size();
    let _few = size.alternatives();
    Literal::Wins(alternative as u8, profile)
}

/// That an alternative ranks above another: false of one and the same, and else a literal.
fn eval_ranks<A: Algebra>(
    space: &Space,
    x: &Term,
    y: &Term,
    p: &Term,
    env: &Env,
    algebra: &mut A,
) -> Result<A::V, A::Stop>
    requires { CanEvaluate space.now (A.takes algebra.old)
        (Leaf (Ranks (term_tree x.now) (term_tree y.now) (term_tree p.now))) env.now }
    ensures { Evaluates A.stands A.takes A.may_stop algebra.old algebra.new
        (write_atom space.now env.now (Ranks (term_tree x.now) (term_tree y.now) (term_tree p.now))) result }
{
    let above = value(space, x, env);
    let below = value(space, y, env);
    if above == below {
        return algebra.known(false);
    }
    let profile = value(space, p, env);
    let size = space.size();
    let _few = size.alternatives();
    algebra.literal(&Literal::Above(above as u8, below as u8, profile))
}
