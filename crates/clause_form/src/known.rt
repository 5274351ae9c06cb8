//! What is known of a formula whatever the rule.

ghost use Rattle.std.specs.Prelude.{◌≡◌, IsTrue};
ghost use Rattle.vocab.specs.Tree.{tree_of};
ghost use Rattle.meaning.specs.Clauses.{known_truth};
ghost use Rattle.meaning.specs.Kleene.{three_not};
ghost use Rattle.meaning.specs.declared.three.Three.{Three};
ghost use Rattle.meaning.specs.Written.{write_out};
ghost use Rattle.worlds.specs.Conditions.{IsFormulaAt};

use meaning::Three;
use outcomes::OutcomeKind;
use std::convert::Infallible;
use vocab::{Env, Formula, Literal};
use worlds::{Algebra, eval};

/// The negation of what is known.
fn denied(a: Three) -> Three
    ensures { result ≡ three_not a }
{
    match a {
        Three::True => Three::False,
        Three::False => Three::True,
        Three::Unknown => Three::Unknown,
    }
}

/// What is known under no literal, by the strong connectives of Kleene.
#[derive(Drop)]
struct KnownAlgebra;

impl Algebra for KnownAlgebra {
    type V = Three;

    type Stop = Infallible;

    ghost stands = { λ a v w. v ≡ known_truth w };

    ghost may_stop = { λ _. ⊥ };

    ghost takes = { λ a l. Unit {0} };

    fn known(&mut self, truth: bool) -> Result<Three, Infallible> {
        Ok(if truth { Three::True } else { Three::False })
    }

    fn literal(&mut self, _literal: &Literal) -> Result<Three, Infallible> {
        Ok(Three::Unknown)
    }

    fn is_known(&self, value: &Three, truth: bool) -> bool {
        match *value {
            Three::True => truth,
            Three::False => !truth,
            Three::Unknown => false,
        }
    }

    fn not(&mut self, a: Three) -> Result<Three, Infallible> {
        Ok(denied(a))
    }

    fn and(&mut self, a: Three, b: Three) -> Result<Three, Infallible> {
        Ok(match (a, b) {
            (Three::False, _) => Three::False,
            (Three::True, _) => b,
            (Three::Unknown, Three::False) => Three::False,
            (Three::Unknown, _) => Three::Unknown,
        })
    }

    fn or(&mut self, a: Three, b: Three) -> Result<Three, Infallible> {
        Ok(match (a, b) {
            (Three::True, _) => Three::True,
            (Three::False, _) => b,
            (Three::Unknown, Three::True) => Three::True,
            (Three::Unknown, _) => Three::Unknown,
        })
    }

    fn same(&mut self, a: Three, b: Three) -> Result<Three, Infallible> {
        Ok(match a {
            Three::Unknown => Three::Unknown,
            Three::True => b,
            Three::False => denied(b),
        })
    }
}

/// What is known of the formula whatever the rule, where its free variables have the values of the
/// environment. No memory is taken.
pub fn what_is_known<K: OutcomeKind>(kind: &K, body: &Formula, env: &Env) -> Three
    requires { IsFormulaAt (K.size kind.now) (tree_of body.now) env.now }
    ensures { result ≡ known_truth (write_out (K.size kind.now) (tree_of body.now) env.now) }
{
    match eval(kind.space(), body, env, &mut KnownAlgebra) {
        Ok(truth) => truth,
    }
}

/// Whether the formula is known to be true.
pub(crate) fn is_known_true<K: OutcomeKind>(kind: &K, body: &Formula, env: &Env) -> bool
    requires { IsFormulaAt (K.size kind.now) (tree_of body.now) env.now }
    ensures { IsTrue result →
        known_truth (write_out (K.size kind.now) (tree_of body.now) env.now) ≡ Three.True }
{
    match what_is_known(kind, body, env) {
        Three::True => true,
        _ => false,
    }
}
