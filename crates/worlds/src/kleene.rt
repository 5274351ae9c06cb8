//! What is known of a formula under known literals.

ghost use Rattle.std.specs.Prelude.{◌≡◌, ℕ, List, IsTrue, IsFalse};
ghost use Rattle.vocab.specs.Tree.{tree_of};
ghost use Rattle.meaning.specs.Kleene.{partial_truth};
ghost use Rattle.meaning.specs.Laws.{Hold};
ghost use Rattle.meaning.specs.Literals.{is_literal};
ghost use Rattle.meaning.specs.Truth.{holds, is_true_at};
ghost use Rattle.meaning.specs.Written.{write_out};
ghost use Rattle.worlds.specs.Conditions.{IsFormulaAt};

use crate::algebra::Algebra;
use crate::boards::Board;
use crate::evaluation::eval;
use crate::threes;
use meaning::Three;
use outcomes::OutcomeKind;
use std::convert::Infallible;
use vocab::{Env, Formula, Literal};

/// Three truth values: a literal is true where it is on the board, false where its opposite is, and else
/// unknown.
#[derive(Drop)]
struct PartialAlgebra<'a> {
    board: &'a Board,
}

impl Algebra for PartialAlgebra<'_> {
    type V = Three;

    type Stop = Infallible;

    ghost stands = { λ a v w. v ≡ partial_truth a.board.now.literals w };

    ghost may_stop = { λ _. ⊥ };

    ghost takes = { λ a l. IsTrue (is_literal a.board.now.size l) };

    fn known(&mut self, truth: bool) -> Result<Three, Infallible> {
        Ok(threes::three_of(truth))
    }

    fn literal(&mut self, literal: &Literal) -> Result<Three, Infallible> {
        if self.board.has(literal) {
            return Ok(Three::True);
        }
        if self.board.has(&literal.opposite()) {
            return Ok(Three::False);
        }
        Ok(Three::Unknown)
    }

    fn is_known(&self, value: &Three, truth: bool) -> bool {
        match *value {
            Three::True => truth,
            Three::False => !truth,
            Three::Unknown => false,
        }
    }

    fn not(&mut self, a: Three) -> Result<Three, Infallible> {
        Ok(threes::three_not(a))
    }

    fn and(&mut self, a: Three, b: Three) -> Result<Three, Infallible> {
        Ok(threes::three_and(a, b))
    }

    fn or(&mut self, a: Three, b: Three) -> Result<Three, Infallible> {
        Ok(threes::three_or(a, b))
    }

    fn same(&mut self, a: Three, b: Three) -> Result<Three, Infallible> {
        Ok(threes::three_same(a, b))
    }
}

/// What is known of the formula under the literals of the board, where its free variables have the values of
/// the environment. What is known to be so is so of each rule of which all these literals hold. No memory is
/// taken.
pub fn partial<K: OutcomeKind>(kind: &K, board: &Board, formula: &Formula, env: &Env) -> Three
    requires size { board.now.size ≡ K.size kind.now }
    requires fits { IsFormulaAt (K.size kind.now) (tree_of formula.now) env.now }
    ensures value { result ≡ partial_truth board.now.literals
        (write_out (K.size kind.now) (tree_of formula.now) env.now) }
    ensures refutes { result ≡ Three.False → (table : List ℕ) →
        Hold (holds (K.size kind.now) table) board.now.literals →
        IsFalse (is_true_at (K.size kind.now) table (tree_of formula.now) env.now) }
    ensures proves { result ≡ Three.True → (table : List ℕ) →
        Hold (holds (K.size kind.now) table) board.now.literals →
        IsTrue (is_true_at (K.size kind.now) table (tree_of formula.now) env.now) }
{
    let mut algebra = PartialAlgebra { board };
    match eval(kind.space(), formula, env, &mut algebra) {
        Ok(value) => value,
    }
}
