//! Formulas that are a literal, or an equivalence of two.

ghost use Rattle.std.specs.Prelude.{◌≡◌, [], ◌∷◌, IfSome, IsTrue};
ghost use Rattle.vocab.specs.Tree.{tree_of};
ghost use Rattle.cnf.specs.Sat.{opposite_lit};
ghost use Rattle.meaning.specs.Clauses.{plus};
ghost use Rattle.meaning.specs.Literals.{is_literal};
ghost use Rattle.meaning.specs.Written.{write_out};
ghost use Rattle.worlds.specs.Conditions.{IsFormulaAt};
ghost use Rattle.clause_form.specs.Wide.{numbered};
ghost use Rattle.grounding.specs.Facts.{IsOneLiteral};

use cnf::Lit;
use outcomes::OutcomeKind;
use std::convert::Infallible;
use vocab::{Env, Formula, Literal};
use worlds::{Algebra, eval};

/// The literals that formulas are. There is none for what is known, nor for what is joined.
#[derive(Drop)]
struct LiteralAlgebra<'a, K> {
    kind: &'a K,
}

impl<K: OutcomeKind> Algebra for LiteralAlgebra<'_, K> {
    type V = Option<Lit>;

    type Stop = Infallible;

    ghost stands = { λ a v w. IfSome v (IsOneLiteral (K.size a.kind.now) w) };

    ghost may_stop = { λ _. ⊥ };

    ghost takes = { λ a l. IsTrue (is_literal (K.size a.kind.now) l) };

    fn known(&mut self, _truth: bool) -> Result<Option<Lit>, Infallible> {
        Ok(None)
    }

    fn literal(&mut self, literal: &Literal) -> Result<Option<Lit>, Infallible> {
        Ok(Some(self.kind.lit(literal)))
    }

    fn not(&mut self, _a: Option<Lit>) -> Result<Option<Lit>, Infallible> {
        Ok(None)
    }

    fn and(&mut self, _a: Option<Lit>, _b: Option<Lit>) -> Result<Option<Lit>, Infallible> {
        Ok(None)
    }

    fn or(&mut self, _a: Option<Lit>, _b: Option<Lit>) -> Result<Option<Lit>, Infallible> {
        Ok(None)
    }

    fn same(&mut self, _a: Option<Lit>, _b: Option<Lit>) -> Result<Option<Lit>, Infallible> {
        Ok(None)
    }
}

/// The literal that an atom is, if it is one.
fn literal_of<K: OutcomeKind>(kind: &K, formula: &Formula, env: &Env) -> Option<Lit>
    requires fits { IsFormulaAt (K.size kind.now) (tree_of formula.now) env.now }
    ensures { IfSome result (IsOneLiteral (K.size kind.now)
        (write_out (K.size kind.now) (tree_of formula.now) env.now)) }
{
    let mut algebra = LiteralAlgebra { kind };
    match eval(kind.space(), formula, env, &mut algebra) {
        Ok(lit) => lit,
    }
}

/// The literal that a formula is. Of what is no atom there is none.
fn atom_of<K: OutcomeKind>(kind: &K, formula: &Formula, env: &Env) -> Option<Lit>
    requires fits { IsFormulaAt (K.size kind.now) (tree_of formula.now) env.now }
    ensures { IfSome result (IsOneLiteral (K.size kind.now)
        (write_out (K.size kind.now) (tree_of formula.now) env.now)) }
{
    match formula {
        Formula::Leaf(_) => literal_of(kind, formula, env),
        _ => None,
    }
}

/// The two literals of which a formula says that they are equivalent, if it is so: it then has two clauses of two
/// literals.
pub(crate) fn pair_of<K: OutcomeKind>(kind: &K, formula: &Formula, env: &Env) -> Option<(Lit, Lit)>
    requires { IsFormulaAt (K.size kind.now) (tree_of formula.now) env.now }
    ensures { IfSome result (λ pair.
        numbered (K.size kind.now) (plus (write_out (K.size kind.now) (tree_of formula.now) env.now)) ≡
        (opposite_lit pair.0 ∷ pair.1 ∷ []) ∷ (pair.0 ∷ opposite_lit pair.1 ∷ []) ∷ []) }
{
    let Formula::Same(left, right) = formula else {
        return None;
    };
    let first = atom_of(kind, left, env)?;
    let second = atom_of(kind, right, env)?;
    Some((first, second))
}
