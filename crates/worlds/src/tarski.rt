//! Tarski's truth of formulas, of a rule.

ghost use Rattle.std.specs.Prelude.{◌≡◌, IsTrue};
ghost use Rattle.vocab.specs.Tree.{tree_of};
ghost use Rattle.meaning.specs.Literals.{is_literal};
ghost use Rattle.meaning.specs.Truth.{is_rule, holds, is_true_at};
ghost use Rattle.meaning.specs.Written.{evaluate};
ghost use Rattle.worlds.specs.Conditions.{IsFormulaAt, IsEvaluable};

use crate::algebra::Algebra;
use crate::evaluation::eval_formula;
use crate::literals::profile_of;
use outcomes::OutcomeKind;
use std::convert::Infallible;
use vocab::{Env, Formula, Literal, Table};

/// A rule of a kind, as the algebra of truth values: a literal has that of the outcome at its profile.
#[derive(Drop)]
pub(crate) struct KindRule<'a, K: OutcomeKind> {
    pub kind: &'a K,
    pub table: &'a Table,
    pub ghost rule: { IsTrue (is_rule (K.size kind.now) table.now) },
}

impl<K: OutcomeKind> Algebra for KindRule<'_, K> {
    type V = bool;

    type Stop = Infallible;

    ghost stands = { λ a v w. v ≡ evaluate (holds (K.size a.kind.now) a.table.now) w };

    ghost may_stop = { λ _. ⊥ };

    ghost takes = { λ a l. IsTrue (is_literal (K.size a.kind.now) l) };

    fn known(&mut self, truth: bool) -> Result<bool, Infallible> {
        Ok(truth)
    }

    fn literal(&mut self, literal: &Literal) -> Result<bool, Infallible> {
        let outcome = *self.table.get(profile_of(literal) as usize);
        Ok(self.kind.holds(u32::from(outcome), literal))
    }

    fn is_known(&self, value: &bool, truth: bool) -> bool {
        *value == truth
    }

    fn not(&mut self, a: bool) -> Result<bool, Infallible> {
        Ok(!a)
    }

    fn and(&mut self, a: bool, b: bool) -> Result<bool, Infallible> {
        Ok(a && b)
    }

    fn or(&mut self, a: bool, b: bool) -> Result<bool, Infallible> {
        Ok(a || b)
    }

    fn same(&mut self, a: bool, b: bool) -> Result<bool, Infallible> {
        Ok(a == b)
    }
}

/// Whether the formula is true of the rule, where its free variables have the values of the environment. No
/// memory is taken.
pub fn truth<K: OutcomeKind>(kind: &K, table: &Table, formula: &Formula, env: &Env) -> bool
    requires rule { IsTrue (is_rule (K.size kind.now) table.now) }
    requires fits { IsFormulaAt (K.size kind.now) (tree_of formula.now) env.now }
    ensures { result ≡ is_true_at (K.size kind.now) table.now (tree_of formula.now) env.now }
{
    is_true(&KindRule { kind, table }, formula, env)
}

/// What `truth` says, part by part.
pub(crate) fn is_true<K: OutcomeKind>(rule: &KindRule<K>, formula: &Formula, env: &Env) -> bool
    requires fits { IsEvaluable (K.size rule.now.kind.now) (tree_of formula.now) env.now }
    ensures { result ≡ is_true_at (K.size rule.now.kind.now) rule.now.table.now (tree_of formula.now)
        env.now }
{
    let mut algebra = KindRule {
        kind: rule.kind,
        table: rule.table,
    };
    match eval_formula(rule.kind.space(), formula, env, &mut algebra) {
        Ok(value) => value,
    }
}
