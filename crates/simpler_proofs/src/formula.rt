//! Clauses beside how many variables they have, and lines over these.

ghost use Rattle.std.specs.Prelude.{◌<◌, ◌≤◌, ◌^◌, All};
ghost use Rattle.cnf.specs.Fresh.{AreOver};

use cnf::{Clauses, Derivation};

/// A formula in conjunctive normal form: clauses, and a number that no variable of theirs is above.
#[derive(Drop)]
pub(crate) struct Cnf<'a> {
    pub(crate) clauses: &'a Clauses,
    pub(crate) variables: u32,
    pub ghost few: { variables < 2 ^ 31 },
    pub ghost range: { All (λ clause. All (λ l. l.variable ≤ variables) clause) clauses.now.clauses },
}

/// A formula, and lines whose clauses have no other variables.
#[derive(Drop)]
pub(crate) struct Given<'f, 'a> {
    pub(crate) formula: &'f Cnf<'a>,
    pub(crate) lines: &'f Derivation,
    pub ghost over: { AreOver formula.now.variables lines.now },
}
