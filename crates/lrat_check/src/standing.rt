//! What stands before a line.

ghost use Rattle.std.specs.Prelude.{length, IsTrue};
ghost use Rattle.std.specs.List.{list_all};
ghost use Rattle.cnf.specs.Fresh.{is_over};
ghost use Rattle.lrat_check.specs.Places.{ArePlaces};
ghost use Rattle.lrat_check.specs.Ranges.{adds_over};

use crate::places::Places;
use cnf::{Clauses, Derivation};

/// The clauses that stand before a line of a derivation, by their places among the clauses of the input and
/// those that its lines add. The variables of all of them are from 1 to their number.
#[derive(Drop)]
pub struct Standing<'p, 'c> {
    pub places: &'p Places,
    pub clauses: &'c Clauses,
    pub lines: &'c Derivation,
    pub variables: usize,
    pub ghost are: { ArePlaces places.now (length clauses.now.clauses) (length lines.now) },
    pub ghost clauses_over: { IsTrue (list_all (is_over variables) clauses.now.clauses) },
    pub ghost lines_over: { IsTrue (list_all (adds_over variables) lines.now) },
}
