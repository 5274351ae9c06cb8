//! Whether a refutation supposes nothing without need.

ghost use Rattle.std.specs.Prelude.{◌++◌, All, IsTrue};
ghost use Rattle.std.specs.List.{Contains};
ghost use Rattle.line_hints.specs.Ids.{all_added, clause_of_id};
ghost use Rattle.simpler_proofs.specs.Made.{IsNamed, NamesEach};

use cnf::{Clauses, Derivation, Ids, Line, Lit, Lits, Step};
use line_hints::clause_of;

/// Whether a literal stands in a clause.
fn stands_in(clause: &[Lit], lit: Lit) -> bool
    ensures { IsTrue result → Contains clause.now lit }
{
    for other in clause {
        if *other == lit {
            return true;
        }
    }
    false
}

/// Whether a literal stands in the clause of an id.
fn names(clauses: &Clauses, lines: &[Line], id: u64, lit: Lit) -> bool
    ensures { IsTrue result →
        Contains (clause_of_id (clauses.now.clauses ++ all_added lines.now) id) lit }
{
    stands_in(clause_of(clauses, lines, id), lit)
}

/// Whether a literal stands in the clause of a hint.
fn is_named_by(clauses: &Clauses, lines: &[Line], hints: &Ids, lit: Lit) -> bool
    ensures { IsTrue result → IsNamed (clauses.now.clauses ++ all_added lines.now) hints.now lit }
{
    for k in 0..hints.len() {
        let id = *hints.get(k);
        if names(clauses, lines, id, lit) {
            return true;
        }
    }
    false
}

/// Whether each literal of a clause stands in the clause of a hint.
fn are_named(clauses: &Clauses, lines: &[Line], clause: &Lits, hints: &Ids) -> bool
    ensures { IsTrue result →
        All (IsNamed (clauses.now.clauses ++ all_added lines.now) hints.now) clause.now }
{
    for k in 0..clause.len() {
        if !is_named_by(clauses, lines, hints, *clause.get(k)) {
            return false;
        }
    }
    true
}

/// Whether each literal of the clause of a step stands in the clause of a hint.
fn needs_each(clauses: &Clauses, lines: &[Line], step: &Step) -> bool
    ensures { IsTrue result → NamesEach (clauses.now.clauses ++ all_added lines.now) step.now }
{
    match step {
        Step::Add { clause, hints, .. } => are_named(clauses, lines, clause, hints),
        Step::Drop { .. } => true,
    }
}

/// Whether each literal of each line's clause stands in the clause of a hint: so by its hints no line does
/// without one.
pub fn are_needed(clauses: &Clauses, lines: &Derivation) -> bool
    ensures { IsTrue result →
        All (λ line. NamesEach (clauses.now.clauses ++ all_added lines.now) line.step) lines.now }
{
    for k in 0..lines.len() {
        if !needs_each(clauses, lines.as_slice(), &lines.get(k).step) {
            return false;
        }
    }
    true
}
