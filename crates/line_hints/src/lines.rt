//! Lines of a derivation: what one adds, its hints, and the clauses under ids.

ghost use Rattle.std.specs.Prelude.{◌≡◌, ◌++◌};
ghost use Rattle.cnf.specs.Fresh.{added_by};
ghost use Rattle.line_hints.specs.Ids.{all_added, clause_of_id};

use cnf::{Clauses, Line, Lit, Step};

/// The clause that a line adds.
pub fn clause_of_line(line: &Line) -> &[Lit]
    ensures { result.now ≡ added_by line.now.step }
{
    match &line.step {
        Step::Add { clause, .. } => clause.as_slice(),
        Step::Drop { .. } => &[],
    }
}

/// The hints of a line.
pub fn hints_of_line(line: &Line) -> &[u64] {
    match &line.step {
        Step::Add { hints, .. } => hints.as_slice(),
        Step::Drop { .. } => &[],
    }
}

/// The clause under an id: one of the clauses, or the one that an earlier line adds; else the empty one.
#[tactic(auto, using(crate::proofs::UnderIds::of_list, crate::proofs::UnderIds::of_line, crate::proofs::UnderIds::of_none))]
pub fn clause_of<'a>(clauses: &'a Clauses, earlier: &'a [Line], id: u64) -> &'a [Lit]
    ensures { result.now ≡ clause_of_id (clauses.now.clauses ++ all_added earlier.now) id }
{
    if id == 0 {
        return &[];
    }
    let count = u64::from(clauses.len());
    if id <= count {
        return clauses.get((id - 1) as u32);
    }
    let place = id - 1 - count;
    if place < earlier.len() as u64 {
        return clause_of_line(&earlier[place as usize]);
    }
    &[]
}
