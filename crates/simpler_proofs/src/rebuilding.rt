//! Refutations by failed literals made again over the clauses that some of them cite.

ghost use Rattle.std.specs.Prelude.{◌≡◌, ◌<◌, ◌+◌, Bool, length, OnOk, IfOk, IfSome, IsTrue};
ghost use Rattle.cnf.specs.Sat.{Clause};
ghost use Rattle.cnf.specs.Fresh.{AreOver, is_over};
ghost use Rattle.simpler_proofs.specs.Made.{EachPasses, IsProof, is_single};

use crate::made::{FewLines, MOST_LINES, Numbered, finish};
use cnf::{Clauses, Derivation, Ids, Line, Lit, Lits, Step};
use line_hints::{clause_of_line, thin_hints};
use lists::{Items, NoMemory};
use std::alloc::Global;

/// What a line supposes: the opposite of the first literal of its clause.
pub fn supposed_of(line: &Line) -> Option<Lit> {
    let clause = clause_of_line(line);
    if clause.is_empty() {
        return None;
    }
    Some(clause[0].opposite())
}

/// Adds a line.
pub fn add_line(
    clauses: &Clauses,
    clause: Lits,
    hints: Ids,
    made: &mut Numbered,
) -> Result<(), NoMemory>
    requires room { length made.old.lines < 1000000 }
    ensures more { OnOk result (length made.new.lines ≡ length made.old.lines + 1) }
    ensures passes { (test : Clause → Bool) → IsTrue (test clause) →
        EachPasses test made.old.lines → EachPasses test made.new.lines }
{
    let at = made.lines.len() as u32 + 1;
    let id = clauses.len() as u64 + at as u64;
    made.lines.push(Line {
        at,
        step: Step::Add { id, clause, hints },
    })?;
    Ok(())
}

/// The clause of the opposite of what is supposed, where its variable is in range; else the empty one.
fn single_clause(alloc: Global, variables: u32, supposed: Option<Lit>) -> Result<Lits, NoMemory>
    ensures over { IfOk result (λ clause. IsTrue (is_over variables clause)) }
    ensures single { IfOk result (λ clause. IsTrue (is_single clause)) }
{
    let Some(lit) = supposed else {
        return Ok(Items::new(alloc));
    };
    if lit.variable() > variables {
        return Ok(Items::new(alloc));
    }
    let mut clause = Items::new(alloc);
    clause.push(lit.opposite())?;
    Ok(clause)
}

/// Lines that are made, each clause of which has at most one literal, with one of so many variables.
#[derive(Drop)]
struct Singles {
    variables: u32,
    made: Numbered,
    ghost over: { AreOver variables made.lines },
    ghost single: { EachPasses is_single made.lines },
}

/// Adds a line whose clause is the opposite of what is supposed.
fn add_single(
    alloc: Global,
    clauses: &Clauses,
    supposed: Option<Lit>,
    hints: Ids,
    singles: &mut Singles,
) -> Result<(), NoMemory>
    requires room { length singles.old.made.lines < 1000000 }
    ensures more { OnOk result (length singles.new.made.lines ≡ length singles.old.made.lines + 1) }
    ensures variables { singles.new.variables ≡ singles.old.variables }
{
    let clause = single_clause(alloc, singles.variables, supposed)?;
    add_line(clauses, clause, hints, &mut singles.made)?;
    Ok(())
}

/// The lines over a part of the clauses, each by a shorter way to its conflict, as lines over all clauses.
fn thin_lines(
    alloc: Global,
    clauses: &Clauses,
    part: &Clauses,
    variables: u32,
    given: &FewLines,
    budget: &mut u32,
) -> Result<Singles, NoMemory>
    ensures variables { IfOk result (λ singles. singles.variables ≡ variables) }
{
    let lines = given.lines;
    let mut singles = Singles {
        variables,
        made: Numbered {
            lines: Items::new(alloc),
        },
    };
    for k in 0..lines.len() {
        let line = &lines[k];
        let hints = thin_hints(alloc, clauses, part, variables, &lines[..k], line, budget)?;
        add_single(alloc, clauses, supposed_of(line), hints, &mut singles)?;
    }
    Ok(singles)
}

/// A refutation of all clauses from one of a part of them, of which each clause has at most one literal: each
/// line comes to its conflict by the part's clauses and the earlier lines, and forces no literal without
/// need. The origin of a clause of the part is its number among all. `budget` is how many clauses may be
/// looked at; where it is spent, the lines stay as they are.
pub fn thinned(
    alloc: Global,
    clauses: &Clauses,
    part: &Clauses,
    variables: u32,
    lines: &Derivation,
    mut budget: u32,
) -> Result<Option<Derivation>, NoMemory>
    ensures proof { IfOk result (λ made. IfSome made (IsProof clauses.now.clauses)) }
    ensures over { IfOk result (λ made. IfSome made (AreOver variables)) }
    ensures single { IfOk result (λ made. IfSome made (EachPasses is_single)) }
{
    if lines.len() > MOST_LINES {
        return Ok(None);
    }
    let given = FewLines {
        lines: lines.as_slice(),
    };
    let singles = thin_lines(alloc, clauses, part, variables, &given, &mut budget)?;
    let proof = finish(alloc, clauses, &singles.made)?;
    Ok(proof)
}
