//! Clause lists whose answers are known.

use crate::lists_by_numbers::{is_clause, list, pigeons, square};
use cdcl::{Search, laws, solve};
use cnf::{Clauses, Lit, Step};
use lists::{Items, NoMemory};
use propagate::stay_within;
use std::alloc::Global;
use std::process::Abort;
use std::test::Fail;

/// The answer of the search, where it may be asked.
fn search(
    alloc: Global,
    clauses: &Clauses,
    variables: u32,
    limit: u32,
) -> Result<Search, NoMemory> {
    if variables > 1000 || limit > 1_000_000 || !stay_within(clauses, variables) {
        return Err(NoMemory);
    }
    solve(alloc, clauses, variables, limit)
}

/// The name of the answer.
fn answer(
    alloc: Global,
    clauses: &Clauses,
    variables: u32,
    limit: u32,
) -> Result<&'static str, Fail> {
    match search(alloc, clauses, variables, limit)? {
        Search::Found(_) => Ok("found"),
        Search::Refuted(_) => Ok("refuted"),
        Search::Spent(_) => Ok("spent"),
    }
}

/// The answer of the search for the clauses of some numbers.
fn searched(alloc: Global, numbers: &[i32], variables: u32, limit: u32) -> Result<Search, Fail> {
    let clauses = list(alloc, numbers)?;
    Ok(search(alloc, &clauses, variables, limit)?)
}

/// The name of the answer for the clauses of some numbers.
fn answer_of(
    alloc: Global,
    numbers: &[i32],
    variables: u32,
    limit: u32,
) -> Result<&'static str, Fail> {
    let clauses = list(alloc, numbers)?;
    answer(alloc, &clauses, variables, limit)
}

#[test]
fn small_lists_have_their_answers(rt: HostRuntime) -> Result<(), Fail> {
    laws::enough_is_conclusive();
    let alloc = rt.alloc();
    let found = answer_of(alloc, [].as_slice(), 0, 1)? == "found";
    let refuted = answer_of(alloc, square(), 2, 9)? == "refuted";
    let spent = answer_of(alloc, square(), 2, 1)? == "spent";
    let pigeons = answer_of(alloc, pigeons(), 12, 1000)? == "refuted";
    assert!(rt; found && refuted && spent && pigeons);
    Ok(())
}

/// Whether a step adds the clause of these literals under this id, by these hints.
fn adds(step: &Step, number: u64, literals: &[i32], by: &[u64]) -> bool {
    match step {
        Step::Add { id, clause, hints } => {
            *id == number && is_clause(clause.as_slice(), literals) && hints.as_slice() == by
        }
        Step::Drop { .. } => false,
    }
}

/// Whether an answer is one line, which adds the clause of these literals under the fifth id, by these
/// hints or by those.
fn learns(answer: &Search, literals: &[i32], by: &[u64], or: &[u64]) -> bool {
    match answer {
        Search::Spent(lines) => {
            let [line] = lines.as_slice() else {
                return false;
            };
            line.at == 1 && (adds(&line.step, 5, literals, by) || adds(&line.step, 5, literals, or))
        }
        Search::Found(_) | Search::Refuted(_) => false,
    }
}

/// Four clauses, how many variables they have, the clause that is learned of them first, and its hints, in
/// either order of propagation.
static LEARNED: [(&[i32], u32, &[i32], &[u64], &[u64]); 3] = [
    // With 1 false the third clause makes 2 false, and the first is then false: so the clause `1` is
    // learned from both.
    (
        &[1, 2, 0, -1, 2, 0, 1, -2, 0, -1, -2, 0],
        2,
        &[1],
        &[3, 1],
        &[3, 1],
    ),
    // With 1 false the first clause makes 2 true, and that makes 3 and 4 true, in either order: the last is
    // then false. All paths to it go by 2, the first unique implication point, so the clause `-2` is
    // learned and not `1`.
    (
        &[1, 2, 0, -2, 3, 0, -2, 4, 0, -3, -4, 0],
        4,
        &[-2],
        &[2, 3, 4],
        &[3, 2, 4],
    ),
    // The first clause makes 3 false at level 0, so that it stands in no clause that is learned, and that
    // clause is cited.
    (
        &[-3, 0, 1, 2, 3, 0, 1, -2, 3, 0, 4, 5, 0],
        5,
        &[1],
        &[1, 2, 3],
        &[1, 3, 2],
    ),
];

// The table is handed out as a slice, so that the proof of a test need not read it.
fn learned() -> &'static [(
    &'static [i32],
    u32,
    &'static [i32],
    &'static [u64],
    &'static [u64],
)] {
    &LEARNED
}

#[test]
fn a_spent_list_has_what_was_learned(rt: HostRuntime) -> Result<(), Fail> {
    for (numbers, variables, clause, by, or) in learned() {
        let answer = searched(rt.alloc(), numbers, *variables, 1)?;
        assert!(rt; learns(&answer, clause, by, or));
    }
    Ok(())
}

#[test]
fn an_assignment_is_found(rt: HostRuntime) -> Result<(), Fail> {
    let answer = searched(rt.alloc(), &[1, 2, 0, -1, 2, 0], 2, 9)?;
    let mut true_two = false;
    if let Search::Found(bits) = &answer {
        true_two = bits.len() == 2 && bits.get(2);
    }
    assert!(rt; true_two);
    Ok(())
}

#[test]
fn the_first_empty_clause_is_cited(rt: HostRuntime) -> Result<(), Fail> {
    let answer = searched(rt.alloc(), &[1, 0, 0, -1, 0, 0], 1, 1)?;
    assert!(rt; last_cited(&answer) == 2);
    Ok(())
}

/// The first hint of the last line of a refutation.
fn last_cited(answer: &Search) -> u64 {
    let mut cited = 0;
    if let Search::Refuted(lines) = answer {
        for line in lines.as_slice() {
            cited = cites(&line.step);
        }
    }
    cited
}

/// The first hint of a step that adds a clause.
fn cites(step: &Step) -> u64 {
    match step {
        Step::Add { hints, .. } => {
            if hints.is_empty() {
                return 0;
            }
            hints.as_slice()[0]
        }
        Step::Drop { .. } => 0,
    }
}

/// As many random clauses of three literals over twelve variables.
fn random(alloc: Global, count: u32, seed: u32) -> Result<Clauses, Fail> {
    let mut clauses = Clauses::new(alloc);
    let mut state = seed;
    for _ in 0..count {
        let mut clause = Items::new(alloc);
        for _ in 0..3u32 {
            state = state.wrapping_mul(1_664_525).wrapping_add(1_013_904_223);
            let number = state / 65536 % 24;
            clause.push(Lit::new(number / 2 + 1, number % 2 == 0))?;
        }
        clauses.push(clause.as_slice(), 0)?;
    }
    Ok(clauses)
}

/// Whether the bits of a number make a clause true.
fn is_true(clause: &[Lit], bits: u32) -> bool {
    for lit in clause {
        let place = lit.variable() - 1;
        if place < 12 && (bits >> place) % 2 == lit.positive() as u32 {
            return true;
        }
    }
    false
}

/// Whether the bits of a number make all clauses true.
fn is_model(clauses: &Clauses, bits: u32) -> bool {
    for k in 0..clauses.len() {
        if !is_true(clauses.get(k), bits) {
            return false;
        }
    }
    true
}

/// The answer that enumeration gives: whether some number below 4096 makes all clauses true.
fn enumerated(clauses: &Clauses) -> &'static str {
    for bits in 0..4096u32 {
        if is_model(clauses, bits) {
            return "found";
        }
    }
    "refuted"
}

/// The answer of a random list, by search and by enumeration.
fn agreed(rt: &impl Abort, alloc: Global, seed: u32) -> Result<&'static str, Fail> {
    let clauses = random(alloc, 56, seed)?;
    let want = enumerated(&clauses);
    let got = answer(alloc, &clauses, 12, 1000)?;
    assert!(rt; got == want);
    Ok(want)
}

#[test]
fn random_lists_agree_with_enumeration(rt: HostRuntime) -> Result<(), Fail> {
    let mut found = false;
    let mut refuted = false;
    for seed in 0..20u32 {
        let want = agreed(&rt, rt.alloc(), seed)?;
        found = found || want == "found";
        refuted = refuted || want == "refuted";
    }
    assert!(rt; found && refuted);
    Ok(())
}
