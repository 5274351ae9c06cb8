//! The measures of the instances of an axiom, in rounds of pieces.

ghost use Rattle.std.specs.Prelude.{ℕ, ◌≤◌, IfOk, IsFalse, IsTrue, length};
ghost use Rattle.vocab.specs.Limits.{instance_count};
ghost use Rattle.crew.specs.Right.{AreRight};
ghost use Rattle.grounding.specs.Pieces.{IsFirstWide, IsFirstWideOfPiece, end_of, measure_at, start_of};
ghost use Rattle.clause_form.specs.Wide.{is_wide};

use crate::parts::{Measured, WideInstance, measure_all};
use crate::pieces::{Groundable, MOST_CLAUSES, MOST_LITERALS, PIECE, Planned, ROUND, Round, SMALL};
use clause_form::most_counts;
use crew::{Crew, Job, Parts, map_pieces};
use edge::Gate;
use lanes::plan_of;
use lists::NoMemory;
use meaning::Counts;
use outcomes::OutcomeKind;
use std::alloc::Global;
use std::thread::Threads;
use worlds::instance_count;

/// The pieces of the instances from `from` up to `to`, and how a piece is measured.
#[derive(Drop)]
struct Measuring<'a, F> {
    measure: &'a F,
    from: u64,
    to: u64,
}

impl<F: Fn(u64, u64) -> Measured + Sync> Job for Measuring<'_, F> {
    type Part = Measured;

    ghost has = { λ job piece. (start_of job.from piece ≤ job.to) ×
        F.pre job.measure.now (start_of job.from piece) (end_of job.from job.to piece) };

    ghost is_right = { λ job piece part.
        F.post job.measure.now (start_of job.from piece) (end_of job.from job.to piece) part };

    fn part(&self, piece: u32) -> Result<Measured, NoMemory> {
        let start = self.from + PIECE * u64::from(piece);
        let end = start + PIECE.min(self.to - start);
        Ok((self.measure)(start, end))
    }
}

/// The first instance that is too wide, of the pieces of a round in order.
fn first_found<K: OutcomeKind>(round: &Round<K>, parts: &Parts<Measured>) -> Option<WideInstance>
    requires right { AreRight (IsFirstWideOfPiece (K.size round.now.planned.now.kind.now)
        round.now.planned.now.named.now.sentence round.now.from round.now.to) 0 parts.now }
    requires whole { round.now.to ≤ start_of round.now.from (length parts.now) }
    ensures { IsFirstWide (K.size round.now.planned.now.kind.now)
        round.now.planned.now.named.now.sentence round.now.from round.now.to result }
{
    let _ = round;
    for piece in 0..parts.len() {
        if let Some(wide) = parts.get(piece).wide {
            return Some(wide);
        }
    }
    None
}

/// Appends the sums of the measures of some pieces.
fn push_sums(parts: &Parts<Measured>, sums: &mut Vec<Counts>) -> Result<(), NoMemory> {
    for piece in 0..parts.len() {
        sums.push(parts.get(piece).sum)?;
    }
    Ok(())
}

/// The first instance of a round that is too wide. Appends the sum of the measures of each piece.
fn measure_round<R: Threads + Sync, K: OutcomeKind, G: Gate>(
    alloc: Global,
    crew: &Crew<R, G>,
    round: &Round<K>,
    sums: &mut Vec<Counts>,
) -> Result<Option<WideInstance>, NoMemory>
    ensures { IfOk result (IsFirstWide (K.size round.now.planned.now.kind.now)
        round.now.planned.now.named.now.sentence round.now.from round.now.to) }
{
    let (from, to) = (round.from, round.to);
    let measure = |start: u64, end: u64| -> Measured
        requires { end ≤ round.now.planned.now.count }
        ensures { IsFirstWide (K.size round.entry.now.planned.now.kind.now)
            round.entry.now.planned.now.named.now.sentence start end result.wide }
    { measure_all(round.planned, start, end) };
    let job = Measuring {
        measure: &measure,
        from,
        to,
    };
    let count = (to - from).div_ceil(PIECE) as u32;
    let parts = map_pieces(alloc, crew, &job, count)?;
    push_sums(&parts, sums)?;
    Ok(first_found(round, &parts))
}

/// Whether the clauses of each round of instances are within the limits of a round, by the shape of the
/// sentence alone. Then no instance is too wide.
fn has_small_rounds<K: OutcomeKind>(groundable: &Groundable<K>) -> bool
    ensures { IsTrue result → (k : ℕ) →
        IsFalse (is_wide (measure_at (K.size groundable.now.kind.now) groundable.now.named.now.sentence k)) }
{
    let most = most_counts(groundable.kind.space(), groundable.named.sentence().body());
    most.clauses <= MOST_CLAUSES / (PIECE * SMALL)
        && most.literals <= MOST_LITERALS / (PIECE * SMALL)
}

/// The first instance that is too wide, of round after round. Appends the sum of the measures of each
/// piece, up to the round that has it.
fn measure_rounds<R: Threads + Sync, K: OutcomeKind, G: Gate>(
    alloc: Global,
    crew: &Crew<R, G>,
    planned: &Planned<K>,
    sums: &mut Vec<Counts>,
) -> Result<Option<WideInstance>, NoMemory>
    ensures { IfOk result
        (IsFirstWide (K.size planned.now.kind.now) planned.now.named.now.sentence 0 planned.now.count) }
{
    let mut from = 0;
    while from < planned.count {
        let to = planned.count.min(from + PIECE * ROUND);
        let round = Round {
            planned: &*planned,
            from,
            to,
        };
        if let Some(wide) = measure_round(alloc, crew, &round, sums)? {
            return Ok(Some(wide));
        }
        from = to;
    }
    Ok(None)
}

/// The first instance of an axiom that is too wide. Where the shape of the sentence tells that there is
/// none and that all rounds are small, nothing is measured. Appends the sum of the measures of each piece,
/// up to the round that has it.
pub(crate) fn measure_axiom<R: Threads + Sync, K: OutcomeKind, G: Gate>(
    alloc: Global,
    crew: &Crew<R, G>,
    groundable: &Groundable<K>,
    sums: &mut Vec<Counts>,
) -> Result<Option<WideInstance>, NoMemory>
    ensures { IfOk result (IsFirstWide (K.size groundable.now.kind.now) groundable.now.named.now.sentence 0
        (instance_count (K.size groundable.now.kind.now) groundable.now.named.now.sentence)) }
{
    if has_small_rounds(groundable) {
        return Ok(None);
    }
    let plan = plan_of(alloc, groundable.kind, groundable.named)?;
    let planned = Planned {
        kind: groundable.kind,
        named: groundable.named,
        plan: &plan,
        count: instance_count(groundable.kind.space(), groundable.named.sentence()),
    };
    measure_rounds(alloc, crew, &planned, sums)
}
