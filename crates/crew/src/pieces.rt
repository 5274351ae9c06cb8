//! Runs of consecutive pieces, cut among workers.

ghost use Rattle.std.specs.Prelude.{◌≡◌, ℕ, ◌+◌, ◌-◌, ◌*◌, ◌/◌, ◌<◌, ◌≤◌, ◌⊎◌, IfOk, IfNone, IfSome, length, vec_len};
ghost use Rattle.std.specs.Thread.{IsSync};
ghost use Rattle.crew.specs.Right.{AreRight};

use crate::crews::Crew;
use crate::jobs::{Job, Parts};
use edge::Gate;
use lists::NoMemory;
use std::alloc::Global;
use std::thread::{Threads, join};

/// Consecutive pieces, from `from` up to `to`, and the crew that works on them.
#[derive(Drop)]
struct Stretch<'a, R, G> {
    crew: Crew<'a, R, G>,
    from: u32,
    to: u32,
    ghost rising: { from ≤ to },
}

/// A stretch in two, of which the first has half of the workers, rounded down, and as large a share of the
/// pieces. None where there is one worker, or at most one piece.
fn cut<'a, R, G>(stretch: &Stretch<'a, R, G>) -> Option<(Stretch<'a, R, G>, Stretch<'a, R, G>)>
    ensures whole { IfNone result
        ((stretch.now.crew.workers ≤ 1) ⊎ (stretch.now.to - stretch.now.from ≤ 1)) }
    ensures begins { IfSome result (λ halves. halves.0.from ≡ stretch.now.from) }
    ensures share { IfSome result (λ halves. halves.0.to ≡ stretch.now.from
        + (stretch.now.to - stretch.now.from) * (stretch.now.crew.workers / 2) / stretch.now.crew.workers) }
    ensures meets { IfSome result (λ halves. halves.1.from ≡ halves.0.to) }
    ensures ends { IfSome result (λ halves. halves.1.to ≡ stretch.now.to) }
    ensures fewer { IfSome result (λ halves. halves.0.crew.workers ≡ stretch.now.crew.workers / 2) }
    ensures others { IfSome result (λ halves. halves.1.crew.workers
        ≡ stretch.now.crew.workers - stretch.now.crew.workers / 2) }
{
    let (from, to) = (stretch.from, stretch.to);
    let workers = stretch.crew.workers;
    let fewer = workers / 2;
    if fewer == 0 || to - from <= 1 {
        return None;
    }
    let share = u64::from(to - from) * u64::from(fewer) / u64::from(workers);
    let middle = from + share as u32;
    let (rt, gate) = (stretch.crew.rt, stretch.crew.gate);
    let first = Stretch {
        crew: Crew {
            rt,
            gate,
            workers: fewer,
        },
        from,
        to: middle,
    };
    let second = Stretch {
        crew: Crew {
            rt,
            gate,
            workers: workers - fewer,
        },
        from: middle,
        to,
    };
    Some((first, second))
}

/// The parts of a stretch: the workers are halved, and the pieces are cut as the workers are, until a stretch
/// has one of either. The parts of such a stretch are made one after another.
fn among<R: Threads + Sync, J: Job, G: Gate>(
    alloc: Global,
    job: &J,
    stretch: &Stretch<R, G>,
) -> Result<Vec<J::Part>, NoMemory>
    requires has { (piece : ℕ) → piece < stretch.now.to → J.has job.now piece }
    ensures len { IfOk result (λ parts. vec_len parts ≡ stretch.now.to - stretch.now.from) }
    ensures right { IfOk result (λ parts. AreRight (J.is_right job.now) stretch.now.from parts.items) }
{
    let Some((first, second)) = cut(stretch) else {
        let mut parts = Vec::new(alloc);
        for piece in stretch.from..stretch.to {
            stretch.crew.gate.enter(piece);
            parts.push(job.part(piece)?)?;
        }
        return Ok(parts);
    };
    let (left, right) = join(
        stretch.crew.rt,
        || -> Result<Vec<J::Part>, NoMemory>
            requires { IsSync R.row × ((piece : ℕ) → piece < first.to → J.has job.now piece) }
            ensures len { IfOk result (λ parts. vec_len parts ≡ first.entry.to - first.entry.from) }
            ensures right { IfOk result (λ parts.
                AreRight (J.is_right job.entry.now) first.entry.from parts.items) }
        { among(alloc, job, &first) },
        || -> Result<Vec<J::Part>, NoMemory>
            requires { IsSync R.row × ((piece : ℕ) → piece < second.to → J.has job.now piece) }
            ensures len { IfOk result (λ parts. vec_len parts ≡ second.entry.to - second.entry.from) }
            ensures right { IfOk result (λ parts.
                AreRight (J.is_right job.entry.now) second.entry.from parts.items) }
        { among(alloc, job, &second) },
    );
    let mut parts = left?;
    let mut rest = right?;
    parts.append(&mut rest)?;
    Ok(parts)
}

/// The parts of the pieces 0, 1, 2 .. in that order, each right, whatever the number of workers, from 1 to
/// 16. At most so many consecutive runs of pieces are worked on at a time, and the gate is told of each piece
/// before it begins.
pub fn map_pieces<R: Threads + Sync, J: Job, G: Gate>(
    alloc: Global,
    crew: &Crew<R, G>,
    job: &J,
    pieces: u32,
) -> Result<Parts<J::Part>, NoMemory>
    requires has { (piece : ℕ) → piece < pieces → J.has job.now piece }
    ensures len { IfOk result (λ parts. length parts ≡ pieces) }
    ensures right { IfOk result (λ parts. AreRight (J.is_right job.now) 0 parts) }
{
    let stretch = Stretch {
        crew: Crew {
            rt: crew.rt,
            gate: crew.gate,
            workers: crew.workers,
        },
        from: 0,
        to: pieces,
    };
    let parts = among(alloc, job, &stretch)?;
    Ok(Parts::from_vec(parts))
}
