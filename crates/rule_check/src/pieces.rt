//! A round of instances, in pieces that are shared among workers.

ghost use Rattle.std.specs.Prelude.{◌≤◌, ◌+◌, IfOk, length};
ghost use Rattle.crew.specs.Right.{AreRight};
ghost use Rattle.rule_check.specs.Pieces.{IsLeastFalse, IsLeastOfPiece, start_of_piece, end_of_piece};

use crate::blocks::least_false;
use crate::trials::Stretch;
use crew::{Crew, Job, Parts, map_pieces};
use edge::Gate;
use lists::NoMemory;
use outcomes::OutcomeKind;
use std::alloc::Global;
use std::thread::Threads;

/// How many instances a piece has.
const PIECE: u64 = 4_096;

/// How many instances a round has at most, which are 256 pieces.
pub(crate) const ROUND: u64 = 1_048_576;

/// The pieces of the instances from `from` up to `to`, and how the least failing instance of a piece is
/// found.
#[derive(Drop)]
struct Pieces<'a, F> {
    find: &'a F,
    from: u64,
    to: u64,
}

impl<F: Fn(u64, u64) -> Option<u64> + Sync> Job for Pieces<'_, F> {
    type Part = Option<u64>;

    ghost has = { λ job piece. (start_of_piece job.from piece ≤ job.to) ×
        F.pre job.find.now (start_of_piece job.from piece) (end_of_piece job.from job.to piece) };

    ghost is_right = { λ job piece found. F.post job.find.now (start_of_piece job.from piece)
        (end_of_piece job.from job.to piece) found };

    fn part(&self, piece: u32) -> Result<Option<u64>, NoMemory> {
        let start = self.from + PIECE * u64::from(piece);
        let end = start + PIECE.min(self.to - start);
        Ok((self.find)(start, end))
    }
}

/// The first instance that was found, of the pieces of a round in order.
fn first_found<K: OutcomeKind>(round: &Stretch<K>, parts: &Parts<Option<u64>>) -> Option<u64>
    requires right { AreRight (IsLeastOfPiece (K.size round.now.trial.now.kind.now)
        round.now.trial.now.table.now round.now.trial.now.named.now round.now.from round.now.to)
        0 parts.now }
    requires whole { round.now.to ≤ start_of_piece round.now.from (length parts.now) }
    ensures { IsLeastFalse (K.size round.now.trial.now.kind.now) round.now.trial.now.table.now
        round.now.trial.now.named.now round.now.from round.now.to result }
{
    let _ = round;
    for piece in 0..parts.len() {
        if let Some(instance) = parts.get(piece) {
            return Some(*instance);
        }
    }
    None
}

/// The least instance of a round that is false of the rule.
pub(crate) fn round_failure<R: Threads + Sync, K: OutcomeKind, G: Gate>(
    alloc: Global,
    crew: &Crew<R, G>,
    round: &Stretch<K>,
) -> Result<Option<u64>, NoMemory>
    ensures { IfOk result (λ found. IsLeastFalse (K.size round.now.trial.now.kind.now)
        round.now.trial.now.table.now round.now.trial.now.named.now round.now.from round.now.to found) }
{
    let (from, to) = (round.from, round.to);
    let find = |start: u64, end: u64| -> Option<u64>
        requires { (start ≤ end) × (end ≤ round.now.to) }
        ensures { IsLeastFalse (K.size round.entry.now.trial.now.kind.now)
            round.entry.now.trial.now.table.now round.entry.now.trial.now.named.now start end result }
    {
        let (trial, plan) = (round.trial, round.plan);
        least_false(&Stretch {
            trial,
            plan,
            from: start,
            to: end,
        })
    };
    let pieces = Pieces {
        find: &find,
        from,
        to,
    };
    let count = (to - from).div_ceil(PIECE) as u32;
    let parts = map_pieces(alloc, crew, &pieces, count)?;
    Ok(first_found(round, &parts))
}
