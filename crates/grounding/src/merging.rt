//! The clauses of an axiom, made in rounds of pieces, of equal ones the first kept.

ghost use Rattle.std.specs.Prelude.{◌≡◌, ◌<◌, ◌≤◌, ◌+◌, [], ◌++◌, Err, Ok, Some, IfOk, OnOk, IsTrue, fold, length};
ghost use Rattle.std.specs.Thread.{IsSync};
ghost use Rattle.vocab.specs.Limits.{instance_count};
ghost use Rattle.crew.specs.Right.{AreRight};
ghost use Rattle.meaning.specs.StudyClauses.{from_axiom};
ghost use Rattle.clause_form.specs.Refusals.{is_over_limits};
ghost use Rattle.clause_form.specs.Sources.{clauses_in, sourced};
ghost use Rattle.grounding.specs.Distinct.{kept_with};
ghost use Rattle.grounding.specs.Kept.{Keeps, Overfills};
ghost use Rattle.grounding.specs.Pieces.{AreNarrow, IsKeptPart, IsPartOf, part_end, sources_of, part_start};

use crate::distinct::{Seen, keep};
use crate::part::Part;
use crate::parts::clauses_of_all;
use crate::pieces::{
    Groundable, LARGE, MOST_CLAUSES, MOST_LITERALS, Numbered, PART, PIECE, ROUND, Stretch,
};
use clause_form::{most_counts, sum};
use cnf::{Clauses, PushFault};
use crew::{Crew, Job, Parts, map_pieces};
use edge::Gate;
use lanes::plan_of;
use lists::NoMemory;
use meaning::Counts;
use outcomes::OutcomeKind;
use std::alloc::Global;
use std::thread::{Threads, join_mut};
use worlds::instance_count;

/// The pieces of the instances from `from` up to `to`, and how the clauses of a piece are made.
#[derive(Drop)]
struct Making<'a, F> {
    make: &'a F,
    from: u64,
    to: u64,
}

impl<F: Fn(u64, u64) -> Result<Part, NoMemory> + Sync> Job for Making<'_, F> {
    type Part = Part;

    ghost has = { λ job piece. (part_start job.from piece ≤ job.to) ×
        F.pre job.make.now (part_start job.from piece) (part_end job.from job.to piece) };

    ghost is_right = { λ job piece part.
        F.post job.make.now (part_start job.from piece) (part_end job.from job.to piece) (Ok part) };

    fn part(&self, piece: u32) -> Result<Part, NoMemory> {
        let start = self.from + PART * u64::from(piece);
        let end = start + PART.min(self.to - start);
        (self.make)(start, end)
    }
}

/// Appends the clauses of a part, each unless an equal one was kept.
fn keep_all(alloc: Global, seen: &mut Seen, part: &Part, out: &mut Clauses) -> Result<(), PushFault>
    ensures kept { OnOk result (Keeps seen.old out.old seen.new out.new part.now) }
    ensures full { result ≡ Err PushFault.Full → Overfills seen.old out.old part.now }
{
    for k in 0..part.len() {
        match keep(alloc, seen, part.clause(k), part.origin(k), out) {
            Ok(()) => {}
            Err(fault) => return Err(fault),
        }
    }
    Ok(())
}

/// Appends the clauses of the parts of a stretch, one part after another.
fn keep_parts<K: OutcomeKind>(
    alloc: Global,
    stretch: &Stretch<K>,
    parts: &Parts<Part>,
    seen: &mut Seen,
    out: &mut Clauses,
) -> Result<(), PushFault>
    requires right { AreRight (IsPartOf (K.size stretch.now.numbered.now.kind.now)
        stretch.now.numbered.now.named.now.sentence stretch.now.numbered.now.base
        stretch.now.from stretch.now.to) 0 parts.now }
    requires whole { stretch.now.to ≤ part_start stretch.now.from (length parts.now) }
    ensures kept { OnOk result (Keeps seen.old out.old seen.new out.new
        (sources_of (K.size stretch.now.numbered.now.kind.now) stretch.now.numbered.now.named.now.sentence
        stretch.now.numbered.now.base stretch.now.from stretch.now.to)) }
    ensures full { result ≡ Err PushFault.Full → Overfills seen.old out.old
        (sources_of (K.size stretch.now.numbered.now.kind.now) stretch.now.numbered.now.named.now.sentence
        stretch.now.numbered.now.base stretch.now.from stretch.now.to) }
{
    let _ = stretch;
    for piece in 0..parts.len() {
        match keep_all(alloc, seen, parts.get(piece), out) {
            Ok(()) => {}
            Err(fault) => return Err(fault),
        }
    }
    Ok(())
}

/// The parts of a stretch.
fn make_parts<R: Threads + Sync, K: OutcomeKind, G: Gate>(
    alloc: Global,
    crew: &Crew<R, G>,
    stretch: &Stretch<K>,
) -> Result<Parts<Part>, NoMemory>
    ensures right { IfOk result (λ parts. AreRight (IsPartOf (K.size stretch.now.numbered.now.kind.now)
        stretch.now.numbered.now.named.now.sentence stretch.now.numbered.now.base
        stretch.now.from stretch.now.to) 0 parts) }
    ensures whole { IfOk result (λ parts. stretch.now.to ≤ part_start stretch.now.from (length parts)) }
{
    let (numbered, from, to) = (stretch.numbered, stretch.from, stretch.to);
    let make = |start: u64, end: u64| -> Result<Part, NoMemory>
        requires { (start ≤ end) × (end ≤ numbered.now.count) × (end ≤ start + 524288) }
        ensures { IfOk result (IsKeptPart (K.size numbered.entry.now.kind.now)
            numbered.entry.now.named.now.sentence numbered.entry.now.base start end) }
    {
        let part = Stretch {
            numbered,
            from: start,
            to: end,
        };
        clauses_of_all(alloc, &part)
    };
    let job = Making {
        make: &make,
        from,
        to,
    };
    let count = (to - from).div_ceil(PART) as u32;
    let parts = map_pieces(alloc, crew, &job, count)?;
    Ok(parts)
}

/// Appends the clauses of the parts of a stretch, each unless an equal one of the axiom was kept, and makes
/// the parts of the next one: beside it where there are several workers, so that none waits for the one who
/// joins the parts.
fn keep_beside<R: Threads + Sync, K: OutcomeKind, G: Gate>(
    alloc: Global,
    crew: &Crew<R, G>,
    stretch: &Stretch<K>,
    parts: &Parts<Part>,
    next: &Stretch<K>,
    seen: &mut Seen,
    out: &mut Clauses,
) -> (Result<Parts<Part>, NoMemory>, Result<(), PushFault>)
    requires right { AreRight (IsPartOf (K.size stretch.now.numbered.now.kind.now)
        stretch.now.numbered.now.named.now.sentence stretch.now.numbered.now.base
        stretch.now.from stretch.now.to) 0 parts.now }
    requires whole { stretch.now.to ≤ part_start stretch.now.from (length parts.now) }
    ensures right { IfOk result.0 (λ made. AreRight (IsPartOf (K.size next.now.numbered.now.kind.now)
        next.now.numbered.now.named.now.sentence next.now.numbered.now.base
        next.now.from next.now.to) 0 made) }
    ensures whole { IfOk result.0 (λ made. next.now.to ≤ part_start next.now.from (length made)) }
    ensures kept { OnOk result.1 (Keeps seen.old out.old seen.new out.new
        (sources_of (K.size stretch.now.numbered.now.kind.now) stretch.now.numbered.now.named.now.sentence
        stretch.now.numbered.now.base stretch.now.from stretch.now.to)) }
    ensures full { result.1 ≡ Err PushFault.Full → Overfills seen.old out.old
        (sources_of (K.size stretch.now.numbered.now.kind.now) stretch.now.numbered.now.named.now.sentence
        stretch.now.numbered.now.base stretch.now.from stretch.now.to) }
{
    if crew.workers == 1 {
        let kept = keep_parts(alloc, stretch, parts, seen, out);
        return (make_parts(alloc, crew, next), kept);
    }
    let mut make = || -> Result<Parts<Part>, NoMemory>
        requires { IsSync R.row }
        ensures right { IfOk result (λ made. AreRight (IsPartOf (K.size next.entry.now.numbered.now.kind.now)
            next.entry.now.numbered.now.named.now.sentence next.entry.now.numbered.now.base
            next.entry.now.from next.entry.now.to) 0 made) }
        ensures whole { IfOk result
            (λ made. next.entry.now.to ≤ part_start next.entry.now.from (length made)) }
    { make_parts(alloc, crew, next) };
    let mut keep = || -> Result<(), PushFault>
        requires { AreRight (IsPartOf (K.size stretch.now.numbered.now.kind.now)
            stretch.now.numbered.now.named.now.sentence stretch.now.numbered.now.base stretch.now.from
            stretch.now.to) 0 parts.now × (stretch.now.to ≤ part_start stretch.now.from (length parts.now)) }
        ensures kept { OnOk result (Keeps seen.entry.now out.entry.now seen.exit.now out.exit.now
            (sources_of (K.size stretch.entry.now.numbered.now.kind.now)
            stretch.entry.now.numbered.now.named.now.sentence stretch.entry.now.numbered.now.base
            stretch.entry.now.from stretch.entry.now.to)) }
        ensures full { result ≡ Err PushFault.Full → Overfills seen.entry.now out.entry.now
            (sources_of (K.size stretch.entry.now.numbered.now.kind.now)
            stretch.entry.now.numbered.now.named.now.sentence stretch.entry.now.numbered.now.base
            stretch.entry.now.from stretch.entry.now.to) }
    { keep_parts(alloc, stretch, parts, seen, out) };
    join_mut(crew.rt, &mut make, &mut keep)
}

/// Whether the measures of a round pass a limit.
fn is_much(total: Counts) -> bool {
    total.clauses > MOST_CLAUSES || total.literals > MOST_LITERALS
}

/// How many pieces a round has at most: from 1 to 8,192.
#[derive(Clone, Copy)]
struct Most {
    pieces: u64,
    ghost some: { 1 ≤ pieces },
    ghost few: { pieces ≤ 8192 },
}

/// How many pieces a round has at most that so many workers share; where nothing is measured, no more than
/// what each instance has at most allows.
fn most_pieces(workers: u8, sums: &[Counts], most: Counts) -> Most {
    let largest = if workers == 1 { ROUND } else { LARGE };
    if !sums.is_empty() {
        return Most { pieces: largest };
    }
    let clauses = MOST_CLAUSES / PIECE / most.clauses.max(1);
    let literals = MOST_LITERALS / PIECE / most.literals.max(1);
    Most {
        pieces: clauses.min(literals).clamp(1, largest),
    }
}

/// How many pieces a round has that begins after so many: as many as their measures allow, at least one and
/// at most `most`; where nothing is measured, that many.
fn round_len(sums: &[Counts], done: u64, most: Most) -> u64
    requires { done ≤ 40000000 }
    ensures some { 1 ≤ result }
    ensures few { result ≤ 8192 }
{
    if sums.is_empty() {
        return most.pieces;
    }
    let mut total = Counts {
        clauses: 0,
        literals: 0,
    };
    for piece in 0..most.pieces {
        if let Some(more) = sums.get((done + piece) as usize) {
            total = sum(total, *more);
        }
        if piece > 0 && is_much(total) {
            return piece;
        }
    }
    most.pieces
}

/// Where the round of instances that begins at a number ends.
fn round_end<K: OutcomeKind>(numbered: &Numbered<K>, sums: &[Counts], from: u64, most: Most) -> u64
    requires { from ≤ numbered.now.count }
    ensures within { result ≤ numbered.now.count }
    ensures rising { from ≤ result }
    ensures more { from < numbered.now.count → from < result }
    ensures short { result ≤ from + 524288 }
{
    numbered
        .count
        .min(from + PIECE * round_len(sums, from / PIECE, most))
}

/// Appends the clauses of all instances of an axiom, round by round, of equal ones the first.
fn add_rounds<R: Threads + Sync, K: OutcomeKind, G: Gate>(
    alloc: Global,
    crew: &Crew<R, G>,
    numbered: &Numbered<K>,
    sums: &[Counts],
    out: &mut Clauses,
) -> Result<(), PushFault>
    ensures made { OnOk result (sourced out.new.clauses out.new.origins ≡
        sourced out.old.clauses out.old.origins ++ fold kept_with []
        (sources_of (K.size numbered.now.kind.now) numbered.now.named.now.sentence numbered.now.base
        0 numbered.now.count)) }
    ensures full { result ≡ Err PushFault.Full → IsTrue (is_over_limits (clauses_in
        (sourced out.old.clauses out.old.origins ++ fold kept_with []
        (sources_of (K.size numbered.now.kind.now) numbered.now.named.now.sentence numbered.now.base
        0 numbered.now.count)))) }
{
    let _kept = out.len();
    let counts = most_counts(numbered.kind.space(), numbered.named.sentence().body());
    let most = most_pieces(crew.workers, sums, counts);
    let mut seen = Seen::new(alloc);
    let mut from = 0;
    let mut to = round_end(numbered, sums, from, most);
    let Ok(mut parts) = make_parts(alloc, crew, &Stretch { numbered, from, to }) else {
        return Err(PushFault::NoMemory);
    };
    while from < numbered.count {
        let end = round_end(numbered, sums, to, most);
        let stretch = Stretch { numbered, from, to };
        let next = Stretch {
            numbered,
            from: to,
            to: end,
        };
        let (made, kept) = keep_beside(alloc, crew, &stretch, &parts, &next, &mut seen, out);
        match kept {
            Ok(()) => {}
            Err(fault) => return Err(fault),
        }
        match made {
            Ok(more) => parts = more,
            Err(_) => return Err(PushFault::NoMemory),
        }
        from = to;
        to = end;
    }
    Ok(())
}

/// Appends the clauses of an axiom, of equal ones the first.
pub(crate) fn add_axiom<R: Threads + Sync, K: OutcomeKind, G: Gate>(
    alloc: Global,
    crew: &Crew<R, G>,
    groundable: &Groundable<K>,
    sums: &[Counts],
    out: &mut Clauses,
) -> Result<(), PushFault>
    requires narrow { AreNarrow (K.size groundable.now.kind.now) groundable.now.named.now.sentence 0
        (instance_count (K.size groundable.now.kind.now) groundable.now.named.now.sentence) }
    ensures made { OnOk result (sourced out.new.clauses out.new.origins ≡
        sourced out.old.clauses out.old.origins
        ++ from_axiom (K.size groundable.now.kind.now) groundable.now.place (Some groundable.now.named.now)) }
    ensures full { result ≡ Err PushFault.Full →
        IsTrue (is_over_limits (clauses_in (sourced out.old.clauses out.old.origins
        ++ from_axiom (K.size groundable.now.kind.now) groundable.now.place
        (Some groundable.now.named.now)))) }
{
    let Ok(plan) = plan_of(alloc, groundable.kind, groundable.named) else {
        return Err(PushFault::NoMemory);
    };
    let numbered = Numbered {
        kind: groundable.kind,
        named: groundable.named,
        plan: &plan,
        count: instance_count(groundable.kind.space(), groundable.named.sentence()),
        base: (u64::from(groundable.place) + 1) * 4_294_967_296,
    };
    add_rounds(alloc, crew, &numbered, sums, out)
}
