//! The sum of the counts of the instances of an axiom, in pieces that are shared among workers.

ghost use Rattle.std.specs.Prelude.{◌≡◌, ◌-◌, ◌<◌, ◌≤◌, IfOk, IsTrue, length};
ghost use Rattle.sharp_verdicts.specs.Instances.{count_at, is_present};
ghost use Rattle.sharp_verdicts.specs.Totals.{counts_of_instance};
ghost use Rattle.instance_totals.specs.Sums.{AreAllNarrow, AreAllParts, AreCounted, counts_from, piece_end, piece_start};

use clause_form::measure;
use crew::{Crew, Job, Parts, map_pieces};
use edge::Gate;
use instance_studies::values_of;
use lists::NoMemory;
use meaning::Counts;
use outcomes::{OutcomeKind, Setting};
use sharp_verdicts::Cited;
use std::alloc::Global;
use std::thread::Threads;
use vocab::Study;
use worlds::instance_count;
use worlds::laws::bodies_have_values;

/// How many instances a piece has.
const PIECE: u64 = 4096;

/// The counts of an instance.
fn counts_of<K: OutcomeKind>(kind: &K, study: &Study, cited: Cited) -> Counts
    requires size { study.now.size ≡ K.size kind.now }
    requires present { IsTrue (is_present study.now cited) }
    ensures { result ≡ counts_of_instance study.now cited }
{
    bodies_have_values();
    let sentence = study.axioms().get(cited.axiom as usize).sentence();
    let values = values_of(kind.space(), study, cited);
    measure(kind, sentence.body(), &values)
}

/// The sum of the counts of the instances of the axiom at a place, from `from` up to `to`.
fn sum_of<K: OutcomeKind>(kind: &K, study: &Study, place: u32, from: u64, to: u64) -> Counts
    requires { AreCounted study.now (K.size kind.now) place from to }
    ensures { result ≡ counts_from study.now place from (to - from) }
{
    // Its contract says that the study is one.
    let _axioms = study.axioms();
    let mut clauses = 0;
    let mut literals = 0;
    for number in from..to {
        let cited = Cited {
            axiom: place,
            number,
        };
        let here = counts_of(kind, study, cited);
        clauses += here.clauses;
        literals += here.literals;
    }
    Counts { clauses, literals }
}

/// The instances up to `count` in pieces, and how a piece is summed.
#[derive(Drop)]
struct Summing<'a, F> {
    sum: &'a F,
    count: u64,
}

impl<F: Fn(u64, u64) -> Counts + Sync> Job for Summing<'_, F> {
    type Part = Counts;

    ghost has = { λ job piece. (piece_start piece ≤ job.count) ×
        F.pre job.sum.now (piece_start piece) (piece_end job.count piece) };

    ghost is_right = { λ job piece part.
        F.post job.sum.now (piece_start piece) (piece_end job.count piece) part };

    fn part(&self, piece: u32) -> Result<Counts, NoMemory> {
        let start = PIECE * u64::from(piece);
        let end = start + PIECE.min(self.count - start);
        Ok((self.sum)(start, end))
    }
}

/// The sum of the parts of all pieces of an axiom.
fn sum_of_parts(study: &Study, place: u32, count: u64, parts: &Parts<Counts>) -> Counts
    requires counted { AreCounted study.now study.now.size place 0 count }
    requires parts { AreAllParts study.now place count parts.now }
    ensures { result ≡ counts_from study.now place 0 count }
{
    // Its contract says that the study is one.
    let _axioms = study.axioms();
    let mut clauses = 0;
    let mut literals = 0;
    for piece in 0..parts.len() {
        let part = parts.get(piece);
        clauses += part.clauses;
        literals += part.literals;
    }
    Counts { clauses, literals }
}

/// The sum of the counts of all instances of the axiom at a place.
pub(crate) fn sum_of_axiom<R: Threads + Sync, K: OutcomeKind, G: Gate>(
    alloc: Global,
    crew: &Crew<R, G>,
    setting: &Setting<K>,
    place: u32,
) -> Result<Counts, NoMemory>
    requires there { place < length setting.now.study.now.axioms }
    requires narrow { AreAllNarrow setting.now.study.now }
    ensures { IfOk result (λ sum. sum ≡
        counts_from setting.now.study.now place 0 (count_at setting.now.study.now place)) }
{
    let kind = setting.kind;
    let study = setting.study;
    let sentence = study.axioms().get(place as usize).sentence();
    let count = instance_count(kind.space(), sentence);
    let sum = |start: u64, end: u64| -> Counts
        requires { AreCounted study.now (K.size kind.now) place start end }
        ensures { result ≡ counts_from study.entry.now place start (end - start) }
    { sum_of(kind, study, place, start, end) };
    let job = Summing { sum: &sum, count };
    let pieces = count.div_ceil(PIECE) as u32;
    let parts = map_pieces(alloc, crew, &job, pieces)?;
    Ok(sum_of_parts(study, place, count, &parts))
}
