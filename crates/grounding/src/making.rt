//! The clauses of a study.

ghost use Rattle.std.specs.Prelude.{◌≡◌, ◌<◌, [], None, Some, length, slice_get, slice_index_or, IfErr, IfOk, OnOk, IsTrue};
ghost use Rattle.std.specs.List.{flat_map};
ghost use Rattle.vocab.specs.declared.kinds.Sort.TheVariants.{Profile};
ghost use Rattle.vocab.specs.Size.{sort_count};
ghost use Rattle.meaning.specs.Cores.{is_core_from};
ghost use Rattle.meaning.specs.Space.{below};
ghost use Rattle.meaning.specs.StudyClauses.{from_frame, study_clauses};
ghost use Rattle.clause_form.specs.Refusals.{IsRefused, first_full, first_wide, ground_fault};
ghost use Rattle.clause_form.specs.Sources.{sourced};

use crate::measuring::measure_axiom;
use crate::merging::add_axiom;
use crate::pieces::Groundable;
use clause_form::{Ground, GroundFault};
use cnf::{Clauses, PushFault};
use crew::Crew;
use edge::Gate;
use lists::{Items, NoMemory};
use meaning::Counts;
use outcomes::{OutcomeKind, laws};
use std::alloc::Global;
use std::thread::Threads;
use vocab::{Places, Sort, Study};

/// The frames of all profiles.
fn frames_of<K: OutcomeKind>(alloc: Global, kind: &K) -> Result<Clauses, NoMemory>
    ensures { IfOk result (λ out. sourced out.clauses out.origins ≡
        flat_map (from_frame (K.size kind.now)) (below (sort_count (K.size kind.now) Profile))) }
{
    laws::kinds_have_sizes(kind);
    laws::frames_are_small(kind);
    let mut out = Clauses::new(alloc);
    for p in 0..kind.space().size().sort_len(Sort::Profile) {
        match kind.frame(p, &mut out) {
            Ok(()) => {}
            Err(PushFault::NoMemory) => return Err(NoMemory),
            Err(PushFault::Full) => unreachable!(),
        }
    }
    Ok(out)
}

/// Some axioms of a study, by their places, which rise, and the kind of its rules.
#[derive(Drop)]
struct Chosen<'a, K: OutcomeKind> {
    kind: &'a K,
    study: &'a Study,
    places: &'a Places,
    ghost size: { study.now.size ≡ K.size kind.now },
    ghost core: { IsTrue (is_core_from 0 (length study.now.axioms) places.now) },
}

impl<'a, K: OutcomeKind> Chosen<'a, K> {
    /// The k-th chosen axiom, from 0.
    fn get(&self, k: usize) -> Groundable<'a, K>
        requires { k < length self.now.places.now }
        ensures kind { K.size result.kind.now ≡ self.now.study.now.size }
        ensures place { result.place ≡ slice_index_or self.now.places.now k 0 }
        ensures named { slice_get self.now.study.now.axioms (slice_index_or self.now.places.now k 0) ≡
            Some result.named.now }
    {
        let place = self.places.as_slice()[k];
        Groundable {
            kind: self.kind,
            named: self.study.axioms().get(place as usize),
            place,
        }
    }
}

/// The sums of the measures of the pieces of each chosen axiom.
fn measure_chosen<R: Threads + Sync, K: OutcomeKind, G: Gate>(
    alloc: Global,
    crew: &Crew<R, G>,
    chosen: &Chosen<K>,
) -> Result<Items<Vec<Counts>>, GroundFault>
    ensures none { IfOk result
        (λ _. first_wide chosen.now.study.now.size chosen.now.study.now.axioms chosen.now.places.now ≡ None) }
    ensures len { IfOk result (λ all. length all ≡ length chosen.now.places.now) }
    ensures err { IfErr result (λ fault. IsRefused fault
        (first_wide chosen.now.study.now.size chosen.now.study.now.axioms chosen.now.places.now)) }
{
    let mut all = Items::new(alloc);
    let places = chosen.places.as_slice();
    for k in 0..places.len() {
        let groundable = chosen.get(k);
        let mut sums = Vec::new(alloc);
        let Ok(found) = measure_axiom(alloc, crew, &groundable, &mut sums) else {
            return Err(GroundFault::NoMemory);
        };
        if let Some(wide) = found {
            return Err(GroundFault::Wide {
                axiom: groundable.place,
                instance: wide.number,
                measure: wide.measure,
            });
        }
        match all.push(sums) {
            Ok(()) => {}
            Err(_) => return Err(GroundFault::NoMemory),
        }
    }
    Ok(all)
}

/// Appends the clauses of each chosen axiom.
fn push_chosen<R: Threads + Sync, K: OutcomeKind, G: Gate>(
    alloc: Global,
    crew: &Crew<R, G>,
    chosen: &Chosen<K>,
    sums: &Items<Vec<Counts>>,
    out: &mut Clauses,
) -> Result<(), GroundFault>
    requires none { first_wide chosen.now.study.now.size chosen.now.study.now.axioms chosen.now.places.now ≡
        None }
    requires len { length sums.now ≡ length chosen.now.places.now }
    requires frames { sourced out.old.clauses out.old.origins ≡
        study_clauses chosen.now.study.now.size chosen.now.study.now.axioms [] }
    ensures made { OnOk result (sourced out.new.clauses out.new.origins ≡
        study_clauses chosen.now.study.now.size chosen.now.study.now.axioms chosen.now.places.now) }
    ensures none { OnOk result (first_full chosen.now.study.now.size chosen.now.study.now.axioms []
        chosen.now.places.now ≡ None) }
    ensures err { IfErr result (λ fault. IsRefused fault (first_full chosen.now.study.now.size
        chosen.now.study.now.axioms [] chosen.now.places.now)) }
{
    let places = chosen.places.as_slice();
    for k in 0..places.len() {
        let groundable = chosen.get(k);
        match add_axiom(alloc, crew, &groundable, sums.get(k).as_slice(), out) {
            Ok(()) => {}
            Err(PushFault::Full) => {
                return Err(GroundFault::Full {
                    axiom: groundable.place,
                });
            }
            Err(PushFault::NoMemory) => return Err(GroundFault::NoMemory),
        }
        let _within = out.len();
    }
    Ok(())
}

/// The clauses of the study for the chosen axioms, each with its origin: the frames by profile, and then
/// those of each axiom by instance, of equal ones of an axiom the first. Instances are taken in pieces of 64, and
/// pieces in rounds, which are shared among the workers: first they are measured, unless the shape of the axiom
/// tells that none is too wide, so that the first that is too wide is found before any clause is made; the clauses
/// are then made in parts of four pieces. The answer is the same for every number of workers.
pub fn ground<R: Threads + Sync, K: OutcomeKind, G: Gate>(
    alloc: Global,
    crew: &Crew<R, G>,
    kind: &K,
    study: &Study,
    chosen: &Places,
) -> Result<Ground, GroundFault>
    requires size { study.now.size ≡ K.size kind.now }
    requires chosen { IsTrue (is_core_from 0 (length study.now.axioms) chosen.now) }
    ensures ok { IfOk result (λ clauses. clauses ≡ study_clauses study.now.size study.now.axioms chosen.now) }
    ensures none { IfOk result (λ clauses. ground_fault study.now.size study.now.axioms chosen.now ≡ None) }
    ensures err { IfErr result
        (λ fault. IsRefused fault (ground_fault study.now.size study.now.axioms chosen.now)) }
{
    let axioms = Chosen {
        kind: &*kind,
        study: &*study,
        places: &*chosen,
    };
    let sums = match measure_chosen(alloc, crew, &axioms) {
        Ok(sums) => sums,
        Err(fault) => return Err(fault),
    };
    let mut clauses = match frames_of(alloc, kind) {
        Ok(clauses) => clauses,
        Err(_) => return Err(GroundFault::NoMemory),
    };
    match push_chosen(alloc, crew, &axioms, &sums, &mut clauses) {
        Ok(()) => Ok(Ground::new(clauses)),
        Err(fault) => Err(fault),
    }
}
