//! The map of the axioms of a study.

ghost use Rattle.std.specs.Prelude.{◌≡◌, ◌<◌, length, IfOk, OnOk, IsTrue, IsFalse};
ghost use Rattle.meaning.specs.StudyClauses.{study_clauses};
ghost use Rattle.search_logs.specs.Spent.{all_places};
ghost use Rattle.axiom_sets.specs.Counts.{left_to_ask};
ghost use Rattle.axiom_sets.specs.Maps.{covers, IsTidy};
ghost use Rattle.axiom_sets.specs.Sets.{is_set};
ghost use Rattle.core_maps.specs.CoreMaps.{IsRight, IsMapping};

use crate::answers::{Asked, CoreMap, Ending};
use crate::asking::ask;
use crate::encoding::Encoding;
use axiom_sets::{AxiomMap, Next};
use clause_form::Ground;
use lists::NoMemory;
use outcomes::OutcomeKind;
use std::alloc::Global;
use vocab::{Places, Study};

/// Asks about a set that the map does not cover, and adds what is found.
fn step<K: OutcomeKind>(
    alloc: Global,
    whole: &Encoding<K>,
    sets: &mut AxiomMap,
    set: Places,
) -> Result<(), NoMemory>
    requires tidy { IsTidy (length whole.now.study.now.axioms) sets.old }
    requires right { IsRight whole.now.study.now sets.old }
    requires set { IsTrue (is_set (length whole.now.study.now.axioms) set) }
    requires uncovered { IsFalse (covers sets.old set) }
    ensures tidy { OnOk result (IsTidy (length whole.now.study.now.axioms) sets.new) }
    ensures right { OnOk result (IsRight whole.now.study.now sets.new) }
    ensures fewer { OnOk result
        (left_to_ask (length whole.now.study.now.axioms) sets.new <
        left_to_ask (length whole.now.study.now.axioms) sets.old) }
{
    let count = whole.study.axioms().len() as u32;
    match ask(alloc, whole, sets, set)? {
        Asked::Impossible(core) => {
            sets.add_impossible(alloc, count, core)?;
            Ok(())
        }
        Asked::Possible(all) => {
            sets.add_possible(alloc, count, all)?;
            Ok(())
        }
        Asked::Open(part) => {
            sets.add_open(alloc, count, part)?;
            Ok(())
        }
    }
}

/// Asks about sets until the map covers all of them, or the search for one that it does not cover is cut short.
fn map_over<K: OutcomeKind>(alloc: Global, whole: &Encoding<K>) -> Result<CoreMap, NoMemory>
    ensures { IfOk result (IsMapping whole.now.study.now) }
{
    let count = whole.study.axioms().len() as u32;
    let mut sets = AxiomMap::new(alloc);
    'sets: loop {
        match sets.next(alloc, count)? {
            Next::Uncovered(set) => step(alloc, whole, &mut sets, set)?,
            Next::Whole => {
                return Ok(CoreMap {
                    sets,
                    ending: Ending::Whole,
                });
            }
            Next::Cut => {
                return Ok(CoreMap {
                    sets,
                    ending: Ending::Cut,
                });
            }
        }
    }
}

/// The map of the axioms of a study: all minimal sets of them that no rule of the size satisfies, and all
/// largest sets that some rule satisfies, over the clauses of all axioms; a set over which a search spent the
/// study's limit is open. The map is whole, unless the search for a set that it does not cover was cut short.
/// The only error is want of memory.
pub fn map_axioms<K: OutcomeKind>(
    alloc: Global,
    kind: &K,
    study: &Study,
    ground: &Ground,
) -> Result<CoreMap, NoMemory>
    requires size { study.now.size ≡ K.size kind.now }
    requires clauses { ground.now ≡ study_clauses study.now.size study.now.axioms (all_places study.now) }
    ensures { IfOk result (IsMapping study.now) }
{
    let whole = Encoding {
        kind,
        study,
        ground,
    };
    map_over(alloc, &whole)
}
