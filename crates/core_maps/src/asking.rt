//! What is found when a set of axioms is asked about.

ghost use Rattle.std.specs.Prelude.{length, IfOk, IsTrue, IsFalse};
ghost use Rattle.axiom_sets.specs.Sets.{is_set, has_whole};
ghost use Rattle.axiom_sets.specs.Maps.{covers};
ghost use Rattle.core_maps.specs.CoreMaps.{IsOpen};
ghost use Rattle.core_maps.specs.Asking.{IsAsked, IsTried};

use crate::answers::Asked;
use crate::encoding::Encoding;
use crate::parts::set_without;
use crate::seeking::{Sought, seek};
use axiom_sets::AxiomMap;
use lists::NoMemory;
use outcomes::OutcomeKind;
use std::alloc::Global;
use vocab::Places;

/// What comes of an open set without one of its axioms: some rule satisfies the rest, so that the axiom is
/// needed; a search over the rest spent its limit too; or no rule satisfies a core of the rest.
#[derive(Drop)]
enum Tried {
    Needed,
    Spent,
    Core(Places),
}

/// Tries what is left of an open set.
fn try_rest<K: OutcomeKind>(
    alloc: Global,
    whole: &Encoding<K>,
    sets: &AxiomMap,
    rest: &Places,
) -> Result<Tried, NoMemory>
    requires rest { IsTrue (is_set (length whole.now.study.now.axioms) rest.now) }
    ensures { IfOk result (IsTried whole.now.study.now sets.now rest.now) }
{
    if sets.is_possible(rest) {
        return Ok(Tried::Needed);
    }
    match seek(alloc, whole, rest)? {
        Sought::Rule(_) => Ok(Tried::Needed),
        Sought::Core(core) => Ok(Tried::Core(core)),
        Sought::Spent => Ok(Tried::Spent),
    }
}

/// Leaves out of an open set one axiom after the other, where a search over the rest spends its limit too.
fn shrink<K: OutcomeKind>(
    alloc: Global,
    whole: &Encoding<K>,
    sets: &AxiomMap,
    set: Places,
) -> Result<Asked, NoMemory>
    requires set { IsTrue (is_set (length whole.now.study.now.axioms) set) }
    requires unknown { IsFalse (has_whole sets.now.possible set) }
    requires open { IsOpen whole.now.study.now set }
    ensures { IfOk result (IsAsked whole.now.study.now sets.now set) }
{
    let mut part = set;
    let mut at: usize = 0;
    'parts: while at < part.as_slice().len() {
        let rest = set_without(alloc, part.as_slice(), part.as_slice()[at])?;
        match try_rest(alloc, whole, sets, &rest)? {
            Tried::Needed => at += 1,
            Tried::Spent => part = rest,
            Tried::Core(core) => return Ok(Asked::Impossible(core)),
        }
    }
    Ok(Asked::Open(part))
}

/// Asks about a set that the map does not cover. A rule that is found for it is tried on the other axioms, and
/// where it is refuted, the refutation is reduced to a minimal core. Where the search spends the study's limit,
/// it goes on with one axiom less, as long as the rest is not known to be possible and is not found so.
pub(crate) fn ask<K: OutcomeKind>(
    alloc: Global,
    whole: &Encoding<K>,
    sets: &AxiomMap,
    set: Places,
) -> Result<Asked, NoMemory>
    requires set { IsTrue (is_set (length whole.now.study.now.axioms) set) }
    requires uncovered { IsFalse (covers sets.now set) }
    ensures { IfOk result (IsAsked whole.now.study.now sets.now set) }
{
    match seek(alloc, whole, &set)? {
        Sought::Rule(all) => Ok(Asked::Possible(all)),
        Sought::Core(core) => Ok(Asked::Impossible(core)),
        Sought::Spent => {
            let asked = shrink(alloc, whole, sets, set)?;
            Ok(asked)
        }
    }
}
