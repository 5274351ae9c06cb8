//! Whether the shapes of the axioms tell that all their instances are within the limits.

ghost use Rattle.std.specs.Prelude.{◌<◌, length, IfSome, IsFalse, IsTrue};
ghost use Rattle.sharp_verdicts.specs.Totals.{passes_clause_limits, total};
ghost use Rattle.instance_totals.specs.Bounds.{HasRoomFor};
ghost use Rattle.instance_totals.specs.Sums.{AreFrameCounts};

use crate::totals::passes_clause_limits;
use clause_form::most_counts;
use meaning::Counts;
use outcomes::{OutcomeKind, Setting};
use worlds::instance_count;

/// Counts, and after them as many as the instances of the axiom at a place have at most, by its shape. None
/// where that may pass a limit.
fn with_axiom<K: OutcomeKind>(setting: &Setting<K>, place: u32, before: Counts) -> Option<Counts>
    requires there { place < length setting.now.study.now.axioms }
    requires before { IsFalse (passes_clause_limits before) }
    ensures { IfSome result (HasRoomFor setting.now.study.now place before) }
{
    let sentence = setting.study.axioms().get(place as usize).sentence();
    let count = instance_count(setting.kind.space(), sentence);
    let most = most_counts(setting.kind.space(), sentence.body());
    if passes_clause_limits(most) {
        return None;
    }
    let after = Counts {
        clauses: before.clauses + count * most.clauses,
        literals: before.literals + count * most.literals,
    };
    if passes_clause_limits(after) {
        return None;
    }
    Some(after)
}

/// Whether the frames and as many clauses as the instances of all axioms have at most, by their shapes, are
/// within the limits.
pub(crate) fn are_bounded<K: OutcomeKind>(setting: &Setting<K>, frames: Counts) -> bool
    requires { AreFrameCounts setting.now.study.now frames }
    ensures { IsTrue result → IsFalse (passes_clause_limits (total setting.now.study.now)) }
{
    let count = setting.study.axioms().len() as u32;
    let mut most = frames;
    for place in 0..count {
        match with_axiom(setting, place, most) {
            Some(after) => most = after,
            None => return false,
        }
    }
    true
}
