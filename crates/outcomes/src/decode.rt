//! The outcome of some bits, found by the laws of kinds alone.

ghost use Rattle.std.specs.Prelude.{◌≡◌, ◌+◌, ◌*◌, ◌<◌, ◌≤◌, length, IsTrue};
ghost use Rattle.std.specs.Bool.{OnTrue, OnFalse};
ghost use Rattle.vocab.specs.declared.kinds.Sort.TheVariants.{Profile};
ghost use Rattle.vocab.specs.Size.{sort_count, outcome_count};
ghost use Rattle.cnf.specs.Assignment.{value_of};
ghost use Rattle.cnf.specs.Sat.{is_satisfied};
ghost use Rattle.meaning.specs.Variables.{bits};
ghost use Rattle.outcomes.specs.Frames.{frame_clauses};
ghost use Rattle.outcomes.specs.OutcomeBits.{AreBitsAt};

use crate::kind::OutcomeKind;
use crate::laws;
use cnf::{Bits, Lit};

/// Whether the variables of profile p have the truth values of an outcome.
fn has_bits<K: OutcomeKind>(kind: &K, outcome: u32, assignment: &Bits, p: u32) -> bool
    requires outcome { outcome < outcome_count (K.size kind.now).kind (K.size kind.now).alternatives }
    requires profile { p < sort_count (K.size kind.now) Profile }
    requires variables { (p + 1) * bits (K.size kind.now).kind
        (K.size kind.now).alternatives ≤ length assignment.now }
    ensures same { OnTrue result (AreBitsAt (K.size kind.now) p outcome (value_of assignment.now)) }
    ensures other { OnFalse result (¬ AreBitsAt (K.size kind.now) p outcome (value_of assignment.now)) }
{
    let count = kind.bits();
    for place in 0..count {
        let variable = p * count + place + 1;
        if kind.encode(outcome, Lit::new(variable, true)) != assignment.get(variable) {
            return false;
        }
    }
    true
}

/// The outcome whose truth values the variables of profile p have.
pub(crate) fn decode<K: OutcomeKind>(kind: &K, assignment: &Bits, p: u32) -> u32
    requires profile { p < sort_count (K.size kind.now) Profile }
    requires variables { (p + 1) * bits (K.size kind.now).kind
        (K.size kind.now).alternatives ≤ length assignment.now }
    requires frame { IsTrue (is_satisfied (value_of assignment.now) (frame_clauses (K.size kind.now) p)) }
    ensures in_range { result < outcome_count (K.size kind.now).kind (K.size kind.now).alternatives }
    ensures same { AreBitsAt (K.size kind.now) p result (value_of assignment.now) }
{
    laws::kinds_have_sizes(kind);
    laws::frames_say_one_outcome(kind);
    let mut outcome = 0;
    'trying: while !has_bits(kind, outcome, assignment, p) {
        outcome += 1;
    }
    outcome
}
