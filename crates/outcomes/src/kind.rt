//! Kinds of outcomes.

ghost use Rattle.std.specs.Prelude.{◌≡◌, ◌≢◌, ℕ, ◌+◌, ◌*◌, ◌<◌, ◌≤◌, length, Err, OnOk, IsTrue, IfSome, IfNone};
ghost use Rattle.vocab.specs.declared.kinds.Sort.TheVariants.{Profile};
ghost use Rattle.vocab.specs.Size.{Extent, IsSize, sort_count, outcome_count};
ghost use Rattle.cnf.specs.Assignment.{value_of};
ghost use Rattle.cnf.specs.Sat.{is_satisfied};
ghost use Rattle.meaning.specs.Literals.{is_literal};
ghost use Rattle.meaning.specs.Texts.{outcome_text};
ghost use Rattle.meaning.specs.Truth.{holds_of};
ghost use Rattle.meaning.specs.Variables.{bits, variable_count, lit_of, literal_of};
ghost use Rattle.outcomes.specs.Frames.{frame_clauses, with_clauses, IsFullForAll};
ghost use Rattle.outcomes.specs.OutcomeBits.{AreBitsAt};

use crate::decode::decode;
use crate::laws;
use cnf::{Bits, Clauses, Lit, PushFault};
use profiles::Space;
use vocab::{Literal, Name};

/// A kind of outcomes, over the profiles of a size. Outcomes are numbered from 0.
///
/// No method but `frame` takes memory.
pub trait OutcomeKind: Sync {
    /// The size.
    ghost size: { Self → Extent };

    /// The profiles of the size.
    fn space(&self) -> &Space
        ensures { result.now ≡ size self.now };

    /// How many outcomes there are.
    fn outcomes(&self) -> u32
        ensures { result ≡ outcome_count (size self.now).kind (size self.now).alternatives };

    /// How many variables a profile has.
    fn bits(&self) -> u32
        ensures value { result ≡ bits (size self.now).kind (size self.now).alternatives }
        ensures few { result ≤ 10 };

    /// Whether a literal holds of an outcome.
    fn holds(&self, outcome: u32, literal: &Literal) -> bool
        requires outcome { outcome < outcome_count (size self.now).kind (size self.now).alternatives }
        requires literal { IsTrue (is_literal (size self.now) literal.now) }
        ensures { result ≡ holds_of (size self.now) outcome literal.now };

    /// The variable and the sign of a literal.
    fn lit(&self, literal: &Literal) -> Lit
        requires { IsTrue (is_literal (size self.now) literal.now) }
        ensures { result ≡ lit_of (size self.now) literal.now };

    /// The literal of a variable and a sign.
    fn literal(&self, lit: Lit) -> Literal
        requires low { 1 ≤ lit.variable }
        requires high { lit.variable ≤ variable_count (size self.now) }
        ensures { result ≡ literal_of (size self.now) lit };

    /// Appends the clauses of the frame of profile p, with p as their origin. Refused as full exactly where
    /// with all of them the list would pass a limit; after a refusal the list may have some of them.
    fn frame(&self, p: u32, out: &mut Clauses) -> Result<(), PushFault>
        requires { p < sort_count (size self.now) Profile }
        ensures ok { OnOk result (out.new ≡ with_clauses out.old (frame_clauses (size self.now) p) p) }
        ensures full { result ≡ Err PushFault.Full → IsFullForAll out.old (frame_clauses (size self.now) p) }
        ensures fits { OnOk result (¬ IsFullForAll out.old (frame_clauses (size self.now) p)) };

    /// The text of an outcome.
    fn text(&self, outcome: u32) -> Name
        requires { outcome < outcome_count (size self.now).kind (size self.now).alternatives }
        ensures { result ≡ outcome_text (size self.now) outcome };

    /// The outcome of this text, or None where it is the text of no outcome.
    fn read(&self, text: &[u8]) -> Option<u32>
        ensures found { IfSome result (λ o. (o < outcome_count (size self.now).kind
            (size self.now).alternatives) × (text.now ≡ outcome_text (size self.now) o)) }
        ensures none { IfNone result ((o : ℕ) →
            o < outcome_count (size self.now).kind (size self.now).alternatives →
            text.now ≢ outcome_text (size self.now) o) };

    /// The size is one that the bench takes.
    ghost is_size: { (k : Self) → IsSize (size k) };

    /// Whether a variable with a sign is true in the bits of an outcome.
    final fn encode(&self, outcome: u32, lit: Lit) -> bool
        requires outcome { outcome < outcome_count (size self.now).kind (size self.now).alternatives }
        requires low { 1 ≤ lit.variable }
        requires high { lit.variable ≤ variable_count (size self.now) }
        ensures { result ≡ holds_of (size self.now) outcome (literal_of (size self.now) lit) }
    {
        laws::literals_are_variables(self);
        self.holds(outcome, &self.literal(lit))
    }

    /// The one outcome whose bits the variables of profile p have, where they satisfy its frame. It tries
    /// each outcome in turn.
    final fn decode(&self, assignment: &Bits, p: u32) -> u32
        requires profile { p < sort_count (size self.now) Profile }
        requires variables { (p + 1) * bits (size self.now).kind
            (size self.now).alternatives ≤ length assignment.now }
        requires frame { IsTrue (is_satisfied (value_of assignment.now) (frame_clauses (size self.now) p)) }
        ensures in_range { result < outcome_count (size self.now).kind (size self.now).alternatives }
        ensures same { AreBitsAt (size self.now) p result (value_of assignment.now) }
    {
        decode(self, assignment, p)
    }
}
