//! What the one recursion over sentences computes with.

ghost use Rattle.std.specs.Prelude.{◌≡◌, IfOk, IfErr, IsTrue, IsFalse};
ghost use Rattle.vocab.specs.declared.literals.Literal.{Literal};
ghost use Rattle.meaning.specs.Written.{Written, Known, Fact, Neg, And, Or, Iff};
ghost use Rattle.worlds.specs.Meanings.{SameMeaning};

use vocab::Literal;

/// Values that stand for written-out formulas, with an operation for each way to build one.
///
/// An operation answers a value that stands for what it builds, whatever its arguments stand for, or a stop.
/// None changes what values stand for or which literals are taken.
pub trait Algebra {
    /// What formulas are evaluated to.
    type V: Drop;

    /// Why an evaluation may end before there is a value. An algebra that never stops takes `Infallible`.
    type Stop: Drop;

    /// A value stands for a written-out formula.
    ghost stands: { Self → Self.V → Written → Type 0 };

    /// A stop may be answered.
    ghost may_stop: { Self.Stop → Type 0 };

    /// A literal is taken.
    ghost takes: { Self → Literal → Type 0 };

    /// The value of a truth value.
    fn known(&mut self, truth: bool) -> Result<Self::V, Self::Stop>
        ensures ok { IfOk result (λ v. stands self.old v (Known truth)) }
        ensures err { IfErr result may_stop }
        ensures same { SameMeaning (stands self.old) (stands self.new) (takes self.old) (takes self.new) };

    /// The value of a literal.
    fn literal(&mut self, literal: &Literal) -> Result<Self::V, Self::Stop>
        requires { takes self.old literal.now }
        ensures ok { IfOk result (λ v. stands self.old v (Fact literal.now)) }
        ensures err { IfErr result may_stop }
        ensures same { SameMeaning (stands self.old) (stands self.new) (takes self.old) (takes self.new) };

    /// Whether a value decides: what is false stands for each conjunction that it is a side of, and what is
    /// true for each disjunction, so that the other side need not be evaluated. An algebra may always answer
    /// no.
    fn is_known(&self, value: &Self::V, truth: bool) -> bool
        ensures no { IsTrue result → IsFalse truth → (x y : Written) → stands self.now value.now x →
            stands self.now value.now (And x y) × stands self.now value.now (And y x) }
        ensures yes { IsTrue result → IsTrue truth → (x y : Written) → stands self.now value.now x →
            stands self.now value.now (Or x y) × stands self.now value.now (Or y x) }
    {
        false
    }

    /// The value of a negation.
    fn not(&mut self, a: Self::V) -> Result<Self::V, Self::Stop>
        ensures ok { IfOk result (λ v. (x : Written) → stands self.old a x → stands self.old v (Neg x)) }
        ensures err { IfErr result may_stop }
        ensures same { SameMeaning (stands self.old) (stands self.new) (takes self.old) (takes self.new) };

    /// The value of a conjunction.
    fn and(&mut self, a: Self::V, b: Self::V) -> Result<Self::V, Self::Stop>
        ensures ok { IfOk result (λ v. (x y : Written) → stands self.old a x → stands self.old b y →
            stands self.old v (And x y)) }
        ensures err { IfErr result may_stop }
        ensures same { SameMeaning (stands self.old) (stands self.new) (takes self.old) (takes self.new) };

    /// The value of a disjunction.
    fn or(&mut self, a: Self::V, b: Self::V) -> Result<Self::V, Self::Stop>
        ensures ok { IfOk result (λ v. (x y : Written) → stands self.old a x → stands self.old b y →
            stands self.old v (Or x y)) }
        ensures err { IfErr result may_stop }
        ensures same { SameMeaning (stands self.old) (stands self.new) (takes self.old) (takes self.new) };

    /// The value of an equivalence.
    fn same(&mut self, a: Self::V, b: Self::V) -> Result<Self::V, Self::Stop>
        ensures ok { IfOk result (λ v. (x y : Written) → stands self.old a x → stands self.old b y →
            stands self.old v (Iff x y)) }
        ensures err { IfErr result may_stop }
        ensures same { SameMeaning (stands self.old) (stands self.new) (takes self.old) (takes self.new) };
}
