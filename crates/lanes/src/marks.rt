//! What is known of up to 64 formulas whatever the rule.

ghost use Rattle.std.specs.Prelude.{◌≡◌, ℕ, ◌<◌, ◌⊎◌, IsTrue};
ghost use Rattle.std.specs.Int.{bit_at};
ghost use Rattle.meaning.specs.Clauses.{known_truth};
ghost use Rattle.meaning.specs.Written.{Written, Neg, And, Or, Iff};
ghost use Rattle.lanes.specs.Marks.{IsTold};

use meaning::Three;

/// Bit k of `yes` tells that formula k is known to be true, and that of `no` that it is known to be false. A
/// bit that is not set tells nothing.
#[derive(Clone, Copy)]
pub struct Marks {
    pub yes: u64,
    pub no: u64,
}

/// What is known of the negations.
pub(crate) fn negation(a: Marks) -> Marks
    ensures { (k : ℕ) (x : Written) → IsTold a k x → IsTold result k (Neg x) }
{
    Marks {
        yes: a.no,
        no: a.yes,
    }
}

/// What is known of the conjunctions.
pub(crate) fn conjunction(a: Marks, b: Marks) -> Marks
    ensures { (k : ℕ) (x y : Written) → IsTold a k x → IsTold b k y → IsTold result k (And x y) }
{
    Marks {
        yes: a.yes & b.yes,
        no: a.no | b.no,
    }
}

/// What is known of the disjunctions.
pub(crate) fn disjunction(a: Marks, b: Marks) -> Marks
    ensures { (k : ℕ) (x y : Written) → IsTold a k x → IsTold b k y → IsTold result k (Or x y) }
{
    Marks {
        yes: a.yes | b.yes,
        no: a.no & b.no,
    }
}

/// What is known of the equivalences.
pub(crate) fn equivalence(a: Marks, b: Marks) -> Marks
    ensures { (k : ℕ) (x y : Written) → IsTold a k x → IsTold b k y → IsTold result k (Iff x y) }
{
    Marks {
        yes: (a.yes & b.yes) | (a.no & b.no),
        no: (a.yes & b.no) | (a.no & b.yes),
    }
}

/// Marks that tell nothing.
pub(crate) fn nothing() -> Marks
    ensures { (k : ℕ) (x : Written) → IsTold result k x }
{
    Marks { yes: 0, no: 0 }
}

/// A word with one more bit set.
pub(crate) fn with_bit(word: u64, k: u64) -> u64
    requires { k < 64 }
    ensures { (j : ℕ) → bit_at result j ≡ 1 → (bit_at word j ≡ 1) ⊎ (j ≡ k) }
{
    word | (1 << k)
}

/// Marks with what is known of formula k set.
pub(crate) fn marked(marks: Marks, k: u64, truth: Three) -> Marks
    requires { k < 64 }
    ensures { (w : ℕ → Written) → ((j : ℕ) → IsTold marks j (w j)) → truth ≡ known_truth (w k) →
        (j : ℕ) → IsTold result j (w j) }
{
    match truth {
        Three::True => Marks {
            yes: with_bit(marks.yes, k),
            no: marks.no,
        },
        Three::False => Marks {
            yes: marks.yes,
            no: with_bit(marks.no, k),
        },
        Three::Unknown => marks,
    }
}

/// Whether a bit of a word is set.
pub fn is_told(word: u64, k: u64) -> bool
    requires { k < 64 }
    ensures { IsTrue result → bit_at word k ≡ 1 }
{
    (word >> k) & 1 == 1
}
