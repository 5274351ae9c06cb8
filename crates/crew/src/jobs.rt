//! Work that is cut into pieces, and what comes of it.

ghost use Rattle.std.specs.Prelude.{ℕ, IfOk};

use lists::{Items, NoMemory};

/// Work that is cut into numbered pieces, each of which gives a part.
pub trait Job: Sync {
    type Part: Send + Drop;

    /// The job has a piece.
    ghost has: { Self → ℕ → Type 0 };

    /// A part is right for a piece.
    ghost is_right: { Self → ℕ → Self.Part → Type 0 };

    /// The part of a piece that the job has.
    fn part(&self, piece: u32) -> Result<Self::Part, NoMemory>
        requires { has self.now piece }
        ensures { IfOk result (λ part. is_right self.now piece part) };
}

/// The parts of consecutive pieces, in the order of the pieces.
pub type Parts<T> = Items<T>;
