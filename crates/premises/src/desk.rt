//! What is used anew for each lemma.

ghost use Rattle.std.specs.Prelude.{◌≡◌, IfOk};

use joined_sentences::{Chains, StepIndex};
use lists::NoMemory;
use outcomes::OutcomeKind;
use std::alloc::Global;
use vocab::Sort;
use worlds::Board;

/// What is used anew for each lemma: two boards, and tables by the places of literals.
#[derive(Drop)]
pub(crate) struct Desk {
    pub(crate) known: Board,
    pub(crate) tried: Board,
    pub(crate) chains: Chains,
    pub(crate) index: StepIndex,
}

impl Desk {
    /// A desk for a kind's size.
    pub(crate) fn new<K: OutcomeKind>(alloc: Global, kind: &K) -> Result<Desk, NoMemory>
        ensures known { IfOk result (λ desk. desk.known.size ≡ K.size kind.now) }
        ensures tried { IfOk result (λ desk. desk.tried.size ≡ K.size kind.now) }
    {
        let size = kind.space().size();
        Ok(Desk {
            known: Board::new(alloc, kind)?,
            tried: Board::new(alloc, kind)?,
            chains: Chains::new(
                alloc,
                (size.sort_len(Sort::Profile) as usize).saturating_add(1),
            )?,
            index: StepIndex::new(alloc, size)?,
        })
    }
}
