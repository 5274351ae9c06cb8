//! Why the clauses of a study are refused.

use lists::NoMemory;
use meaning::Counts;

/// Why the clauses of a study for chosen axioms are not made: an instance of the axiom at a place of the
/// study is too wide, by its counts before anything is left out; the list of all clauses passes a limit with
/// those of the axiom at a place; or no memory was found.
#[derive(Clone, Copy, Debug, PartialEq, Eq)]
pub enum GroundFault {
    Wide {
        axiom: u32,
        instance: u64,
        measure: Counts,
    },
    Full {
        axiom: u32,
    },
    NoMemory,
}

impl From<NoMemory> for GroundFault {
    ghost use Rattle.std.specs.Prelude.{◌≡◌};
    ghost use Rattle.clause_form.specs.declared.refusals.GroundFault.TheVariants.{NoMemory as GroundWantsMemory};

    ghost from_gives = { λ _ fault. fault ≡ GroundWantsMemory };

    fn from(_: NoMemory) -> Self {
        GroundFault::NoMemory
    }
}
