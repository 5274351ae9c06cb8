//! What is said of an axiom of a core.

use lists::Items;
use vocab::Table;

/// The mark of an axiom of a core: a rule that satisfies the others, or open, with the limit on learned
/// clauses within which none was found.
#[derive(Drop)]
pub enum Witness {
    Rule(Table),
    Open(u32),
}

/// The witnesses of a core, one for each axiom in core order.
pub type Witnesses = Items<Witness>;
