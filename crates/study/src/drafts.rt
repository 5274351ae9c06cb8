//! What a document says of a study, before it is judged.

use crate::entries::{Entries, Texts};
use vocab::Kind;

/// The kind and the numbers, the texts of the ballots where they are listed, and whether voters may be
/// absent.
pub(crate) struct Head {
    pub(crate) kind: Kind,
    pub(crate) voters: i64,
    pub(crate) alternatives: i64,
    pub(crate) ballots: Option<Texts>,
    pub(crate) absent: bool,
    pub(crate) conflicts: i64,
}

/// Written out, so that letting go of a head is one call.
impl Drop for Head {
    fn drop(self) {
        let Head {
            kind: _,
            voters: _,
            alternatives: _,
            ballots: _,
            absent: _,
            conflicts: _,
        } = self;
    }
}

/// The head, the names of the axioms, and the study's own sentences.
pub(crate) struct Draft {
    pub(crate) head: Head,
    pub(crate) axioms: Texts,
    pub(crate) sentences: Entries,
}

/// Written out, as that of a head.
impl Drop for Draft {
    fn drop(self) {
        let Draft {
            head: _,
            axioms: _,
            sentences: _,
        } = self;
    }
}
