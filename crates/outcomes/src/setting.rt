//! A study beside the kind of its rules.

ghost use Rattle.std.specs.Prelude.{◌≡◌};

use crate::kind::OutcomeKind;
use vocab::Study;

/// A study, and the kind of its rules, which is one of the study's own size.
#[derive(Drop)]
pub struct Setting<'a, K: OutcomeKind> {
    pub kind: &'a K,
    pub study: &'a Study,
    pub ghost same: { study.now.size ≡ K.size kind.now },
}
