//! The kinds of rules: the one place that goes from the kind of a size to the outcomes of its rules. A further kind
//! gets an arm here, and none in the commands.
#![tactic(auto)]

pub use choice_sets::SetsKind;
pub use outcomes::{ChoiceKind, RankingKind};
pub use profiles::Space;
pub use vocab::Kind;

/// The value of an expression in which a name stands for the outcomes of a size, as `over_kind!(size, kind,
/// decide_over(alloc, crew, &kind, study))`.
#[macro_export]
macro_rules! over_kind {
    ($size:expr, $kind:ident, $value:expr) => {{
        let size = $size;
        let space = $crate::Space::new(size);
        match size.kind() {
            $crate::Kind::Choice => {
                let $kind = $crate::ChoiceKind::new(space);
                $value
            }
            $crate::Kind::Ranking => {
                let $kind = $crate::RankingKind::new(space);
                $value
            }
            $crate::Kind::Sets => {
                let $kind = $crate::SetsKind::new(space);
                $value
            }
        }
    }};
}
