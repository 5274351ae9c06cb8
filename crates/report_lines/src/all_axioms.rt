//! The names of all axioms.

ghost use Rattle.std.specs.Prelude.{◌≡◌, map};
ghost use Rattle.std.specs.Cmp.Lexicographic.{pointwise};
ghost use Rattle.std.specs.Str.{bytes_eq};
ghost use Rattle.report_lines.specs.Rest.{words_after};

use crate::indexed::IndexedStudy;
use crate::words::{is_same, next_word};

/// Whether the words that are left are the names of the axioms of the study.
pub(crate) fn are_all_axioms(study: &IndexedStudy, rest: &[u8]) -> bool
    ensures { result ≡ pointwise bytes_eq (words_after rest.now) (map (λ a. a.name) study.now.axioms) }
{
    let axioms = study.axioms();
    let mut left = rest;
    for k in 0..axioms.len() {
        let name = axioms.get(k).name();
        let Some((word, more)) = next_word(left) else {
            return false;
        };
        if !is_same(word, name.bytes()) {
            return false;
        }
        left = more;
    }
    next_word(left).is_none()
}
