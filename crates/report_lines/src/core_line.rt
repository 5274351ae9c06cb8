//! The places of a core.

ghost use Rattle.std.specs.Prelude.{◌≡◌, IfOk};
ghost use Rattle.report_lines.specs.Held.{named_core};

use crate::indexed::IndexedStudy;
use crate::words::{cut_word, next_word};
use lists::NoMemory;
use std::alloc::Global;
use vocab::Places;

/// The places of the axioms that a line names after its first word, where the names are those of distinct
/// axioms of the study in order.
pub fn read_core(
    alloc: Global,
    study: &IndexedStudy,
    text: &[u8],
) -> Result<Option<Places>, NoMemory>
    ensures { IfOk result (λ core. core ≡ named_core study.now text.now) }
{
    let (_, rest) = cut_word(text);
    let mut core = Places::new(alloc);
    let mut from: u32 = 0;
    let mut left = rest;
    while let Some((word, more)) = next_word(left) {
        let Some(place) = study.place_of(word) else {
            return Ok(None);
        };
        if place < from {
            return Ok(None);
        }
        core.push(place)?;
        from = place + 1;
        left = more;
    }
    Ok(Some(core))
}
