//! The title, the number of instances, the rows of marks, and the end.

ghost use Rattle.std.specs.Prelude.{◌≡◌, Some, None, option_map, if◌then◌else◌};
ghost use Rattle.vocab.specs.Study.{Question};
ghost use Rattle.verdicts.specs.Lines.{Row, End};
ghost use Rattle.sharp_verdicts.specs.SharpLines.{SharpTitle, Plain};
ghost use Rattle.sharp_verdicts.specs.SharpPlaces.{AtNeedRow, AtSharpEnd, read_title, read_past};
ghost use Rattle.sharp_lines.specs.Said.{IsCount};

use outcomes::OutcomeKind;
use report_lines::{is_same, read_count, read_row_parts};

/// The most bytes of a line.
pub(crate) const LONGEST: usize = 4096;

/// Whether a line is the title of a sharp text, `bench sharp 1`.
pub fn is_title(text: &[u8]) -> bool
    ensures { (study : Question) → read_title study text.now ≡ (if result then Some SharpTitle else None) }
{
    is_same(text, b"bench sharp 1")
}

/// How many instances there are, where the line says it and has at most 4,096 bytes. A number stands still at
/// the end of `u64`. No memory is taken, here and below.
pub fn read_instances(text: &[u8]) -> Option<u64>
    ensures { (study : Question) → IsCount study text.now result }
{
    if text.len() > LONGEST {
        return None;
    }
    read_count(text, b"instances")
}

/// The profile and the outcome of a row, where the line is one and has at most 4,096 bytes.
pub fn read_mark_row<K: OutcomeKind>(kind: &K, text: &[u8]) -> Option<(u32, u8)>
    ensures { (study : Question) → study.size ≡ K.size kind.now →
        read_past study AtNeedRow text.now ≡ option_map (λ row. Plain (Row row.0 row.1)) result }
{
    if text.len() > LONGEST {
        return None;
    }
    read_row_parts(kind, text)
}

/// Whether a line is the last one, `end`.
pub fn is_end(text: &[u8]) -> bool
    ensures { (study : Question) →
        read_past study AtSharpEnd text.now ≡ (if result then Some (Plain End) else None) }
{
    if text.len() > LONGEST {
        return false;
    }
    is_same(text, b"end")
}
