//! Cuts a text at its first line end.

ghost use Rattle.std.specs.Prelude.{◌≡◌, true, MatchOption};
ghost use Rattle.verdicts.specs.Judge.{has_no_end};
ghost use Rattle.report_files.specs.Cutting.{IsLineCut, IsFirstEnd};

/// The place of the first line end.
fn first_end(text: &[u8]) -> Option<usize>
    ensures { MatchOption result (has_no_end text.now ≡ true) (IsFirstEnd text.now) }
{
    for (place, byte) in text.iter().enumerate() {
        if *byte == b'\n' {
            return Some(place);
        }
    }
    None
}

/// What stands before the first line end, and what follows that line end: None where the text has none.
pub fn cut_line(text: &[u8]) -> Option<(&[u8], &[u8])>
    ensures { IsLineCut text.now result }
{
    let end = first_end(text)?;
    Some((&text[..end], &text[end + 1..]))
}
