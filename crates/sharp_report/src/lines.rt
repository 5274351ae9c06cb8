//! What a line of a sharp text says.

ghost use Rattle.std.specs.Prelude.{◌≡◌};
ghost use Rattle.sharp_report.specs.SharpStands.{told_unless};

use report_lines::Line;
use sharp_verdicts::SharpRefusal;

/// What a line says: that the text is a sharp one; what a line of a report says, as the rows of marks and the
/// last line do; how many instances there are; or the mark of an instance, which is a rule, or open. Of the
/// numbers and the instances of the last three nothing is told: where a line has no fault they are those that
/// are due.
#[derive(Clone, Copy, Debug, PartialEq, Eq)]
pub enum SharpLine {
    Title,
    Plain(Line),
    InstancesAre,
    NeedsRule,
    NeedsOpen,
}

/// What a line says that has no fault, or its refusal.
pub(crate) fn told_unless(
    fault: Option<SharpRefusal>,
    line: SharpLine,
) -> Result<SharpLine, SharpRefusal>
    ensures { result ≡ told_unless fault line }
{
    match fault {
        None => Ok(line),
        Some(refusal) => Err(refusal),
    }
}
