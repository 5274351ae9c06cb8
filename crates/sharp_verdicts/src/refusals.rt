//! Why a line of a sharp text is refused.

use verdicts::Refusal;

/// Why a line of a sharp text is refused: as a line of a report may be; or `Instance`, where it does not say
/// how many instances there are, or an instance is not the next one.
#[derive(Clone, Copy, Debug, PartialEq, Eq)]
pub enum SharpRefusal {
    Report(Refusal),
    Instance,
}
