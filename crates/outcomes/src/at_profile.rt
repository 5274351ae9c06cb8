//! Profiles at which variables of outcomes stand.

ghost use Rattle.std.specs.Prelude.{◌≡◌, ◌<◌, ◌≤◌};
ghost use Rattle.vocab.specs.Size.{sort_count};
ghost use Rattle.vocab.specs.declared.kinds.Sort.TheVariants.{Profile};

use profiles::{Alternatives, Space, laws};

/// A profile, by its number of at most 20000, and how many alternatives there are: where variables of
/// outcomes are counted.
#[derive(Clone, Copy)]
pub struct AtProfile {
    pub alternatives: Alternatives,
    pub profile: u32,
    pub ghost few: { profile ≤ 20000 },
}

impl AtProfile {
    /// A profile of a space.
    pub fn new(space: &Space, profile: u32) -> AtProfile
        requires { profile < sort_count space.now Profile }
        ensures number { result.alternatives.number ≡ space.now.alternatives }
        ensures profile { result.profile ≡ profile }
    {
        laws::spaces_have_sizes(space);
        AtProfile {
            alternatives: space.alternatives(),
            profile,
        }
    }
}
