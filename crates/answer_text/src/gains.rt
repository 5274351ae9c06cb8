//! What is said of a gain in a set-valued rule.

use edge::{Failed, Sink};
use profiles::ProfileText;
use texts::{Number, Page, Raw, Text, Two};
use vocab::Name;

/// A voter, from 1, who gains at a profile by a ballot, with the sets that the rule gives at the changed profile
/// and at the profile, as they are written.
#[derive(Clone, Copy, Debug)]
pub struct GainWords {
    pub voter: u32,
    pub profile: ProfileText,
    pub ballot: Name,
    pub after: Name,
    pub before: Name,
}

/// The line for a gain.
#[derive(Drop)]
pub struct GainLine<'a>(pub &'a GainWords);

impl Text for GainLine<'_> {
    ghost use Rattle.answer_text.specs.Gains.{words_text};

    ghost can = { λ _. Unit {0} };

    ghost text = { λ line. words_text line.0.now };

    fn pour<O: Sink>(&self, page: &mut Page, out: &mut O) -> Result<(), Failed> {
        let after = Raw(self.0.after.bytes());
        let before = Raw(self.0.before.bytes());
        let sets = Two(after, Two(Raw(b" over "), Two(before, Raw(b"\n"))));
        let ballot = Raw(self.0.ballot.bytes());
        let change = Two(Raw(b" gains by "), Two(ballot, Two(Raw(b": "), sets)));
        let profile = Raw(self.0.profile.bytes());
        let place = Two(Raw(b" at "), Two(profile, change));
        Two(Raw(b"voter "), Two(Number(u64::from(self.0.voter)), place)).pour(page, out)
    }
}
