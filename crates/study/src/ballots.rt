//! Which rankings voters may cast, and the size of a study.

ghost use Rattle.std.specs.Prelude.{◌≡◌, ◌≢◌, ◌<◌, Some, Ok, Err, IfOk, IfErr};
ghost use Rattle.vocab.specs.Size.{is_digit_set};
ghost use Rattle.study.specs.Ballots.{alternatives_of, ballots_in, sized};
ghost use Rattle.study.specs.Refusing.{Gives};

use crate::drafts::Head;
use crate::entries::{Texts, copied};
use crate::faults::{StudyFault, Text};
use lists::NoMemory;
use profiles::{Alternatives, place_of, ranking_count};
use std::alloc::Global;
use vocab::{Size, SizeFault};

/// How many alternatives there are, if they and the voters are as many as a size may have.
fn alternatives_of(voters: i64, alternatives: i64) -> Result<Alternatives, StudyFault>
    ensures ok { IfOk result (λ found. alternatives_of voters alternatives ≡ Ok found.number) }
    ensures refused { IfErr result (λ fault. alternatives_of voters alternatives ≡ Err fault) }
{
    if voters < 1 || 8 < voters {
        return Err(StudyFault::Size(SizeFault::Voters(voters)));
    }
    if alternatives < 1 || 5 < alternatives {
        return Err(StudyFault::Size(SizeFault::Alternatives(alternatives)));
    }
    Ok(Alternatives {
        number: alternatives as u8,
    })
}

/// The fault of a ballot.
fn ballot_fault(alloc: Global, text: &Text) -> StudyFault
    ensures { result ≢ StudyFault.NoMemory → result ≡ StudyFault.Ballot text.now }
{
    match copied(alloc, text.as_slice()) {
        Ok(text) => StudyFault::Ballot(text),
        Err(NoMemory) => StudyFault::NoMemory,
    }
}

/// Whether the ranking of a place is among those that may be cast.
fn is_set(ballots: u128, place: u32) -> bool
    requires { place < 120 }
    ensures { result ≡ is_digit_set ballots place }
{
    (ballots >> place) & 1 == 1
}

/// The rankings of some texts, as digits, or the first text that is no ranking or stands earlier.
fn listed_digits(
    alloc: Global,
    alternatives: Alternatives,
    texts: &[Text],
) -> Result<u128, StudyFault>
    ensures { Gives (ballots_in alternatives.number (Some texts.now)) result }
{
    let mut ballots = 0;
    for text in texts {
        let Some(place) = place_of(alternatives, text.as_slice()) else {
            return Err(ballot_fault(alloc, text));
        };
        if is_set(ballots, place) {
            return Err(ballot_fault(alloc, text));
        }
        ballots |= 1 << place;
    }
    Ok(ballots)
}

/// The rankings that may be cast, as digits: those of the texts, or all where there are none.
fn ballots_in(
    alloc: Global,
    alternatives: Alternatives,
    texts: &Option<Texts>,
) -> Result<u128, StudyFault>
    ensures { Gives (ballots_in alternatives.number texts.now) result }
{
    match texts {
        Some(texts) => listed_digits(alloc, alternatives, texts.as_slice()),
        None => Ok((1 << ranking_count(alternatives)) - 1),
    }
}

/// The size of a study, or its first fault.
#[tactic(auto, unfolding(crate::specs::Ballots::sized))]
pub(crate) fn sized(alloc: Global, head: &Head) -> Result<Size, StudyFault>
    ensures { Gives (sized head.now) result }
{
    let m = alternatives_of(head.voters, head.alternatives)?;
    let ballots = ballots_in(alloc, m, &head.ballots)?;
    match Size::with_domain(
        head.kind,
        head.voters,
        head.alternatives,
        ballots,
        head.absent,
    ) {
        Ok(size) => Ok(size),
        Err(fault) => Err(StudyFault::Size(fault)),
    }
}
