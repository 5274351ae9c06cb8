//! By which ballots voters gain.

ghost use Rattle.std.specs.Prelude.{◌≡◌, ◌^◌, ◌-◌, ◌<◌, ◌||◌, ◌==◌, IsTrue, slice_index};
ghost use Rattle.std.specs.List.{find, list_all};
ghost use Rattle.vocab.specs.declared.kinds.Kind.TheVariants.{Sets};
ghost use Rattle.vocab.specs.declared.kinds.Sort.TheVariants.{Ballot, Profile};
ghost use Rattle.vocab.specs.Size.{sort_count};
ghost use Rattle.meaning.specs.Space.{prefers};
ghost use Rattle.meaning.specs.Subsets.{elements};
ghost use Rattle.meaning.specs.Truth.{is_rule};
ghost use Rattle.choice_sets.specs.Gains.{are_as_good, first_gain, gains, of_profile, of_voter};

use crate::elements::is_element;
use crate::kind::SetsKind;
use outcomes::OutcomeKind;
use profiles::{Space, laws};
use vocab::Table;

/// At a profile a voter casts another ballot.
#[derive(Clone, Copy, Debug, PartialEq, Eq)]
pub struct Manipulation {
    pub profile: u32,
    pub voter: u32,
    pub ballot: u32,
}

/// A voter at a profile.
#[derive(Drop)]
struct VoterAt<'a> {
    space: &'a Space,
    profile: u32,
    voter: u32,
    ghost listed: { profile < sort_count space.now Profile },
    ghost votes: { voter < space.now.voters },
}

/// A rule whose outcomes are sets, as its table.
#[derive(Drop)]
struct SetRule<'a> {
    space: &'a Space,
    table: &'a Table,
    ghost gives_sets: { space.now.kind ≡ Sets },
    ghost rule: { IsTrue (is_rule space.now table.now) },
}

/// Whether an alternative is another, or stands above it in a voter's ballot at a profile.
fn is_same_or_above(at: &VoterAt, y: u8, x: u8) -> bool
    requires y { y < at.now.space.now.alternatives }
    requires x { x < at.now.space.now.alternatives }
    ensures { result ≡ (y == x || prefers at.now.space.now at.now.voter y x at.now.profile) }
{
    y == x
        || at
            .space
            .prefers(at.voter, u32::from(y), u32::from(x), at.profile)
}

/// Whether an alternative is each element of a set, or stands above it in a voter's ballot at a profile.
fn is_as_good(at: &VoterAt, y: u8, set: u32) -> bool
    requires y { y < at.now.space.now.alternatives }
    requires set { set < 2 ^ at.now.space.now.alternatives - 1 }
    ensures { result ≡ list_all (λ x. y == x || prefers at.now.space.now at.now.voter y x at.now.profile)
        (elements at.now.space.now.alternatives set) }
{
    laws::spaces_have_sizes(at.space);
    for x in 0..at.space.size().alternatives() {
        if is_element(set, x) && !is_same_or_above(at, y, x) {
            return false;
        }
    }
    true
}

/// Whether each element of a set is each element of another, or stands above it in a voter's ballot at a
/// profile.
fn are_as_good(at: &VoterAt, set: u32, other: u32) -> bool
    requires set { set < 2 ^ at.now.space.now.alternatives - 1 }
    requires other { other < 2 ^ at.now.space.now.alternatives - 1 }
    ensures { result ≡ are_as_good at.now.space.now at.now.voter at.now.profile
        (elements at.now.space.now.alternatives set) (elements at.now.space.now.alternatives other) }
{
    laws::spaces_have_sizes(at.space);
    for y in 0..at.space.size().alternatives() {
        if is_element(set, y) && !is_as_good(at, y, other) {
            return false;
        }
    }
    true
}

/// The outcome at a profile.
fn outcome_at(rule: &SetRule, profile: u32) -> u32
    requires { profile < sort_count rule.now.space.now Profile }
    ensures value { result ≡ slice_index rule.now.table.now profile }
    ensures in_range { result < 2 ^ rule.now.space.now.alternatives - 1 }
{
    laws::spaces_have_sizes(rule.space);
    u32::from(*rule.table.get(profile as usize))
}

/// Whether the voter gains.
fn is_gain(rule: &SetRule, manipulation: Manipulation) -> bool
    requires profile { manipulation.profile < sort_count rule.now.space.now Profile }
    requires voter { manipulation.voter < rule.now.space.now.voters }
    requires ballot { manipulation.ballot < sort_count rule.now.space.now Ballot }
    ensures { result ≡ gains rule.now.space.now rule.now.table.now manipulation }
{
    let Manipulation {
        profile,
        voter,
        ballot,
    } = manipulation;
    let space = rule.space;
    if space.ballot_of(profile, voter) >= space.ballots() {
        return false;
    }
    let before = outcome_at(rule, profile);
    let after = outcome_at(rule, space.with(profile, voter, ballot));
    let at = VoterAt {
        space,
        profile,
        voter,
    };
    after != before && are_as_good(&at, after, before)
}

/// The first ballot by which a voter gains at a profile.
fn gain_of_voter(rule: &SetRule, profile: u32, voter: u32) -> Option<Manipulation>
    requires profile { profile < sort_count rule.now.space.now Profile }
    requires voter { voter < rule.now.space.now.voters }
    ensures { result ≡ find (gains rule.now.space.now rule.now.table.now)
        (of_voter rule.now.space.now profile voter) }
{
    for ballot in 0..rule.space.ballots() {
        let manipulation = Manipulation {
            profile,
            voter,
            ballot,
        };
        if is_gain(rule, manipulation) {
            return Some(manipulation);
        }
    }
    None
}

/// The first gain at a profile, by voter and ballot.
fn gain_at(rule: &SetRule, profile: u32) -> Option<Manipulation>
    requires { profile < sort_count rule.now.space.now Profile }
    ensures { result ≡ find (gains rule.now.space.now rule.now.table.now)
        (of_profile rule.now.space.now profile) }
{
    for voter in 0..u32::from(rule.space.size().voters()) {
        let found = gain_of_voter(rule, profile, voter);
        if found.is_some() {
            return found;
        }
    }
    None
}

/// The first manipulation, by profile, voter and ballot, by which its voter gains: None exactly where no voter
/// gains by any. The source of what a gain is: Kelly, "Strategy-proofness and social choice functions without
/// singlevaluedness" (1977). No memory is taken.
pub fn gain(kind: &SetsKind, table: &Table) -> Option<Manipulation>
    requires { IsTrue (is_rule (⟦<SetsKind as OutcomeKind>⟧.size kind.now) table.now) }
    ensures { result ≡ first_gain (⟦<SetsKind as OutcomeKind>⟧.size kind.now) table.now }
{
    let rule = SetRule {
        space: kind.space(),
        table,
    };
    for profile in 0..rule.space.count() {
        let found = gain_at(&rule, profile);
        if found.is_some() {
            return found;
        }
    }
    None
}
