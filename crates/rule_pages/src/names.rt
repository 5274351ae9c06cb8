//! Rules that have a name.

ghost use Rattle.std.specs.Prelude.{◌≡◌, ◌<◌, slice_get};
ghost use Rattle.vocab.specs.declared.kinds.Sort.TheVariants.{Profile};
ghost use Rattle.vocab.specs.Size.{sort_count, outcome_count};
ghost use Rattle.rule_pages.specs.Names.{is_taken, is_by_ballot, is_by_voter, gives, is_given, has_rule_name, constant_name, voter_name, name_of};

use crate::reversed::{is_first, is_last, is_reversed};
use outcomes::OutcomeKind;
use vocab::{Kind, Table};

/// How a voter's ballot makes the outcome: it is what the ballot ranks first, or last. Where rules rank it is the
/// ballot, or the ballot turned round; where they give sets the alternative is alone in its set.
#[derive(Clone, Copy, Debug, PartialEq, Eq)]
pub enum Role {
    Decides,
    LastWins,
}

/// The name of a rule: the outcome of a code at every profile, or what the ballot of a voter gives; the first
/// voter is 0.
#[derive(Clone, Copy, Debug, PartialEq, Eq)]
pub enum RuleName {
    Always(u8),
    Voter(Role, u8),
}

/// Whether the letters of an outcome are those that a ballot gives.
fn is_decided(kind: Kind, ballot: &[u8], outcome: &[u8]) -> bool
    ensures { result ≡ is_taken kind Role.Decides ballot.now outcome.now }
{
    match kind {
        Kind::Choice => is_first(outcome, ballot),
        Kind::Ranking => outcome == ballot,
        Kind::Sets => is_first(outcome, ballot),
    }
}

/// Whether the letters of an outcome are those that a ballot gives, turned round.
fn is_turned(kind: Kind, ballot: &[u8], outcome: &[u8]) -> bool
    ensures { result ≡ is_taken kind Role.LastWins ballot.now outcome.now }
{
    match kind {
        Kind::Choice => is_last(outcome, ballot),
        Kind::Ranking => is_reversed(outcome, ballot),
        Kind::Sets => is_last(outcome, ballot),
    }
}

/// Whether the letters of an outcome are those that a ballot gives by a role.
fn is_taken(kind: Kind, role: Role, ballot: &[u8], outcome: &[u8]) -> bool
    ensures { result ≡ is_taken kind role ballot.now outcome.now }
{
    match role {
        Role::Decides => is_decided(kind, ballot, outcome),
        Role::LastWins => is_turned(kind, ballot, outcome),
    }
}

/// Whether a cast is a ballot that gives an outcome.
fn is_by_ballot<K: OutcomeKind>(kind: &K, role: Role, outcome: u32, cast: u32) -> bool
    requires { outcome < outcome_count (K.size kind.now).kind (K.size kind.now).alternatives }
    ensures { result ≡ is_by_ballot (K.size kind.now) role outcome cast }
{
    let space = kind.space();
    if cast >= space.ballots() {
        return false;
    }
    let ballot = space.ballot_text(cast);
    let text = kind.text(outcome);
    is_taken(space.size().kind(), role, ballot.bytes(), text.bytes())
}

/// Whether a voter's ballot at a profile gives an outcome.
fn is_by_voter<K: OutcomeKind>(kind: &K, role: Role, voter: u8, p: u32, outcome: u32) -> bool
    requires { p < sort_count (K.size kind.now) Profile }
    ensures { result ≡ is_by_voter (K.size kind.now) role voter p outcome }
{
    let space = kind.space();
    if voter >= space.size().voters() || outcome >= kind.outcomes() {
        return false;
    }
    is_by_ballot(kind, role, outcome, space.ballot_of(p, u32::from(voter)))
}

/// Whether a rule of a name gives an outcome at a profile.
fn gives<K: OutcomeKind>(kind: &K, name: RuleName, p: u32, outcome: u32) -> bool
    requires { p < sort_count (K.size kind.now) Profile }
    ensures { result ≡ gives (K.size kind.now) name p outcome }
{
    match name {
        RuleName::Always(x) => outcome == u32::from(x),
        RuleName::Voter(role, voter) => is_by_voter(kind, role, voter, p, outcome),
    }
}

/// Whether a rule gives at a profile what one of a name does.
fn is_given<K: OutcomeKind>(kind: &K, table: &Table, name: RuleName, p: u32) -> bool
    requires { p < sort_count (K.size kind.now) Profile }
    ensures { result ≡ is_given (K.size kind.now) name p (slice_get table.now p) }
{
    match table.as_slice().get(p as usize) {
        Some(outcome) => gives(kind, name, p, u32::from(*outcome)),
        None => false,
    }
}

/// Whether a rule has a name.
fn has_rule_name<K: OutcomeKind>(kind: &K, table: &Table, name: RuleName) -> bool
    ensures { result ≡ has_rule_name (K.size kind.now) table.now name }
{
    let count = kind.space().count();
    for p in 0..count {
        if !is_given(kind, table, name, p) {
            return false;
        }
    }
    true
}

/// The outcome of a rule, if it is the same at every profile.
fn constant_name<K: OutcomeKind>(kind: &K, table: &Table) -> Option<RuleName>
    ensures { result ≡ constant_name (K.size kind.now) table.now }
{
    let first = match table.as_slice().first() {
        Some(outcome) => *outcome,
        None => 0,
    };
    let name = RuleName::Always(first);
    if has_rule_name(kind, table, name) {
        Some(name)
    } else {
        None
    }
}

/// The first voter whose ballot makes the outcome by a role at every profile.
fn voter_name<K: OutcomeKind>(kind: &K, table: &Table, role: Role) -> Option<RuleName>
    ensures { result ≡ voter_name (K.size kind.now) table.now role }
{
    let voters = kind.space().size().voters();
    for voter in 0..voters {
        let name = RuleName::Voter(role, voter);
        if has_rule_name(kind, table, name) {
            return Some(name);
        }
    }
    None
}

/// The name of a rule, if it has one: where it has several, that of a constant outcome before one of a voter, a
/// voter who decides before one whose last wins, and the first voter.
pub fn name_of<K: OutcomeKind>(kind: &K, table: &Table) -> Option<RuleName>
    ensures { result ≡ name_of (K.size kind.now) table.now }
{
    if let Some(name) = constant_name(kind, table) {
        return Some(name);
    }
    if let Some(name) = voter_name(kind, table, Role::Decides) {
        return Some(name);
    }
    voter_name(kind, table, Role::LastWins)
}
