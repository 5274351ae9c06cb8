//! The names of rules in words.

ghost use Rattle.std.specs.Prelude.{◌≡◌, ◌++◌, ◌+◌, Some, None, OnOk};
ghost use Rattle.std.specs.Fmt.{decimal};
ghost use Rattle.rule_pages.specs.Named.{before_voter, behind_voter, name_words, named_html, name_html};

use crate::names::{Role, RuleName, name_of};
use html::{Html, put_number, put_outcome};
use lists::NoMemory;
use outcomes::OutcomeKind;
use profiles::Space;
use vocab::{Kind, Table};

/// What stands before the number of a voter.
fn before_voter(kind: Kind, role: Role) -> &'static [u8]
    ensures { result.now ≡ before_voter kind role }
{
    match (kind, role) {
        (Kind::Ranking, Role::LastWins) => b"the reverse of voter ",
        _ => b"voter ",
    }
}

/// What stands behind the number of a voter.
fn behind_voter(kind: Kind, role: Role) -> &'static [u8]
    ensures { result.now ≡ behind_voter kind role }
{
    match (kind, role) {
        (_, Role::Decides) => b" decides",
        (Kind::Choice, Role::LastWins) => b"'s last wins",
        (Kind::Ranking, Role::LastWins) => b"'s ranking",
        (Kind::Sets, Role::LastWins) => b"'s last wins alone",
    }
}

/// Adds an outcome that is given always.
fn put_always<K: OutcomeKind>(out: &mut Html, kind: &K, outcome: u8) -> Result<(), NoMemory>
    ensures { OnOk result (out.new ≡ out.old ++ name_words (K.size kind.now) (RuleName.Always outcome)) }
{
    out.append(b"always ")?;
    put_outcome(out, kind, outcome)?;
    Ok(())
}

/// Adds what stands before the number of a voter.
fn put_before(out: &mut Html, space: &Space, role: Role) -> Result<(), NoMemory>
    ensures { OnOk result (out.new ≡ out.old ++ before_voter space.now.kind role) }
{
    out.append(before_voter(space.size().kind(), role))
}

/// Adds what stands behind the number of a voter.
fn put_behind(out: &mut Html, space: &Space, role: Role) -> Result<(), NoMemory>
    ensures { OnOk result (out.new ≡ out.old ++ behind_voter space.now.kind role) }
{
    out.append(behind_voter(space.size().kind(), role))
}

/// Adds the number of a voter, from 1.
fn put_voter_number(out: &mut Html, voter: u8) -> Result<(), NoMemory>
    ensures { OnOk result (out.new ≡ out.old ++ decimal (voter + 1)) }
{
    put_number(out, u64::from(voter) + 1)
}

/// Adds a voter with a role.
fn put_voter(out: &mut Html, space: &Space, role: Role, voter: u8) -> Result<(), NoMemory>
    ensures { OnOk result (out.new ≡ out.old ++ name_words space.now (RuleName.Voter role voter)) }
{
    put_before(out, space, role)?;
    put_voter_number(out, voter)?;
    put_behind(out, space, role)?;
    Ok(())
}

/// Adds a name.
fn put_words<K: OutcomeKind>(out: &mut Html, kind: &K, name: RuleName) -> Result<(), NoMemory>
    ensures { OnOk result (out.new ≡ out.old ++ name_words (K.size kind.now) name) }
{
    match name {
        RuleName::Always(outcome) => put_always(out, kind, outcome),
        RuleName::Voter(role, voter) => put_voter(out, kind.space(), role, voter),
    }
}

/// Adds a name behind a colon.
fn put_named<K: OutcomeKind>(out: &mut Html, kind: &K, name: RuleName) -> Result<(), NoMemory>
    ensures { OnOk result (out.new ≡ out.old ++ named_html (K.size kind.now) (Some name)) }
{
    out.append(b": ")?;
    put_words(out, kind, name)?;
    Ok(())
}

/// Adds the name of a rule behind a colon, if it has one.
pub fn put_name<K: OutcomeKind>(out: &mut Html, kind: &K, table: &Table) -> Result<(), NoMemory>
    ensures { OnOk result (out.new ≡ out.old ++ name_html (K.size kind.now) table.now) }
{
    match name_of(kind, table) {
        Some(name) => put_named(out, kind, name),
        None => Ok(()),
    }
}
