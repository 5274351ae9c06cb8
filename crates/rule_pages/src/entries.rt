//! Rules as lists of their profiles.

ghost use Rattle.std.specs.Prelude.{◌≡◌, ◌++◌, ◌<◌, slice_index, OnOk};
ghost use Rattle.std.specs.List.{flat_map};
ghost use Rattle.vocab.specs.declared.kinds.Sort.TheVariants.{Profile};
ghost use Rattle.vocab.specs.Range.{below};
ghost use Rattle.vocab.specs.Size.{sort_count, cast_count};
ghost use Rattle.meaning.specs.Space.{casts_of};
ghost use Rattle.rule_pages.specs.Entries.{ruled_html, entry_html, cast_html, entry_under, fold_html, fold_start, rule_list_html};

use html::{Html, put_ballot, put_outcome, put_profile};
use lists::NoMemory;
use outcomes::OutcomeKind;
use profiles::Space;
use profiles::laws::spaces_have_sizes;
use vocab::Table;

/// Adds the outcome of a rule at a profile, if it has one.
fn put_ruled<K: OutcomeKind>(
    out: &mut Html,
    kind: &K,
    table: &Table,
    p: u32,
) -> Result<(), NoMemory>
    ensures { OnOk result (out.new ≡ out.old ++ ruled_html (K.size kind.now) table.now p) }
{
    match table.as_slice().get(p as usize) {
        Some(outcome) => put_outcome(out, kind, *outcome),
        None => Ok(()),
    }
}

/// Adds a profile with the outcome of a rule.
fn put_entry<K: OutcomeKind>(
    out: &mut Html,
    kind: &K,
    table: &Table,
    p: u32,
) -> Result<(), NoMemory>
    ensures { OnOk result (out.new ≡ out.old ++ entry_html (K.size kind.now) table.now p) }
{
    out.append(b"<li>")?;
    put_profile(out, kind.space(), p)?;
    out.append(b" ")?;
    put_ruled(out, kind, table, p)?;
    out.append(b"</li>\n")?;
    Ok(())
}

/// Adds what a voter casts.
fn put_cast(out: &mut Html, space: &Space, cast: u32) -> Result<(), NoMemory>
    ensures { OnOk result (out.new ≡ out.old ++ cast_html space.now cast) }
{
    if cast >= space.ballots() {
        return out.append(b"-");
    }
    put_ballot(out, space, cast)
}

/// What the first voter casts at a profile.
fn first_cast(space: &Space, p: u32) -> u32
    requires { p < sort_count space.now Profile }
    ensures { result ≡ slice_index (casts_of space.now p) 0 }
{
    spaces_have_sizes(space);
    space.ballot_of(p, 0)
}

/// Adds a profile with the outcome of a rule, if the first voter casts this there.
fn put_entry_of<K: OutcomeKind>(
    out: &mut Html,
    kind: &K,
    table: &Table,
    cast: u32,
    p: u32,
) -> Result<(), NoMemory>
    requires { p < sort_count (K.size kind.now) Profile }
    ensures { OnOk result (out.new ≡ out.old ++ entry_under (K.size kind.now) table.now cast p) }
{
    if first_cast(kind.space(), p) != cast {
        return Ok(());
    }
    put_entry(out, kind, table, p)
}

/// Adds the profiles at which the first voter casts this, each with the outcome of a rule.
fn put_entries<K: OutcomeKind>(
    out: &mut Html,
    kind: &K,
    table: &Table,
    cast: u32,
) -> Result<(), NoMemory>
    ensures { OnOk result (out.new ≡ out.old ++
        flat_map (entry_under (K.size kind.now) table.now cast)
        (below (sort_count (K.size kind.now) Profile))) }
{
    let count = kind.space().count();
    for p in 0..count {
        put_entry_of(out, kind, table, cast, p)?;
    }
    Ok(())
}

/// Begins a fold, which stands closed where there are more than a hundred profiles.
fn put_fold_start<K: OutcomeKind>(out: &mut Html, kind: &K) -> Result<(), NoMemory>
    ensures { OnOk result (out.new ≡ out.old ++ fold_start (K.size kind.now)) }
{
    if kind.space().count() > 100 {
        return out.append(b"<details>");
    }
    out.append(b"<details open>")
}

/// Adds what the first voter casts, and behind it the profiles with the outcomes of a rule.
fn put_fold<K: OutcomeKind>(
    out: &mut Html,
    kind: &K,
    table: &Table,
    cast: u32,
) -> Result<(), NoMemory>
    ensures { OnOk result (out.new ≡ out.old ++ fold_html (K.size kind.now) table.now cast) }
{
    put_fold_start(out, kind)?;
    out.append(b"<summary>voter 1: ")?;
    put_cast(out, kind.space(), cast)?;
    out.append(b"</summary><ul class=l>\n")?;
    put_entries(out, kind, table, cast)?;
    out.append(b"</ul></details>\n")?;
    Ok(())
}

/// How many casts a voter can make.
fn cast_count(space: &Space) -> u32
    ensures { result ≡ cast_count space.now }
{
    let ballots = space.ballots();
    if space.size().absent() {
        ballots + 1
    } else {
        ballots
    }
}

/// Adds a rule as a list.
pub(crate) fn put_list<K: OutcomeKind>(
    out: &mut Html,
    kind: &K,
    table: &Table,
) -> Result<(), NoMemory>
    ensures { OnOk result (out.new ≡ out.old ++ rule_list_html (K.size kind.now) table.now) }
{
    let count = cast_count(kind.space());
    for cast in 0..count {
        put_fold(out, kind, table, cast)?;
    }
    Ok(())
}
