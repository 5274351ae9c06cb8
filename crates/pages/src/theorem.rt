//! What a page says of the size of a study, and how profiles and tables are read.

ghost use Rattle.std.specs.Prelude.{◌≡◌, ◌++◌, OnOk};
ghost use Rattle.std.specs.Fmt.{decimal};
ghost use Rattle.std.specs.List.{flat_map};
ghost use Rattle.vocab.specs.declared.kinds.Sort.TheVariants.{Ballot, Profile};
ghost use Rattle.vocab.specs.Range.{below};
ghost use Rattle.vocab.specs.Size.{sort_count};
ghost use Rattle.pages.specs.Theorem.{gives_words, absent_words, lettered_html, listed_ballot_html, some_ballots, allowed_ballots_html, size_html, left_words, mark_words, example_html, profile_words, told_words, grey_words, gridded_words, table_words, reading_html};

use html::{Html, is_gridded, put_alternative, put_ballot, put_number, put_profile};
use lists::NoMemory;
use profiles::Space;
use vocab::{Kind, Size};

/// What a rule gives at a profile.
fn gives_words(kind: Kind) -> &'static [u8]
    ensures { result.now ≡ gives_words kind }
{
    match kind {
        Kind::Choice => b"one alternative, the winner",
        Kind::Ranking => b"one ranking of the alternatives",
        Kind::Sets => b"a set of alternatives that is not empty, the winners",
    }
}

/// Whether voters may stay away.
fn absent_words(size: Size) -> &'static [u8]
    ensures { result.now ≡ absent_words size }
{
    if size.absent() {
        b", or stays away (-)"
    } else {
        b""
    }
}

/// Adds an alternative, a blank before it.
fn put_lettered(out: &mut Html, x: u8) -> Result<(), NoMemory>
    ensures { OnOk result (out.new ≡ out.old ++ lettered_html x) }
{
    out.append(b" ")?;
    put_alternative(out, x)?;
    Ok(())
}

/// Adds all alternatives below a number.
fn put_letters(out: &mut Html, count: u8) -> Result<(), NoMemory>
    ensures { OnOk result (out.new ≡ out.old ++ flat_map lettered_html (below count)) }
{
    for x in 0..count {
        put_lettered(out, x)?;
    }
    Ok(())
}

/// Adds a ballot, a blank before it.
fn put_listed(out: &mut Html, space: &Space, b: u32) -> Result<(), NoMemory>
    ensures { OnOk result (out.new ≡ out.old ++ listed_ballot_html space.now b) }
{
    out.append(b" ")?;
    put_ballot(out, space, b)?;
    Ok(())
}

/// Adds all ballots.
fn put_all_ballots(out: &mut Html, space: &Space) -> Result<(), NoMemory>
    ensures { OnOk result (out.new ≡ out.old ++
        flat_map (listed_ballot_html space.now) (below (sort_count space.now Ballot))) }
{
    let count = space.ballots();
    for b in 0..count {
        put_listed(out, space, b)?;
    }
    Ok(())
}

/// Adds the ballots that voters may cast, one by one.
fn put_some_ballots(out: &mut Html, space: &Space) -> Result<(), NoMemory>
    ensures { OnOk result (out.new ≡ out.old ++ some_ballots space.now) }
{
    out.append(b"one of the rankings")?;
    put_all_ballots(out, space)?;
    Ok(())
}

/// Adds the ballots that voters may cast.
fn put_ballots(out: &mut Html, space: &Space) -> Result<(), NoMemory>
    ensures { OnOk result (out.new ≡ out.old ++ allowed_ballots_html space.now) }
{
    if space.size().full() {
        return out.append(b"any ranking of them");
    }
    put_some_ballots(out, space)
}

/// Adds how many voters there are.
fn put_voters(out: &mut Html, space: &Space) -> Result<(), NoMemory>
    ensures { OnOk result (out.new ≡ out.old ++ decimal space.now.voters) }
{
    put_number(out, space.size().voters() as u64)
}

/// Adds all alternatives.
fn put_alternatives(out: &mut Html, space: &Space) -> Result<(), NoMemory>
    ensures { OnOk result (out.new ≡ out.old ++ flat_map lettered_html (below space.now.alternatives)) }
{
    put_letters(out, space.size().alternatives())
}

/// Adds whether voters may stay away.
fn put_absent(out: &mut Html, space: &Space) -> Result<(), NoMemory>
    ensures { OnOk result (out.new ≡ out.old ++ absent_words space.now) }
{
    out.append(absent_words(space.size()))
}

/// Adds what a rule gives at a profile.
fn put_gives(out: &mut Html, space: &Space) -> Result<(), NoMemory>
    ensures { OnOk result (out.new ≡ out.old ++ gives_words space.now.kind) }
{
    out.append(gives_words(space.size().kind()))
}

/// Adds how many profiles there are.
fn put_count(out: &mut Html, space: &Space) -> Result<(), NoMemory>
    ensures { OnOk result (out.new ≡ out.old ++ decimal (sort_count space.now Profile)) }
{
    put_number(out, space.count() as u64)
}

/// Adds the size, and what a rule is.
pub(crate) fn put_size(out: &mut Html, space: &Space) -> Result<(), NoMemory>
    ensures { OnOk result (out.new ≡ out.old ++ size_html space.now) }
{
    out.append(b"<p>Voters: ")?;
    put_voters(out, space)?;
    out.append(b". Alternatives:")?;
    put_alternatives(out, space)?;
    out.append(b". Each voter casts ")?;
    put_ballots(out, space)?;
    put_absent(out, space)?;
    out.append(b". A rule gives ")?;
    put_gives(out, space)?;
    out.append(b", at each of the ")?;
    put_count(out, space)?;
    out.append(b" profiles of ballots.</p>\n")?;
    Ok(())
}

/// What follows by what is left, in a proof.
fn left_words(told: bool) -> &'static [u8]
    ensures { result.now ≡ left_words told }
{
    if told {
        b" What follows by what is left holds in every outcome that agrees with the facts named there; where nothing is left, no outcome agrees with them."
    } else {
        b""
    }
}

/// A fact in a table of a proof.
fn mark_words(kind: Kind) -> &'static [u8]
    ensures { result.now ≡ mark_words kind }
{
    match kind {
        Kind::Choice => b"a struck letter does not win",
        Kind::Ranking => b"<code>ab</code> says that a is above b",
        Kind::Sets => b"a struck letter does not win",
    }
}

/// Adds how a profile is read, by one of them.
fn put_example(out: &mut Html, space: &Space) -> Result<(), NoMemory>
    ensures { OnOk result (out.new ≡ out.old ++ example_html space.now) }
{
    put_profile(out, space, 1)?;
    out.append(
        b" is a profile: voter 1's ballot comes first, and in each ballot the best alternative.",
    )?;
    Ok(())
}

/// Adds how a profile is read, if there are several.
fn put_profile_words(out: &mut Html, space: &Space) -> Result<(), NoMemory>
    ensures { OnOk result (out.new ≡ out.old ++ profile_words space.now) }
{
    if space.count() > 1 {
        return put_example(out, space);
    }
    Ok(())
}

/// Adds what follows by what is left, if there is a proof.
fn put_left(out: &mut Html, told: bool) -> Result<(), NoMemory>
    ensures { OnOk result (out.new ≡ out.old ++ left_words told) }
{
    out.append(left_words(told))
}

/// Adds what a fact in a table of a proof is.
fn put_marks(out: &mut Html, space: &Space) -> Result<(), NoMemory>
    ensures { OnOk result (out.new ≡ out.old ++ mark_words space.now.kind) }
{
    out.append(mark_words(space.size().kind()))
}

/// Adds how a table of a proof is read: a fact, what is grey, and what small numbers are.
fn put_told(out: &mut Html, space: &Space) -> Result<(), NoMemory>
    ensures { OnOk result (out.new ≡ out.old ++ told_words space.now) }
{
    out.append(b" In the tables of the proof ")?;
    put_marks(out, space)?;
    out.append(
        b"; grey is supposed, or forced without a supposition; a small number is that of the sentence which states the fact, a grey one among those without any supposition.",
    )?;
    Ok(())
}

/// Adds how a table of a proof is read, if there is a proof.
fn put_grey(out: &mut Html, space: &Space, told: bool) -> Result<(), NoMemory>
    ensures { OnOk result (out.new ≡ out.old ++ grey_words space.now told) }
{
    if told {
        return put_told(out, space);
    }
    Ok(())
}

/// Adds how tables are read, with or without a proof.
fn put_gridded(out: &mut Html, space: &Space, told: bool) -> Result<(), NoMemory>
    ensures { OnOk result (out.new ≡ out.old ++ gridded_words space.now told) }
{
    out.append(b" In a table the row is voter 1's ballot, and the column voter 2's.")?;
    put_grey(out, space, told)?;
    Ok(())
}

/// Adds how tables are read, if there are tables.
fn put_table_words(out: &mut Html, space: &Space, told: bool) -> Result<(), NoMemory>
    ensures { OnOk result (out.new ≡ out.old ++ table_words space.now told) }
{
    if is_gridded(space, 25) {
        return put_gridded(out, space, told);
    }
    Ok(())
}

/// Adds how a page is read, with or without a story.
pub(crate) fn put_reading(out: &mut Html, space: &Space, told: bool) -> Result<(), NoMemory>
    ensures { OnOk result (out.new ≡ out.old ++ reading_html space.now told) }
{
    out.append(b"<p class=z>")?;
    put_profile_words(out, space)?;
    put_left(out, told)?;
    put_table_words(out, space, told)?;
    out.append(b"</p>\n")?;
    Ok(())
}
