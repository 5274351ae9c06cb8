//! Profiles as columns of ballots.

ghost use Rattle.std.specs.Prelude.{◌≡◌, ◌++◌, ◌<◌, slice_get, OnOk};
ghost use Rattle.std.specs.List.{flat_map};
ghost use Rattle.vocab.specs.declared.kinds.Sort.TheVariants.{Ballot, Profile};
ghost use Rattle.vocab.specs.Range.{below};
ghost use Rattle.vocab.specs.Size.{sort_count};
ghost use Rattle.html.specs.Columns.{byte_html, voter_html, letter_html, spot_html, rank_html, columns_html, profile_columns_html};

use crate::escapes::{Html, put_number};
use lists::NoMemory;
use profiles::Space;

/// Adds the byte at a place of a text, if there is one.
fn put_byte_at(out: &mut Html, text: &[u8], k: u8) -> Result<(), NoMemory>
    ensures { OnOk result (out.new ≡ out.old ++ byte_html (slice_get text.now k)) }
{
    match text.get(k as usize) {
        Some(byte) => out.push(*byte),
        None => Ok(()),
    }
}

/// Adds the letter at a place of a cast.
fn put_letter(out: &mut Html, space: &Space, k: u8, c: u32) -> Result<(), NoMemory>
    ensures { OnOk result (out.new ≡ out.old ++ letter_html space.now k c) }
{
    if c >= space.ballots() {
        return out.append(b"-");
    }
    let ballot = space.ballot_text(c);
    put_byte_at(out, ballot.bytes(), k)?;
    Ok(())
}

/// Adds the letter at a place of a voter's cast.
fn put_spot(out: &mut Html, space: &Space, p: u32, k: u8, i: u8) -> Result<(), NoMemory>
    requires profile { p < sort_count space.now Profile }
    requires voter { i < space.now.voters }
    ensures { OnOk result (out.new ≡ out.old ++ spot_html space.now p k i) }
{
    let cast = space.ballot_of(p, u32::from(i));
    out.append(b"<td>")?;
    put_letter(out, space, k, cast)?;
    out.append(b"</td>")?;
    Ok(())
}

/// Adds the letters at a place of all casts.
fn put_spots(out: &mut Html, space: &Space, p: u32, k: u8) -> Result<(), NoMemory>
    requires { p < sort_count space.now Profile }
    ensures { OnOk result (out.new ≡ out.old ++ flat_map (spot_html space.now p k) (below space.now.voters)) }
{
    let count = space.size().voters();
    for i in 0..count {
        put_spot(out, space, p, k, i)?;
    }
    Ok(())
}

/// Adds the letters at a place of all casts as a row.
fn put_rank(out: &mut Html, space: &Space, p: u32, k: u8) -> Result<(), NoMemory>
    requires { p < sort_count space.now Profile }
    ensures { OnOk result (out.new ≡ out.old ++ rank_html space.now p k) }
{
    out.append(b"<tr>")?;
    put_spots(out, space, p, k)?;
    out.append(b"</tr>")?;
    Ok(())
}

/// Adds the rows of all places.
fn put_ranks(out: &mut Html, space: &Space, p: u32) -> Result<(), NoMemory>
    requires { p < sort_count space.now Profile }
    ensures { OnOk result (out.new ≡ out.old ++
        flat_map (rank_html space.now p) (below space.now.alternatives)) }
{
    let count = space.size().alternatives();
    for k in 0..count {
        put_rank(out, space, p, k)?;
    }
    Ok(())
}

/// Adds the number of a voter.
fn put_voter(out: &mut Html, i: u8) -> Result<(), NoMemory>
    ensures { OnOk result (out.new ≡ out.old ++ voter_html i) }
{
    out.append(b"<th>")?;
    put_number(out, u64::from(i) + 1)?;
    out.append(b"</th>")?;
    Ok(())
}

/// Adds the numbers of all voters.
fn put_voters(out: &mut Html, space: &Space) -> Result<(), NoMemory>
    ensures { OnOk result (out.new ≡ out.old ++ flat_map voter_html (below space.now.voters)) }
{
    let count = space.size().voters();
    for i in 0..count {
        put_voter(out, i)?;
    }
    Ok(())
}

/// Adds the columns of a profile.
fn put_columns(out: &mut Html, space: &Space, p: u32) -> Result<(), NoMemory>
    requires { p < sort_count space.now Profile }
    ensures { OnOk result (out.new ≡ out.old ++ columns_html space.now p) }
{
    out.append(b"<table class=p><tr>")?;
    put_voters(out, space)?;
    out.append(b"</tr>")?;
    put_ranks(out, space, p)?;
    out.append(b"</table>")?;
    Ok(())
}

/// Adds a profile as columns, if it is one of the size.
pub fn put_profile_columns(out: &mut Html, space: &Space, p: u32) -> Result<(), NoMemory>
    ensures { OnOk result (out.new ≡ out.old ++ profile_columns_html space.now p) }
{
    if p >= space.count() {
        return Ok(());
    }
    put_columns(out, space, p)
}
