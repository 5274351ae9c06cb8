//! Facts in words.

ghost use Rattle.std.specs.Prelude.{◌≡◌, ◌++◌, OnOk};
ghost use Rattle.std.specs.List.{flat_map};
ghost use Rattle.vocab.specs.Literal.{profile_of};
ghost use Rattle.html.specs.Facts.{letter_of, alternative_html, wins_words, loses_words, claim_html, dotted, ballots_html, profile_html, ballot_html, outcome_html, fact_html, fact_comma};

use crate::escapes::Html;
use lists::NoMemory;
use outcomes::OutcomeKind;
use profiles::Space;
use profiles::laws::spaces_have_sizes;
use vocab::{Kind, Literal};

/// The letter of an alternative.
pub fn letter_of(x: u8) -> u8
    ensures { result ≡ letter_of x }
{
    if x < 26 { b'a' + x } else { b'?' }
}

/// Adds an alternative.
pub fn put_alternative(out: &mut Html, x: u8) -> Result<(), NoMemory>
    ensures { OnOk result (out.new ≡ out.old ++ alternative_html x) }
{
    out.append(b"<b>")?;
    out.push(letter_of(x))?;
    out.append(b"</b>")?;
    Ok(())
}

/// The words that an alternative wins.
fn wins_words(kind: Kind) -> &'static [u8]
    ensures { result.now ≡ wins_words kind }
{
    match kind {
        Kind::Choice => b" wins",
        Kind::Ranking => b" wins",
        Kind::Sets => b" is among the winners",
    }
}

/// The words that an alternative does not win.
fn loses_words(kind: Kind) -> &'static [u8]
    ensures { result.now ≡ loses_words kind }
{
    match kind {
        Kind::Choice => b" does not win",
        Kind::Ranking => b" does not win",
        Kind::Sets => b" is not among the winners",
    }
}

/// Adds what a literal says, without its profile.
pub fn put_claim(out: &mut Html, kind: Kind, literal: &Literal) -> Result<(), NoMemory>
    ensures { OnOk result (out.new ≡ out.old ++ claim_html kind literal.now) }
{
    match *literal {
        Literal::Wins(x, _) => {
            put_alternative(out, x)?;
            out.append(wins_words(kind))?;
            Ok(())
        }
        Literal::Loses(x, _) => {
            put_alternative(out, x)?;
            out.append(loses_words(kind))?;
            Ok(())
        }
        Literal::Above(x, y, _) => {
            put_alternative(out, x)?;
            out.append(b" above ")?;
            put_alternative(out, y)?;
            Ok(())
        }
    }
}

/// Adds a byte of the text of a profile.
fn put_dotted(out: &mut Html, byte: u8) -> Result<(), NoMemory>
    ensures { OnOk result (out.new ≡ out.old ++ dotted byte) }
{
    if byte == b'|' {
        out.append(&[0xC2, 0xB7])
    } else {
        out.push(byte)
    }
}

/// Adds the ballots of the text of a profile.
fn put_all_dotted(out: &mut Html, text: &[u8]) -> Result<(), NoMemory>
    ensures { OnOk result (out.new ≡ out.old ++ flat_map dotted text.now) }
{
    for byte in text {
        put_dotted(out, *byte)?;
    }
    Ok(())
}

/// Adds a profile among many, if it is one of the size.
pub fn put_ballots(out: &mut Html, space: &Space, p: u32) -> Result<(), NoMemory>
    ensures { OnOk result (out.new ≡ out.old ++ ballots_html space.now p) }
{
    if p >= space.count() {
        return Ok(());
    }
    let profile = space.profile_text(p);
    put_all_dotted(out, profile.bytes())?;
    Ok(())
}

/// Adds a profile by itself, if it is one of the size.
pub fn put_profile(out: &mut Html, space: &Space, p: u32) -> Result<(), NoMemory>
    ensures { OnOk result (out.new ≡ out.old ++ profile_html space.now p) }
{
    if p >= space.count() {
        return Ok(());
    }
    let profile = space.profile_text(p);
    out.append(b"<code>")?;
    put_all_dotted(out, profile.bytes())?;
    out.append(b"</code>")?;
    Ok(())
}

/// Adds a ballot, if it is one of the size.
pub fn put_ballot(out: &mut Html, space: &Space, b: u32) -> Result<(), NoMemory>
    ensures { OnOk result (out.new ≡ out.old ++ ballot_html space.now b) }
{
    if b >= space.ballots() {
        return Ok(());
    }
    let ballot = space.ballot_text(b);
    out.append(ballot.bytes())?;
    Ok(())
}

/// Adds an outcome, if it is one of the kind.
pub fn put_outcome<K: OutcomeKind>(out: &mut Html, kind: &K, o: u8) -> Result<(), NoMemory>
    ensures { OnOk result (out.new ≡ out.old ++ outcome_html (K.size kind.now) o) }
{
    let outcome = u32::from(o);
    if outcome >= kind.outcomes() {
        return Ok(());
    }
    let text = kind.text(outcome);
    out.append(text.bytes())?;
    Ok(())
}

/// The profile of a literal.
pub fn profile_of(literal: &Literal) -> u32
    ensures { result ≡ profile_of literal.now }
{
    match *literal {
        Literal::Wins(_, p) => p,
        Literal::Loses(_, p) => p,
        Literal::Above(_, _, p) => p,
    }
}

/// Adds a fact.
pub fn put_fact(out: &mut Html, space: &Space, literal: &Literal) -> Result<(), NoMemory>
    ensures { OnOk result (out.new ≡ out.old ++ fact_html space.now literal.now) }
{
    spaces_have_sizes(space);
    put_claim(out, space.size().kind(), literal)?;
    out.append(b" at ")?;
    put_profile(out, space, profile_of(literal))?;
    Ok(())
}

/// Adds a fact, and a comma.
fn put_fact_comma(out: &mut Html, space: &Space, literal: &Literal) -> Result<(), NoMemory>
    ensures { OnOk result (out.new ≡ out.old ++ fact_comma space.now literal.now) }
{
    put_fact(out, space, literal)?;
    out.append(b", ")?;
    Ok(())
}

/// Adds facts, a comma after each.
pub fn put_facts(out: &mut Html, space: &Space, facts: &[Literal]) -> Result<(), NoMemory>
    ensures { OnOk result (out.new ≡ out.old ++ flat_map (fact_comma space.now) facts.now) }
{
    for fact in facts {
        put_fact_comma(out, space, fact)?;
    }
    Ok(())
}
