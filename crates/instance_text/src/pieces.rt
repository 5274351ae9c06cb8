//! What sentences are written of: numbers, variables and constants.

ghost use Rattle.std.specs.Prelude.{◌≡◌, ◌+◌, ◌%◌, ◌∷◌, ◌++◌, decimal, slice_get, OnOk};
ghost use Rattle.syntax.specs.Canonical.{term_text};
ghost use Rattle.syntax.specs.Grammar.{word_of_sort};
ghost use Rattle.instance_text.specs.Bodies.{sort_letter, sort_at, ballot_letters, profile_letters, constant, variable_name, written};

use edge::Bytes;
use itoa::Buffer;
use lists::NoMemory;
use profiles::Space;
use profiles::laws::spaces_have_sizes;
use vocab::{Env, Sort};

/// Adds a number.
pub(crate) fn put_number(out: &mut Bytes, number: u64) -> Result<(), NoMemory>
    ensures { OnOk result (out.new ≡ out.old ++ decimal number) }
{
    out.append(Buffer::new().format(number).as_bytes())
}

/// The letter of the variables of a sort.
fn sort_letter(sort: Sort) -> u8
    ensures { result ≡ sort_letter sort }
{
    match sort {
        Sort::Voter => b'i',
        Sort::Alt => b'x',
        Sort::Ballot => b'b',
        Sort::Profile => b'p',
    }
}

/// The word of a sort.
pub(crate) fn sort_word(sort: Sort) -> &'static [u8]
    ensures { result.now ≡ word_of_sort sort }
{
    match sort {
        Sort::Voter => b"voter",
        Sort::Alt => b"alt",
        Sort::Ballot => b"ballot",
        Sort::Profile => b"profile",
    }
}

/// Adds a variable by its sort and its place, the outermost being 1.
pub(crate) fn put_variable(out: &mut Bytes, sort: Sort, place: u64) -> Result<(), NoMemory>
    ensures { OnOk result (out.new ≡ out.old ++ variable_name sort place) }
{
    out.push(sort_letter(sort))?;
    put_number(out, place)?;
    Ok(())
}

/// The sort of the variable at a level.
pub(crate) fn sort_at(sorts: &[Sort], level: u8) -> Sort
    ensures { result ≡ sort_at sorts.now level }
{
    match sorts.get(level as usize) {
        Some(sort) => *sort,
        None => Sort::Profile,
    }
}

/// The value at a level, if there is one.
fn value_at(values: &Env, level: u8) -> Option<u32>
    ensures { result ≡ slice_get values.now level }
{
    if level < values.len() {
        Some(values.get(level))
    } else {
        None
    }
}

/// Adds the letters of a ballot, if it is one of the size.
fn put_ballot_letters(out: &mut Bytes, space: &Space, b: u32) -> Result<(), NoMemory>
    ensures { OnOk result (out.new ≡ out.old ++ ballot_letters space.now b) }
{
    if b >= space.ballots() {
        return Ok(());
    }
    let ballot = space.ballot_text(b);
    out.append(ballot.bytes())?;
    Ok(())
}

/// Adds the ballots of a profile, if it is one of the size.
fn put_profile_letters(out: &mut Bytes, space: &Space, p: u32) -> Result<(), NoMemory>
    ensures { OnOk result (out.new ≡ out.old ++ profile_letters space.now p) }
{
    if p >= space.count() {
        return Ok(());
    }
    let profile = space.profile_text(p);
    out.append(profile.bytes())?;
    Ok(())
}

/// Adds the constant of a voter.
fn put_voter(out: &mut Bytes, space: &Space, i: u32) -> Result<(), NoMemory>
    ensures { OnOk result (out.new ≡ out.old ++ term_text (constant space.now Sort.Voter i)) }
{
    let _size = space.size();
    out.append(b"#")?;
    put_number(out, u64::from(i) + 1)?;
    Ok(())
}

/// The letter of an alternative; past the letters it is whatever byte comes.
fn letter(x: u32) -> u8
    ensures { result ≡ (97 + x) % 256 }
{
    ((u64::from(x) + 97) % 256) as u8
}

/// Adds the constant of an alternative.
fn put_alternative(out: &mut Bytes, space: &Space, x: u32) -> Result<(), NoMemory>
    ensures { OnOk result (out.new ≡ out.old ++ term_text (constant space.now Sort.Alt x)) }
{
    let _size = space.size();
    out.append(b"@")?;
    out.push(letter(x))?;
    Ok(())
}

/// Adds the constant of a ballot.
fn put_ballot(out: &mut Bytes, space: &Space, b: u32) -> Result<(), NoMemory>
    ensures { OnOk result (out.new ≡ out.old ++ term_text (constant space.now Sort.Ballot b)) }
{
    out.append(b"<")?;
    put_ballot_letters(out, space, b)?;
    out.append(b">")?;
    Ok(())
}

/// Adds the constant of a value of a sort.
pub(crate) fn put_constant(
    out: &mut Bytes,
    space: &Space,
    sort: Sort,
    value: u32,
) -> Result<(), NoMemory>
    ensures { OnOk result (out.new ≡ out.old ++ term_text (constant space.now sort value)) }
{
    match sort {
        Sort::Voter => put_voter(out, space, value),
        Sort::Alt => put_alternative(out, space, value),
        Sort::Ballot => put_ballot(out, space, value),
        Sort::Profile => put_profile_letters(out, space, value),
    }
}

/// Adds the variable of a sort at a level that has a value: that, but for a profile.
fn put_valued(
    out: &mut Bytes,
    space: &Space,
    sort: Sort,
    level: u8,
    value: u32,
) -> Result<(), NoMemory>
    ensures { OnOk result (out.new ≡ out.old ++ term_text (written space.now sort level (Some value))) }
{
    match sort {
        Sort::Voter => put_voter(out, space, value),
        Sort::Alt => put_alternative(out, space, value),
        Sort::Ballot => put_ballot(out, space, value),
        Sort::Profile => put_variable(out, sort, u64::from(level) + 1),
    }
}

/// Adds the variable of a sort at a level, or its value.
pub(crate) fn put_written(
    out: &mut Bytes,
    space: &Space,
    values: &Env,
    sort: Sort,
    level: u8,
) -> Result<(), NoMemory>
    ensures { OnOk result (out.new ≡ out.old ++
        term_text (written space.now sort level (slice_get values.now level))) }
{
    match value_at(values, level) {
        Some(value) => put_valued(out, space, sort, level, value),
        None => put_variable(out, sort, u64::from(level) + 1),
    }
}
