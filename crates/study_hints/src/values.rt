//! What was perhaps meant, by the values of a size.

ghost use Rattle.std.specs.Prelude.{◌≡◌, ◌<◌, ◌++◌, decimal, OnOk};
ghost use Rattle.std.specs.List.{flat_map};
ghost use Rattle.vocab.specs.declared.kinds.Sort.TheVariants.{Ballot};
ghost use Rattle.vocab.specs.Range.{below};
ghost use Rattle.vocab.specs.Size.{sort_count};
ghost use Rattle.sorts.specs.Constants.{ballot_value};
ghost use Rattle.study_hints.specs.Values.{alternatives_line, ballot_constant, ballot_constants, ballots_line, is_alternative, perhaps, values_of, voters_line};

use edge::Bytes;
use itoa::Buffer;
use lists::NoMemory;
use profiles::Space;
use profiles::laws::texts_are_distinct;

/// Whether a name is the letter of an alternative.
fn is_alternative(space: &Space, name: &[u8]) -> bool
    ensures { result ≡ is_alternative space.now name.now }
{
    let size = space.size();
    match name {
        [c] => *c >= b'a' && u16::from(*c) < 97 + u16::from(size.alternatives()),
        _ => false,
    }
}

/// The number of the ballot that a name is.
fn ballot_value(space: &Space, name: &[u8]) -> Option<u32>
    ensures { result ≡ ballot_value space.now name.now }
{
    texts_are_distinct(space);
    space.read_ballot(name)
}

/// Adds a name between two pieces.
fn put_between(out: &mut Bytes, front: &[u8], name: &[u8], end: &[u8]) -> Result<(), NoMemory>
    ensures { OnOk result (out.new ≡ out.old ++ (front.now ++ name.now ++ end.now)) }
{
    out.append(front)?;
    out.append(name)?;
    out.append(end)?;
    Ok(())
}

/// Adds what a variable that nothing binds was perhaps meant to be.
pub(crate) fn put_perhaps(out: &mut Bytes, space: &Space, name: &[u8]) -> Result<(), NoMemory>
    ensures { OnOk result (out.new ≡ out.old ++ perhaps space.now name.now) }
{
    if is_alternative(space, name) {
        return put_between(out, b"help perhaps @", name, b"\n");
    }
    if ballot_value(space, name).is_some() {
        return put_between(out, b"help perhaps <", name, b">\n");
    }
    out.append(b"help a variable: all or some before it names it\n")
}

/// Adds a ballot as a constant, after a blank.
fn put_ballot(out: &mut Bytes, space: &Space, b: u32) -> Result<(), NoMemory>
    requires { b < sort_count space.now Ballot }
    ensures { OnOk result (out.new ≡ out.old ++ ballot_constant space.now b) }
{
    let ballot = space.ballot_text(b);
    put_between(out, b" <", ballot.bytes(), b">")
}

/// Adds the ballots that may be cast.
fn put_ballots(out: &mut Bytes, space: &Space) -> Result<(), NoMemory>
    ensures { OnOk result (out.new ≡ out.old ++ ballot_constants space.now) }
{
    let count = space.ballots();
    for b in 0..count {
        put_ballot(out, space, b)?;
    }
    Ok(())
}

/// Adds a number.
fn put_number(out: &mut Bytes, number: u8) -> Result<(), NoMemory>
    ensures { OnOk result (out.new ≡ out.old ++ decimal number) }
{
    out.append(Buffer::new().format(number).as_bytes())
}

/// Adds the voters.
fn put_voters(out: &mut Bytes, space: &Space) -> Result<(), NoMemory>
    ensures { OnOk result (out.new ≡ out.old ++ voters_line space.now) }
{
    let voters = space.size().voters();
    out.append(b"help voters: #1 to #")?;
    put_number(out, voters)?;
    out.append(b"\n")?;
    Ok(())
}

/// Adds the alternatives.
fn put_alternatives(out: &mut Bytes, space: &Space) -> Result<(), NoMemory>
    ensures { OnOk result (out.new ≡ out.old ++ alternatives_line space.now) }
{
    let last = 96 + space.size().alternatives();
    out.append(b"help alternatives: @a to @")?;
    out.push(last)?;
    out.append(b"\n")?;
    Ok(())
}

/// Adds the ballots.
fn put_all_ballots(out: &mut Bytes, space: &Space) -> Result<(), NoMemory>
    ensures { OnOk result (out.new ≡ out.old ++ ballots_line space.now) }
{
    out.append(b"help ballots:")?;
    put_ballots(out, space)?;
    out.append(b"\n")?;
    Ok(())
}

/// Adds the values of the sort of a constant.
pub(crate) fn put_values(out: &mut Bytes, space: &Space, constant: &[u8]) -> Result<(), NoMemory>
    ensures { OnOk result (out.new ≡ out.old ++ values_of space.now constant.now) }
{
    match constant.first() {
        Some(b'#') => put_voters(out, space),
        Some(b'@') => put_alternatives(out, space),
        Some(_) => put_all_ballots(out, space),
        None => Ok(()),
    }
}
