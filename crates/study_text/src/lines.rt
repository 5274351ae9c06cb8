//! Lines of counts and of axioms.

ghost use Rattle.std.specs.Prelude.{◌≡◌, ◌<◌, [], ◌++◌, codes, decimal, length, slice_get, option_map, OnOk};
ghost use Rattle.std.specs.Option.{option_map_or};
ghost use Rattle.std.specs.List.{flat_map};
ghost use Rattle.vocab.specs.Range.{below};
ghost use Rattle.study_text.specs.LookText.{axiom_lines, kept_line, lines_at, nearest_line, number_line, owner_text, share_line, title_lines, word_of};

use crate::kept::kept_of;
use crate::shares::{Share, body_of, instances_of, work_of};
use clause_form::Ground;
use edge::Bytes;
use instance_text::put_sentence;
use itoa::Buffer;
use lists::NoMemory;
use profiles::Space;
use std::alloc::Global;
use vocab::{Axiom, Name, Study};

/// Adds a number.
fn put_number(out: &mut Bytes, number: u32) -> Result<(), NoMemory>
    ensures { OnOk result (out.new ≡ out.old ++ decimal number) }
{
    out.append(Buffer::new().format(number).as_bytes())
}

/// Adds a line of a word and a number.
pub(crate) fn put_number_line(out: &mut Bytes, word: &[u8], number: u32) -> Result<(), NoMemory>
    ensures { OnOk result (out.new ≡ out.old ++ number_line word.now number) }
{
    out.append(word)?;
    out.append(b" ")?;
    put_number(out, number)?;
    out.append(b"\n")?;
    Ok(())
}

/// What is counted.
fn word_of(share: &Share) -> &'static [u8]
    ensures { result.now ≡ word_of share.now }
{
    match share {
        Share::Profiles(_) => b"profiles",
        Share::Instances(_, _) => b"instances",
        Share::Body(_, _) => b"body",
        Share::Work(_, _) => b"work",
        Share::Clauses(_) => b"clauses",
        Share::Literals(_) => b"literals",
    }
}

/// Adds a count beside its limit.
pub(crate) fn put_share(out: &mut Bytes, share: &Share) -> Result<(), NoMemory>
    ensures { OnOk result (out.new ≡ out.old ++ share_line share.now) }
{
    out.append(word_of(share))?;
    out.append(b" ")?;
    put_number(out, share.count())?;
    out.append(b" of ")?;
    put_number(out, share.most())?;
    out.append(b"\n")?;
    Ok(())
}

/// Adds the name of an axiom, as a refusal has it.
fn put_name(out: &mut Bytes, name: &Name) -> Result<(), NoMemory>
    ensures { OnOk result (out.new ≡ out.old ++ (name.now ++ codes ": ")) }
{
    out.append(name.bytes())?;
    out.append(b": ")?;
    Ok(())
}

/// Adds the axiom of a count, if it is of one.
fn put_owner(out: &mut Bytes, share: &Share) -> Result<(), NoMemory>
    ensures { OnOk result (out.new ≡ out.old ++ owner_text share.now) }
{
    match share {
        Share::Profiles(_) => Ok(()),
        Share::Instances(name, _) => put_name(out, name),
        Share::Body(name, _) => put_name(out, name),
        Share::Work(name, _) => put_name(out, name),
        Share::Clauses(_) => Ok(()),
        Share::Literals(_) => Ok(()),
    }
}

/// Adds the line of the nearest limit, if there is one.
pub(crate) fn put_nearest(out: &mut Bytes, nearest: Option<&Share>) -> Result<(), NoMemory>
    ensures { OnOk result
        (out.new ≡ out.old ++ nearest_line (option_map (λ share. share.now) nearest.entry)) }
{
    let Some(share) = nearest else {
        return Ok(());
    };
    out.append(b"nearest ")?;
    put_owner(out, share)?;
    put_share(out, share)?;
    Ok(())
}

/// Adds the line of how many clauses of an axiom are kept.
fn put_kept(out: &mut Bytes, count: u32) -> Result<(), NoMemory>
    ensures { OnOk result (out.new ≡ out.old ++ kept_line count) }
{
    if count == 0 {
        out.append(b"asks nothing\n")?;
        return Ok(());
    }
    put_number_line(out, b"clauses", count)
}

/// Adds the name of an axiom and its sentence.
fn put_title(alloc: Global, out: &mut Bytes, space: &Space, named: &Axiom) -> Result<(), NoMemory>
    ensures { OnOk result (out.new ≡ out.old ++ title_lines space.now named.now) }
{
    let name = named.name();
    out.append(b"axiom ")?;
    out.append(name.bytes())?;
    out.append(b"\nsentence ")?;
    put_sentence(alloc, out, space, named.sentence())?;
    out.append(b"\n")?;
    Ok(())
}

/// Adds the lines of the axiom at a place, of which so many clauses are kept.
fn put_axiom(
    alloc: Global,
    out: &mut Bytes,
    space: &Space,
    study: &Study,
    place: usize,
    count: u32,
) -> Result<(), NoMemory>
    requires size { study.now.size ≡ space.now }
    requires place { place < length study.now.axioms }
    ensures { OnOk result (out.new ≡ out.old ++
        option_map_or (axiom_lines study.now.size count) (slice_get study.now.axioms place) []) }
{
    let named = study.axioms().get(place);
    put_title(alloc, out, space, named)?;
    put_share(out, &instances_of(study, place, named))?;
    put_share(out, &body_of(study, place, named))?;
    put_share(out, &work_of(study, place, named))?;
    put_kept(out, count)?;
    Ok(())
}

/// Adds the lines of all axioms.
pub(crate) fn put_axioms(
    alloc: Global,
    out: &mut Bytes,
    space: &Space,
    study: &Study,
    ground: &Ground,
) -> Result<(), NoMemory>
    requires { study.now.size ≡ space.now }
    ensures { OnOk result (out.new ≡ out.old ++
        flat_map (lines_at study.now ground.now) (below (length study.now.axioms))) }
{
    for place in 0..study.axioms().as_slice().len() {
        put_axiom(
            alloc,
            out,
            space,
            study,
            place,
            kept_of(ground, place as u32),
        )?;
    }
    Ok(())
}
