//! The furthest place of a text to which some sentence goes, in lines.

ghost use Rattle.std.specs.Prelude.{◌≡◌, ◌≤◌, ◌++◌, decimal, drop, length, map, take, OnOk};
ghost use Rattle.std.specs.List.{flat_map};
ghost use Rattle.study_help.specs.Places.{before_line, first_bytes, kinds_line, kinds_text, last_bytes, next_kind_text, offset_line, place_lines, quoted, shown_byte, there_line, there_text};

use edge::Bytes;
use itoa::Buffer;
use lists::NoMemory;
use sentence_fronts::{LexemeKind, kind_text};

/// A byte of a line.
fn shown_byte(c: u8) -> u8
    ensures { result ≡ shown_byte c }
{
    if 32 <= c && c < 127 { c } else { 32 }
}

/// Adds bytes, each as a byte of a line.
fn put_shown(out: &mut Bytes, bytes: &[u8]) -> Result<(), NoMemory>
    ensures { OnOk result (out.new ≡ out.old ++ map shown_byte bytes.now) }
{
    for byte in bytes {
        out.push(shown_byte(*byte))?;
    }
    Ok(())
}

/// Adds bytes within quotes, on one line.
fn put_quoted(out: &mut Bytes, bytes: &[u8]) -> Result<(), NoMemory>
    ensures { OnOk result (out.new ≡ out.old ++ quoted bytes.now) }
{
    out.append(b"`")?;
    put_shown(out, bytes)?;
    out.append(b"`")?;
    Ok(())
}

/// The last 40 bytes.
fn last_bytes(bytes: &[u8]) -> &[u8]
    ensures { result.now ≡ last_bytes bytes.now }
{
    &bytes[bytes.len().saturating_sub(40)..]
}

/// The first 20 bytes.
fn first_bytes(bytes: &[u8]) -> &[u8]
    ensures { result.now ≡ first_bytes bytes.now }
{
    if bytes.len() > 20 {
        &bytes[..20]
    } else {
        bytes
    }
}

/// Adds what follows the place.
fn put_there(out: &mut Bytes, rest: &[u8]) -> Result<(), NoMemory>
    ensures { OnOk result (out.new ≡ out.old ++ there_text rest.now) }
{
    match rest {
        [] => out.append(b"the end"),
        _ => put_quoted(out, first_bytes(rest)),
    }
}

/// Adds one kind more.
fn put_kind(out: &mut Bytes, kind: LexemeKind) -> Result<(), NoMemory>
    ensures { OnOk result (out.new ≡ out.old ++ next_kind_text kind) }
{
    out.append(b", ")?;
    out.append(kind_text(kind))?;
    Ok(())
}

/// Adds more kinds.
fn put_more(out: &mut Bytes, kinds: &[LexemeKind]) -> Result<(), NoMemory>
    ensures { OnOk result (out.new ≡ out.old ++ flat_map next_kind_text kinds.now) }
{
    for kind in kinds {
        put_kind(out, *kind)?;
    }
    Ok(())
}

/// Adds what may stand at the place.
fn put_kinds(out: &mut Bytes, next: &[LexemeKind]) -> Result<(), NoMemory>
    ensures { OnOk result (out.new ≡ out.old ++ kinds_text next.now) }
{
    match next {
        [] => Ok(()),
        [first, rest @ ..] => {
            out.append(kind_text(*first))?;
            put_more(out, rest)
        }
    }
}

/// Adds a number.
fn put_number(out: &mut Bytes, number: usize) -> Result<(), NoMemory>
    ensures { OnOk result (out.new ≡ out.old ++ decimal number) }
{
    out.append(Buffer::new().format(number).as_bytes())
}

/// Adds the line of the offset.
fn put_offset_line(out: &mut Bytes, name: &[u8], offset: usize) -> Result<(), NoMemory>
    ensures { OnOk result (out.new ≡ out.old ++ offset_line name.now offset) }
{
    out.append(b"help ")?;
    out.append(name)?;
    out.append(b" reads up to byte ")?;
    put_number(out, offset)?;
    out.append(b"\n")?;
    Ok(())
}

/// Adds the line of what reads before the place.
fn put_before_line(out: &mut Bytes, before: &[u8]) -> Result<(), NoMemory>
    ensures { OnOk result (out.new ≡ out.old ++ before_line before.now) }
{
    out.append(b"help before it: ")?;
    put_quoted(out, last_bytes(before))?;
    out.append(b"\n")?;
    Ok(())
}

/// Adds the line of what stands there.
fn put_there_line(out: &mut Bytes, rest: &[u8]) -> Result<(), NoMemory>
    ensures { OnOk result (out.new ≡ out.old ++ there_line rest.now) }
{
    out.append(b"help there stands: ")?;
    put_there(out, rest)?;
    out.append(b"\n")?;
    Ok(())
}

/// Adds the line of what may stand there.
fn put_kinds_line(out: &mut Bytes, next: &[LexemeKind]) -> Result<(), NoMemory>
    ensures { OnOk result (out.new ≡ out.old ++ kinds_line next.now) }
{
    out.append(b"help there may stand: ")?;
    put_kinds(out, next)?;
    out.append(b"\n")?;
    Ok(())
}

/// What stands before a place.
fn text_before(text: &[u8], offset: usize) -> &[u8]
    requires { offset ≤ length text.now }
    ensures { result.now ≡ take offset text.now }
{
    &text[..offset]
}

/// What stands from a place on.
fn text_from(text: &[u8], offset: usize) -> &[u8]
    requires { offset ≤ length text.now }
    ensures { result.now ≡ drop offset text.now }
{
    &text[offset..]
}

/// Adds the lines of a place of the text of an axiom.
pub(crate) fn put_place(
    out: &mut Bytes,
    name: &[u8],
    text: &[u8],
    offset: usize,
    next: &[LexemeKind],
) -> Result<(), NoMemory>
    requires { offset ≤ length text.now }
    ensures { OnOk result (out.new ≡ out.old ++ place_lines name.now text.now offset next.now) }
{
    put_offset_line(out, name, offset)?;
    put_before_line(out, text_before(text, offset))?;
    put_there_line(out, text_from(text, offset))?;
    put_kinds_line(out, next)?;
    Ok(())
}
