//! Names of files as words of a command line.

ghost use Rattle.std.specs.Prelude.{◌≡◌, ◌++◌, OnOk, IfOk};
ghost use Rattle.std.specs.List.{flat_map, list_all};
ghost use Rattle.pages.specs.FileNames.{is_ordinary, shell_quoted, shell_word};

use lists::{Items, NoMemory};
use std::alloc::Global;

/// Whether a byte stands for itself: the last three ranges are those of letters beyond ASCII.
fn is_ordinary(byte: u8) -> bool
    ensures { result ≡ is_ordinary byte }
{
    (b'+' <= byte && byte <= b':')
        || (b'@' <= byte && byte <= b'Z')
        || byte == b'_'
        || (b'a' <= byte && byte <= b'z')
        || (128 <= byte && byte <= 191)
        || (195 <= byte && byte <= 225)
        || (227 <= byte && byte <= 238)
}

/// Whether each byte of a name does.
fn are_ordinary(name: &[u8]) -> bool
    ensures { result ≡ list_all is_ordinary name.now }
{
    name.iter().all(|byte| is_ordinary(*byte))
}

/// Adds a byte as it stands between `$'` and `'`.
fn put_quoted(word: &mut Items<u8>, byte: u8) -> Result<(), NoMemory>
    ensures { OnOk result (word.new ≡ word.old ++ shell_quoted byte) }
{
    match byte {
        b'\'' => word.append(b"\\'"),
        b'\\' => word.append(b"\\\\"),
        b' '..=b'~' => word.push(byte),
        _ => word.append(&[
            b'\\',
            b'0' + byte / 8 / 8 % 8,
            b'0' + byte / 8 % 8,
            b'0' + byte % 8,
        ]),
    }
}

/// Adds a name as it stands there.
fn put_all_quoted(word: &mut Items<u8>, name: &[u8]) -> Result<(), NoMemory>
    ensures { OnOk result (word.new ≡ word.old ++ flat_map shell_quoted name.now) }
{
    for byte in name {
        put_quoted(word, *byte)?;
    }
    Ok(())
}

/// A name as a word of a command line. The only error is want of memory.
pub(crate) fn shell_word(alloc: Global, name: &[u8]) -> Result<Items<u8>, NoMemory>
    ensures { IfOk result (λ word. word ≡ shell_word name.now) }
{
    let mut word = Items::new(alloc);
    if are_ordinary(name) {
        word.append(name)?;
        return Ok(word);
    }
    word.append(b"$'")?;
    put_all_quoted(&mut word, name)?;
    word.append(b"'")?;
    Ok(word)
}
