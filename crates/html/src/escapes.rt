//! Texts as HTML has them.

ghost use Rattle.std.specs.Prelude.{◌≡◌, ◌++◌, OnOk};
ghost use Rattle.std.specs.Fmt.{decimal};
ghost use Rattle.html.specs.Escapes.{escape, escaped};

use itoa::Buffer;
use lists::{Items, NoMemory};

/// The bytes of a page, so far.
pub type Html = Items<u8>;

/// Adds a byte of a text.
fn put_byte(out: &mut Html, byte: u8) -> Result<(), NoMemory>
    ensures { OnOk result (out.new ≡ out.old ++ escape byte) }
{
    match byte {
        b'&' => out.append(b"&amp;"),
        b'<' => out.append(b"&lt;"),
        b'>' => out.append(b"&gt;"),
        b'"' => out.append(b"&quot;"),
        b'\'' => out.append(b"&#39;"),
        _ => out.push(byte),
    }
}

/// Adds a text.
pub fn put_text(out: &mut Html, text: &[u8]) -> Result<(), NoMemory>
    ensures { OnOk result (out.new ≡ out.old ++ escaped text.now) }
{
    for byte in text {
        put_byte(out, *byte)?;
    }
    Ok(())
}

/// Adds a number.
pub fn put_number(out: &mut Html, number: u64) -> Result<(), NoMemory>
    ensures { OnOk result (out.new ≡ out.old ++ decimal number) }
{
    out.append(Buffer::new().format(number).as_bytes())
}
