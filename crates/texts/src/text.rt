//! Texts, and those that others are made of.

ghost use Rattle.std.specs.Prelude.{◌++◌, List, ℕ};
ghost use Rattle.std.specs.Fmt.{decimal, signed_decimal};
ghost use Rattle.texts.specs.Page.{Pours};

use crate::page::Page;
use edge::{Failed, Sink};
use itoa::Buffer;

/// A text that can be poured into a page in front of a sink.
pub trait Text {
    /// All that the text names is in range.
    ghost can: { Self → Type 0 };

    /// The bytes of the text.
    ghost text: { Self → List ℕ };

    /// Adds the text to what the sink took and the page holds. Where that fails, a prefix of it was added.
    fn pour<O: Sink>(&self, page: &mut Page, out: &mut O) -> Result<(), Failed>
        requires { can self.now }
        ensures { Pours (O.taken out.old) (O.taken out.new) page.old page.new
            (O.faults out.old) (O.faults out.new) result (text self.now) };
}

/// Bytes as they are.
#[derive(Drop)]
pub struct Raw<'a>(pub &'a [u8]);

impl Text for Raw<'_> {
    ghost can = { λ _. Unit {0} };

    ghost text = { λ raw. raw.0.now };

    fn pour<O: Sink>(&self, page: &mut Page, out: &mut O) -> Result<(), Failed> {
        page.put(out, self.0)
    }
}

/// A number in decimal.
#[derive(Drop)]
pub struct Number(pub u64);

impl Text for Number {
    ghost can = { λ _. Unit {0} };

    ghost text = { λ number. decimal number.0 };

    fn pour<O: Sink>(&self, page: &mut Page, out: &mut O) -> Result<(), Failed> {
        page.put(out, Buffer::new().format(self.0).as_bytes())
    }
}

/// A number in decimal, after a minus where it is negative.
#[derive(Drop)]
pub struct Integer(pub i64);

impl Text for Integer {
    ghost can = { λ _. Unit {0} };

    ghost text = { λ number. signed_decimal number.0 };

    fn pour<O: Sink>(&self, page: &mut Page, out: &mut O) -> Result<(), Failed> {
        let integer = self.0;
        page.put(out, Buffer::new().format(integer).as_bytes())
    }
}

/// A text and one after it.
#[derive(Drop)]
pub struct Two<A, B>(pub A, pub B);

impl<A: Text, B: Text> Text for Two<A, B> {
    ghost can = { λ two. A.can two.0 × B.can two.1 };

    ghost text = { λ two. A.text two.0 ++ B.text two.1 };

    fn pour<O: Sink>(&self, page: &mut Page, out: &mut O) -> Result<(), Failed> {
        self.0.pour(page, out)?;
        self.1.pour(page, out)
    }
}
