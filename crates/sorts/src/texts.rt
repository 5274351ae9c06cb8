//! Texts that faults name, held in place.

ghost use Rattle.std.specs.Prelude.{◌≡◌, ◌+◌, ◌<◌, ◌≤◌, [], ◌∷◌, ◌++◌, length, codes};
ghost use Rattle.sorts.specs.Constants.{voter_text, alternative_text, ballot_constant_text};

use itoa::Buffer;
use std::marker::Model;
use vocab::Name;

/// The name of a predicate or of a function, or `=`: up to 32 bytes.
#[derive(Clone, Copy, Debug, PartialEq, Eq)]
pub struct Symbol {
    cells: [u8; 32],
    len: u8,
}

impl Model for Symbol {
    ghost use Rattle.std.specs.Prelude.{ℕ, List, length, take};
    ghost use Rattle.vocab.specs.InPlace.{IsPadded, padded, padded-take, length-take-padded};

    ghost Value = { List ℕ };

    ghost view = { λ s. take s.len s.cells };

    ghost invariant = { λ s. IsPadded 32 s.len s.cells };

    ghost inverse = { λ text. record { cells = padded 32 text; len = length text } };

    ghost inverse_ok = { λ s h i. record {
      cells = padded-take 32 s.len s.cells h i;
      len = length-take-padded 32 s.len s.cells h i;
    } };
}

impl Symbol {
    /// The symbol of a name.
    pub(crate) fn of(name: Name) -> Symbol
        ensures { result ≡ name }
    {
        let text = name.bytes();
        let mut cells = [0; 32];
        cells[..text.len()].copy_from_slice(text);
        let len = text.len() as u8;
        Symbol { cells, len }
    }

    /// The symbol of an equality.
    pub(crate) fn equality() -> Symbol
        ensures { result ≡ codes "=" }
    {
        let mut cells = [0; 32];
        cells[0] = b'=';
        Symbol { cells, len: 1 }
    }

    /// The bytes of the symbol.
    pub fn bytes(&self) -> &[u8]
        ensures { result.now ≡ self.now }
    {
        &self.cells[..self.len as usize]
    }
}

/// A constant as it is written: `#` and a number, `@` and a letter, or the letters of a ballot between `<`
/// and `>`. Up to 34 bytes.
#[derive(Clone, Copy, Debug, PartialEq, Eq)]
pub struct ConstantText {
    cells: [u8; 34],
    len: u8,
}

impl Model for ConstantText {
    ghost use Rattle.std.specs.Prelude.{ℕ, List, length, take};
    ghost use Rattle.vocab.specs.InPlace.{IsPadded, padded, padded-take, length-take-padded};

    ghost Value = { List ℕ };

    ghost view = { λ c. take c.len c.cells };

    ghost invariant = { λ c. IsPadded 34 c.len c.cells };

    ghost inverse = { λ text. record { cells = padded 34 text; len = length text } };

    ghost inverse_ok = { λ c h i. record {
      cells = padded-take 34 c.len c.cells h i;
      len = length-take-padded 34 c.len c.cells h i;
    } };
}

impl ConstantText {
    /// The text of a voter, numbered from 1.
    pub(crate) fn voter(number: u16) -> ConstantText
        ensures { result ≡ voter_text number }
    {
        let mut text = ConstantText::empty();
        text.push(b'#');
        text.push_all(Buffer::new().format(number).as_bytes());
        text
    }

    /// The text of an alternative, numbered from 0.
    pub(crate) fn alternative(number: u8) -> ConstantText
        ensures { result ≡ alternative_text number }
    {
        let mut text = ConstantText::empty();
        text.push(b'@');
        text.push(b'a'.wrapping_add(number));
        text
    }

    /// The text of a ballot of these letters.
    pub(crate) fn ballot(letters: Name) -> ConstantText
        ensures { result ≡ ballot_constant_text letters }
    {
        let mut text = ConstantText::empty();
        text.push(b'<');
        text.push_all(letters.bytes());
        text.push(b'>');
        text
    }

    fn empty() -> ConstantText
        ensures { result ≡ [] }
    {
        ConstantText {
            cells: [0; 34],
            len: 0,
        }
    }

    fn push(&mut self, byte: u8)
        requires { length self.old < 34 }
        ensures { self.new ≡ self.old ++ byte ∷ [] }
    {
        self.cells[self.len as usize] = byte;
        self.len += 1;
    }

    fn push_all(&mut self, bytes: &[u8])
        requires { length self.old + length bytes.now ≤ 34 }
        ensures { self.new ≡ self.old ++ bytes.now }
    {
        for byte in bytes {
            self.push(*byte);
        }
    }

    /// The bytes of the constant.
    pub fn bytes(&self) -> &[u8]
        ensures { result.now ≡ self.now }
    {
        &self.cells[..self.len as usize]
    }
}
