//! The values of the variables of the quantifiers that stand outside a formula.

ghost use Rattle.std.specs.Prelude.{◌≡◌, ◌<◌, [], ◌∷◌, ◌++◌, length, slice_index};

use std::marker::Model;

/// An environment: up to 12 values, held in place. The value at level 0 is that of the outermost quantifier.
#[derive(Clone, Copy, Debug, PartialEq, Eq)]
pub struct Env {
    values: [u32; 12],
    len: u8,
}

impl Model for Env {
    ghost use Rattle.std.specs.Prelude.{ℕ, List, length, take};
    ghost use Rattle.vocab.specs.InPlace.{IsPadded, padded, padded-take, length-take-padded};

    ghost Value = { List ℕ };

    ghost view = { λ e. take e.len e.values };

    ghost invariant = { λ e. IsPadded 12 e.len e.values };

    ghost inverse = { λ xs. record { values = padded 12 xs; len = length xs } };

    ghost inverse_ok = { λ e h i. record {
      values = padded-take 12 e.len e.values h i;
      len = length-take-padded 12 e.len e.values h i;
    } };
}

impl Env {
    /// No value.
    pub fn none() -> Self
        ensures { result ≡ [] }
    {
        Env {
            values: [0; 12],
            len: 0,
        }
    }

    /// These values and one more.
    pub fn with(&self, value: u32) -> Self
        requires { length self.now < 12 }
        ensures { result ≡ self.now ++ value ∷ [] }
    {
        let mut values = self.values;
        values[self.len as usize] = value;
        Env {
            values,
            len: self.len + 1,
        }
    }

    /// How many values there are.
    pub fn len(&self) -> u8
        ensures { result ≡ length self.now }
    {
        self.len
    }

    /// The value at a level.
    pub fn get(&self, level: u8) -> u32
        requires { level < length self.now }
        ensures { result ≡ slice_index self.now level }
    {
        self.values[level as usize]
    }
}
