//! Names with texts.

ghost use Rattle.std.specs.Prelude.{◌≡◌, IfOk};

use crate::faults::Text;
use lists::{Items, NoMemory};
use std::alloc::Global;
use std::marker::Model;
use vocab::Name;

/// The name of an axiom, and the text of its sentence.
pub struct Entry {
    name: Name,
    text: Text,
}

/// Written out, so that letting go of an entry is one call.
impl Drop for Entry {
    fn drop(self) {
        let Entry { name: _, text: _ } = self;
    }
}

impl Model for Entry {
    ghost use Rattle.axiom_library.specs.Library.{Entry};
    ghost use Rattle.study.specs.EntryCode.{entry_code};

    ghost Value = { Entry };

    ghost coded = { entry_code };

    ghost view = { λ e. record { name = e.name; text = e.text } };
}

/// A list of texts.
pub type Texts = Items<Text>;

/// A list of names with texts.
pub type Entries = Items<Entry>;

impl Entry {
    /// A name with a text.
    pub fn new(name: Name, text: Text) -> Entry
        ensures { result ≡ record { name = name; text = text } }
    {
        Entry { name, text }
    }

    /// The name.
    pub fn name(&self) -> Name
        ensures { result ≡ self.now.name }
    {
        self.name
    }

    /// The text.
    pub fn text(&self) -> &Text
        ensures { result.now ≡ self.now.text }
    {
        &self.text
    }
}

/// A text of its own with these bytes.
pub fn copied(alloc: Global, bytes: &[u8]) -> Result<Text, NoMemory>
    ensures { IfOk result (λ text. text ≡ bytes.now) }
{
    let mut text = Text::new(alloc);
    text.append(bytes)?;
    Ok(text)
}
