//! A file that is being written.

use std::alloc::{AllocError, Global};
use std::rt::Files;
use std::{fs, io};

/// The name of a file, empty where none is being written; its text so far, and what follows the lines that
/// are still to come.
#[derive(Drop)]
pub struct Draft {
    name: String,
    text: String,
    rest: String,
}

impl Draft {
    /// No file.
    pub fn new(alloc: Global) -> Draft {
        Draft {
            name: String::new(alloc),
            text: String::new(alloc),
            rest: String::new(alloc),
        }
    }

    /// The file that `NAME` or `NAME OLD N` begins. An error where OLD cannot be read.
    pub fn read<R: Files + AllocGlobal>(rt: &R, head: &str) -> io::Result<Draft> {
        let mut draft = Draft::new(rt.alloc());
        let mut words = head.split(' ');
        draft.name.push_str(words.next().unwrap_or(""))?;
        if let Some(old) = words.next() {
            let number = words.next().and_then(|word| word.parse().ok());
            let whole = fs::read_to_string(rt, old)?;
            draft.surround(whole.as_str(), number.unwrap_or(0))?;
        }
        Ok(draft)
    }

    /// Takes the lines before the line of this number as the text, and those behind it as the rest.
    fn surround(&mut self, whole: &str, number: usize) -> Result<(), AllocError> {
        let mut place: usize = 0;
        for line in whole.split_inclusive('\n') {
            place = place.saturating_add(1);
            if place < number {
                self.text.push_str(line)?;
            } else if place > number {
                self.rest.push_str(line)?;
            }
        }
        Ok(())
    }

    /// Takes a line that stands behind a sign; false where another line comes.
    pub fn takes(&mut self, line: &str) -> Result<bool, AllocError> {
        if let Some(text) = line.strip_prefix('|') {
            self.text.push_str(text)?;
            self.text.push_str("\n")?;
            return Ok(true);
        }
        if let Some(text) = line.strip_prefix('/') {
            self.text.push_str(text)?;
            return Ok(true);
        }
        Ok(false)
    }

    /// Writes the file, where there is one; then there is none.
    pub fn put<R: Files + AllocGlobal>(&mut self, rt: &R) -> io::Result<()> {
        if !self.name.is_empty() {
            self.text.push_str(self.rest.as_str())?;
            fs::write(rt, self.name.as_str(), self.text.as_str())?;
        }
        *self = Draft::new(rt.alloc());
        Ok(())
    }
}
