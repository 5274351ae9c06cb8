//! Texts that are poured piece by piece through a page of bytes in front of a sink.
//!
//! A text takes no memory and is nowhere whole: each of its pieces goes into a page, and a full page is
//! handed on to the sink. `put_text` writes one text so, and `write_text` flushes the sink after it.
#![tactic(auto)]

mod buffered;
mod page;
mod text;
mod writing;

pub use buffered::Buffered;
pub use page::Page;
pub use text::{Integer, Number, Raw, Text, Two};
pub use writing::{put_text, write_text};
