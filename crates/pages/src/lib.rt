//! Pages: a verdict on a study as HTML that a person reads, in one file, with its styles within.
#![tactic(auto)]

mod axioms;
mod file_names;
mod headings;
pub mod laws;
mod page;
mod theorem;
mod whole;
mod witnesses;
mod words;

pub use html::Html;
pub use page::{About, Source, put_check, put_front, put_page, put_proved};
pub use whole::page_text;
