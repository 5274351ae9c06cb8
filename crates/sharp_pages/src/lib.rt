//! The page of a sharp text.
#![tactic(auto)]

mod instances;
mod page;

pub use page::sharp_page_text;
