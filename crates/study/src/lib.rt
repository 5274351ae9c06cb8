//! Reads a study, the question that the bench is asked, from the bytes of a TOML document, or from a listing.
#![tactic(auto)]

mod ballots;
mod by_name;
mod document;
mod drafts;
mod entries;
mod faults;
pub mod laws;
mod limits;
mod listing;
mod reading;
mod sentences;

pub use entries::{Entries, Entry, copied};
pub use faults::{StudyFault, Text};
pub use limits::{atoms, instances};
pub use listing::Listing;
pub use reading::{answer_of, listing_in, read_study};
