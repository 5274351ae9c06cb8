//! Bits of pages: texts as HTML has them, facts, profiles and outcomes in words, profiles as columns, and
//! tables for two voters.
#![tactic(auto)]

mod columns;
mod escapes;
mod facts;
mod grids;

pub use columns::put_profile_columns;
pub use escapes::{Html, put_number, put_text};
pub use facts::{
    letter_of, profile_of, put_alternative, put_ballot, put_ballots, put_claim, put_fact,
    put_facts, put_outcome, put_profile,
};
pub use grids::{Cells, is_gridded, put_grid};
