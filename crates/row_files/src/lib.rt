//! Rows of words over real files: runs each through the top call of a program, and prints what it comes to.
//!
//! The lines of a file of rows are printed one by one, and behind that of a row its answer:
//!
//! | Line | What is done |
//! |---|---|
//! | `file NAME` | the file of this name gets the lines that follow behind a sign |
//! | `file NAME OLD N` | the same, but these stand in place of line N, from 1, of the file OLD |
//! | `\|TEXT`, `/TEXT` | the text is a line of the file, with a line end or without one |
//! | `run WORDS`, `run WORDS > NAME` | a row of `bench`: the words, one blank between two; the file gets what is written |
//! | `explain WORDS`, `explain WORDS > NAME` | a row of `explain` |
//! | `# TEXT`, an empty line | nothing |
//!
//! A file of rows has the rows of one program.
#![tactic(auto)]

mod draft;
mod program;
mod row;
mod rows;

pub use program::Program;
pub use rows::run_rows;
