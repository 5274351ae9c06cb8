//! Sentences as texts: `read` gives the one tree that a text reads as, or the first reason why it has none,
//! `print` writes the
//! canonical text of a tree, and `first_lexeme` takes a text apart.
#![tactic(auto)]

mod faults;
pub mod laws;
mod lexemes;
mod lexer;
mod limits;
mod parser;
mod printer;
mod reading;

pub use faults::SyntaxFault;
pub use lexemes::Lexeme;
pub use lexer::{first_lexeme, is_blank_byte};
pub use printer::print;
pub use reading::read;
