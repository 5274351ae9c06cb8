//! What the text of a sentence is made of.

use vocab::Name;

/// A name, a constant or a mark.
#[derive(Clone, Copy, PartialEq, Eq)]
pub enum Lexeme {
    Word(Name),
    Voter(u16),
    Alt(u8),
    Ballot(Name),
    Open,
    Close,
    Comma,
    Colon,
    Dot,
    Equals,
    Not,
    And,
    Or,
    Implies,
    Same,
}

/// What stands between the parts of a group.
#[derive(Clone, Copy)]
pub enum Joint {
    Both,
    Either,
    Implies,
    Same,
}

/// What a variable is bound by: `all` or `some`.
#[derive(Clone, Copy)]
pub enum Quantifier {
    All,
    Exists,
}
