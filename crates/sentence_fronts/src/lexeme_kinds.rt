//! Kinds of lexemes.

ghost use Rattle.std.specs.Prelude.{◌≡◌};
ghost use Rattle.sentence_fronts.specs.LexemeKinds.{kind_of as kind_in, word_kind as kind_of_word, lexeme_kind_text as text_in, all_kinds};

use syntax::Lexeme;

/// What may stand in the text of a sentence: a lexeme of a kind, or its end.
#[derive(Clone, Copy, Debug, PartialEq, Eq)]
pub enum LexemeKind {
    /// `all` or `some`.
    Quantifier,
    Not,
    Open,
    /// Any name but `all`, `some` and the words of sorts.
    Name,
    /// A word of a sort: `voter`, `alt`, `ballot` or `profile`.
    Sort,
    Voter,
    Alt,
    Ballot,
    Equals,
    Comma,
    Colon,
    Dot,
    And,
    Or,
    Implies,
    Same,
    Close,
    /// The end of the text.
    End,
}

/// All kinds, in the order in which they are told.
static KINDS: [LexemeKind; 18] = [
    LexemeKind::Quantifier,
    LexemeKind::Not,
    LexemeKind::Open,
    LexemeKind::Name,
    LexemeKind::Sort,
    LexemeKind::Voter,
    LexemeKind::Alt,
    LexemeKind::Ballot,
    LexemeKind::Equals,
    LexemeKind::Comma,
    LexemeKind::Colon,
    LexemeKind::Dot,
    LexemeKind::And,
    LexemeKind::Or,
    LexemeKind::Implies,
    LexemeKind::Same,
    LexemeKind::Close,
    LexemeKind::End,
];

pub(crate) fn kinds() -> &'static [LexemeKind]
    ensures { result.now ≡ all_kinds }
{
    &KINDS
}

/// The kind of a name.
fn word_kind(name: &[u8]) -> LexemeKind
    ensures { result ≡ kind_of_word name.now }
{
    if name == b"all".as_slice() || name == b"some".as_slice() {
        return LexemeKind::Quantifier;
    }
    if name == b"voter".as_slice() || name == b"alt".as_slice() {
        return LexemeKind::Sort;
    }
    if name == b"ballot".as_slice() || name == b"profile".as_slice() {
        return LexemeKind::Sort;
    }
    LexemeKind::Name
}

/// The kind of a lexeme.
pub(crate) fn kind_of(lexeme: Lexeme) -> LexemeKind
    ensures { result ≡ kind_in lexeme }
{
    match lexeme {
        Lexeme::Word(name) => word_kind(name.bytes()),
        Lexeme::Voter(_) => LexemeKind::Voter,
        Lexeme::Alt(_) => LexemeKind::Alt,
        Lexeme::Ballot(_) => LexemeKind::Ballot,
        Lexeme::Open => LexemeKind::Open,
        Lexeme::Close => LexemeKind::Close,
        Lexeme::Comma => LexemeKind::Comma,
        Lexeme::Colon => LexemeKind::Colon,
        Lexeme::Dot => LexemeKind::Dot,
        Lexeme::Equals => LexemeKind::Equals,
        Lexeme::Not => LexemeKind::Not,
        Lexeme::And => LexemeKind::And,
        Lexeme::Or => LexemeKind::Or,
        Lexeme::Implies => LexemeKind::Implies,
        Lexeme::Same => LexemeKind::Same,
    }
}

/// What is told of the kind: its mark or its words in quotes, or what it is with an example.
pub fn kind_text(kind: LexemeKind) -> &'static [u8]
    ensures { result.now ≡ text_in kind }
{
    match kind {
        LexemeKind::Quantifier => b"`all`, `some`",
        LexemeKind::Not => b"`!`",
        LexemeKind::Open => b"`(`",
        LexemeKind::Name => b"a name",
        LexemeKind::Sort => b"`voter`, `alt`, `ballot`, `profile`",
        LexemeKind::Voter => b"a voter as `#1`",
        LexemeKind::Alt => b"an alternative as `@a`",
        LexemeKind::Ballot => b"a ballot as `<abc>`",
        LexemeKind::Equals => b"`=`",
        LexemeKind::Comma => b"`,`",
        LexemeKind::Colon => b"`:`",
        LexemeKind::Dot => b"`.`",
        LexemeKind::And => b"`&`",
        LexemeKind::Or => b"`|`",
        LexemeKind::Implies => b"`->`",
        LexemeKind::Same => b"`<->`",
        LexemeKind::Close => b"`)`",
        LexemeKind::End => b"the end",
    }
}
