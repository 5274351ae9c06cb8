//! Sentences by example: each lexeme and its edges, readings and refusals, limits, and canonical texts.

use edge::MemorySink;
use std::alloc::{AllocError, Global};
use std::test::Fail;
use syntax::{SyntaxFault, print, read};

/// Texts of lexemes and blanks alone, none of which is a sentence.
static LEXED: [&[u8]; 16] = [
    b"",
    b"\t\n\r ",
    b"abcdefghij_12345",
    b"#1",
    b"#123",
    b"#000",
    b"#12a",
    b"@a",
    b"@a@b",
    b"<a>",
    b"<abc>",
    b"<abcdefgh>",
    b"->",
    b"<->",
    b"()(,):.=!&|-><->",
    b" x\ty\nz\rx ",
];

/// Texts with a byte at which no lexeme begins, and the place of that byte.
static STUCK: [(&[u8], u64); 24] = [
    (b"abcdefghij_123456", 0),
    (b"#", 0),
    (b"#1234", 0),
    (b"#x", 0),
    (b"@", 0),
    (b"@ab", 0),
    (b"@a1", 0),
    (b"@a_", 0),
    (b"@A", 0),
    (b"<>", 0),
    (b"<ab", 0),
    (b"<abcdefghi>", 0),
    (b"<a1>", 0),
    (b"<a b>", 0),
    (b"<-", 0),
    (b"<- >", 0),
    (b"- >", 0),
    (b"A", 0),
    (b"_a", 0),
    (b"1a", 0),
    (b"x\x0by", 1),
    (b"x = \x80", 4),
    (b"x = x \xff", 6),
    (b"all aaaaaaaaaaaaaaaaa: alt. @a = @a", 4),
];

static SENTENCES: [&[u8]; 9] = [
    b"x=x",
    b" x\t=\nx\r",
    b"f(x) = y",
    b"x = f(f(x), y)",
    b"alll = somee",
    b"all voter: voter. some wins: alt. all with: profile. prefers(voter, wins, with)",
    b"(x = x & !y = y & f(#01, <ab>, @c))",
    b"(x = x | y = y | z = z | !z = x)",
    b"!(a = a -> (b = b <-> !!c(@a)))",
];

/// Lexemes that are no sentence.
static OTHERS: [&[u8]; 20] = [
    b"x",
    b"#1",
    b"f(x) = y = z",
    b"f()",
    b"f(x,)",
    b"f(x y)",
    b"(x = x)",
    b"(x = x & y = y",
    b"x = x & y = y",
    b"(x = x -> y = y -> z = z)",
    b"(x = x <-> y = y <-> z = z)",
    b"(x = x & y = y | z = z)",
    b"x = x x = x",
    b"all all: alt. @a = @a",
    b"some some: alt. @a = @a",
    b"all x: alt. all = x",
    b"some(x)",
    b"all x: number. x = x",
    b"all x alt. x = x",
    b"all x: alt x = x",
];

/// A head, a piece, how often the piece stands, and a tail: what their text is refused for, if it is.
static LIMITS: [(&[u8], &[u8], u16, &[u8], Option<SyntaxFault>); 22] = [
    // Depth 64 and 65 by formulas; 600 and 601 lexemes.
    (b"all p: profile. ", b"!", 61, b"wins(@a, p)", None),
    (
        b"all p: profile. ",
        b"!",
        62,
        b"wins(@a, p)",
        Some(SyntaxFault::Deep),
    ),
    (
        b"all p: profile. ",
        b"!",
        589,
        b"wins(@a, p)",
        Some(SyntaxFault::Deep),
    ),
    (
        b"all p: profile. ",
        b"!",
        590,
        b"wins(@a, p)",
        Some(SyntaxFault::Long(601)),
    ),
    // The deepest nesting of terms that 600 lexemes allow.
    (b"x = ", b"f(", 299, b"", Some(SyntaxFault::NoReading)),
    (b"@a = f(x", b", x", 297, b")", None),
    (b"@a = f(x", b", x", 298, b")", Some(SyntaxFault::Long(602))),
    // Signs and brackets alone.
    (b"", b"!", 600, b"", Some(SyntaxFault::NoReading)),
    (b"", b"(", 600, b"", Some(SyntaxFault::NoReading)),
    (b"", b"!", 601, b"", Some(SyntaxFault::Long(601))),
    (b"", b"(", 60000, b"", Some(SyntaxFault::Long(60000))),
    (b"", b"!", 700, b"?", Some(SyntaxFault::Lexeme(700))),
    // `#12a` and `@a@` are two lexemes each, `<->` is one.
    (b"", b"#12a ", 301, b"", Some(SyntaxFault::Long(602))),
    (b"", b"@a@b", 301, b"", Some(SyntaxFault::Long(602))),
    (b"", b"<->", 601, b"", Some(SyntaxFault::Long(601))),
    // 12 and 13 quantifiers on a path, on two paths, and where the depth is above 64 too.
    (b"", b"all x: alt. ", 12, b"x = x", None),
    (
        b"",
        b"some x: alt. ",
        13,
        b"x = x",
        Some(SyntaxFault::Variables),
    ),
    (
        b"",
        b"all x: alt. ",
        13,
        b"x = x",
        Some(SyntaxFault::Variables),
    ),
    (
        b"(",
        b"all x: alt. ",
        12,
        b"x = x & some y: voter. y = y)",
        None,
    ),
    (
        b"",
        b"all x: alt. ",
        62,
        b"x = x",
        Some(SyntaxFault::Variables),
    ),
    (b"", b"all x: alt. ", 63, b"x = x", Some(SyntaxFault::Deep)),
    (b"", b"all x: alt. ", 63, b"x", Some(SyntaxFault::NoReading)),
];

/// Sentences, and their canonical texts.
static CANONICAL: [(&[u8], &[u8]); 8] = [
    (b"(a=a&b=b&c=c)", b"(a = a & (b = b & c = c))"),
    (b"(a=a|b=b|c=c|d=d)", b"(a = a | (b = b | (c = c | d = d)))"),
    (b"((a=a->b=b)<->c=c)", b"((a = a -> b = b) <-> c = c)"),
    (b"f(#007,<ab>,@z)", b"f(#7, <ab>, @z)"),
    (b"#0=#000", b"#0 = #0"),
    (b"f ( #10 , #100 , #999 )", b"f(#10, #100, #999)"),
    (
        b"!\n! all x:alt.some b:ballot.x=x",
        b"!!all x: alt. some b: ballot. x = x",
    ),
    (b"g(f(x),f(f(y)))=z", b"g(f(x), f(f(y))) = z"),
];

/// Canonical texts.
static AXIOMS: [&[u8]; 14] = [
    b"all p: profile. all x: alt. (all i: voter. all y: alt. (x = y | prefers(i, x, y, p)) -> wins(x, p))",
    b"all p: profile. all x: alt. all y: alt. (all i: voter. prefers(i, x, y, p) -> !wins(y, p))",
    b"all x: alt. some p: profile. wins(x, p)",
    b"all i: voter. some p: profile. some x: alt. some y: alt. (prefers(i, y, x, p) & wins(x, p))",
    b"all p: profile. all i: voter. all b: ballot. all x: alt. all y: alt. ((wins(x, p) & wins(y, with(p, i, b))) -> !prefers(i, y, x, p))",
    b"all p: profile. all q: profile. all x: alt. ((wins(x, p) & all i: voter. all y: alt. (prefers(i, x, y, p) -> prefers(i, x, y, q))) -> wins(x, q))",
    b"all p: profile. all x: alt. (all y: alt. (x = y | majority(x, y, p)) -> wins(x, p))",
    b"all p: profile. all i: voter. all j: voter. all x: alt. (wins(x, p) <-> wins(x, swap_voters(p, i, j)))",
    b"all p: profile. all x: alt. all y: alt. all z: alt. (wins(z, p) <-> wins(swap(x, y, z), swap_alts(p, x, y)))",
    b"all p: profile. all x: alt. all y: alt. (all i: voter. prefers(i, x, y, p) -> ranks(x, y, p))",
    b"all p: profile. all q: profile. all x: alt. all y: alt. (all i: voter. (prefers(i, x, y, p) <-> prefers(i, x, y, q)) -> (ranks(x, y, p) <-> ranks(x, y, q)))",
    b"all i: voter. some p: profile. some x: alt. some y: alt. (prefers(i, x, y, p) & !ranks(x, y, p))",
    b"all p: profile. all i: voter. all j: voter. all x: alt. all y: alt. (ranks(x, y, p) <-> ranks(x, y, swap_voters(p, i, j)))",
    b"all p: profile. all x: alt. all y: alt. all z: alt. all w: alt. (ranks(z, w, p) <-> ranks(swap(x, y, z), swap(x, y, w), swap_alts(p, x, y)))",
];

// Each table is handed out as a slice, so that the proof of a test need not read it.
fn lexed() -> &'static [&'static [u8]] {
    &LEXED
}

fn stuck() -> &'static [(&'static [u8], u64)] {
    &STUCK
}

fn sentences() -> &'static [&'static [u8]] {
    &SENTENCES
}

fn others() -> &'static [&'static [u8]] {
    &OTHERS
}

fn limits() -> &'static [(
    &'static [u8],
    &'static [u8],
    u16,
    &'static [u8],
    Option<SyntaxFault>,
)] {
    &LIMITS
}

fn canonical() -> &'static [(&'static [u8], &'static [u8])] {
    &CANONICAL
}

fn axioms() -> &'static [&'static [u8]] {
    &AXIOMS
}

// Whether this is why the text is no sentence, if it is none.
fn is_answer(alloc: Global, text: &[u8], wanted: Option<SyntaxFault>) -> bool {
    read(alloc, text).err() == wanted
}

// A text of one piece that is repeated between two others.
fn repeated(
    alloc: Global,
    head: &[u8],
    piece: &[u8],
    times: u16,
    tail: &[u8],
) -> Result<Vec<u8>, AllocError> {
    let mut text = Vec::from_slice(alloc, head)?;
    for _ in 0..times {
        text.extend_from_slice(piece)?;
    }
    text.extend_from_slice(tail)?;
    Ok(text)
}

// Whether the text reads as a sentence, of which a sink with so much room, whose writes of these numbers
// fail, then holds this, and whether all was taken.
fn is_printed(
    alloc: Global,
    text: &[u8],
    room: usize,
    failing: &[u32],
    held: &[u8],
    whole: bool,
) -> Result<bool, Fail> {
    let mut sink = MemorySink::new(alloc, room, failing)?;
    match read(alloc, text) {
        Ok(sentence) => { Ok(print(&sentence, &mut sink).is_ok() == whole && sink.bytes() == held) }
        Err(_) => Ok(false),
    }
}

#[test]
fn lexemes_have_their_forms(rt: HostRuntime) {
    for text in lexed() {
        assert!(rt; is_answer(rt.alloc(), text, Some(SyntaxFault::NoReading)));
    }
    for (text, offset) in stuck() {
        assert!(rt; is_answer(rt.alloc(), text, Some(SyntaxFault::Lexeme(*offset))));
    }
}

#[test]
fn only_the_grammar_is_read(rt: HostRuntime) {
    for text in sentences() {
        assert!(rt; is_answer(rt.alloc(), text, None));
    }
    for text in others() {
        assert!(rt; is_answer(rt.alloc(), text, Some(SyntaxFault::NoReading)));
    }
}

// Whether this is why such a text is no sentence, if it is none.
fn is_limited(
    alloc: Global,
    head: &[u8],
    piece: &[u8],
    times: u16,
    tail: &[u8],
    wanted: Option<SyntaxFault>,
) -> Result<bool, Fail> {
    let text = repeated(alloc, head, piece, times, tail)?;
    Ok(is_answer(alloc, text.as_slice(), wanted))
}

// Whether this is why calls in calls, `x = f(..f(x)..)` with so many signs, are no sentence, if they are none.
fn is_nested(alloc: Global, times: u16, wanted: Option<SyntaxFault>) -> Result<bool, Fail> {
    let open = repeated(alloc, b"x = ", b"f(", times, b"x")?;
    let text = repeated(alloc, open.as_slice(), b")", times, b"")?;
    Ok(is_answer(alloc, text.as_slice(), wanted))
}

#[test]
fn limits_are_kept(rt: HostRuntime) -> Result<(), Fail> {
    for (head, piece, times, tail, wanted) in limits() {
        assert!(rt; is_limited(rt.alloc(), head, piece, *times, tail, *wanted)?);
    }
    // With 62 and 63 signs the depth is 64 and 65.
    let least = is_nested(rt.alloc(), 62, None)?;
    let most = is_nested(rt.alloc(), 63, Some(SyntaxFault::Deep))?;
    assert!(rt; least && most);
    Ok(())
}

#[test]
fn canonical_texts_are_printed(rt: HostRuntime) -> Result<(), Fail> {
    for (text, wanted) in canonical() {
        assert!(rt; is_printed(rt.alloc(), text, 100, &[], wanted, true)?);
    }
    // The sink has room for three bytes. Then the only write fails.
    assert!(rt; is_printed(rt.alloc(), b"(a=a&b=b)", 3, &[], b"(a ", false)?);
    assert!(rt; is_printed(rt.alloc(), b"(a=a&b=b)", 100, &[0], b"", false)?);
    Ok(())
}

#[test]
fn axioms_are_printed_as_they_are_read(rt: HostRuntime) -> Result<(), Fail> {
    for text in axioms() {
        assert!(rt; is_printed(rt.alloc(), text, 200, &[], text, true)?);
    }
    Ok(())
}
