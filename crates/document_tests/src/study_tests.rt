//! Documents, and the study or the fault that each of them gives.

use crate::fixtures::{push_bytes, push_names};
use sorts::SortFault;
use std::alloc::{AllocError, Global};
use std::test::Fail;
use study::{StudyFault, read_study};
use syntax::SyntaxFault;
use vocab::{Name, Size, SizeFault, Study};

const PLAIN: &str = "kind = 'choice'\nvoters = 2\nalternatives = 3\naxioms = ['pareto']\n";

/// A part of the plain document, what stands in its place, and what the document then gives.
static CASES: [(&str, &str, &str); 49] = [
    ("", "", "2 3 100000 pareto"),
    // The document.
    ("'choice'", "", "toml"),
    ("voters = 2", "voters = 2\nvoters = 2", "toml"),
    (PLAIN, "# nothing", "key kind"),
    ("'choice'", "'set'", "key kind"),
    ("'choice'", "1", "key kind"),
    ("'choice'", "'ranking'", "2 3 100000 pareto"),
    ("voters = 2\n", "", "key voters"),
    ("voters = 2", "voters = 1.0", "key voters"),
    ("voters = 2", "voters = 0x2", "2 3 100000 pareto"),
    ("alternatives = 3", "alternatives = '3'", "key alternatives"),
    ("axioms", "conflicts = '1'\naxioms", "key conflicts"),
    ("axioms = ['pareto']", "", "key axioms"),
    ("['pareto']", "'pareto'", "key axioms"),
    ("'pareto'", "'pareto', 1", "key axioms"),
    ("axioms", "sentences = 1\naxioms", "key sentences"),
    ("axioms", "sentences = {}\naxioms", "2 3 100000 pareto"),
    ("axioms", "sentences = { b = 1, a = 2 }\naxioms", "key a"),
    (
        "axioms",
        "sentences = { b = 'x', B = 'x' }\naxioms",
        "key B",
    ),
    (
        "axioms",
        "sentences = { a23456789_123456789_123456789_123 = 'x' }\naxioms",
        "key a23456789_123456789_123456789_123",
    ),
    (
        "axioms",
        "sentences = { a23456789_123456789_123456789_12 = 'x' }\naxioms",
        "2 3 100000 pareto",
    ),
    ("axioms", "a = 1\nsentences = { b = 1 }\naxioms", "key b"),
    ("axioms", "title = 1\nauthor = 2\naxioms", "key author"),
    // The size, the limit, the number of axioms.
    ("voters = 2", "voters = 9\ntitle = 1", "key title"),
    (
        "voters = 2",
        "voters = 9223372036854775807",
        "voters 9223372036854775807",
    ),
    ("voters = 2", "voters = -1", "voters -1"),
    (
        "alternatives = 3",
        "alternatives = 6\nconflicts = 0",
        "alternatives 6",
    ),
    (
        "2\nalternatives = 3",
        "3\nalternatives = 5",
        "profiles 1728000",
    ),
    ("axioms", "conflicts = 0\naxioms", "conflicts 0"),
    ("axioms", "conflicts = 1\naxioms", "2 3 1 pareto"),
    (
        "axioms",
        "conflicts = 1000000\naxioms",
        "2 3 1000000 pareto",
    ),
    ("axioms", "conflicts = 1000001\naxioms", "conflicts 1000001"),
    // The names.
    ("'pareto'", "", "2 3 100000"),
    (
        "'pareto'",
        "'onto', 'maskin', 'pareto'",
        "2 3 100000 onto maskin pareto",
    ),
    (
        "'pareto'",
        "'pareto', 'independence'",
        "unknown independence",
    ),
    ("'pareto'", "'pareto', 'pareto', 'No'", "unknown No"),
    (
        "'pareto'",
        "'onto', 'pareto', 'onto', 'pareto'",
        "twice onto",
    ),
    (
        "axioms",
        "sentences = { pareto = 'x', onto = 'x' }\naxioms",
        "twice pareto",
    ),
    (
        "axioms",
        "sentences = { onto = 'x' }\naxioms",
        "2 3 100000 pareto",
    ),
    // The texts, of which only those that are listed are read.
    (
        "axioms = ['pareto']",
        "sentences = { b = '@ab', a = 'x = ?', c = '(' }\naxioms = ['pareto', 'b', 'a']",
        "lexeme b 0",
    ),
    (
        "axioms = ['pareto']",
        "sentences = { a = 'x = y', b = '(' }\naxioms = ['a', 'b']",
        "no reading b",
    ),
    (
        "axioms = ['pareto']",
        "sentences = { a = 'x = y', b = '(' }\naxioms = ['pareto', 'a']",
        "unbound x",
    ),
    (
        "axioms = ['pareto']",
        "sentences = { a = 'all p: profile. ranks(@a, @b, p)' }\naxioms = ['a']",
        "kind ranks",
    ),
    (
        "axioms = ['pareto']",
        "sentences = { a = 'some p: profile. wins(@c, p)' }\naxioms = ['a', 'pareto']",
        "2 3 100000 a pareto",
    ),
    // Instances, one for each choice of values.
    (
        "3\naxioms = ['pareto']",
        "4\nsentences = { big = 'all p: profile. all q: profile. all x: alt. all y: alt. all z: alt. x = x' }\naxioms = ['big']",
        "2 4 100000 big",
    ),
    (
        "3\naxioms = ['pareto']",
        "4\nsentences = { big = 'all p: profile. all q: profile. all x: alt. all y: alt. all z: alt. all w: alt. x = x' }\naxioms = ['big']",
        "instances big 84934656",
    ),
    // Counts that pass every number.
    (
        "3\naxioms = ['pareto']",
        "5\nsentences = { a = 'all x: profile. all x: profile. all x: profile. all x: profile. x = x' }\naxioms = ['a']",
        "instances a 42998169600000000",
    ),
    (
        "3\naxioms = ['pareto']",
        "5\nsentences = { a = 'all x: profile. all x: profile. all x: profile. all x: profile. all x: profile. x = x' }\naxioms = ['a']",
        "instances a 18446744073709551615",
    ),
    (
        "3\naxioms = ['pareto']",
        "5\nsentences = { a = 'some x: profile. some x: profile. some x: profile. some x: profile. some x: profile. x = x' }\naxioms = ['a']",
        "body a 18446744073709551615",
    ),
];

/// A part of the plain document, what stands in its place, and what the document then gives: the ballots of a
/// size are digits in base 2, the first ranking's last.
static BALLOTS: [(&str, &str, &str); 35] = [
    ("3", "2\nballots = ['ba']", "2 2 100000 pareto of 10"),
    (
        "axioms",
        "ballots = ['cba', 'abc', 'bca', 'bac']\naxioms",
        "2 3 100000 pareto of 101101",
    ),
    (
        "axioms",
        "ballots = ['cba', 'cab', 'bca', 'bac', 'acb', 'abc']\naxioms",
        "2 3 100000 pareto",
    ),
    ("axioms", "absent = false\naxioms", "2 3 100000 pareto"),
    (
        "axioms",
        "absent = true\naxioms",
        "2 3 100000 pareto absent",
    ),
    (
        "axioms",
        "absent = true\nballots = ['acb']\naxioms",
        "2 3 100000 pareto of 10 absent",
    ),
    // The keys.
    ("axioms", "ballots = 'abc'\naxioms", "key ballots"),
    ("axioms", "ballots = ['abc', 1]\naxioms", "key ballots"),
    ("axioms", "absent = 1\naxioms", "key absent"),
    (
        "3",
        "'3'\nballots = 1\nabsent = 1\nconflicts = ''",
        "key alternatives",
    ),
    (
        "axioms",
        "ballots = 1\nabsent = 1\nconflicts = ''\naxioms",
        "key ballots",
    ),
    ("axioms", "absent = 1\nconflicts = ''\naxioms", "key absent"),
    // The ballots.
    ("3", "2\nballots = ['ab', 'ab']", "ballot ab"),
    ("3", "2\nballots = ['ab', 'ac']", "ballot ac"),
    ("3", "2\nballots = ['ab', 'ba', 'aa', 'ab']", "ballot aa"),
    ("3", "2\nballots = ['ab', 'abc']", "ballot abc"),
    ("3", "2\nballots = ['']", "ballot "),
    ("3", "2\nballots = []", "no ballots"),
    // Two faults of a size.
    ("2", "9\nballots = ['']", "voters 9"),
    ("3", "6\nballots = ['']", "alternatives 6"),
    (
        "2",
        "8\nballots = ['abc', 'acb', 'bac', 'bca', 'abc']",
        "ballot abc",
    ),
    (
        "2\nalternatives = 3",
        "8\nalternatives = 5\nballots = []",
        "no ballots",
    ),
    (
        "2",
        "8\nconflicts = 0\nballots = ['abc', 'acb', 'bac', 'bca']",
        "profiles 65536",
    ),
    (
        "2",
        "8\nballots = ['abc', 'acb', 'bac']",
        "8 3 100000 pareto of 111",
    ),
    (
        "2",
        "8\nabsent = true\nballots = ['abc', 'acb', 'bac']",
        "profiles 65535",
    ),
    // The sentences.
    (
        "3\naxioms = ['pareto']",
        "2\nballots = ['ba']\nsentences = { a = 'better(<ab>, @a, @b)' }\naxioms = ['a']",
        "sort",
    ),
    (
        "axioms = ['pareto'",
        "ballots = ['abc', 'bac', 'bca', 'cba']\naxioms = ['pareto', 'neutrality'",
        "open neutrality",
    ),
    (
        "axioms = ['pareto'",
        "absent = true\naxioms = ['neutrality'",
        "2 3 100000 neutrality absent",
    ),
    (
        "axioms = ['pareto'",
        "ballots = ['abc', 'bac', 'bca', 'cba']\nsentences = { a = 'all x: profile. all x: profile. all x: profile. all x: profile. all x: profile. all x: profile. all x: profile. x = x' }\naxioms = ['a'",
        "instances a 268435456",
    ),
    (
        "axioms = ['pareto'",
        "ballots = ['abc', 'bac', 'bca', 'cba']\nsentences = { a = 'all x: profile. all x: profile. all x: profile. all x: profile. all x: profile. all x: profile. all x: profile. x = x' }\naxioms = ['a', 'neutrality'",
        "open neutrality",
    ),
    (
        "axioms = ['pareto'",
        "ballots = ['abc', 'bac', 'bca', 'cba']\nsentences = { a = 'all x: profile. all x: profile. all x: profile. all x: profile. all x: profile. all x: profile. all x: profile. wins(@a, swap_alts(x, @a, @b))' }\naxioms = ['a'",
        "open a",
    ),
    (
        "3\naxioms = ['pareto'",
        "2\nballots = ['ab']\nsentences = { moved = 'all p: profile. wins(@a, swap_alts(p, @a, @b))' }\naxioms = ['moved'",
        "open moved",
    ),
    (
        "3\naxioms = ['pareto'",
        "2\nabsent = true\nballots = ['ba']\nsentences = { moved = 'all p: profile. wins(@a, swap_alts(p, @a, @b))' }\naxioms = ['moved'",
        "open moved",
    ),
    (
        "3\naxioms = ['pareto'",
        "2\nballots = ['ba', 'ab']\nsentences = { moved = 'all p: profile. wins(@a, swap_alts(p, @a, @b))' }\naxioms = ['moved'",
        "2 2 100000 moved",
    ),
    (
        "3\naxioms = ['pareto'",
        "2\nabsent = true\nballots = ['ab', 'ba']\nsentences = { moved = 'all p: profile. wins(@a, swap_alts(p, @a, @b))' }\naxioms = ['moved'",
        "2 2 100000 moved absent",
    ),
];

/// Quantifiers of a sentence over five voters and two alternatives, what follows them, and what is then said.
static SIZES: [(&str, &str, &str); 9] = [
    ("VVVVVVVPAAAA", "x = x", "5 2 100000 a"),
    ("VVVVVVVVAAAAAA", "x = x", "variables a"),
    ("VVVVVVVVAAAA", "x = x", "5 2 100000 a"),
    ("VVVVVVVVAAAP", "x = x", "instances a 100000000"),
    ("vvvvvvaaaaaa", "x = x", "5 2 100000 a"),
    ("vvvvvvvaaaaa", "x = x", "body a 2500000"),
    (
        "pppppppppppp",
        "(x = x & (x = x & x = x))",
        "body a 3458764513820540928",
    ),
    ("VVVVVVVPvaaa", "(x = x & x = x)", "5 2 100000 a"),
    (
        "VVVVVVVPvaaa",
        "(x = x & (x = x & x = x))",
        "work a 300000000",
    ),
];

// Each table is handed out as a slice, so that the proof of a test need not read it.
fn cases() -> &'static [(&'static str, &'static str, &'static str)] {
    &CASES
}

fn ballots() -> &'static [(&'static str, &'static str, &'static str)] {
    &BALLOTS
}

fn sizes() -> &'static [(&'static str, &'static str, &'static str)] {
    &SIZES
}

/// A word and some bytes.
fn said(alloc: Global, word: &str, bytes: &[u8]) -> Result<String, AllocError> {
    let mut text = format!(in alloc; "{word} ")?;
    push_bytes(&mut text, bytes)?;
    Ok(text)
}

/// A word, a name and a count.
fn counted(alloc: Global, word: &str, name: &Name, count: u64) -> Result<String, AllocError> {
    let mut text = said(alloc, word, name.bytes())?;
    text.push_str(format!(in alloc; " {count}")?.as_str())?;
    Ok(text)
}

/// What a text is refused for.
fn unread(alloc: Global, name: &Name, fault: SyntaxFault) -> Result<String, AllocError> {
    match fault {
        SyntaxFault::Lexeme(offset) => counted(alloc, "lexeme", name, offset),
        SyntaxFault::Long(count) => counted(alloc, "long", name, count),
        SyntaxFault::NoReading => said(alloc, "no reading", name.bytes()),
        SyntaxFault::Deep => said(alloc, "deep", name.bytes()),
        SyntaxFault::Variables => said(alloc, "variables", name.bytes()),
        SyntaxFault::NoMemory => String::from_str(alloc, "no memory"),
    }
}

/// What a sentence is refused for.
fn unsorted(alloc: Global, fault: SortFault) -> Result<String, AllocError> {
    match fault {
        SortFault::Unbound(name) => said(alloc, "unbound", name.bytes()),
        SortFault::Kind(symbol) => said(alloc, "kind", symbol.bytes()),
        _ => String::from_str(alloc, "sort"),
    }
}

/// What a size is refused for.
fn no_size(alloc: Global, fault: SizeFault) -> Result<String, AllocError> {
    match fault {
        SizeFault::Voters(number) => format!(in alloc; "voters {number}"),
        SizeFault::Alternatives(number) => format!(in alloc; "alternatives {number}"),
        SizeFault::Profiles(count) => format!(in alloc; "profiles {count}"),
        SizeFault::Domain => String::from_str(alloc, "no ballots"),
    }
}

/// What a document is refused for.
fn refused(alloc: Global, fault: &StudyFault) -> Result<String, AllocError> {
    match fault {
        StudyFault::Toml => String::from_str(alloc, "toml"),
        StudyFault::Key(key) => said(alloc, "key", key.as_slice()),
        StudyFault::Size(fault) => no_size(alloc, *fault),
        StudyFault::Ballot(text) => said(alloc, "ballot", text.as_slice()),
        StudyFault::Conflicts(number) => format!(in alloc; "conflicts {number}"),
        StudyFault::Many(count) => format!(in alloc; "many {count}"),
        StudyFault::Unknown(text) => said(alloc, "unknown", text.as_slice()),
        StudyFault::Twice(name) => said(alloc, "twice", name.bytes()),
        StudyFault::Syntax(name, fault) => unread(alloc, name, *fault),
        StudyFault::Sort(_, fault) => unsorted(alloc, *fault),
        StudyFault::Open(name) => said(alloc, "open", name.bytes()),
        StudyFault::Instances(name, count) => counted(alloc, "instances", name, *count),
        StudyFault::Body(name, count) => counted(alloc, "body", name, *count),
        StudyFault::Work(name, count) => counted(alloc, "work", name, *count),
        StudyFault::NoMemory => String::from_str(alloc, "no memory"),
    }
}

/// Appends the ballots of a size where these are not all, and whether voters may be absent.
fn push_domain(alloc: Global, text: &mut String, size: Size) -> Result<(), AllocError> {
    if !size.has_all_ballots() {
        let ballots = size.ballots();
        text.push_str(format!(in alloc; " of {ballots:b}")?.as_str())?;
    }
    if size.absent() {
        text.push_str(" absent")?;
    }
    Ok(())
}

/// The numbers of a study, the names of its axioms, its ballots where these are not all, and whether voters
/// may be absent.
fn shown(alloc: Global, study: &Study) -> Result<String, AllocError> {
    let voters = study.size().voters();
    let alternatives = study.size().alternatives();
    let conflicts = study.conflicts();
    let mut text = format!(in alloc; "{voters} {alternatives} {conflicts}")?;
    push_names(&mut text, study)?;
    push_domain(alloc, &mut text, study.size())?;
    Ok(text)
}

/// What the bytes give.
fn answer(alloc: Global, bytes: &[u8]) -> Result<String, AllocError> {
    match read_study(alloc, bytes) {
        Ok(study) => shown(alloc, &study),
        Err(fault) => refused(alloc, &fault),
    }
}

/// What the plain document gives with something else in the place of a part.
fn changed(alloc: Global, part: &str, other: &str) -> Result<String, Fail> {
    let (before, after) = PLAIN.split_once(part).ok_or("a part of the document")?;
    let text = format!(in alloc; "{before}{other}{after}")?;
    Ok(answer(alloc, text.as_bytes())?)
}

/// Whether the plain document with something else in the place of a part gives this.
fn is_given(alloc: Global, part: &str, other: &str, wanted: &str) -> Result<bool, Fail> {
    Ok(changed(alloc, part, other)?.as_str() == wanted)
}

#[test]
fn documents_give_studies(rt: HostRuntime) -> Result<(), Fail> {
    for (part, other, wanted) in cases() {
        assert!(rt; is_given(rt.alloc(), part, other, wanted)?);
    }
    assert!(rt; answer(rt.alloc(), b"kind = 'choice\xff'")?.as_str() == "toml");
    Ok(())
}

#[test]
fn studies_may_list_ballots(rt: HostRuntime) -> Result<(), Fail> {
    for (part, other, wanted) in ballots() {
        assert!(rt; is_given(rt.alloc(), part, other, wanted)?);
    }
    Ok(())
}

/// A sentence with these quantifiers, all over one name.
fn quantified(alloc: Global, quantifiers: &str, body: &str) -> Result<String, AllocError> {
    let mut text = String::new(alloc);
    for letter in quantifiers.chars() {
        text.push_str(match letter {
            'V' => "all x: voter. ",
            'A' => "all x: alt. ",
            'P' => "all x: profile. ",
            'v' => "some x: voter. ",
            'a' => "some x: alt. ",
            _ => "some x: profile. ",
        })?;
    }
    text.push_str(body)?;
    Ok(text)
}

/// What a study over five voters and two alternatives gives whose axiom has these quantifiers.
fn limited(alloc: Global, quantifiers: &str, body: &str) -> Result<String, AllocError> {
    let head = "kind = 'ranking'\nvoters = 5\nalternatives = 2\naxioms = ['a']\n[sentences]\na = ";
    let sentence = quantified(alloc, quantifiers, body)?;
    let text = format!(in alloc; "{head}'{sentence}'\n")?;
    answer(alloc, text.as_bytes())
}

#[test]
fn sentences_have_limits(rt: HostRuntime) -> Result<(), Fail> {
    for (quantifiers, body, wanted) in sizes() {
        assert!(rt; limited(rt.alloc(), quantifiers, body)?.as_str() == *wanted);
    }
    Ok(())
}

/// What a study gives with so many axioms, all of one name.
fn many(alloc: Global, count: u32) -> Result<String, AllocError> {
    let mut text = String::from_str(
        alloc,
        "kind = 'choice'\nvoters = 1\nalternatives = 1\naxioms = [",
    )?;
    for _i in 0..count {
        text.push_str("'no', ")?;
    }
    text.push_str("]\n")?;
    answer(alloc, text.as_bytes())
}

#[test]
fn studies_have_few_axioms(rt: HostRuntime) -> Result<(), Fail> {
    assert!(rt; many(rt.alloc(), 40)?.as_str() == "unknown no");
    assert!(rt; many(rt.alloc(), 41)?.as_str() == "many 41");
    Ok(())
}
