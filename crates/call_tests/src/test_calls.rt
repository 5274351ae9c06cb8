//! Calls of the bench over devices in memory, for the tests, and the texts that these share.

use answers::Run;
use edge::{Gate, MemoryShelf, MemorySink, Shelf, Sink};
use std::alloc::{AllocError, Global};
use std::test::Fail;
use std::thread::Threads;
use top_call::bench;

/// Of one voter and two alternatives.
pub const UNANIMITY: &str =
    "kind = \"choice\"\nvoters = 1\nalternatives = 2\naxioms = [\"unanimity\"]\n";

/// No rule for two voters and two alternatives is anonymous and neutral.
pub const SYMMETRIC: &str =
    "kind = \"choice\"\nvoters = 2\nalternatives = 2\naxioms = [\"anonymity\", \"neutrality\"]\n";

pub const SYMMETRIC_STORY: &str =
    "bench report 1\nkind choice\nvoters 2\nalternatives 2\naxioms anonymity neutrality\nverdict impossible\ncore anonymity neutrality\nlemmas 2\nlemma 1\nsuppose a@ab|ba\nso a@ba|ab by axiom anonymity ab|ba 1 2 a\nso b@ba|ab by axiom neutrality ab|ba a b a\nclash by outcome ba|ab\nlemma 2\nso !a@ab|ba by lemma 1\nso b@ab|ba by outcome ab|ba\nso b@ba|ab by axiom anonymity ab|ba 1 2 b\nso a@ba|ab by axiom neutrality ab|ba a b b\nclash by outcome ba|ab\nwithout anonymity rule 4\nab|ab a\nab|ba a\nba|ab b\nba|ba b\nwithout neutrality rule 4\nab|ab a\nab|ba a\nba|ab a\nba|ba a\nend\n";

/// A sharp text of the same, with a story of two instances.
pub const SYMMETRIC_SHARP: &str =
    "bench sharp 1\nkind choice\nvoters 2\nalternatives 2\naxioms anonymity neutrality\nverdict impossible\ncore anonymity neutrality\nlemmas 2\nlemma 1\nsuppose a@ab|ba\nso a@ba|ab by axiom anonymity ab|ba 1 2 a\nso b@ba|ab by axiom neutrality ab|ba a b a\nclash by outcome ba|ab\nlemma 2\nso !a@ab|ba by lemma 1\nso !a@ba|ab by axiom anonymity ab|ba 1 2 a\nso !b@ba|ab by axiom neutrality ab|ba a b a\nclash by outcome ba|ab\ninstances 2\nneeds anonymity ab|ba 1 2 a rule 4\nab|ab a\nab|ba a\nba|ab b\nba|ba b\nneeds neutrality ab|ba a b a rule 4\nab|ab a\nab|ba a\nba|ab a\nba|ba a\nend\n";

/// Arrow's axioms for two voters and three alternatives.
pub const ARROW: &str =
    "kind = \"ranking\"\nvoters = 2\nalternatives = 3\naxioms = [\"pareto\", \"independence\", \"non_dictatorship\"]\n";

/// What a call came to: its status, how many clauses its spent searches learned, and the bytes that it wrote.
#[derive(Drop)]
pub struct Told {
    pub status: u8,
    pub learned: usize,
    pub bytes: Vec<u8>,
}

impl Told {
    /// Whether the call ended with this status, and wrote this text.
    pub fn is(&self, status: u8, text: &[u8]) -> bool {
        self.status == status && self.bytes.as_slice() == text
    }
}

/// The words of a command.
pub fn words_of(alloc: Global, words: &[&str]) -> Result<Vec<String>, AllocError> {
    let mut list = Vec::new(alloc);
    for word in words {
        list.push(String::from_str(alloc, word)?)?;
    }
    Ok(list)
}

/// The shelf with the files `first` and `second`.
pub fn with_files(
    mut shelf: MemoryShelf,
    first: &[u8],
    second: &[u8],
) -> Result<MemoryShelf, Fail> {
    shelf.hold("first", first)?;
    shelf.hold("second", second)?;
    Ok(shelf)
}

/// A shelf with the files `first` and `second`, of which these calls fail.
pub fn shelf_of(
    alloc: Global,
    failing: &[u32],
    first: &[u8],
    second: &[u8],
) -> Result<MemoryShelf, Fail> {
    with_files(MemoryShelf::new(alloc, failing)?, first, second)
}

/// The status of a run, and how many clauses its spent searches learned.
pub fn counts(run: Run) -> (u8, usize) {
    let mut learned: usize = 0;
    for log in run.logs.as_slice() {
        learned = learned.saturating_add(log.lines.len());
    }
    (run.status, learned)
}

/// The status of a command over a shelf and into a sink, and how many clauses its spent searches learned.
pub fn put<R: Threads + Sync, G: Gate, S: Shelf, K: Sink>(
    rt: &R,
    alloc: Global,
    gate: &G,
    words: &[&str],
    shelf: &mut S,
    out: &mut K,
) -> Result<(u8, usize), Fail> {
    let words = words_of(alloc, words)?;
    Ok(counts(bench(rt, alloc, &words, shelf, out, gate)))
}

/// What a command comes to over a shelf and into a sink.
pub fn answered_into<R: Threads + Sync, G: Gate>(
    rt: &R,
    alloc: Global,
    gate: &G,
    words: &[&str],
    mut shelf: MemoryShelf,
    mut out: MemorySink,
) -> Result<Told, Fail> {
    let (status, learned) = put(rt, alloc, gate, words, &mut shelf, &mut out)?;
    let bytes = out.bytes().to_vec(alloc)?;
    Ok(Told {
        status,
        learned,
        bytes,
    })
}

/// What a command comes to over a shelf, with a sink that has so much room.
pub fn answered_over<R: Threads + Sync, G: Gate>(
    rt: &R,
    alloc: Global,
    gate: &G,
    words: &[&str],
    shelf: MemoryShelf,
    room: usize,
) -> Result<Told, Fail> {
    let out = MemorySink::new(alloc, room, &[])?;
    answered_into(rt, alloc, gate, words, shelf, out)
}

/// What a command comes to over the files `first` and `second`, with a sink that has so much room.
pub fn answered<R: Threads + Sync, G: Gate>(
    rt: &R,
    alloc: Global,
    gate: &G,
    words: &[&str],
    first: &[u8],
    second: &[u8],
    room: usize,
) -> Result<Told, Fail> {
    let shelf = shelf_of(alloc, &[], first, second)?;
    answered_over(rt, alloc, gate, words, shelf, room)
}
