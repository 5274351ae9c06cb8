//! Judges the report or the sharp text in a file.

ghost use Rattle.std.specs.Prelude.{◌≡◌, ◌≤◌, List, ℕ, [], length, Option, Some, None, IfSome, IfOk, IsErrOf, is_some, IsTrue, IsFalse};
ghost use Rattle.edge.specs.Faults.{Rose};
ghost use Rattle.edge.specs.Shelf.{OthersStay, NoneFell};
ghost use Rattle.vocab.specs.Size.{IsSize};
ghost use Rattle.verdicts.specs.Judge.{answer_within};
ghost use Rattle.sharp_verdicts.specs.SharpJudge.{sharp_answer_within};
ghost use Rattle.sharp_verdicts.specs.Judged.{judged_within};
ghost use Rattle.report_files.specs.Files.{IsEndedAt, IsWorth, IsSharpWorth, IsJudgedWorth, IsWorthOf, IsJudgedWorthOf, FileIsRight, FileIsConfirmed, HasReadWhole, WorthHolds, SharpWorthHolds, JudgedWorthHolds, most_verdict_bytes};
ghost use Rattle.report_files.specs.Lines.{lines_given, has_fault};
ghost use Rattle.report_files.specs.Pieces.{StandsForText, HasTaken};

use crate::reader::Reader;
use crate::worths::{JudgedWorth, SharpWorth, Worth};
use crew::Crew;
use edge::{Failed, Gate, RewindFault, Shelf};
use lists::NoMemory;
use outcomes::OutcomeKind;
use outcomes::laws::kinds_have_sizes;
use report::Topic;
use std::alloc::Global;
use std::thread::Threads;
use verdicts::Confirmed;

/// Why a file was not judged: the shelf failed, and has counted the fault under the name, or no
/// memory was found.
#[derive(Clone, Copy, Debug, PartialEq, Eq)]
pub enum FileFault {
    Failed,
    NoMemory,
}

impl From<Failed> for FileFault {
    ghost use Rattle.std.specs.Prelude.{◌≡◌};
    ghost use Rattle.report_files.specs.declared.files.FileFault.TheVariants.{Failed as FileFailed};

    ghost from_gives = { λ _ fault. fault ≡ FileFailed };

    fn from(_: Failed) -> Self {
        FileFault::Failed
    }
}

impl From<NoMemory> for FileFault {
    ghost use Rattle.std.specs.Prelude.{◌≡◌};
    ghost use Rattle.report_files.specs.declared.files.FileFault.TheVariants.{NoMemory as FileWantsMemory};

    ghost from_gives = { λ _ fault. fault ≡ FileWantsMemory };

    fn from(_: NoMemory) -> Self {
        FileFault::NoMemory
    }
}

impl From<RewindFault> for FileFault {
    ghost use Rattle.std.specs.Prelude.{◌≡◌};
    ghost use Rattle.report_files.specs.Files.{file_fault};

    ghost from_gives = { λ rewind fault. fault ≡ file_fault rewind };

    fn from(fault: RewindFault) -> Self {
        match fault {
            RewindFault::Failed => FileFault::Failed,
            RewindFault::NoMemory => FileFault::NoMemory,
        }
    }
}

/// How the reading of a file ended: with all of it, at the limit, or at the first faulty line.
#[derive(Clone, Copy, Debug, PartialEq, Eq)]
pub(crate) enum Ending {
    Whole,
    TooLong,
    Faulty,
}

/// As many bytes are asked for in one read.
const CHUNK: usize = 65_536;

/// The most bytes of a report or a sharp text.
const MOST_BYTES: usize = 268_435_456;

/// Gives the reader what is left under the name, piece by piece, up to the limit and no further than to the
/// first faulty line.
fn read_pieces<R: Threads + Sync, S: Shelf, K: OutcomeKind, G: Gate>(
    crew: &Crew<R, G>,
    reader: &mut Reader<K>,
    shelf: &mut S,
    name: &str,
) -> Result<Ending, FileFault>
    requires lines { lines_given reader.old.checker ≡ 0 }
    ensures study { reader.new.checker.study ≡ reader.old.checker.study }
    ensures admits { reader.new.checker.admits ≡ reader.old.checker.admits }
    ensures lines { IfOk result (λ _. lines_given reader.new.checker ≤ 268435456) }
    ensures read { IfOk result (λ ending. (bytes : List ℕ) ×
        IsEndedAt ending (S.left shelf.old name.now) (S.left shelf.new name.now)
        (has_fault reader.new.checker) bytes × HasTaken reader.old reader.new bytes) }
    ensures failed { IsErrOf result FileFault.Failed →
        Rose (S.faults shelf.old name.now) (S.faults shelf.new name.now) }
    ensures same { S.files shelf.new ≡ S.files shelf.old }
    ensures others { OthersStay (S.left shelf.old) (S.left shelf.new) name.now }
    ensures none_fell { NoneFell (S.faults shelf.old) (S.faults shelf.new) }
{
    let mut chunk = [0u8; CHUNK];
    let mut room = MOST_BYTES;
    loop {
        if reader.is_faulty() {
            return Ok(Ending::Faulty);
        }
        let count = shelf.read(name, &mut chunk)?;
        if count == 0 {
            return Ok(Ending::Whole);
        }
        if count > room {
            reader.piece(crew, &chunk[..room])?;
            return Ok(Ending::TooLong);
        }
        reader.piece(crew, &chunk[..count])?;
        room -= count;
    }
}

/// What the report is worth whose reading ended so.
fn worth_at<K: OutcomeKind>(reader: &Reader<K>, ending: Ending) -> Result<Worth, NoMemory>
    requires lines { lines_given reader.now.checker ≤ 268435456 }
    requires reports { reader.now.checker.sharp ≡ None }
    ensures worth { IfOk result (λ worth. (known left : Option (List ℕ)) (bytes held : List ℕ) →
        IsEndedAt ending known left (has_fault reader.now.checker) bytes → known ≡ Some held →
        StandsForText reader.now bytes →
        IsWorth (answer_within most_verdict_bytes reader.now.checker.study held) worth) }
    ensures holds { IfOk result (λ worth. (bytes : List ℕ) → IsSize reader.now.checker.study.size →
        StandsForText reader.now bytes → WorthHolds reader.now.checker.study worth) }
    ensures whole { IfOk result (λ worth. (claim : Confirmed) →
        worth ≡ Worth.Confirmed claim → ending ≡ Ending.Whole) }
{
    match ending {
        Ending::Whole => Worth::of(reader.end()),
        _ => match reader.fault() {
            None => Ok(Worth::TooLong),
            Some(fault) => Worth::of(Err(fault)),
        },
    }
}

/// What the sharp text is worth whose reading ended so.
fn sharp_worth_at<K: OutcomeKind>(
    reader: &Reader<K>,
    ending: Ending,
) -> Result<SharpWorth, NoMemory>
    requires lines { lines_given reader.now.checker ≤ 268435456 }
    requires texts { IsTrue reader.now.checker.admits }
    requires sharp { IsTrue (is_some reader.now.checker.sharp) }
    ensures worth { IfOk result (λ worth. (known left : Option (List ℕ)) (bytes held : List ℕ) →
        IsEndedAt ending known left (has_fault reader.now.checker) bytes → known ≡ Some held →
        StandsForText reader.now bytes →
        IsSharpWorth (sharp_answer_within most_verdict_bytes reader.now.checker.study held) worth) }
    ensures holds { IfOk result (λ worth. (bytes : List ℕ) → IsSize reader.now.checker.study.size →
        StandsForText reader.now bytes → SharpWorthHolds reader.now.checker.study worth) }
{
    match ending {
        Ending::Whole => SharpWorth::of(reader.end_sharp()),
        _ => match reader.sharp_fault() {
            None => Ok(SharpWorth::TooLong),
            Some(fault) => SharpWorth::of(Err(fault)),
        },
    }
}

/// What the text is worth whose reading ended so, by the judge whose it is.
fn judged_worth_at<K: OutcomeKind>(
    reader: &Reader<K>,
    ending: Ending,
) -> Result<JudgedWorth, NoMemory>
    requires lines { lines_given reader.now.checker ≤ 268435456 }
    requires texts { IsTrue reader.now.checker.admits }
    ensures worth { IfOk result (λ worth. (known left : Option (List ℕ)) (bytes held : List ℕ) →
        IsEndedAt ending known left (has_fault reader.now.checker) bytes → known ≡ Some held →
        StandsForText reader.now bytes →
        IsJudgedWorth (judged_within most_verdict_bytes reader.now.checker.study held) worth) }
    ensures holds { IfOk result (λ worth. (bytes : List ℕ) → IsSize reader.now.checker.study.size →
        StandsForText reader.now bytes → JudgedWorthHolds reader.now.checker.study worth) }
{
    if reader.is_sharp() {
        let worth = sharp_worth_at(reader, ending)?;
        Ok(JudgedWorth::Sharp(worth))
    } else {
        let worth = worth_at(reader, ending)?;
        Ok(JudgedWorth::Report(worth))
    }
}

/// What the report under the name is worth to a reader of reports alone that has read nothing. Where it is
/// confirmed, the reader has then read all of it. It reads as far as `judge_file` does.
pub fn worth_of<R: Threads + Sync, S: Shelf, K: OutcomeKind, G: Gate>(
    crew: &Crew<R, G>,
    reader: &mut Reader<K>,
    shelf: &mut S,
    name: &str,
) -> Result<Worth, FileFault>
    requires unread { StandsForText reader.old [] }
    requires reports { IsFalse reader.old.checker.admits }
    ensures worth { IfSome (S.files shelf.old) (λ files.
        IfOk result (IsWorthOf reader.old.checker.study files name.now)) }
    ensures holds { IsSize reader.old.checker.study.size →
        IfOk result (WorthHolds reader.old.checker.study) }
    ensures study { reader.new.checker.study ≡ reader.old.checker.study }
    ensures lines { IfOk result (λ _. lines_given reader.new.checker ≤ 268435456) }
    ensures stands { IfOk result (λ _. (bytes : List ℕ) × StandsForText reader.new bytes) }
    ensures whole { IfSome (S.files shelf.old)
        (λ files. IfOk result (HasReadWhole reader.new files name.now)) }
    ensures failed { IsErrOf result FileFault.Failed →
        Rose (S.faults shelf.old name.now) (S.faults shelf.new name.now) }
    ensures same { S.files shelf.new ≡ S.files shelf.old }
    ensures others { OthersStay (S.left shelf.old) (S.left shelf.new) name.now }
    ensures none_fell { NoneFell (S.faults shelf.old) (S.faults shelf.new) }
{
    shelf.rewind(name)?;
    let ending = read_pieces(crew, reader, shelf, name)?;
    let worth = worth_at(reader, ending)?;
    Ok(worth)
}

/// What the report or the sharp text under the name is worth to a reader of both that has read nothing.
fn judged_worth_of<R: Threads + Sync, S: Shelf, K: OutcomeKind, G: Gate>(
    crew: &Crew<R, G>,
    reader: &mut Reader<K>,
    shelf: &mut S,
    name: &str,
) -> Result<JudgedWorth, FileFault>
    requires unread { StandsForText reader.old [] }
    requires texts { IsTrue reader.old.checker.admits }
    ensures worth { IfSome (S.files shelf.old) (λ files.
        IfOk result (IsJudgedWorthOf reader.old.checker.study files name.now)) }
    ensures holds { IsSize reader.old.checker.study.size →
        IfOk result (JudgedWorthHolds reader.old.checker.study) }
    ensures failed { IsErrOf result FileFault.Failed →
        Rose (S.faults shelf.old name.now) (S.faults shelf.new name.now) }
    ensures same { S.files shelf.new ≡ S.files shelf.old }
    ensures others { OthersStay (S.left shelf.old) (S.left shelf.new) name.now }
    ensures none_fell { NoneFell (S.faults shelf.old) (S.faults shelf.new) }
{
    shelf.rewind(name)?;
    let ending = read_pieces(crew, reader, shelf, name)?;
    let worth = judged_worth_at(reader, ending)?;
    Ok(worth)
}

/// What the text under the name is worth over the study: it is judged as a sharp text where its first line is
/// `bench sharp 1`, and else as a report. It is read in pieces of 65,536 bytes, and no further than to its
/// first faulty line or to 268,435,456 bytes; of the text no more is held than a checker holds, and the front
/// of a line that has not ended. The answer is the same for every number of workers, from 1 to 16.
pub fn judge_file<R: Threads + Sync, S: Shelf, K: OutcomeKind, G: Gate>(
    alloc: Global,
    crew: &Crew<R, G>,
    topic: &Topic<K>,
    shelf: &mut S,
    name: &str,
) -> Result<JudgedWorth, FileFault>
    ensures worth { IfSome (S.files shelf.old) (λ files.
        IfOk result (IsJudgedWorthOf topic.now.study.now files name.now)) }
    ensures right { IfSome (S.files shelf.old) (λ files.
        IfOk result (FileIsRight topic.now.study.now files name.now)) }
    ensures all { IfSome (S.files shelf.old) (λ files.
        FileIsConfirmed topic.now.study.now files name.now result) }
    ensures holds { IfOk result (JudgedWorthHolds topic.now.study.now) }
    ensures failed { IsErrOf result FileFault.Failed →
        Rose (S.faults shelf.old name.now) (S.faults shelf.new name.now) }
    ensures same { S.files shelf.new ≡ S.files shelf.old }
    ensures others { OthersStay (S.left shelf.old) (S.left shelf.new) name.now }
    ensures none_fell { NoneFell (S.faults shelf.old) (S.faults shelf.new) }
{
    // Its contract says that the size of the study is one that the bench takes.
    kinds_have_sizes(topic.kind);
    let mut reader = Reader::of_texts(alloc, crew, topic)?;
    judged_worth_of(crew, &mut reader, shelf, name)
}
