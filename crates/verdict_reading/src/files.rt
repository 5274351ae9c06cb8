//! The verdict of a report or of a sharp text in a file.

ghost use Rattle.std.specs.Prelude.{◌≡◌, IfOk, IfSome, IsErrOf};
ghost use Rattle.edge.specs.Faults.{Rose};
ghost use Rattle.edge.specs.Shelf.{NoneFell, OthersStay};
ghost use Rattle.verdict_reading.specs.Readings.{IsFileFront, IsReadOf, ReadingHolds};

use crate::fitting::fitted;
use crate::reading::{Reading, read_text};
use crew::Crew;
use edge::{Bytes, Gate, Shelf};
use outcomes::OutcomeKind;
use report::Topic;
use report_files::FileFault;
use std::alloc::Global;
use std::thread::Threads;

/// As many bytes are asked for in one read.
const CHUNK: usize = 65_536;

/// The most bytes of a report or a sharp text.
const MOST_BYTES: usize = 268_435_456;

/// The bytes of a file, or as many of them as are read of a longer one.
#[derive(Drop)]
struct Front {
    bytes: Bytes,
    whole: bool,
}

/// Reads what is left under the name, up to the limit.
fn read_front<S: Shelf>(alloc: Global, shelf: &mut S, name: &str) -> Result<Front, FileFault>
    ensures read { IfOk result (λ front. IsFileFront front.whole
        (S.left shelf.old name.now) (S.left shelf.new name.now) front.bytes) }
    ensures failed { IsErrOf result FileFault.Failed →
        Rose (S.faults shelf.old name.now) (S.faults shelf.new name.now) }
    ensures same { S.files shelf.new ≡ S.files shelf.old }
    ensures others { OthersStay (S.left shelf.old) (S.left shelf.new) name.now }
    ensures none_fell { NoneFell (S.faults shelf.old) (S.faults shelf.new) }
{
    let mut bytes = Bytes::new(alloc);
    let mut chunk = [0u8; CHUNK];
    let mut room = MOST_BYTES;
    loop {
        let count = shelf.read(name, &mut chunk)?;
        if count == 0 {
            return Ok(Front { bytes, whole: true });
        }
        if count > room {
            bytes.append(&chunk[..room])?;
            return Ok(Front {
                bytes,
                whole: false,
            });
        }
        bytes.append(&chunk[..count])?;
        room -= count;
    }
}

/// Reads what is left under the name, up to the limit. The bytes then take no more memory than they need.
fn read_fitted<S: Shelf>(alloc: Global, shelf: &mut S, name: &str) -> Result<Front, FileFault>
    ensures read { IfOk result (λ front. IsFileFront front.whole
        (S.left shelf.old name.now) (S.left shelf.new name.now) front.bytes) }
    ensures failed { IsErrOf result FileFault.Failed →
        Rose (S.faults shelf.old name.now) (S.faults shelf.new name.now) }
    ensures same { S.files shelf.new ≡ S.files shelf.old }
    ensures others { OthersStay (S.left shelf.old) (S.left shelf.new) name.now }
    ensures none_fell { NoneFell (S.faults shelf.old) (S.faults shelf.new) }
{
    let Front { bytes, whole } = read_front(alloc, shelf, name)?;
    let bytes = fitted(alloc, bytes)?;
    Ok(Front { bytes, whole })
}

/// What is read of the text under the name over the study, which has at most 40 axioms: it is judged as a
/// sharp text where its first line is `bench sharp 1`, and else as a report. The verdict is read exactly where
/// that judge confirms the text, and else its refusal at the same line. The bytes are held while they are
/// judged, at most 268,435,456 of them. The answer is the same for every number of workers, from 1 to 16.
/// Errors: `FileFault::Failed` where the shelf fails, and `FileFault::NoMemory`.
pub fn read_verdict_file<R: Threads + Sync, S: Shelf, K: OutcomeKind, G: Gate>(
    alloc: Global,
    crew: &Crew<R, G>,
    topic: &Topic<K>,
    shelf: &mut S,
    name: &str,
) -> Result<Reading, FileFault>
    ensures read { IfSome (S.files shelf.old) (λ files.
        IfOk result (IsReadOf topic.now.study.now files name.now)) }
    ensures holds { IfOk result (ReadingHolds topic.now.study.now) }
    ensures failed { IsErrOf result FileFault.Failed →
        Rose (S.faults shelf.old name.now) (S.faults shelf.new name.now) }
    ensures same { S.files shelf.new ≡ S.files shelf.old }
    ensures others { OthersStay (S.left shelf.old) (S.left shelf.new) name.now }
    ensures none_fell { NoneFell (S.faults shelf.old) (S.faults shelf.new) }
{
    shelf.rewind(name)?;
    let front = read_fitted(alloc, shelf, name)?;
    let reading = read_text(crew, alloc, topic, front.bytes.as_slice(), front.whole)?;
    Ok(reading)
}
