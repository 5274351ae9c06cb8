//! The study of a command.

ghost use Rattle.std.specs.Prelude.{◌≡◌, IfOk, IsErrOf};
ghost use Rattle.edge.specs.Faults.{Rose};
ghost use Rattle.edge.specs.Shelf.{NoneFell, OthersStay};
ghost use Rattle.command_parts.specs.Opened.{IsOpened};

use crate::answer::{Answer, Stop};
use crate::whole::WholeStudy;
use edge::{ReadFault, Shelf, read_all};
use std::alloc::Global;
use study::{StudyFault, read_study};

/// The most bytes of a study.
const MOST_STUDY_BYTES: u32 = 1_048_576;

/// The study of a file, or the answer that refuses it.
#[derive(Drop)]
pub enum Opened {
    /// The study that the bytes give.
    Study(WholeStudy),
    /// The answer that refuses them, of status 3.
    Refused(Answer),
}

/// Reads the study of a file. Errors: `Stop::ReadFault` where the shelf fails, and `Stop::NoMemory`.
pub fn open_study<S: Shelf>(alloc: Global, shelf: &mut S, name: &str) -> Result<Opened, Stop>
    ensures opened { IfOk result (IsOpened (S.files shelf.old) name.now) }
    ensures fault { IsErrOf result Stop.ReadFault →
        Rose (S.faults shelf.old name.now) (S.faults shelf.new name.now) }
    ensures same { S.files shelf.new ≡ S.files shelf.old }
    ensures others { OthersStay (S.left shelf.old) (S.left shelf.new) name.now }
    ensures none_fell { NoneFell (S.faults shelf.old) (S.faults shelf.new) }
{
    let bytes = match read_all(alloc, shelf, name, MOST_STUDY_BYTES) {
        Ok(bytes) => bytes,
        Err(ReadFault::TooLong) => return Ok(Opened::Refused(Answer::LongStudy)),
        Err(ReadFault::Failed) => return Err(Stop::ReadFault),
        Err(ReadFault::NoMemory) => return Err(Stop::NoMemory),
    };
    match read_study(alloc, bytes.as_slice()) {
        Ok(study) => Ok(Opened::Study(WholeStudy { study })),
        Err(StudyFault::NoMemory) => Err(Stop::NoMemory),
        Err(fault) => Ok(Opened::Refused(Answer::NoStudy(fault))),
    }
}
