//! Takes the lines of a text, one by one.

ghost use Rattle.std.specs.Prelude.{◌≡◌, ◌<◌, [], length, IfOk};
ghost use Rattle.sharp_verdicts.specs.Judged.{has_sharp_title};
ghost use Rattle.verdict_reading.specs.Told.{HasCollected, TellsOfText};

use crate::text_collector::{TextCollector, TextRefusal};
use crew::Crew;
use edge::Gate;
use lists::NoMemory;
use outcomes::OutcomeKind;
use report::Subject;
use report_files::cut_line;
use report_lines::is_same;
use std::thread::Threads;

/// The title of a sharp text, with its line end.
const TITLE: &[u8] = b"bench sharp 1\n";

/// Whether the text has the title of a sharp text as its first line.
pub(crate) fn has_sharp_title(text: &[u8]) -> bool
    ensures { result ≡ has_sharp_title text.now }
{
    let count = text.len().min(14);
    is_same(&text[..count], TITLE)
}

/// What the lines of a text have come to: none is faulty, and the one that would come next has this number,
/// from 1, and whether the text ends with a line end; or the first faulty one, with its refusal.
#[derive(Clone, Copy, Debug, PartialEq, Eq)]
pub(crate) enum Told {
    Good { line: u32, ended: bool },
    Refused { line: u32, refusal: TextRefusal },
}

/// Takes the lines of a text that end, up to the first faulty one, with a collector of its form that has read
/// nothing.
pub(crate) fn read_lines<R: Threads + Sync, G: Gate, K: OutcomeKind>(
    crew: &Crew<R, G>,
    subject: &Subject<K>,
    collector: &mut TextCollector,
    text: &[u8],
) -> Result<Told, NoMemory>
    requires room { length text.now < 4294967294 }
    requires unread { HasCollected subject.now.setting.study.now (has_sharp_title text.now) collector.old [] }
    ensures { IfOk result (TellsOfText subject.now.setting.study.now collector.new text.now) }
{
    let mut rest = text;
    let mut line: u32 = 1;
    while let Some((first, after)) = cut_line(rest) {
        let fault = collector.take_line(crew, subject, first)?;
        match fault {
            None => {}
            Some(refusal) => return Ok(Told::Refused { line, refusal }),
        }
        rest = after;
        line += 1;
    }
    Ok(Told::Good {
        line,
        ended: rest.is_empty(),
    })
}
