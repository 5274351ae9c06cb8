//! Maps of the axioms of a study.

ghost use Rattle.std.specs.Prelude.{◌≡◌};
ghost use Rattle.texts.specs.Page.{Pours};
ghost use Rattle.map_text.specs.MapText.{HasNames, are_named, map_ending_text, map_text, sets_text};

use core_maps::{CoreMap, Ending};
use edge::{Failed, Sink};
use outcomes::{OutcomeKind, Setting};
use report_text::{About, CoreNames, Subject};
use texts::{Page, Raw, Text, Two};
use vocab::{Places, Study};

/// Lines of a word, one for each set.
#[derive(Drop)]
struct SetLines<'a> {
    word: &'a [u8],
    study: &'a Study,
    sets: &'a [Places],
}

impl Text for SetLines<'_> {
    ghost can = { λ lines. are_named lines.study.now lines.sets.now };

    ghost text = { λ lines. sets_text lines.study.now lines.word.now lines.sets.now };

    fn pour<O: Sink>(&self, page: &mut Page, out: &mut O) -> Result<(), Failed> {
        for place in 0..self.sets.len() {
            let names = CoreNames {
                study: self.study,
                core: self.sets[place].as_slice(),
            };
            Two(Raw(self.word), Two(names, Raw(b"\n"))).pour(page, out)?;
        }
        Ok(())
    }
}

/// What stands at the end of a map, before its last line.
fn ending_word(ending: Ending) -> &'static [u8]
    ensures { result.now ≡ map_ending_text ending }
{
    match ending {
        Ending::Whole => b"",
        Ending::Cut => b"more\n",
    }
}

/// Adds the text of a map of a study's axioms to what a page holds in front of a sink: what the study is, as in
/// a report; a line for each set, first those that no rule satisfies, then those that some rule satisfies, and
/// then those that are open; and whether there may be more. No memory is taken.
pub fn pour_map<K: OutcomeKind, O: Sink>(
    setting: &Setting<K>,
    map: &CoreMap,
    page: &mut Page,
    out: &mut O,
) -> Result<(), Failed>
    requires { HasNames setting.now.study.now map.now.sets }
    ensures { Pours (O.taken out.old) (O.taken out.new) page.old page.new
        (O.faults out.old) (O.faults out.new) result (map_text setting.now.study.now map.now) }
{
    let study = setting.study;
    let of = Subject {
        study,
        space: setting.kind.space(),
    };
    let impossible = SetLines {
        word: b"impossible",
        study,
        sets: map.sets.impossible.as_slice(),
    };
    let possible = SetLines {
        word: b"possible",
        study,
        sets: map.sets.possible.as_slice(),
    };
    let undecided = SetLines {
        word: b"open",
        study,
        sets: map.sets.open.as_slice(),
    };
    let end = Two(Raw(ending_word(map.ending)), Raw(b"end\n"));
    let lines = Two(impossible, Two(possible, Two(undecided, end)));
    Two(Two(Raw(b"bench cores 1\n"), About { of }), lines).pour(page, out)
}
