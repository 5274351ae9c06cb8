//! Collects the sharp verdict of a sharp text from its lines, each of which is judged as it is collected.

ghost use Rattle.std.specs.Prelude.{◌≡◌, IfOk};
ghost use Rattle.vocab.specs.Study.{Question};
ghost use Rattle.sharp_verdicts.specs.SharpPlaces.{SharpStanding, sharp_start};
ghost use Rattle.sharp_report.specs.SharpStands.{IsSharpRead};
ghost use Rattle.verdict_reading.specs.Parts.{is_mark_row};
ghost use Rattle.verdict_reading.specs.SharpCollected.{SharpCollects, IsSharpCollected, is_at_end, sharp_verdict_at};

use crate::parts::Parts;
use crate::sharp_verdict::SharpVerdict;
use crew::Crew;
use edge::Gate;
use lists::{Items, NoMemory};
use outcomes::OutcomeKind;
use report::Subject;
use sharp_report::{SharpJudging, SharpPlace, SharpRefusal};
use std::alloc::Global;
use std::thread::Threads;

/// Whether the next line is a row of a mark.
fn is_mark_row(place: SharpPlace) -> bool
    ensures { result ≡ is_mark_row place }
{
    matches!(place, SharpPlace::AtNeedRow)
}

/// Whether all lines are read.
fn is_at_end(place: SharpPlace) -> bool
    ensures { result ≡ is_at_end place }
{
    matches!(place, SharpPlace::AtSharpNothing)
}

/// What a collector holds of the lines that it took: what they have given to a checker of sharp texts, and the
/// parts of the verdict, which a checker does not keep.
#[derive(Drop)]
pub(crate) struct SharpCollector {
    pub(crate) told: SharpJudging,
    pub(crate) parts: Parts,
}

impl SharpCollector {
    /// Nothing is read.
    pub(crate) fn new<K: OutcomeKind>(subject: &Subject<K>) -> Result<SharpCollector, NoMemory>
        ensures { IfOk result (λ collector.
            SharpCollects subject.now.setting.study.now collector sharp_start) }
    {
        let told = SharpJudging::new(subject)?;
        Ok(SharpCollector {
            told,
            parts: Parts::new(subject.alloc),
        })
    }

    /// Reads the next line, without its line end, and takes it: None where it has no fault, and then its part
    /// is held with what was held; else its refusal.
    pub(crate) fn take_line<R: Threads + Sync, G: Gate, K: OutcomeKind>(
        &mut self,
        crew: &Crew<R, G>,
        subject: &Subject<K>,
        text: &[u8],
    ) -> Result<Option<SharpRefusal>, NoMemory>
        requires read { IsSharpRead subject.now.setting.study.now self.old.told }
        ensures { (s : SharpStanding) → SharpCollects subject.now.setting.study.now self.old s →
            IfOk result (IsSharpCollected subject.now.setting.study.now s text.now self.new) }
    {
        let of_mark = is_mark_row(self.told.place());
        let taken = self.told.take_line(crew, subject, text)?;
        match taken {
            Ok(line) => {
                let rows = subject.setting.kind.space().count();
                let limit = subject.setting.study.conflicts();
                self.parts
                    .take_sharp(subject.alloc, rows, limit, of_mark, &line)?;
                Ok(None)
            }
            Err(refusal) => Ok(Some(refusal)),
        }
    }

    /// The sharp verdict, once all lines of its text are read: None where they are not.
    pub(crate) fn into_verdict(self, alloc: Global) -> Result<Option<SharpVerdict>, NoMemory>
        ensures { (study : Question) (s : SharpStanding) → SharpCollects study self s →
            IfOk result (λ verdict. verdict ≡ sharp_verdict_at study s.place s) }
    {
        let SharpCollector { told, parts } = self;
        if !is_at_end(told.place()) {
            return Ok(None);
        }
        let mut core = Items::new(alloc);
        core.append(told.core())?;
        let mut instances = Items::new(alloc);
        instances.append(told.instances())?;
        Ok(Some(parts.into_sharp(core, instances)))
    }
}
