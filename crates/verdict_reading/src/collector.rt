//! Collects the verdict of a report from its lines, each of which is judged as it is collected.

ghost use Rattle.std.specs.Prelude.{◌≡◌, IfOk};
ghost use Rattle.vocab.specs.Study.{Question};
ghost use Rattle.verdicts.specs.Places.{Standing, start};
ghost use Rattle.report.specs.Stands.{IsRead};
ghost use Rattle.verdict_reading.specs.Parts.{is_witness_row};
ghost use Rattle.verdict_reading.specs.Collected.{Collects, IsCollected, claim_at, verdict_at};

use crate::parts::Parts;
use crew::Crew;
use edge::Gate;
use lists::{Items, NoMemory};
use outcomes::OutcomeKind;
use report::{Judging, Subject};
use report_lines::Place;
use std::alloc::Global;
use std::thread::Threads;
use verdicts::{Confirmed, Refusal, Verdict};

/// Whether the next row is one of a witness.
fn is_witness_row(place: Place) -> bool
    ensures { result ≡ is_witness_row place }
{
    matches!(place, Place::AtWitnessRow)
}

/// What is claimed, once all lines of the report are read.
fn claim_at(place: Place) -> Option<Confirmed>
    ensures { result ≡ claim_at place }
{
    match place {
        Place::AtNothing(claim) => claim,
        _ => None,
    }
}

/// What a collector holds of the lines that it took: what they have given to a checker of reports, and the
/// parts of the verdict, which a checker does not keep.
#[derive(Drop)]
pub(crate) struct Collector {
    pub(crate) told: Judging,
    pub(crate) parts: Parts,
}

impl Collector {
    /// Nothing is read.
    pub(crate) fn new<K: OutcomeKind>(subject: &Subject<K>) -> Result<Collector, NoMemory>
        ensures { IfOk result (λ collector. Collects subject.now.setting.study.now collector start) }
    {
        let told = Judging::new(subject)?;
        Ok(Collector {
            told,
            parts: Parts::new(subject.alloc),
        })
    }

    /// Reads the next line, without its line end, and takes it: None where it has no fault, and then its part
    /// is held with what was held; else its refusal.
    pub(crate) fn take_line<R: Threads + Sync, G: Gate, K: OutcomeKind>(
        &mut self,
        crew: &Crew<R, G>,
        subject: &Subject<K>,
        text: &[u8],
    ) -> Result<Option<Refusal>, NoMemory>
        requires read { IsRead subject.now.setting.study.now self.old.told }
        ensures { (s : Standing) → Collects subject.now.setting.study.now self.old s →
            IfOk result (IsCollected subject.now.setting.study.now s text.now self.new) }
    {
        let of_witness = is_witness_row(self.told.place());
        let taken = self.told.take_line(crew, subject, text)?;
        match taken {
            Ok(line) => {
                let rows = subject.setting.kind.space().count();
                let limit = subject.setting.study.conflicts();
                self.parts
                    .take(subject.alloc, rows, limit, of_witness, &line)?;
                Ok(None)
            }
            Err(refusal) => Ok(Some(refusal)),
        }
    }

    /// The verdict, once all lines of its report are read: None where they are not.
    pub(crate) fn into_verdict(self, alloc: Global) -> Result<Option<Verdict>, NoMemory>
        ensures { (study : Question) (s : Standing) → Collects study self s →
            IfOk result (λ verdict. verdict ≡ verdict_at s.place) }
    {
        let Collector { told, parts } = self;
        match claim_at(told.place()) {
            Some(Confirmed::Possible) => Ok(Some(parts.into_possible())),
            Some(Confirmed::Impossible) => {
                let mut core = Items::new(alloc);
                core.append(told.core())?;
                Ok(Some(parts.into_impossible(core)))
            }
            None => Ok(None),
        }
    }
}
