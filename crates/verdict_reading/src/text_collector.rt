//! Collects the verdict of a text, which may be a report or a sharp text.

ghost use Rattle.std.specs.Prelude.{◌≡◌, ℕ, Bool, List, [], IfOk, option_map};
ghost use Rattle.verdict_reading.specs.Told.{HasCollected, IsAmongLines, IsLineCollected};
ghost use Rattle.verdict_reading.specs.declared.text_collector.TextRefusal.TheVariants.{Report as OfReport, Sharp as OfSharp};

use crate::collector::Collector;
use crate::sharp_collector::SharpCollector;
use crew::Crew;
use edge::Gate;
use lists::NoMemory;
use outcomes::OutcomeKind;
use report::Subject;
use sharp_report::SharpRefusal;
use std::thread::Threads;
use verdicts::Refusal;

/// Why a line is refused, of a report or of a sharp text.
#[derive(Clone, Copy, Debug, PartialEq, Eq)]
pub(crate) enum TextRefusal {
    Report(Refusal),
    Sharp(SharpRefusal),
}

/// A collector of the text's form.
#[derive(Drop)]
pub(crate) enum TextCollector {
    Report(Collector),
    Sharp(SharpCollector),
}

/// The refusal of a line of a report, if there is one.
fn of_report(fault: Option<Refusal>) -> Option<TextRefusal>
    ensures { result ≡ option_map OfReport fault }
{
    match fault {
        None => None,
        Some(refusal) => Some(TextRefusal::Report(refusal)),
    }
}

/// The refusal of a line of a sharp text, if there is one.
fn of_sharp(fault: Option<SharpRefusal>) -> Option<TextRefusal>
    ensures { result ≡ option_map OfSharp fault }
{
    match fault {
        None => None,
        Some(refusal) => Some(TextRefusal::Sharp(refusal)),
    }
}

impl TextCollector {
    /// Nothing is read, of a sharp text or of a report.
    pub(crate) fn new<K: OutcomeKind>(
        subject: &Subject<K>,
        sharp: bool,
    ) -> Result<TextCollector, NoMemory>
        ensures { IfOk result (λ collector.
            HasCollected subject.now.setting.study.now sharp collector []) }
    {
        if sharp {
            let collector = SharpCollector::new(subject)?;
            Ok(TextCollector::Sharp(collector))
        } else {
            let collector = Collector::new(subject)?;
            Ok(TextCollector::Report(collector))
        }
    }

    /// Reads the next line, without its line end, and takes it: None where it has no fault, and then its part
    /// is held with what was held; else its refusal.
    pub(crate) fn take_line<R: Threads + Sync, G: Gate, K: OutcomeKind>(
        &mut self,
        crew: &Crew<R, G>,
        subject: &Subject<K>,
        text: &[u8],
    ) -> Result<Option<TextRefusal>, NoMemory>
        requires among { IsAmongLines subject.now.setting.study.now self.old }
        ensures { (sharp : Bool) (lines : List (List ℕ)) →
            HasCollected subject.now.setting.study.now sharp self.old lines →
            IfOk result (IsLineCollected subject.now.setting.study.now sharp lines text.now self.new) }
    {
        match self {
            TextCollector::Report(collector) => {
                let fault = collector.take_line(crew, subject, text)?;
                Ok(of_report(fault))
            }
            TextCollector::Sharp(collector) => {
                let fault = collector.take_line(crew, subject, text)?;
                Ok(of_sharp(fault))
            }
        }
    }
}
