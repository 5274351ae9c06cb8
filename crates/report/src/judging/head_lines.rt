//! Takes the lines that say what the study and the verdict are.

ghost use Rattle.std.specs.Prelude.{◌≡◌, ℕ, ◌==◌, nat_eq, List, map, if◌then◌else◌};
ghost use Rattle.std.specs.Str.{bytes_eq};
ghost use Rattle.std.specs.Cmp.Lexicographic.{pointwise};
ghost use Rattle.verdicts.specs.Numbers.{saturated};
ghost use Rattle.vocab.specs.Size.{ballot_places};
ghost use Rattle.vocab.specs.Study.{Question};
ghost use Rattle.verdicts.specs.Lines.{Title, KindIs, VotersAre, AlternativesAre, BallotsAre, AbsentIs, AxiomsAre, SaysPossible, SaysImpossible, SaysUndecided, LimitIs, RuleOf, End, is_version};
ghost use Rattle.verdicts.specs.Places.{Place as WantedPlace, AtBallots, AtAxioms, Standing};
ghost use Rattle.verdicts.specs.Faults.{unless_so, same_kind};
ghost use Rattle.verdicts.specs.Judge.{after_end};
ghost use Rattle.report_lines.specs.Held.{held_place};
ghost use Rattle.report.specs.Stands.{Stands};
ghost use Rattle.report.specs.Taken.{Took};

use crate::judging::Judging;
use crate::subject::Subject;
use outcomes::OutcomeKind;
use report_lines::Place;
use verdicts::Refusal;
use vocab::{Kind, Size, Study};

/// Whether two kinds are the same.
fn is_kind(kind: Kind, wanted: Kind) -> bool
    ensures { result ≡ same_kind kind wanted }
{
    kind == wanted
}

/// Whether a report of this version may be of a study of this size.
fn is_version(size: Size, version: u8) -> bool
    ensures { result ≡ is_version size version }
{
    version == 2 || version == 1 && size.full()
}

/// The place after the number of alternatives, in a report of this version.
fn after_alternatives(version: u8) -> Place
    ensures { result ≡ held_place (if version == 2 then AtBallots else AtAxioms) }
{
    if version == 2 {
        Place::AtBallots
    } else {
        Place::AtAxioms
    }
}

/// The place after the last line.
fn after_end(place: Place) -> Place
    ensures { (p : WantedPlace) → place ≡ held_place p → result ≡ held_place (after_end p) }
{
    match place {
        Place::AtEnd(claim) => Place::AtNothing(claim),
        other => other,
    }
}

impl Judging {
    /// Goes to the next place, and refuses the line unless a test passes.
    fn pass(&mut self, passes: bool, refusal: Refusal, next: Place) -> Option<Refusal>
        ensures fault { result ≡ unless_so passes refusal }
        ensures judging { self.new ≡ record self.old { place = next } }
    {
        self.place = next;
        if passes { None } else { Some(refusal) }
    }

    /// Takes the first line, which has the version of the report.
    pub(crate) fn take_title(&mut self, study: &Study, version: u8) -> Option<Refusal>
        ensures { (s : Standing) → Stands study.now self.old s →
            Took study.now s (Title version) self.new result }
    {
        self.version = version;
        let may = is_version(study.size(), version);
        self.pass(may, Refusal::StudyDiffers, Place::AtKind)
    }

    /// Takes the kind of rule.
    pub(crate) fn take_kind(&mut self, study: &Study, kind: Kind) -> Option<Refusal>
        ensures { (s : Standing) → Stands study.now self.old s →
            Took study.now s (KindIs kind) self.new result }
    {
        let same = is_kind(kind, study.size().kind());
        self.pass(same, Refusal::StudyDiffers, Place::AtVoters)
    }

    /// Takes the number of voters.
    pub(crate) fn take_voters(&mut self, study: &Study, count: u64) -> Option<Refusal>
        ensures { (s : Standing) (n : ℕ) → Stands study.now self.old s → count ≡ saturated n →
            Took study.now s (VotersAre n) self.new result }
    {
        let same = count == study.size().voters() as u64;
        self.pass(same, Refusal::StudyDiffers, Place::AtAlternatives)
    }

    /// Takes the number of alternatives.
    pub(crate) fn take_alternatives(&mut self, study: &Study, count: u64) -> Option<Refusal>
        ensures { (s : Standing) (n : ℕ) → Stands study.now self.old s → count ≡ saturated n →
            Took study.now s (AlternativesAre n) self.new result }
    {
        let same = count == study.size().alternatives() as u64;
        let next = after_alternatives(self.version);
        self.pass(same, Refusal::StudyDiffers, next)
    }

    /// Takes the rankings that voters may cast, which are the ballots of the study or not.
    pub(crate) fn take_ballots(&mut self, same: bool) -> Option<Refusal>
        ensures { (study : Question) (s : Standing) (places : List ℕ) → Stands study self.old s →
            same ≡ pointwise nat_eq places (ballot_places study.size) →
            Took study s (BallotsAre places) self.new result }
    {
        self.pass(same, Refusal::StudyDiffers, Place::AtAbsent)
    }

    /// Takes whether voters may be absent.
    pub(crate) fn take_absent(&mut self, study: &Study, absent: bool) -> Option<Refusal>
        ensures { (s : Standing) → Stands study.now self.old s →
            Took study.now s (AbsentIs absent) self.new result }
    {
        let same = absent == study.size().absent();
        self.pass(same, Refusal::StudyDiffers, Place::AtAxioms)
    }

    /// Takes the names of the axioms, which are those of the study or not.
    pub(crate) fn take_axioms(&mut self, same: bool) -> Option<Refusal>
        ensures { (study : Question) (s : Standing) (names : List (List ℕ)) → Stands study self.old s →
            same ≡ pointwise bytes_eq names (map (λ a. a.name) study.axioms) →
            Took study s (AxiomsAre names) self.new result }
    {
        self.pass(same, Refusal::StudyDiffers, Place::AtVerdict)
    }

    /// Takes the line that some rule satisfies all axioms.
    pub(crate) fn take_possible(&mut self) -> Option<Refusal>
        ensures { (study : Question) (s : Standing) → Stands study self.old s →
            Took study s SaysPossible self.new result }
    {
        self.place = Place::AtRule;
        None
    }

    /// Takes the line that no rule satisfies all axioms.
    pub(crate) fn take_impossible(&mut self) -> Option<Refusal>
        ensures { (study : Question) (s : Standing) → Stands study self.old s →
            Took study s SaysImpossible self.new result }
    {
        self.place = Place::AtCore;
        None
    }

    /// Refuses the line that nothing is claimed.
    pub(crate) fn take_undecided(&mut self) -> Option<Refusal>
        ensures { (study : Question) (s : Standing) → Stands study self.old s →
            Took study s SaysUndecided self.new result }
    {
        self.pass(false, Refusal::Undecided, Place::AtLimit)
    }

    /// Takes the limit of a search that found nothing, which claims nothing.
    pub(crate) fn take_limit(&mut self) -> Option<Refusal>
        ensures { (study : Question) (s : Standing) (n : ℕ) → Stands study self.old s →
            Took study s (LimitIs n) self.new result }
    {
        self.place = Place::AtEnd(None);
        None
    }

    /// Takes the number of rows of a rule.
    pub(crate) fn take_rule_of<K: OutcomeKind>(
        &mut self,
        subject: &Subject<K>,
        count: u64,
    ) -> Option<Refusal>
        ensures { (s : Standing) (n : ℕ) → Stands subject.now.setting.study.now self.old s →
            count ≡ saturated n → Took subject.now.setting.study.now s (RuleOf n) self.new result }
    {
        let same = count == subject.setting.kind.space().count() as u64;
        self.pass(same, Refusal::Row, Place::AtRow)
    }

    /// Takes the last line.
    pub(crate) fn take_end(&mut self) -> Option<Refusal>
        ensures { (study : Question) (s : Standing) → Stands study self.old s →
            Took study s End self.new result }
    {
        self.place = after_end(self.place);
        None
    }
}
