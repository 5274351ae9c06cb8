//! What a report is checked against.

ghost use Rattle.std.specs.Prelude.{◌≡◌, ◌≤◌, IfOk};
ghost use Rattle.vocab.specs.Study.{HasFewAxioms};

use lists::NoMemory;
use outcomes::{OutcomeKind, Setting};
use report_lines::IndexedStudy;
use std::alloc::Global;
use vocab::Study;

/// What a report is about: a study of at most 40 axioms, and the kind of its rules.
#[derive(Drop)]
pub struct Topic<'a, K: OutcomeKind> {
    pub kind: &'a K,
    pub study: &'a Study,
    pub ghost same: { study.now.size ≡ K.size kind.now },
    pub ghost listed: { HasFewAxioms study.now },
}

/// A study with the kind of its rules, an index of its axioms, and the number of workers among whom the
/// axioms of a rule are checked.
#[derive(Drop)]
pub struct Subject<'a, K: OutcomeKind> {
    pub alloc: Global,
    pub setting: Setting<'a, K>,
    pub indexed: IndexedStudy<'a>,
    pub workers: u8,
    ghost some: { 1 ≤ workers },
    ghost few: { workers ≤ 16 },
    ghost listed: { HasFewAxioms setting.study.now },
    ghost same: { indexed ≡ setting.study.now },
}

impl<'a, K: OutcomeKind> Subject<'a, K> {
    /// A study, with an index of its axioms. There are from 1 to 16 workers.
    pub fn new(alloc: Global, topic: &Topic<'a, K>, workers: u8) -> Result<Subject<'a, K>, NoMemory>
        requires some { 1 ≤ workers }
        requires few { workers ≤ 16 }
        ensures study { IfOk result (λ subject. subject.setting.study.now ≡ topic.now.study.now) }
        ensures kind { IfOk result (λ subject. subject.setting.kind.now ≡ topic.now.kind.now) }
        ensures workers { IfOk result (λ subject. subject.workers ≡ workers) }
    {
        Ok(Subject {
            alloc,
            setting: Setting {
                kind: topic.kind,
                study: topic.study,
            },
            indexed: IndexedStudy::new(alloc, topic.study)?,
            workers,
        })
    }
}
