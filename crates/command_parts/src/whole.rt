//! A study that is whole, as each is that was read, and the kind of its rules.

ghost use Rattle.std.specs.Prelude.{◌≡◌};
ghost use Rattle.vocab.specs.Study.{HasFewAxioms};
ghost use Rattle.verdicts.specs.Laws.{IsReportable};

use outcomes::OutcomeKind;
use vocab::Study;

/// A study of which reports speak, with at most 40 axioms.
#[derive(Drop)]
pub struct WholeStudy {
    pub study: Study,
    pub ghost reportable: { IsReportable study },
    pub ghost listed: { HasFewAxioms study },
}

/// A whole study, and the kind of its rules, which is one of the study's own size.
#[derive(Drop)]
pub struct WholeSetting<'a, K: OutcomeKind> {
    pub kind: &'a K,
    pub study: Study,
    pub ghost same: { study.size ≡ K.size kind.now },
    pub ghost reportable: { IsReportable study },
    pub ghost listed: { HasFewAxioms study },
}

/// The value of an expression in which a name stands for the setting of a whole study, as `over_whole!(whole,
/// setting, decide_over(alloc, crew, setting))`. The caller imports `kinds::over_kind` as well.
#[macro_export]
macro_rules! over_whole {
    ($whole:ident, $setting:ident, $value:expr) => {
        over_kind!($whole.study.size(), kind, {
            let $setting = $crate::WholeSetting {
                kind: &kind,
                study: $whole.study,
            };
            $value
        })
    };
}
