//! Lemmas from lines.

ghost use Rattle.std.specs.Prelude.{◌≡◌, ◌<◌, map, length, slice_get, Some, take, IfOk, IsTrue, IsFalse};
ghost use Rattle.cnf.specs.Fresh.{is_over, added_by};
ghost use Rattle.cnf.specs.Sat.{opposite_lit, is_tautology};
ghost use Rattle.meaning.specs.Stories.{is_story};
ghost use Rattle.meaning.specs.Tidy.{is_tidy};
ghost use Rattle.meaning.specs.Variables.{variable_count};
ghost use Rattle.retell.specs.Marked.{IsMarking, IsBlank};
ghost use Rattle.retell.specs.Retold.{standing_of, hints_by, suppose_of, lemma_of};
ghost use Rattle.retell.specs.TrimmedProof.{IsTrimmedProof};

use crate::cited::{clause_in, clause_of, hints_in};
use crate::marks::Marks;
use crate::teller::Teller;
use clause_form::Ground;
use cnf::{Derivation, Line, Lit};
use lists::{Items, NoMemory};
use meaning::{Lemma, StoryStep};
use outcomes::laws::kinds_have_sizes;
use outcomes::{OutcomeKind, Setting};
use std::alloc::Global;
use story::Story;
use vocab::{Literal, Places, Sort};

/// What a line supposes: the opposites of the literals of its clause, each once. They are known from now on.
fn suppose<K: OutcomeKind>(
    alloc: Global,
    kind: &K,
    clause: &[Lit],
    marks: &mut Marks,
) -> Result<Items<Literal>, NoMemory>
    requires over { IsTrue (is_over (variable_count (K.size kind.now)) clause.now) }
    requires plain { IsFalse (is_tautology clause.now) }
    requires blank { IsBlank (variable_count (K.size kind.now)) marks.old.stamp marks.old.stamps.items }
    ensures suppose { IfOk result (λ suppose. suppose ≡ suppose_of (K.size kind.now) clause.now) }
    ensures stamp { marks.new.stamp ≡ marks.old.stamp }
    ensures room { length marks.new.stamps.items ≡ length marks.old.stamps.items }
    ensures known { IfOk result
        (λ _. IsMarking marks.old.stamp marks.new.stamps.items (map opposite_lit clause.now)) }
{
    let mut suppose = Items::new(alloc);
    for lit in clause {
        if !marks.has(*lit) {
            marks.mark(*lit);
            suppose.push(kind.literal(lit.opposite()))?;
        }
    }
    Ok(suppose)
}

impl<K: OutcomeKind> Teller<'_, K> {
    /// The lemma of a line, by its place: a step for each hint but the last, which gives the last reason.
    fn lemma(
        &self,
        alloc: Global,
        at: usize,
        line: &Line,
        marks: &mut Marks,
    ) -> Result<Lemma, NoMemory>
        requires within { at < length self.now.proof.now }
        requires line { slice_get self.now.proof.now at ≡ Some line.now }
        requires blank { IsBlank (variable_count (K.size self.now.kind.now))
            marks.old.stamp marks.old.stamps.items }
        ensures lemma { IfOk result (λ lemma. lemma ≡
            lemma_of (K.size self.now.kind.now) self.now.study.now.axioms self.now.clauses.now
            (standing_of self.now.clauses.now (take at self.now.proof.now))
            (added_by line.now.step) (hints_by line.now.step)) }
        ensures stamp { marks.new.stamp ≡ marks.old.stamp }
        ensures room { length marks.new.stamps.items ≡ length marks.old.stamps.items }
    {
        let lines = self.proof.as_slice();
        let earlier = &lines[..at];
        let clause = clause_in(&line.step);
        let hints = hints_in(&line.step);
        let suppose = suppose(alloc, self.kind, clause, marks)?;
        let end = hints.len() - 1;
        let mut steps = Items::with_room(alloc, end)?;
        for i in 0..end {
            let cited = clause_of(self.clauses, earlier, hints[i]);
            let lit = marks.first_unknown(cited).unwrap();
            marks.mark(lit);
            steps.push(StoryStep {
                literal: self.kind.literal(lit),
                reason: self.reason(hints[i]),
            })?;
        }
        Ok(Lemma {
            suppose,
            steps,
            last: self.reason(hints[end]),
        })
    }
}

/// The story of a trimmed derivation over the clauses of a core: a lemma for each line. It is accepted, and
/// each of its lemmas and steps is needed.
pub fn retell<K: OutcomeKind>(
    alloc: Global,
    setting: &Setting<K>,
    core: &Places,
    clauses: &Ground,
    proof: &Derivation,
) -> Result<Story, NoMemory>
    requires { IsTrimmedProof setting.now.study.now core.now clauses.now proof.now }
    ensures accepted { IfOk result (λ story.
        IsTrue (is_story setting.now.study.now.size setting.now.study.now.axioms core.now story)) }
    ensures tidy { IfOk result (λ story.
        IsTrue (is_tidy setting.now.study.now.size setting.now.study.now.axioms core.now story)) }
{
    let kind = setting.kind;
    let study = setting.study;
    let _axioms = study.axioms();
    kinds_have_sizes(kind);
    let lines = proof.as_slice();
    let variables = kind.space().size().sort_len(Sort::Profile) * kind.bits();
    let mut marks = Marks::new(alloc, variables)?;
    let mut story = Items::with_room(alloc, lines.len())?;
    let teller = Teller {
        kind,
        study,
        core,
        clauses,
        proof,
    };
    let count = lines.len() as u32;
    for i in 0..count {
        marks.begin(i + 1);
        story.push(teller.lemma(alloc, i as usize, &lines[i as usize], &mut marks)?)?;
    }
    Ok(story)
}
