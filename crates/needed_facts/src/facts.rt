//! What a reason rests on.

ghost use Rattle.std.specs.Prelude.{◌≡◌, ◌==◌, ◌++◌, ℕ, List, nat_lt, slice_get, Some, IsTrue, IfOk, IfSome};
ghost use Rattle.std.specs.Cmp.Lexicographic.{pointwise};
ghost use Rattle.std.specs.List.{list_all};
ghost use Rattle.vocab.specs.Limits.{bases_of};
ghost use Rattle.vocab.specs.Literal.{has, profile_of};
ghost use Rattle.vocab.specs.Titled.{Titled};
ghost use Rattle.meaning.specs.Stories.{refutes};
ghost use Rattle.needed_facts.specs.Rests.{RestsOn, are_there};
ghost use Rattle.tellings.specs.Laws.{facts_at};

use crate::literals::{is_literal, profile_of};
use crate::spoken::literals_of;
use lists::NoMemory;
use meaning::{Literals, Reason};
use outcomes::OutcomeKind;
use outcomes::laws::kinds_have_sizes;
use std::alloc::Global;
use story::{Grounds, KnownLiterals};
use vocab::{Env, Literal, Size};
use worlds::Board;
use worlds::laws::bodies_have_values;

/// How many facts are tried one by one whether they can be left out.
const MOST_TRIED: usize = 30;

/// Facts on a board of the size, and what reasons may cite beside them.
#[derive(Drop)]
pub struct Facts<'a, K: OutcomeKind> {
    pub grounds: &'a Grounds<'a, K>,
    pub board: &'a Board,
    pub ghost size: { board.now.size ≡ K.size grounds.now.setting.now.kind.now },
}

/// Puts other literals on a board, whatever they are. False where one of them is no literal of the size or is
/// there already: then those before it are there.
pub fn add_others(size: Size, tried: &mut Board, others: &[Literal]) -> bool
    requires { tried.old.size ≡ size }
    ensures size { tried.new.size ≡ tried.old.size }
    ensures added { IsTrue result → tried.new.literals ≡ tried.old.literals ++ others.now }
{
    for other in others {
        if !is_literal(size, other) || tried.has(other) {
            return false;
        }
        tried.add(other);
    }
    true
}

impl<K: OutcomeKind> Facts<'_, K> {
    /// Whether a reason refutes the facts.
    pub fn refutes(&self, reason: &Reason) -> bool
        ensures { result ≡ refutes (K.size self.now.grounds.now.setting.now.kind.now)
            self.now.grounds.now.setting.now.study.now.axioms self.now.grounds.now.core.now
            self.now.grounds.now.lemmas.now self.now.board.now.literals reason.now }
    {
        let known = KnownLiterals {
            grounds: self.grounds,
            board: self.board,
        };
        match known.refutes(reason) {
            Ok(()) => true,
            Err(_) => false,
        }
    }

    /// Puts a literal on a board, if it is one of the facts and not yet there.
    fn load_one(&self, tried: &mut Board, literal: &Literal)
        requires tried { tried.old.size ≡ K.size self.now.grounds.now.setting.now.kind.now }
        requires all { IsTrue (list_all (has self.now.board.now.literals) tried.old.literals) }
        ensures size { tried.new.size ≡ tried.old.size }
        ensures all { IsTrue (list_all (has self.now.board.now.literals) tried.new.literals) }
    {
        let size = self.grounds.setting.kind.space().size();
        if is_literal(size, literal) && self.board.has(literal) && !tried.has(literal) {
            tried.add(literal);
        }
    }

    /// Puts those of some literals on a board that are facts, but for the one at a place.
    fn load(&self, tried: &mut Board, literals: &[Literal], left_out: usize)
        requires tried { tried.old.size ≡ K.size self.now.grounds.now.setting.now.kind.now }
        ensures size { tried.new.size ≡ tried.old.size }
        ensures all { IsTrue (list_all (has self.now.board.now.literals) tried.new.literals) }
    {
        tried.clear();
        for place in 0..literals.len() {
            if place != left_out {
                self.load_one(tried, &literals[place]);
            }
        }
    }

    /// Whether a reason rests on those of some literals that are facts, but for the one at a place: these, if
    /// it does. The reason has to refute them together with the others.
    fn attempt(
        &self,
        alloc: Global,
        tried: &mut Board,
        literals: &[Literal],
        left_out: usize,
        others: &[Literal],
        reason: &Reason,
    ) -> Result<Option<Literals>, NoMemory>
        requires tried { tried.old.size ≡ K.size self.now.grounds.now.setting.now.kind.now }
        ensures tried { tried.new.size ≡ tried.old.size }
        ensures rests { IfOk result (λ found. IfSome found (λ rests. RestsOn
            (K.size self.now.grounds.now.setting.now.kind.now)
            self.now.grounds.now.setting.now.study.now.axioms self.now.grounds.now.core.now
            self.now.grounds.now.lemmas.now self.now.board.now.literals others.now reason.now rests)) }
    {
        self.load(tried, literals, left_out);
        let mut rests = Literals::new(alloc);
        rests.append(tried.as_slice())?;
        if !add_others(self.grounds.setting.kind.space().size(), tried, others) {
            return Ok(None);
        }
        let tried = Facts {
            grounds: self.grounds,
            board: tried,
        };
        if tried.refutes(reason) {
            Ok(Some(rests))
        } else {
            Ok(None)
        }
    }

    /// Leaves out what a reason does not need of the facts that it rests on, the first first, so that it rests on
    /// what came last; of many facts nothing.
    fn least(
        &self,
        alloc: Global,
        tried: &mut Board,
        rests: Literals,
        others: &[Literal],
        reason: &Reason,
    ) -> Result<Literals, NoMemory>
        requires tried { tried.old.size ≡ K.size self.now.grounds.now.setting.now.kind.now }
        requires rests { RestsOn (K.size self.now.grounds.now.setting.now.kind.now)
            self.now.grounds.now.setting.now.study.now.axioms self.now.grounds.now.core.now
            self.now.grounds.now.lemmas.now self.now.board.now.literals others.now reason.now rests }
        ensures tried { tried.new.size ≡ tried.old.size }
        ensures rests { IfOk result (λ rests. RestsOn (K.size self.now.grounds.now.setting.now.kind.now)
            self.now.grounds.now.setting.now.study.now.axioms self.now.grounds.now.core.now
            self.now.grounds.now.lemmas.now self.now.board.now.literals others.now reason.now rests) }
    {
        let count = rests.len();
        if count > MOST_TRIED {
            return Ok(rests);
        }
        let mut kept = rests;
        let mut place = 0;
        for turn in 0..count {
            let _ = turn;
            match self.attempt(alloc, tried, kept.as_slice(), place, others, reason)? {
                Some(fewer) => kept = fewer,
                None => place += 1,
            }
        }
        Ok(kept)
    }

    /// The facts of which an instance of the axiom at a place of the core speaks.
    fn spoken_by(&self, alloc: Global, place: u32, values: &Env) -> Result<Literals, NoMemory>
        requires values { (a : Titled) →
            slice_get self.now.grounds.now.setting.now.study.now.axioms place ≡ Some a →
            IsTrue (pointwise nat_lt values.now
            (bases_of (K.size self.now.grounds.now.setting.now.kind.now) a.sentence)) }
    {
        bodies_have_values();
        let grounds = self.grounds;
        let axioms = grounds.setting.study.axioms();
        if place as usize >= axioms.len() {
            return Ok(Literals::new(alloc));
        }
        let sentence = axioms.get(place as usize).sentence();
        literals_of(
            alloc,
            grounds.setting.kind.space(),
            self.board,
            sentence.body(),
            values,
        )
    }

    /// Literals that a reason may rest on; those that are no facts do not count.
    fn candidates(&self, alloc: Global, reason: &Reason) -> Result<Literals, NoMemory>
        requires values { (k : ℕ) (values : List ℕ) → reason.now ≡ Reason.Axiom k values → (a : Titled) →
            slice_get self.now.grounds.now.setting.now.study.now.axioms k ≡ Some a → IsTrue (pointwise nat_lt
            values (bases_of (K.size self.now.grounds.now.setting.now.kind.now) a.sentence)) }
    {
        let grounds = self.grounds;
        match reason {
            Reason::Axiom(place, values) => self.spoken_by(alloc, *place, values),
            Reason::Outcome(p) => at_profile(alloc, self.board.as_slice(), *p),
            Reason::Lemma(place) => match grounds.lemmas.get(*place as usize) {
                Some(lemma) => all_of(alloc, lemma.suppose.as_slice()),
                None => Ok(Literals::new(alloc)),
            },
        }
    }

    /// All facts, or all of the profile where the reason is what is left at one. The reason has to refute all
    /// facts together with the others.
    fn all_facts(
        &self,
        alloc: Global,
        others: &[Literal],
        reason: &Reason,
    ) -> Result<Literals, NoMemory>
        requires { IsTrue (refutes (K.size self.now.grounds.now.setting.now.kind.now)
            self.now.grounds.now.setting.now.study.now.axioms self.now.grounds.now.core.now
            self.now.grounds.now.lemmas.now (self.now.board.now.literals ++ others.now) reason.now) }
        ensures rests { IfOk result (λ rests. RestsOn (K.size self.now.grounds.now.setting.now.kind.now)
            self.now.grounds.now.setting.now.study.now.axioms self.now.grounds.now.core.now
            self.now.grounds.now.lemmas.now self.now.board.now.literals others.now reason.now rests) }
        ensures there { IfOk result (λ rests. IsTrue (are_there reason.now rests)) }
    {
        match *reason {
            Reason::Axiom(_, _) => all_of(alloc, self.board.as_slice()),
            Reason::Outcome(p) => at_profile(alloc, self.board.as_slice(), p),
            Reason::Lemma(_) => all_of(alloc, self.board.as_slice()),
        }
    }

    /// Few facts on which a reason rests that refutes all of them together with the others.
    fn few_facts(
        &self,
        alloc: Global,
        tried: &mut Board,
        others: &[Literal],
        reason: &Reason,
    ) -> Result<Literals, NoMemory>
        requires tried { tried.old.size ≡ K.size self.now.grounds.now.setting.now.kind.now }
        requires refuted { IsTrue (refutes (K.size self.now.grounds.now.setting.now.kind.now)
            self.now.grounds.now.setting.now.study.now.axioms self.now.grounds.now.core.now
            self.now.grounds.now.lemmas.now (self.now.board.now.literals ++ others.now) reason.now) }
        ensures tried { tried.new.size ≡ tried.old.size }
        ensures rests { IfOk result (λ rests. RestsOn (K.size self.now.grounds.now.setting.now.kind.now)
            self.now.grounds.now.setting.now.study.now.axioms self.now.grounds.now.core.now
            self.now.grounds.now.lemmas.now self.now.board.now.literals others.now reason.now rests) }
    {
        let candidates = self.candidates(alloc, reason)?;
        let all = candidates.len();
        let found = self.attempt(alloc, tried, candidates.as_slice(), all, others, reason)?;
        match found {
            Some(rests) => self.least(alloc, tried, rests, others, reason),
            None => self.all_facts(alloc, others, reason),
        }
    }

    /// What a reason rests on that refutes all facts together with the others: of at most thirty facts of
    /// which its instance, its profile or its lemma speaks those that it needs, as far as leaving out one
    /// after another tells; of more, all; and where these do not do, all facts, of the profile where the
    /// reason is what is left at one. What is on the board where facts are tried does not count. The only
    /// error is want of memory.
    pub fn rests_on(
        &self,
        alloc: Global,
        tried: &mut Board,
        others: &[Literal],
        reason: &Reason,
    ) -> Result<Literals, NoMemory>
        requires tried { tried.old.size ≡ K.size self.now.grounds.now.setting.now.kind.now }
        requires refuted { IsTrue (refutes (K.size self.now.grounds.now.setting.now.kind.now)
            self.now.grounds.now.setting.now.study.now.axioms self.now.grounds.now.core.now
            self.now.grounds.now.lemmas.now (self.now.board.now.literals ++ others.now) reason.now) }
        ensures tried { tried.new.size ≡ tried.old.size }
        ensures rests { IfOk result (λ rests. RestsOn (K.size self.now.grounds.now.setting.now.kind.now)
            self.now.grounds.now.setting.now.study.now.axioms self.now.grounds.now.core.now
            self.now.grounds.now.lemmas.now self.now.board.now.literals others.now reason.now rests) }
        ensures there { IfOk result (λ rests. IsTrue (are_there reason.now rests)) }
    {
        let rests = self.few_facts(alloc, tried, others, reason)?;
        if are_there(reason, rests.as_slice()) {
            return Ok(rests);
        }
        self.all_facts(alloc, others, reason)
    }
}

/// Whether some facts are of a profile.
fn are_at(facts: &[Literal], p: u32) -> bool
    ensures { IsTrue result → IsTrue (list_all (λ l. profile_of l == p) facts.now) }
{
    for literal in facts {
        if profile_of(literal) != p {
            return false;
        }
    }
    true
}

/// Whether some facts are of the profile, if a reason is what is left at one.
fn are_there(reason: &Reason, facts: &[Literal]) -> bool
    ensures { IsTrue result → IsTrue (are_there reason.now facts.now) }
{
    match *reason {
        Reason::Axiom(_, _) => true,
        Reason::Outcome(p) => are_at(facts, p),
        Reason::Lemma(_) => true,
    }
}

/// Those of some literals that speak of a profile.
fn at_profile(alloc: Global, literals: &[Literal], p: u32) -> Result<Literals, NoMemory>
    ensures { IfOk result (λ found. found ≡ facts_at p literals.now) }
{
    let mut found = Literals::new(alloc);
    for literal in literals {
        if profile_of(literal) == p {
            found.push(*literal)?;
        }
    }
    Ok(found)
}

/// All of some literals.
fn all_of(alloc: Global, literals: &[Literal]) -> Result<Literals, NoMemory>
    ensures { IfOk result (λ all. all ≡ literals.now) }
{
    let mut all = Literals::new(alloc);
    all.append(literals)?;
    Ok(all)
}
