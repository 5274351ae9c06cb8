//! The hints of a line in an order in which those of one axiom stand together.

use crate::lines::{clause_of, clause_of_line, hints_of_line};
use crate::literal_sets::origin_at;
use cnf::{Clauses, Ids, Line, Lit};
use lists::{Items, NoMemory};
use std::alloc::Global;
use std::cmp::Reverse;
use std::collections::BinaryHeap;

/// Where a variable has its value from: from nothing, from what a line supposes, or from the hint at a place.
#[derive(Clone, Copy)]
enum Source {
    Nothing,
    Supposed,
    Hint(usize),
}

/// Where each variable has its value from.
#[derive(Drop)]
pub struct Sources {
    sources: Vec<Source>,
}

impl Sources {
    /// No variable of so many has a value.
    pub fn new(alloc: Global, variables: u32) -> Result<Sources, NoMemory> {
        let sources = vec![in alloc; Source::Nothing; variables as usize + 1]?;
        Ok(Sources { sources })
    }

    /// Where the variable of a literal has its value from.
    fn of(&self, lit: Lit) -> Source {
        let place = lit.variable() as usize;
        if place < self.sources.len() {
            self.sources[place]
        } else {
            Source::Nothing
        }
    }

    /// The variable of a literal has its value from there.
    fn set(&mut self, lit: Lit, source: Source) {
        let place = lit.variable() as usize;
        if place < self.sources.len() {
            self.sources[place] = source;
        }
    }

    /// The variables of a clause have their values from there.
    fn set_all(&mut self, clause: &[Lit], source: Source) {
        for lit in clause {
            self.set(*lit, source);
        }
    }
}

/// When the turn of a hint comes: in which round over the axioms, by the number of its axiom, in which round
/// over the clauses of that, and by its id. Its place in the line comes last.
#[derive(Clone, Copy, PartialEq, Eq, PartialOrd, Ord)]
struct Turn {
    round: usize,
    axiom: u64,
    lap: usize,
    id: u64,
    place: usize,
}

impl Turn {
    /// The turn of a hint that can be taken once this one was: in the same round where its axiom, or its
    /// clause of the same axiom, is still to come.
    fn next(self, axiom: u64, id: u64, place: usize) -> Turn {
        let mut round = self.round;
        let mut lap: usize = 0;
        if axiom < self.axiom {
            round = round.saturating_add(1);
        } else if axiom == self.axiom {
            lap = self.lap;
            if id < self.id {
                lap = lap.saturating_add(1);
            }
        }
        Turn {
            round,
            axiom,
            lap,
            id,
            place,
        }
    }

    /// The turn in this round at the earliest.
    fn not_before(self, round: usize) -> Turn {
        if self.round >= round {
            return self;
        }
        Turn {
            round,
            axiom: self.axiom,
            lap: 0,
            id: self.id,
            place: self.place,
        }
    }
}

/// A hint that waits for another; and the place, from 1, of what was noted before of that one.
#[derive(Clone, Copy)]
struct Note {
    waiting: usize,
    before: usize,
}

/// A hint of a line: its id and axiom, how many literals of its clause are to become false yet, whether these
/// rest on what the line supposes, and the place, from 1, of the last note on who waits for it.
#[derive(Clone, Copy)]
struct Hint {
    id: u64,
    axiom: u64,
    left: usize,
    supposes: bool,
    notes: usize,
}

/// The hints of a line, with who waits for whom, and those whose turn can come.
#[derive(Drop)]
struct Waiting {
    hints: Vec<Hint>,
    notes: Vec<Note>,
    ready: BinaryHeap<Reverse<Turn>>,
}

/// The axiom of the clause under an id: the upper half of its origin. What earlier lines add stands before all
/// axioms, and clauses of no axiom, of which that half is 0, behind them.
fn axiom_of(clauses: &Clauses, id: u64) -> u64 {
    if id == 0 || id > u64::from(clauses.len()) {
        return 0;
    }
    let axiom = origin_at(clauses, (id - 1) as u32) >> 32;
    if axiom == 0 { u64::MAX } else { axiom }
}

impl Waiting {
    /// No hint.
    fn new(alloc: Global) -> Waiting {
        Waiting {
            hints: Vec::new(alloc),
            notes: Vec::new(alloc),
            ready: BinaryHeap::new(alloc),
        }
    }

    /// Notes that a hint waits for the one at a place, where there is one.
    fn note(&mut self, hint: &mut Hint, waiting: usize, place: usize) -> Result<(), NoMemory> {
        if place < self.hints.len() {
            let before = self.hints[place].notes;
            self.notes.push(Note { waiting, before })?;
            let count = self.notes.len();
            self.hints[place].notes = count;
            hint.left = hint.left.saturating_add(1);
            hint.supposes = hint.supposes || self.hints[place].supposes;
        }
        Ok(())
    }

    /// Adds a hint with its clause. It waits for those that make a literal of it false, and the variable of the
    /// literal that is left has its value from it.
    fn add(
        &mut self,
        sources: &mut Sources,
        clause: &[Lit],
        id: u64,
        axiom: u64,
    ) -> Result<(), NoMemory> {
        let waiting = self.hints.len();
        let mut hint = Hint {
            id,
            axiom,
            left: 0,
            supposes: false,
            notes: 0,
        };
        let mut forced = None;
        for lit in clause {
            match sources.of(*lit) {
                Source::Nothing => forced = Some(*lit),
                Source::Supposed => hint.supposes = true,
                Source::Hint(place) => self.note(&mut hint, waiting, place)?,
            }
        }
        if let Some(lit) = forced {
            sources.set(lit, Source::Hint(waiting));
        }
        self.hints.push(hint)?;
        Ok(())
    }

    /// The hint at a place can be taken, once another was at its turn. What rests on what the line supposes
    /// comes after all that does not.
    fn make_ready(&mut self, place: usize, last: Turn) -> Result<(), NoMemory> {
        if place < self.hints.len() {
            let hint = self.hints[place];
            let mut turn = last.next(hint.axiom, hint.id, place);
            if hint.supposes {
                turn = turn.not_before(self.hints.len());
            }
            self.ready.push(Reverse(turn))?;
        }
        Ok(())
    }

    /// Those that wait for nothing can be taken.
    fn start(&mut self) -> Result<(), NoMemory> {
        let first = Turn {
            round: 0,
            axiom: 0,
            lap: 0,
            id: 0,
            place: 0,
        };
        for place in 0..self.hints.len() {
            if place < self.hints.len() && self.hints[place].left == 0 {
                self.make_ready(place, first)?;
            }
        }
        Ok(())
    }

    /// One literal fewer of the clause of a hint is to become false.
    fn wait_less(&mut self, place: usize, last: Turn) -> Result<(), NoMemory> {
        if place < self.hints.len() {
            let left = self.hints[place].left.saturating_sub(1);
            self.hints[place].left = left;
            if left == 0 {
                self.make_ready(place, last)?;
            }
        }
        Ok(())
    }

    /// The hint of a turn is taken: those that wait for it wait for one less.
    fn take(&mut self, last: Turn) -> Result<(), NoMemory> {
        let mut at: usize = 0;
        if last.place < self.hints.len() {
            at = self.hints[last.place].notes;
        }
        for _ in 0..self.notes.len() {
            if at == 0 || at > self.notes.len() {
                return Ok(());
            }
            let note = self.notes[at - 1];
            self.wait_less(note.waiting, last)?;
            at = note.before;
        }
        Ok(())
    }

    /// Takes all hints, each as its turn comes.
    fn take_all(&mut self, order: &mut Ids) -> Result<(), NoMemory> {
        self.start()?;
        for _ in 0..self.hints.len() {
            let Some(Reverse(turn)) = self.ready.pop() else {
                return Ok(());
            };
            order.push(turn.id)?;
            self.take(turn)?;
        }
        Ok(())
    }
}

/// The hints of a line but the last, with who waits for whom. The variables of all clauses that they name have
/// no value from anywhere before and after.
fn waiting_hints(
    alloc: Global,
    clauses: &Clauses,
    earlier: &[Line],
    supposed: &[Lit],
    hints: &[u64],
    sources: &mut Sources,
) -> Result<Waiting, NoMemory> {
    let mut waiting = Waiting::new(alloc);
    sources.set_all(supposed, Source::Supposed);
    for id in hints {
        let clause = clause_of(clauses, earlier, *id);
        waiting.add(sources, clause, *id, axiom_of(clauses, *id))?;
    }
    sources.set_all(supposed, Source::Nothing);
    for id in hints {
        sources.set_all(clause_of(clauses, earlier, *id), Source::Nothing);
    }
    Ok(waiting)
}

/// The hints of a line in another order, each behind those that it needs: those that don't rest on what the
/// line supposes come first, and the last one stays the last. Of the hints that can come next one of the same
/// axiom is taken, and then one of the next axiom, round and round; within an axiom the ids rise, again and
/// again. No variable has its value from anywhere before and after.
pub fn hints_in_turn(
    alloc: Global,
    clauses: &Clauses,
    earlier: &[Line],
    line: &Line,
    sources: &mut Sources,
) -> Result<Ids, NoMemory> {
    let mut order = Items::new(alloc);
    let hints = hints_of_line(line);
    if hints.is_empty() {
        return Ok(order);
    }
    let before = &hints[..hints.len() - 1];
    let supposed = clause_of_line(line);
    let mut waiting = waiting_hints(alloc, clauses, earlier, supposed, before, sources)?;
    waiting.take_all(&mut order)?;
    order.push(hints[hints.len() - 1])?;
    Ok(order)
}
