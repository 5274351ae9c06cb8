//! A search under way.

ghost use Rattle.std.specs.Prelude.{◌≡◌, ◌≢◌, ℕ, ◌+◌, ◌-◌, ◌<◌, ◌≤◌, ◌^◌, [], length, true, false, All, IfOk, OnOk, IfSome, IfNone, None, slice_index_or, unwrap_or};
ghost use Rattle.cnf.specs.Derived.{IsAccepted};
ghost use Rattle.cnf.specs.Fresh.{AreOver};
ghost use Rattle.propagate.specs.Values.{value_in, IsUnassigned};
ghost use Rattle.propagate.specs.TrailState.{IsTrail, IsClosed, cut_to, known, clause_at};
ghost use Rattle.cdcl.specs.Hints.{FollowsBy};
ghost use Rattle.cdcl.specs.Order.{HasAll, IsFirstUnset, IsHeld, raised_by};
ghost use Rattle.cdcl.specs.Search.{IsConflict, Restarted, KeepsSigns, Assigns, IsComplete, IsSearching, AreNumbered};

use crate::analysis::analyze;
use crate::lines::line;
use crate::order::Order;
use crate::restarts::Restarts;
use crate::seen::Seen;
use cnf::{Bits, Clauses, Derivation, Lit};
use lists::{Items, NoMemory};
use propagate::{Outcome, Trail};
use std::alloc::Global;
use std::marker::Model;

/// Where a search stands: the assigned literals over the clauses, the order in which variables are decided,
/// and the marks by which a conflict is traced back. Each variable without a value is in the order, and unit
/// propagation gets nothing below the current level.
pub struct Solver {
    trail: Trail,
    order: Order,
    seen: Seen,
    variables: u32,
}

/// Written out, so that letting go of a solver is one call.
impl Drop for Solver {
    fn drop(self) {
        let Solver {
            trail: _,
            order: _,
            seen: _,
            variables: _,
        } = self;
    }
}

impl Model for Solver {
    ghost use Rattle.cdcl.specs.Solver.{SolverState, IsSolver};

    ghost Value = { SolverState };

    ghost view = { λ s. record { trail = s.trail; order = s.order } };

    ghost invariant = { λ s. IsSolver s.trail s.order s.seen s.variables };
}

impl Solver {
    /// A search over clauses, where nothing is decided or learned. No variable of a clause is above the
    /// number of variables.
    pub fn new(alloc: Global, clauses: &Clauses, variables: u32) -> Result<Solver, NoMemory>
        requires few { variables < 2 ^ 31 }
        requires range { All (λ clause. All (λ l. l.variable ≤ variables) clause) clauses.now.clauses }
        ensures { IfOk result (λ s. IsSearching clauses.now.clauses variables s.trail []) }
    {
        let order = Order::new(alloc, variables)?;
        let seen = Seen::new(alloc, variables)?;
        let trail = Trail::new(alloc, clauses, variables)?;
        Ok(Solver {
            trail,
            order,
            seen,
            variables,
        })
    }

    /// Whether nothing is decided.
    pub fn is_at_root(&self) -> bool
        ensures yes { result ≡ true → self.now.trail.level ≡ 0 }
        ensures no { result ≡ false → 0 < self.now.trail.level }
    {
        self.trail.level() == 0
    }

    /// Propagates and decides, until a clause is falsified or every variable has a value.
    pub fn propagate_and_decide(&mut self) -> Option<u32>
        ensures activity { self.new.order.activity ≡ self.old.order.activity }
        ensures signs { self.new.order.phases ≡ self.old.order.phases }
        ensures assigns { Assigns self.old.trail self.new.trail }
        ensures conflict { IfSome result (IsConflict self.new.trail) }
        ensures closed { IfNone result (IsClosed self.new.trail) }
        ensures complete { IfNone result (IsComplete self.new.trail self.new.trail.variables) }
    {
        'deciding: loop {
            match self.trail.propagate() {
                Outcome::Conflict(k) => return Some(k),
                Outcome::Closed => match choose(&self.trail, &mut self.order) {
                    None => return None,
                    Some(lit) => self.trail.decide(lit),
                },
            }
        }
    }

    /// The value of each variable, false where it has none.
    pub fn values(&self, alloc: Global) -> Result<Bits, NoMemory>
        ensures length { IfOk result (λ bits. length bits ≡ self.now.trail.variables) }
        ensures values { IfOk result
            (λ bits. (v : ℕ) → v < self.now.trail.variables → slice_index_or bits v false ≡
            unwrap_or (value_in (known self.now.trail) (v + 1)) false) }
    {
        let mut bits = Bits::new(alloc, self.variables)?;
        for v in 0..self.variables {
            bits.set(v + 1, self.trail.value(v + 1).unwrap_or(false));
        }
        Ok(bits)
    }

    /// Adds the empty clause to the lines, by a conflict at level 0.
    pub fn refute(
        &self,
        alloc: Global,
        clauses: &Clauses,
        conflict: u32,
        lines: &mut Derivation,
    ) -> Result<(), NoMemory>
        requires searching { IsSearching clauses.now.clauses self.now.trail.variables
            self.now.trail lines.old }
        requires conflict { IsConflict self.now.trail conflict }
        requires level { self.now.trail.level ≡ 0 }
        requires room { length lines.old < 1000000 }
        ensures accepted { OnOk result (IsAccepted clauses.now.clauses lines.new) }
        ensures over { OnOk result (AreOver self.now.trail.variables lines.new) }
        ensures numbered { OnOk result (AreNumbered lines.new) }
        ensures few { OnOk result (length lines.new ≤ 1000000) }
    {
        let number = lines.len() as u32 + 1;
        let id = clauses.len() as u64 + number as u64;
        let hints = root_hints(alloc, &self.trail, conflict)?;
        let last = line(alloc, number, id, Items::new(alloc), hints.as_slice())?;
        lines.push(last)?;
        Ok(())
    }

    /// Learns from a conflict above level 0, and goes back to the assertion level.
    pub fn learn(
        &mut self,
        alloc: Global,
        clauses: &Clauses,
        conflict: u32,
        lines: &mut Derivation,
    ) -> Result<(), NoMemory>
        requires searching { IsSearching clauses.now.clauses self.old.trail.variables
            self.old.trail lines.old }
        requires conflict { IsConflict self.old.trail conflict }
        requires level { 0 < self.old.trail.level }
        requires room { length lines.old < 1000000 }
        ensures raised { OnOk result
            (self.new.order.activity ≡ raised_by self.old.order.activity
            (clause_at self.new.trail (length self.old.trail.clauses))) }
        ensures signs { OnOk result (KeepsSigns self.old.trail self.new.trail.level self.new.order) }
        ensures searching { OnOk result
            (IsSearching clauses.now.clauses self.old.trail.variables self.new.trail lines.new) }
        ensures one_more { OnOk result (length lines.new ≡ length lines.old + 1) }
    {
        let number = lines.len() as u32 + 1;
        let id = clauses.len() as u64 + number as u64;
        let learned = analyze(alloc, &self.trail, &mut self.seen, conflict)?;
        let last = learned.line(alloc, number, id)?;
        self.order.raise_all(learned.clause.as_slice());
        self.go_back(learned.level);
        self.trail.learn(learned.clause.as_slice())?;
        lines.push(last)?;
        Ok(())
    }

    /// Counts a learned clause, and goes back to level 0 where a restart is due.
    pub fn restart_if_due(&mut self, restarts: &mut Restarts)
        requires { restarts.old.round < 4294967295 }
        ensures restarted { Restarted restarts.old restarts.new self.old.trail self.new.trail }
        ensures form { IsTrail self.new.trail }
        ensures activity { self.new.order.activity ≡ self.old.order.activity }
        ensures signs { KeepsSigns self.old.trail self.new.trail.level self.new.order }
    {
        if !restarts.is_due() {
            let _trail = &self.trail;
            return;
        }
        self.go_back(0);
    }

    /// Goes back to a level, and puts the variables that lose their value back into the order, each with the
    /// sign that it had.
    fn go_back(&mut self, level: u32)
        requires { level ≤ self.old.trail.level }
        ensures activity { self.new.order.activity ≡ self.old.order.activity }
        ensures signs { KeepsSigns self.old.trail level self.new.order }
        ensures form { IsTrail self.new.trail }
        ensures state { self.new.trail ≡ cut_to self.old.trail level }
    {
        put_back(&self.trail, &mut self.order, level);
        self.trail.back_to(level);
    }
}

/// The literal to decide: the first variable of the order without a value, with the sign that it last had.
fn choose(trail: &Trail, order: &mut Order) -> Option<Lit>
    requires few { trail.now.variables < 2 ^ 31 }
    requires all { HasAll trail.now order.old trail.now.variables }
    ensures variables { length order.new.places ≡ trail.now.variables }
    ensures activity { order.new.activity ≡ order.old.activity }
    ensures signs { order.new.phases ≡ order.old.phases }
    ensures some { IfSome result
        (λ l. (1 ≤ l.variable) × (l.variable ≤ trail.now.variables) × IsUnassigned (known trail.now) l) }
    ensures first { IfSome result
        (λ l. IsFirstUnset trail.now order.old trail.now.variables (l.variable - 1)) }
    ensures sign { IfSome result
        (λ l. l.positive ≡ slice_index_or order.old.phases (l.variable - 1) false) }
    ensures others { IfSome result
        (λ l. (w : ℕ) → w < trail.now.variables → w ≢ l.variable - 1 →
        value_in (known trail.now) (w + 1) ≡ None → IsHeld order.new w) }
    ensures none { IfNone result (IsComplete trail.now trail.now.variables) }
{
    'choosing: loop {
        match order.pop() {
            None => return None,
            Some(v) => {
                if trail.value(v).is_none() {
                    return Some(Lit::new(v, order.phase(v)));
                }
            }
        }
    }
}

/// Puts the variables whose level is above this one back into the order, each with the sign that it has.
fn put_back(trail: &Trail, order: &mut Order, level: u32)
    requires { HasAll trail.now order.old trail.now.variables }
    ensures all { HasAll (cut_to trail.now level) order.new trail.now.variables }
    ensures activity { order.new.activity ≡ order.old.activity }
    ensures signs { KeepsSigns trail.now level order.new }
{
    let mut place = trail.len();
    'undoing: while place > 0 {
        let lit = trail.at(place - 1);
        let Some(own) = trail.level_of(lit.variable()) else {
            return;
        };
        if own <= level {
            return;
        }
        order.put_back(lit.variable(), lit.positive());
        place -= 1;
    }
}

/// The reasons of all entries in order, and then the falsified clause.
fn root_hints(alloc: Global, trail: &Trail, conflict: u32) -> Result<Vec<u32>, NoMemory>
    requires conflict { IsConflict trail.now conflict }
    requires level { trail.now.level ≡ 0 }
    ensures { IfOk result (λ hints. FollowsBy trail.now.clauses [] hints.items) }
{
    let mut hints = Vec::new(alloc);
    for place in 0..trail.len() {
        let k = trail.reason(trail.at(place).variable()).unwrap();
        hints.push(k)?;
    }
    hints.push(conflict)?;
    Ok(hints)
}
