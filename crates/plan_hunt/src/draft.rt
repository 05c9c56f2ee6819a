ghost use Rattle.std.specs.Prelude.{◌≡◌, ◌↔◌, ◌≤◌, IfOk, IsTrue, MatchOption, Ok, length, map};
ghost use Rattle.round_planner.specs.Causes.{checked};
ghost use Rattle.plan_hunt.specs.Numbers.{count_steps};
ghost use Rattle.plan_hunt.specs.Steps.{IsStep, after_step, size};

use crate::changing::{add_copies, rows_after};
use crate::size::size;
use crate::step::Step;
use pages::OutOfMemory;
use round_planner::Plan;
use std::alloc::Global;
use std::marker::Model;

/// A plan whose rows are made smaller.
#[derive(Drop)]
pub(crate) struct Draft {
    pub rows: Vec<Vec<u32>>,
    pub harts: u32,
    pub budget: u32,
}

impl Model for Draft {
    ghost use Rattle.std.specs.Prelude.{map};
    ghost use Rattle.round_planner.specs.Quotas.{Planned};
    ghost use Rattle.plan_hunt.specs.Tried.{IsDraft};

    ghost Value = { Planned };

    ghost view = { λ d.
        record { harts = d.harts; rows = map (λ r. r.items) d.rows.items; budget = d.budget } };

    ghost invariant = { λ d. IsDraft (record {
      harts = d.harts;
      rows = map (λ r. r.items) d.rows.items;
      budget = d.budget;
    }) };
}

/// Copies of rows.
fn copied(alloc: Global, rows: &[Vec<u32>]) -> Result<Vec<Vec<u32>>, OutOfMemory>
    ensures { IfOk result (λ v. map (λ r. r.items) v.items ≡ map (λ r. r.items) rows.now) }
{
    let mut copies = Vec::new(alloc);
    match add_copies(alloc, &mut copies, rows) {
        Ok(()) => Ok(copies),
        Err(_) => Err(OutOfMemory),
    }
}

impl Draft {
    /// The plan.
    pub(crate) fn plan(&self, alloc: Global) -> Result<Plan, OutOfMemory>
        ensures { IfOk result (λ p. p ≡ self.now) }
    {
        let rows = copied(alloc, &self.rows)?;
        match Plan::of_rows(rows, self.harts, self.budget) {
            Ok(plan) => Ok(plan),
            Err(_) => unreachable!(),
        }
    }

    /// How many rows there are.
    pub(crate) fn row_count(&self) -> usize
        ensures count { result ≡ length self.now.rows }
        ensures some { 1 ≤ result }
    {
        self.rows.len()
    }

    fn size(&self) -> u64
        ensures { result ≡ size self.now.rows }
    {
        size(&self.rows)
    }

    /// How many steps have a number.
    pub(crate) fn count_steps(&self) -> usize
        ensures { result ≡ count_steps (length self.now.rows) self.now.harts }
    {
        self.rows.len() * (5 + 3 * self.harts as usize)
    }

    /// The plan after a step, where that leaves a smaller one.
    pub(crate) fn after(&self, alloc: Global, step: Step) -> Result<Option<Draft>, OutOfMemory>
        ensures { IfOk result (λ found. MatchOption found (IsStep self.now step →
            ⊥) (λ d. IsStep self.now step × (d ≡ after_step step self.now))) }
    {
        if step.row >= self.rows.len() || !step.change.has_hart(self.harts) {
            return Ok(None);
        }
        let Ok(rows) = rows_after(alloc, &self.rows, step) else {
            return Err(OutOfMemory);
        };
        if rows.is_empty() {
            return Ok(None);
        }
        let smaller = Draft {
            rows,
            harts: self.harts,
            budget: self.budget,
        };
        if smaller.size() >= self.size() {
            return Ok(None);
        }
        Ok(Some(smaller))
    }
}
