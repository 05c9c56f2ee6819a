ghost use Rattle.std.specs.Prelude.{◌≡◌, ◌<◌, ◌≤◌, ◌⊎◌, ◌≢◌, ◌+◌, ℕ, List, All, map, length, IfOk, IfErr, OnOk, Ok, Err};
ghost use Rattle.std.specs.List.{list_any};
ghost use Rattle.round_planner.specs.Causes.{IsLeast, Stands, checked};
ghost use Rattle.round_planner.specs.Grammar.{IsPlanText, ReadingIsUnique, numbers_of};
ghost use Rattle.round_planner.specs.PlanText.{ReadsAs, TextIsThePlans, plan_text};
ghost use Rattle.round_planner.specs.Quotas.{IsQuota, planned, quota_of, quotas_of};
ghost use Rattle.round_planner.specs.Rows.{has_odd_row, has_out_of_range, is_out_of_range};
ghost use Rattle.host_io.specs.declared.plan_error.PlanError.{PlanError as Cause};
ghost use Rattle.host_io.specs.declared.plan_error.PlanError.TheVariants as causes;

use crate::reader::read_rows;
use crate::text::write_rows;
use host_io::PlanError;
use pages::OutOfMemory;
use std::alloc::{AllocError, Global};
use std::marker::Model;

/// The largest quota.
const MOST_INSTRUCTIONS: u32 = 1_000_000;

/// The most rows of a plan.
const MOST_ROWS: usize = 256;

/// How many instructions each hart may do in each round, and in each serial turn.
///
/// A plan has one or more rows, which the rounds take in turn, the first after the last. A row is one quota for all
/// harts, or a quota for each.
pub struct Plan {
    harts: u32,
    rows: Vec<Vec<u32>>,
    budget: u32,
}

// By hand, so that a proof has one step for it wherever one is dropped, in this crate and above.
impl Drop for Plan {
    fn drop(self) {
        let Plan {
            harts: _,
            rows,
            budget: _,
        } = self;
        drop(rows);
    }
}

impl Model for Plan {
    ghost use Rattle.std.specs.Prelude.{map};
    ghost use Rattle.round_planner.specs.Quotas.{Planned, IsPlan};

    ghost Value = { Planned };

    ghost view = { λ p.
        record { harts = p.harts; rows = map (λ r. r.items) p.rows.items; budget = p.budget } };

    ghost invariant = { λ p. IsPlan (record {
      harts = p.harts;
      rows = map (λ r. r.items) p.rows.items;
      budget = p.budget;
    }) };
}

fn is_row_out_of_range(row: &[u32]) -> bool
    ensures { result ≡ list_any is_out_of_range row.now }
{
    row.iter()
        .any(|quota| *quota == 0 || *quota > MOST_INSTRUCTIONS)
}

#[tactic(auto, using(crate::proofs::Checks::list_any_map))]
fn has_out_of_range(rows: &[Vec<u32>]) -> bool
    ensures { result ≡ has_out_of_range (map (λ r. r.items) rows.now) }
{
    rows.iter().any(|row| is_row_out_of_range(row))
}

#[tactic(auto, using(crate::proofs::Checks::list_any_map))]
fn has_odd_row(rows: &[Vec<u32>], harts: usize) -> bool
    ensures { result ≡ has_odd_row harts (map (λ r. r.items) rows.now) }
{
    rows.iter().any(|row| row.len() != 1 && row.len() != harts)
}

/// Refuses what is wrong with the numbers of a plan, the least cause first.
fn check_rows(rows: &[Vec<u32>], harts: u32) -> Result<(), PlanError>
    ensures { result ≡ checked harts (map (λ r. r.items) rows.now) }
{
    if has_out_of_range(rows) {
        return Err(PlanError::QuotaOutOfRange);
    }
    if has_odd_row(rows, harts as usize) {
        return Err(PlanError::RowLength);
    }
    if rows.len() > MOST_ROWS {
        return Err(PlanError::TooManyRows);
    }
    Ok(())
}

fn copied(alloc: Global, rows: &[Vec<u32>]) -> Result<Vec<Vec<u32>>, AllocError>
    ensures { IfOk result (λ v. map (λ r. r.items) v.items ≡ map (λ r. r.items) rows.now) }
{
    let mut copies = Vec::new(alloc);
    for row in rows {
        copies.push(Vec::from_slice(alloc, row)?)?;
    }
    Ok(copies)
}

impl Plan {
    /// The plan that a text is, for a number of harts, with a budget of 1.
    ///
    /// A text is one or more rows. A row is one or more numbers, with one space between, and then a line feed. A number
    /// is `0` or decimal digits that don't begin with 0, of any length. A row of one number is the quota of each hart,
    /// and else a row has one number for each.
    ///
    /// # Errors
    ///
    /// The least cause that stands in the text, as `PlanError` lists them, or `OutOfMemory`.
    pub fn parse(alloc: Global, text: &[u8], harts: u32) -> Result<Plan, PlanError>
        requires some_harts { 1 ≤ harts }
        requires few_harts { harts ≤ 64 }
        // The rows are those of the text.
        ensures rows { IfOk result (λ p. (rows : List (List (List ℕ))) × IsPlanText text.now rows ×
            (p.rows ≡ numbers_of rows)) }
        ensures harts { IfOk result (λ p. p.harts ≡ harts) }
        ensures budget { IfOk result (λ p. p.budget ≡ 1) }
        // A plan is accepted only where no cause stands.
        ensures accepted { IfOk result (λ p. (cause : Cause) → Stands harts text.now cause → ⊥) }
        // A cause that is answered stands, and is the least.
        ensures refused { IfErr result (λ e. e ≢ causes.OutOfMemory → IsLeast harts text.now e) }
        // Where causes stand, the least is answered, if memory doesn't run out.
        ensures exact { (cause : Cause) → IsLeast harts text.now cause →
            (result ≡ Err cause) ⊎ (result ≡ Err causes.OutOfMemory) }
    {
        let rows = read_rows(alloc, text)?;
        check_rows(&rows, harts)?;
        Ok(Plan {
            harts,
            rows,
            budget: 1,
        })
    }

    /// The plan of these rows, for a number of harts, with a budget.
    ///
    /// # Errors
    ///
    /// The least cause that stands in the numbers.
    pub fn of_rows(rows: Vec<Vec<u32>>, harts: u32, budget: u32) -> Result<Plan, PlanError>
        requires some_harts { 1 ≤ harts }
        requires few_harts { harts ≤ 64 }
        requires some_rows { 1 ≤ length rows.items }
        requires some_budget { 1 ≤ budget }
        requires few_budget { budget ≤ 1000 }
        ensures plan { IfOk result (λ p. p ≡ planned harts (map (λ r. r.items) rows.items) budget) }
        // It is refused exactly where a cause stands in the numbers, by the least.
        ensures accepted { OnOk result (checked harts (map (λ r. r.items) rows.items) ≡ Ok tt) }
        ensures refused { IfErr result (λ e. checked harts (map (λ r. r.items) rows.items) ≡
            Err e) }
    {
        check_rows(&rows, harts)?;
        Ok(Plan {
            harts,
            rows,
            budget,
        })
    }

    /// How many instructions a hart may do in the parallel phase of a round. Rounds are counted from 1, harts from 0.
    #[inline]
    pub fn quota(&self, round: u32, hart: u32) -> u32
        requires round { 1 ≤ round }
        requires hart { hart < self.now.harts }
        ensures quota { result ≡ quota_of self.now round hart }
        ensures in_range { IsQuota result }
    {
        let row = &self.rows[(round as usize - 1) % self.rows.len()];
        if row.len() == 1 {
            row[0]
        } else {
            row[hart as usize]
        }
    }

    /// The number of harts.
    pub fn harts(&self) -> u32
        ensures harts { result ≡ self.now.harts }
        ensures some_harts { 1 ≤ result }
        ensures few_harts { result ≤ 64 }
        // Each round has a quota for each hart.
        ensures quotas { (n : ℕ) → length (quotas_of self.now n) ≡ self.now.harts }
        ensures in_range { (n : ℕ) → All IsQuota (quotas_of self.now n) }
    {
        self.harts
    }

    /// How many rows there are.
    pub fn row_count(&self) -> u32
        ensures rows { result ≡ length self.now.rows }
        ensures some_rows { 1 ≤ result }
        ensures few_rows { result ≤ 256 }
    {
        self.rows.len() as u32
    }

    /// How many instructions a hart may do in a serial turn.
    #[inline]
    pub fn budget(&self) -> u32
        ensures budget { result ≡ self.now.budget }
        ensures some_budget { 1 ≤ result }
        ensures few_budget { result ≤ 1000 }
    {
        self.budget
    }

    /// Sets how many instructions a hart may do in a serial turn.
    pub fn set_budget(&mut self, budget: u32)
        requires some_budget { 1 ≤ budget }
        requires few_budget { budget ≤ 1000 }
        ensures { self.new ≡ record self.old { budget = budget } }
    {
        self.budget = budget;
    }

    /// The text of the plan: it reads as the plan's rows. It says no budget.
    ///
    /// # Errors
    ///
    /// `OutOfMemory` where the text found no memory.
    pub fn text(&self, alloc: Global) -> Result<Vec<u8>, OutOfMemory>
        ensures text { IfOk result (λ v. v.items ≡ plan_text self.now.rows) }
        ensures reads { IfOk result (λ v. ReadsAs v.items self.now.rows) }
    {
        let mut text = Vec::new(alloc);
        write_rows(&mut text, &self.rows)?;
        Ok(text)
    }

    /// An equal plan.
    pub fn copy(&self, alloc: Global) -> Result<Plan, OutOfMemory>
        ensures { IfOk result (λ p. p ≡ self.now) }
    {
        let rows = copied(alloc, &self.rows).map_err(|_| OutOfMemory)?;
        Ok(Plan {
            harts: self.harts,
            rows,
            budget: self.budget,
        })
    }
}

/// The text of a plan reads as its rows, and as no others.
pub fn text_is_the_plans()
    ensures { TextIsThePlans }
{}

/// No text has two readings as a plan.
pub fn reading_is_unique()
    ensures { ReadingIsUnique }
{}
