ghost use Rattle.std.specs.Prelude.{◌≡◌, ◌≤◌, ◌<◌, ◌+◌, ◌*◌, ◌^◌, IfOk, Ok, length, map};
ghost use Rattle.round_planner.specs.Causes.{checked};
ghost use Rattle.round_planner.specs.Quotas.{planned};
ghost use Rattle.round_planner.specs.Families.{PlansAreAccepted, drawn, family_plan, pace, plan_rows, quota, quotas, row_count, serial_budget};

use crate::plan::Plan;
use crate::split_mix::draw;
use pages::OutOfMemory;
use std::alloc::Global;

/// The paces of a hart.
const PACES: [u32; 11] = [1, 2, 4, 8, 16, 32, 64, 128, 256, 512, 1024];

/// How many rows a plan has.
const ROW_COUNTS: [u32; 4] = [1, 4, 16, 64];

/// The budgets of a serial turn.
const BUDGETS: [u32; 7] = [1, 2, 4, 8, 16, 32, 64];

/// Plans out of a seed, one for each number.
///
/// Plan n has 1, 4, 16 or 64 rows. A hart has a pace, of 1, 2, 4, .. or 1024 instructions a round, and each of its quotas
/// is drawn from 1 to its pace; where n is odd, all harts have one pace. The budget of a serial turn is 1, 2, 4, .. or 64.
#[derive(Clone, Copy)]
pub struct Family {
    /// The seed of all draws.
    pub seed: u64,
    /// The number of harts.
    pub harts: u32,
}

impl Family {
    /// What plan `number` draws for a row and a hart.
    fn drawn(&self, number: u32, row: u32, hart: u32) -> u64
        requires row { row ≤ 64 }
        requires hart { hart < 64 }
        ensures { result ≡ drawn self.now number row hart }
    {
        draw(
            self.seed,
            (u64::from(number) * 257 + u64::from(row)) * 64 + u64::from(hart),
        )
    }

    /// The most instructions of a hart in a round.
    #[tactic(auto, unfolding(crate::specs::Families::pace))]
    fn pace(&self, number: u32, hart: u32) -> u32
        requires { hart < 64 }
        ensures pace { result ≡ pace self.now number hart }
        ensures some { 1 ≤ result }
        ensures few { result ≤ 1024 }
    {
        let hart = if number % 2 == 0 { hart } else { 0 };
        PACES[(self.drawn(number, 0, hart) % 11) as usize]
    }

    fn quota(&self, number: u32, row: u32, hart: u32) -> u32
        requires row { row ≤ 64 }
        requires hart { hart < 64 }
        ensures { result ≡ quota self.now number row hart }
    {
        let pace = u64::from(self.pace(number, hart));
        (1 + self.drawn(number, row, hart) % pace) as u32
    }

    #[tactic(auto, using(crate::proofs::Rows::quotas_next))]
    fn quotas(&self, alloc: Global, number: u32, row: u32) -> Result<Vec<u32>, OutOfMemory>
        requires row { row ≤ 64 }
        requires few_harts { self.now.harts ≤ 64 }
        ensures { IfOk result (λ v. v.items ≡ quotas self.now number row self.now.harts) }
    {
        let mut quotas = Vec::new(alloc);
        for hart in 0..self.harts {
            if quotas.push(self.quota(number, row, hart)).is_err() {
                return Err(OutOfMemory);
            }
        }
        Ok(quotas)
    }

    #[tactic(auto, using(crate::proofs::Rows::rows_next))]
    fn rows(&self, alloc: Global, number: u32, count: u32) -> Result<Vec<Vec<u32>>, OutOfMemory>
        requires few_rows { count ≤ 64 }
        requires few_harts { self.now.harts ≤ 64 }
        ensures { IfOk result (λ v. map (λ r. r.items) v.items ≡ plan_rows self.now number count) }
    {
        let mut rows = Vec::new(alloc);
        for row in 0..count {
            if rows.push(self.quotas(alloc, number, row + 1)?).is_err() {
                return Err(OutOfMemory);
            }
        }
        Ok(rows)
    }

    /// The rows of plan `number` of the family.
    ///
    /// # Errors
    ///
    /// `OutOfMemory` where the rows found no memory.
    pub fn rows_of(&self, alloc: Global, number: u32) -> Result<Vec<Vec<u32>>, OutOfMemory>
        requires some_harts { 1 ≤ self.now.harts }
        requires few_harts { self.now.harts ≤ 64 }
        // With the harts of the family and the budget of the number they are the plan.
        ensures rows { IfOk result (λ v. planned self.now.harts (map (λ r.
            r.items) v.items) (serial_budget number) ≡ family_plan self.now number) }
        ensures some { IfOk result (λ v. 1 ≤ length v.items) }
        ensures accepted { IfOk result (λ v. checked self.now.harts (map (λ r. r.items) v.items) ≡
            Ok tt) }
    {
        self.rows(alloc, number, row_count(number))
    }

    /// Plan `number` of the family.
    ///
    /// # Errors
    ///
    /// `OutOfMemory` where the plan found no memory.
    pub fn plan(&self, alloc: Global, number: u32) -> Result<Plan, OutOfMemory>
        requires some_harts { 1 ≤ self.now.harts }
        requires few_harts { self.now.harts ≤ 64 }
        ensures { IfOk result (λ p. p ≡ family_plan self.now number) }
    {
        let rows = self.rows_of(alloc, number)?;
        match Plan::of_rows(rows, self.harts, serial_budget(number)) {
            Ok(plan) => Ok(plan),
            Err(_) => unreachable!(),
        }
    }
}

fn row_count(number: u32) -> u32
    ensures count { result ≡ row_count number }
    ensures some { 1 ≤ result }
    ensures few { result ≤ 64 }
{
    ROW_COUNTS[(number / 2 % 4) as usize]
}

/// How many instructions a hart may do in a serial turn of plan `number` of a family.
pub fn serial_budget(number: u32) -> u32
    ensures budget { result ≡ serial_budget number }
    ensures some { 1 ≤ result }
    ensures few { result ≤ 64 }
{
    BUDGETS[(number / 8 % 7) as usize]
}

/// No plan of a family is refused for its numbers.
pub fn plans_are_accepted()
    ensures { PlansAreAccepted }
{}
