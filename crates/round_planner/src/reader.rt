ghost use Rattle.std.specs.Prelude.{◌≡◌, ◌<◌, ◌⊎◌, Some, None, MatchResult, OnOk, IfErr, map};
ghost use Rattle.round_planner.specs.Reading.{Refuses, number_with, after_number, after_row, step, rows_at_end, read_from, start};

use host_io::PlanError;
use std::alloc::Global;
use std::marker::Model;
use std::mem;

/// Every number over 1,000,000 is told as this one.
const TOO_LARGE: u32 = 1_000_001;

/// The rows of a plan as far as its text has been read.
#[derive(Drop)]
struct Reader {
    /// The rows that are whole.
    rows: Vec<Vec<u32>>,
    /// The whole numbers of the row that has begun.
    row: Vec<u32>,
    /// The number that has begun.
    number: Option<u32>,
}

impl Model for Reader {
    ghost use Rattle.std.specs.Prelude.{map};
    ghost use Rattle.round_planner.specs.Reading.{Reading};

    ghost Value = { Reading };

    ghost view = { λ r.
        record { rows = map (λ v. v.items) r.rows.items; row = r.row.items; number = r.number } };
}

/// The number after one more digit: none where the digit follows a first 0.
fn with_digit(number: Option<u32>, digit: u32) -> Option<u32>
    requires { digit < 10 }
    ensures { result ≡ number_with number digit }
{
    match number {
        None => Some(digit),
        Some(0) => None,
        Some(n) => Some(n.saturating_mul(10).saturating_add(digit).min(TOO_LARGE)),
    }
}

impl Reader {
    fn new(alloc: Global) -> Reader
        ensures { result ≡ start }
    {
        Reader {
            rows: Vec::new(alloc),
            row: Vec::new(alloc),
            number: None,
        }
    }

    /// Ends the number that has begun, if one has.
    fn end_number(&mut self) -> Result<(), PlanError>
        ensures ok { OnOk result (after_number self.old self.old.number ≡ Some self.new) }
        ensures err { IfErr result (λ e. Refuses e (after_number self.old self.old.number)) }
    {
        match self.number {
            None => Err(PlanError::NotAPlan),
            Some(number) => {
                self.row.push(number)?;
                self.number = None;
                Ok(())
            }
        }
    }

    /// Ends the row, whose last number has begun.
    fn end_row(&mut self, alloc: Global) -> Result<(), PlanError>
        ensures ok { OnOk result (after_row self.old self.old.number ≡ Some self.new) }
        ensures err { IfErr result (λ e. Refuses e (after_row self.old self.old.number)) }
    {
        self.end_number()?;
        let row = mem::replace(&mut self.row, Vec::new(alloc));
        self.rows.push(row)?;
        Ok(())
    }

    /// Reads one byte of the text.
    #[tactic(auto, unfolding(crate::specs::Reading::step))]
    fn read(&mut self, alloc: Global, byte: u8) -> Result<(), PlanError>
        ensures ok { OnOk result (step self.old byte ≡ Some self.new) }
        ensures err { IfErr result (λ e. Refuses e (step self.old byte)) }
    {
        match byte {
            b'0'..=b'9' => match with_digit(self.number, u32::from(byte - b'0')) {
                None => Err(PlanError::NotAPlan),
                Some(number) => {
                    self.number = Some(number);
                    Ok(())
                }
            },
            b' ' => self.end_number(),
            b'\n' => self.end_row(alloc),
            _ => Err(PlanError::NotAPlan),
        }
    }

    /// The rows, where a plan may end here.
    fn finish(self) -> Result<Vec<Vec<u32>>, PlanError>
        ensures { MatchResult result (λ v. rows_at_end self ≡
            Some (map (λ r. r.items) v.items)) (λ e. Refuses e (rows_at_end self)) }
    {
        if self.number.is_some() || !self.row.is_empty() || self.rows.is_empty() {
            return Err(PlanError::NotAPlan);
        }
        Ok(self.rows)
    }
}

/// The rows of a text.
pub(crate) fn read_rows(alloc: Global, text: &[u8]) -> Result<Vec<Vec<u32>>, PlanError>
    ensures { MatchResult result (λ v. read_from start text.now ≡
        Some (map (λ r. r.items) v.items)) (λ e. Refuses e (read_from start text.now)) }
{
    let mut reader = Reader::new(alloc);
    for byte in text {
        reader.read(alloc, *byte)?;
    }
    reader.finish()
}
