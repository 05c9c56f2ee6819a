ghost use Rattle.std.specs.Prelude.{◌≡◌, ◌↔◌, ℕ, ◌+◌, ◌-◌, ◌≤◌, ◌<◌, [], List, length, OnOk, OnErr, IfOk, IsTrue};
ghost use Rattle.hart_step.specs.Console.{Answered, put_call, get_call, output_room};
ghost use Rattle.serial_phase.specs.Roomed.{HasRoom};

use pages::OutOfMemory;
use std::alloc::Global;
use std::marker::Model;

/// How many bytes the output holds.
pub(crate) const OUTPUT_ROOM: usize = 1_048_576;

/// The input and the output of a run.
pub struct Console {
    /// All input bytes.
    pub input: Vec<u8>,
    /// How many of them were taken.
    pub place: usize,
    /// The output so far.
    pub output: Vec<u8>,
}

// By hand, so that a proof has one step for it wherever one is dropped, in this crate and above.
impl Drop for Console {
    fn drop(self) {
        let Console {
            input,
            place: _,
            output,
        } = self;
        drop(input);
        drop(output);
    }
}

impl Model for Console {
    ghost use Rattle.std.specs.Prelude.{◌-◌, ◌≤◌, vec_len, vec_capacity};
    ghost use Rattle.serial_phase.specs.Roomed.{Roomed};

    ghost Value = { Roomed };

    ghost view = { λ c. record {
      console = record { input = c.input.items; place = c.place; output = c.output.items };
      room = vec_capacity c.output - vec_len c.output;
    } };

    ghost invariant = { λ c. vec_len c.output ≤ 1048576 };
}

impl Console {
    /// No input byte is taken yet, and there is no output.
    pub fn new(alloc: Global, input: Vec<u8>) -> Self
        ensures input { result.console.input ≡ input.items }
        ensures place { result.console.place ≡ 0 }
        ensures output { result.console.output ≡ [] }
    {
        Console {
            input,
            place: 0,
            output: Vec::new(alloc),
        }
    }

    /// Makes room for so many further bytes of output.
    pub fn reserve(&mut self, n: usize) -> Result<(), OutOfMemory>
        ensures same { self.new.console ≡ self.old.console }
        ensures ok { OnOk result (n ≤ self.new.room) }
    {
        match self.output.reserve(n) {
            Ok(()) => Ok(()),
            Err(_) => Err(OutOfMemory),
        }
    }

    /// Adds the low byte of a value to the output and answers 0, or all ones where the output is
    /// full.
    pub fn put(&mut self, value: u64) -> u64
        requires { HasRoom 1 self.old }
        ensures answer { record { value = result; console = self.new.console } ≡
            put_call value self.old.console }
        ensures room { self.old.room ≤ self.new.room + 1 }
    {
        if self.output.len() >= OUTPUT_ROOM {
            return u64::MAX;
        }
        self.output.push((value % 256) as u8).unwrap();
        0
    }

    /// Takes the next input byte, or answers all ones where all were taken.
    pub fn get(&mut self) -> u64
        ensures answer { record { value = result; console = self.new.console } ≡
            get_call self.old.console }
        ensures room { self.new.room ≡ self.old.room }
    {
        if self.place >= self.input.len() {
            return u64::MAX;
        }
        let byte = self.input[self.place];
        self.place += 1;
        u64::from(byte)
    }

    /// The output so far.
    pub fn output(&self) -> &[u8]
        ensures { result.now ≡ self.now.console.output }
    {
        self.output.as_slice()
    }

    /// Whether the two consoles are equal.
    pub fn is_same(&self, other: &Console) -> bool
        ensures { IsTrue result ↔ (self.now.console ≡ other.now.console) }
    {
        self.place == other.place
            && are_same(&self.output, &other.output)
            && are_same(&self.input, &other.input)
    }

    /// An equal console.
    pub fn copy(&self, alloc: Global) -> Result<Console, OutOfMemory>
        ensures { IfOk result (λ c. c.console ≡ self.now.console) }
    {
        match (
            Vec::from_slice(alloc, &self.input),
            Vec::from_slice(alloc, &self.output),
        ) {
            (Ok(input), Ok(output)) => Ok(Console {
                input,
                place: self.place,
                output,
            }),
            _ => Err(OutOfMemory),
        }
    }
}

fn are_same(bytes: &[u8], others: &[u8]) -> bool
    ensures { IsTrue result ↔ (bytes.now ≡ others.now) }
{
    bytes == others
}
