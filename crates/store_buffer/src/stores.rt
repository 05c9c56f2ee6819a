ghost use Rattle.std.specs.Prelude.{◌≡◌, ◌^◌, ◌<◌, ◌≤◌, All};
ghost use Rattle.std.specs.Iterator.{YieldsFirst, item_count};
ghost use Rattle.store_buffer.specs.Covered.{stores_of};
ghost use Rattle.store_buffer.specs.Held.{AllNear};
ghost use Rattle.store_buffer.specs.Lines.{lines_bytes};

use crate::line::{LINE_BYTES, Line};
use crate::line_map::InOrder;
use pages::{Store, Width};
use std::marker::Model;

/// The bytes of a store buffer that are left to give, as stores of width 1 in rising address.
#[derive(Drop)]
pub struct Stores<'a> {
    rest: InOrder<'a>,
    start: u64,
    line: Line,
}

impl<'a> Model for Stores<'a> {
    ghost use Rattle.std.specs.Prelude.{ℕ, List, ◌++◌, ◌+◌, ◌≤◌, ◌^◌};

    ghost Value = { List (ℕ × ℕ) };

    ghost use Rattle.store_buffer.specs.Held.{AllNear};
    ghost use Rattle.store_buffer.specs.Lines.{whole_line, lines_bytes};

    ghost view = { λ s. whole_line s.start s.line ++ lines_bytes s.rest };

    ghost invariant = { λ s. (s.start + 64 ≤ 2 ^ 64) × AllNear s.rest };
}

impl<'a> Stores<'a> {
    #[inline]
    pub(crate) fn new(rest: InOrder<'a>) -> Stores<'a>
        requires { AllNear rest }
        ensures { result ≡ lines_bytes rest.entry }
    {
        Stores {
            rest,
            start: 0,
            line: Line::empty(),
        }
    }
}

impl<'a> Iterator for Stores<'a> {
    type Item = Store;

    ghost next_gives = { YieldsFirst stores_of };

    ghost remaining = { item_count stores_of };

    #[inline]
    fn next(&mut self) -> Option<Store> {
        while self.line.mask == 0 {
            let (number, line) = self.rest.next()?;
            self.start = number * LINE_BYTES;
            self.line = *line;
        }
        let index = self.line.mask.trailing_zeros();
        self.line.mask &= !(1 << index);
        Some(Store {
            address: self.start + u64::from(index),
            width: Width::W1,
            value: u64::from(self.line.bytes[index as usize]),
        })
    }
}
