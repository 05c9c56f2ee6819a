ghost use Rattle.std.specs.Prelude.{◌≡◌};
ghost use Rattle.std.specs.Iterator.{YieldsFirstBy, item_count};
ghost use Rattle.store_buffer.specs.Held.{AllNear};
ghost use Rattle.store_buffer.specs.Lines.{addressed};

use crate::line::{LINE_BYTES, Line};
use crate::line_map::InOrder;
use std::marker::Model;

/// The lines of a store buffer that are left to give, each with the address of its first byte.
#[derive(Drop)]
pub struct Lines<'a> {
    rest: InOrder<'a>,
}

impl<'a> Model for Lines<'a> {
    ghost use Rattle.std.specs.Prelude.{ℕ, List};
    ghost use Rattle.store_buffer.specs.declared.line.Line.{Line as LineOf};

    ghost Value = { List (ℕ × LineOf) };

    ghost use Rattle.store_buffer.specs.Held.{AllNear};
    ghost use Rattle.store_buffer.specs.Lines.{addressed};

    ghost view = { λ s. addressed s.rest };

    ghost invariant = { λ s. AllNear s.rest };
}

impl<'a> Lines<'a> {
    #[inline]
    pub(crate) fn new(rest: InOrder<'a>) -> Lines<'a>
        requires { AllNear rest }
        ensures { result ≡ addressed rest.entry }
    {
        Lines { rest }
    }
}

impl<'a> Iterator for Lines<'a> {
    type Item = (u64, &'a Line);

    ghost next_gives = { YieldsFirstBy (λ item. (item.0, item.1.now)) (λ rest. rest) };

    ghost remaining = { item_count (λ rest. rest) };

    #[inline]
    fn next(&mut self) -> Option<(u64, &'a Line)> {
        let (number, line) = self.rest.next()?;
        Some((number * LINE_BYTES, line))
    }
}
