ghost use Rattle.std.specs.Prelude.{◌≡◌};
ghost use Rattle.pages.specs.Memory.{in_range, width_bytes};
ghost use Rattle.round_schedule.specs.Held.{any_byte, unless};

use crate::span::Span;

/// Whether the two share a byte. Sums of addresses are not formed, so none wraps.
fn shares_byte(held: Span, span: Span) -> bool
    ensures { result ≡ any_byte (in_range span.address (width_bytes span.width)) held.address
        (width_bytes held.width) }
{
    if span.address <= held.address {
        held.address - span.address < span.width.bytes()
    } else {
        span.address - held.address < held.width.bytes()
    }
}

/// The reservation that is left of one, after a write to these bytes.
pub(crate) fn unless_broken(entry: Option<Span>, span: Span) -> Option<Span>
    ensures { result ≡ unless (in_range span.address (width_bytes span.width)) entry }
{
    match entry {
        None => None,
        Some(held) => {
            if shares_byte(held, span) {
                None
            } else {
                Some(held)
            }
        }
    }
}
