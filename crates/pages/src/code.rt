ghost use Rattle.std.specs.Prelude.{◌≡◌, ◌+◌, ◌^◌, ◌<◌, All};
ghost use Rattle.std.specs.List.{list_any};
ghost use Rattle.pages.specs.Code.{has_address, has_some_address, has_word};
ghost use Rattle.pages.specs.declared.access.Range.{Range as RangeOf};
ghost use Rattle.pages.specs.PagesHold.{LiesWithin};
ghost use Rattle.pages.specs.Memory.{all_code, any_code, is_code, width_bytes};

use crate::{Range, Width};

/// Whether an address is code.
pub(crate) fn is_code_at(code: &[Range], address: u64) -> bool
    ensures { result ≡ list_any (has_address address) code.now }
{
    code.iter().any(|range| range.start <= address && address - range.start < range.len)
}

/// Whether four addresses are code.
#[tactic(auto, using(crate::proofs::CodeTests::is_code_by_range))]
pub(crate) fn all_code_at(code: &[Range], address: u64) -> bool
    requires { address + 4 < 2 ^ 64 }
    ensures { result ≡ all_code code.now address 4 }
{
    is_code_at(code, address)
        && is_code_at(code, address + 1)
        && is_code_at(code, address + 2)
        && is_code_at(code, address + 3)
}

/// Whether one range has the four addresses of a word.
#[inline]
pub(crate) fn has_word_at(code: &[Range], address: u64) -> bool
    ensures { result ≡ list_any (has_word address) code.now }
{
    code.iter().any(|range| range.start <= address
        && (range.len >= 4 && address - range.start <= range.len - 4))
}

/// Whether one of `count` addresses, at least one, is code.
pub(crate) fn any_code_at(code: &[Range], address: u64, count: u64) -> bool
    ensures { result ≡ list_any (has_some_address address count) code.now }
{
    code.iter().any(|range| {
        if address < range.start {
            range.start - address < count && range.len > 0
        } else {
            address - range.start < range.len
        }
    })
}

/// Whether an access touches code, all of which lies between two addresses.
#[inline]
pub(crate) fn touches_code(code: &[Range], start: u64, end: u64, address: u64, width: Width) -> bool
    requires within { All (λ (r : RangeOf). LiesWithin start end r) code.now }
    requires fits { address + width_bytes width < 2 ^ 64 }
    ensures { result ≡ any_code code.now address (width_bytes width) }
{
    let count = width.bytes();
    if address >= end || address + count <= start {
        return false;
    }
    any_code_at(code, address, count)
}
