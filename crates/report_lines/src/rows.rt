ghost use Rattle.std.specs.Prelude.{◌≡◌, ◌+◌, ◌*◌, ◌<◌, ◌≤◌, ◌^◌, ◌++◌, OnOk, length, take, codes};
ghost use Rattle.std.specs.Fmt.{decimal};
ghost use Rattle.pages.specs.Flat.{page_bytes};
ghost use Rattle.report_lines.specs.Rows.{all_zero, memory_row, memory_rows};
ghost use Rattle.report_lines.specs.Text.{bytes_text};

use crate::line::{Line, write_bytes};
use pages::{OutOfMemory, Pages};

/// Whether bytes are all 0. They are joined, so that no branch is taken for each of them.
#[inline(always)]
fn is_zero(bytes: &[u8]) -> bool
    ensures { result ≡ all_zero bytes.now }
{
    let mut joined = 0;
    for byte in bytes {
        joined |= *byte;
    }
    joined == 0
}

/// Adds the line of the 16 bytes from an address on, where they are not all 0.
#[inline(always)]
#[tactic(auto, unfolding(crate::specs::Rows::memory_row))]
fn memory_row(line: &mut Line, address: u64, row: &[u8]) -> Result<(), OutOfMemory>
    requires { length row.now ≡ 16 }
    ensures { OnOk result (line.new ≡ line.old ++ memory_row address row.now) }
{
    if is_zero(row) {
        return Ok(());
    }
    line.row(address, row)
}

/// Adds the lines of a page's bytes.
fn page_rows(line: &mut Line, address: u64, page: &[u8]) -> Result<(), OutOfMemory>
    requires length { length page.now ≡ 4096 }
    requires address { address + 4096 < 2 ^ 64 }
    ensures { OnOk result (line.new ≡ line.old ++ memory_rows address page.now 256) }
{
    for row in 0..256usize {
        let start = 16 * row;
        memory_row(line, address + start as u64, &page[start..start + 16])?;
    }
    Ok(())
}

/// Adds bytes, two digits each.
fn bytes(line: &mut Line, bytes: &[u8]) -> Result<(), OutOfMemory>
    requires { length bytes.now ≤ 32 }
    ensures { OnOk result (line.new ≡ line.old ++ bytes_text bytes.now) }
{
    let mut buffer = [0; 64];
    let text = &mut buffer[..2 * bytes.len()];
    write_bytes(text, bytes);
    line.bytes(text)
}

/// Adds the lines of a page. One that holds no bytes has none.
pub fn page_lines(line: &mut Line, pages: &Pages, page: u32) -> Result<(), OutOfMemory>
    requires page { page < length pages.now.ready }
    requires bytes { 4096 * page + 4096 ≤ length pages.now.memory.bytes }
    ensures { OnOk result (line.new ≡
        line.old ++ memory_rows (4096 * page) (page_bytes pages.now.memory.bytes page) 256) }
{
    match pages.page(page) {
        Some(bytes) => page_rows(line, 4096 * page as u64, bytes),
        None => Ok(()),
    }
}

fn first_32(bytes: &[u8]) -> &[u8]
    ensures text { result.now ≡ take 32 bytes.now }
    ensures length { length result.now ≤ 32 }
{
    if bytes.len() < 32 {
        return bytes;
    }
    &bytes[..32]
}

/// Adds the line of the first 32 bytes.
pub fn output_row(line: &mut Line, output: &[u8]) -> Result<(), OutOfMemory>
    ensures { OnOk result (line.new ≡ line.old ++ (bytes_text (take 32 output.now) ++ codes "\n")) }
{
    bytes(line, first_32(output))?;
    line.text("\n")
}

/// Adds a line of a word and a number.
pub fn count_line(line: &mut Line, word: &str, count: u64) -> Result<(), OutOfMemory>
    ensures { OnOk result (line.new ≡ line.old ++ (word.now ++ decimal count ++ codes "\n")) }
{
    line.text(word)?;
    line.decimal(count)?;
    line.text("\n")
}
