mod endings;

ghost use Rattle.std.specs.Prelude.{◌≡◌, ◌<◌, ◌++◌, Err, OnOk};
ghost use Rattle.host_io.specs.Taken.{WritesText};
ghost use Rattle.hunt_table.specs.Text.{endings_text, fingerprint_words, header_text, plans_front, plans_line, program_line, table_text, table_text_by, weak_word, with_count};

use crate::fingerprint::Fingerprint;
use crate::header::Header;
pub use endings::{EndingForm, add_ending, add_output, add_ranges};
use host_io::{RunError, Sink, put_all};
use pages::OutOfMemory;
use plan_hunt::Row;
use report_lines::Line;
use std::alloc::Global;

/// Writes the table of a hunt as text: of so many plans, from the header's first one on. The text is made as a whole before any of it is
/// put.
///
/// # Errors
///
/// `OutOfMemory` where the text found no memory: nothing is out then. `SinkFailed` where the sink failed: a beginning of the
/// text is out.
pub fn write_table<S: Sink>(
    alloc: Global,
    header: &Header,
    count: u32,
    rows: &[Row],
    out: &mut S,
) -> Result<(), RunError>
    ensures writes { WritesText (table_text (with_count header.now count) rows.now) (S.took out.old)
        (S.failures out.old) result (S.took out.new) (S.failures out.new) }
    ensures memory { result ≡ Err RunError.OutOfMemory → S.took out.new ≡ S.took out.old }
{
    let mut line = Line::new(alloc);
    add_table(&mut line, true, header, count, rows)?;
    put_all(out, line.as_bytes())
}

/// Adds the text of a table of so many plans to a line, with bad endings marked or without.
///
/// # Errors
///
/// The line found no memory; what it holds then is of no use.
#[tactic(auto, unfolding(crate::specs::Text::table_text_by))]
pub fn add_table(
    line: &mut Line,
    marked: bool,
    header: &Header,
    count: u32,
    rows: &[Row],
) -> Result<(), OutOfMemory>
    ensures { OnOk result (line.new ≡
        line.old ++ table_text_by marked (with_count header.now count) rows.now) }
{
    add_header(line, header, count, rows.len() as u64)?;
    add_endings(line, marked, header, rows)?;
    line.text("end\n")
}

/// Adds the numbers of the plans.
fn add_plans_front(line: &mut Line, first: u32, count: u32) -> Result<(), OutOfMemory>
    ensures { OnOk result (line.new ≡ line.old ++ plans_front first count) }
{
    line.text("plans ")?;
    line.decimal(u64::from(first))?;
    line.text(" ")?;
    line.decimal(u64::from(count))
}

/// Adds the line of the plans.
#[tactic(auto, unfolding(crate::specs::Text::plans_line))]
fn add_plans_line(line: &mut Line, header: &Header, count: u32) -> Result<(), OutOfMemory>
    ensures { OnOk result (line.new ≡ line.old ++
        plans_line header.now.is_weak header.now.seed header.now.first count) }
{
    add_plans_front(line, header.first, count)?;
    line.text(" seed ")?;
    line.decimal(header.seed)?;
    add_weak_word(line, header.is_weak)?;
    line.text("\n")
}

/// Adds the numbers of a program.
fn add_fingerprint(line: &mut Line, program: Fingerprint) -> Result<(), OutOfMemory>
    ensures { OnOk result (line.new ≡ line.old ++ fingerprint_words program) }
{
    line.text("program ")?;
    line.decimal(program.length)?;
    line.text(" crc ")?;
    line.hex(u64::from(program.checksum), 8)
}

/// Adds the line of the program, where one is told.
#[tactic(auto, unfolding(crate::specs::Text::program_line))]
fn add_program(line: &mut Line, program: Option<Fingerprint>) -> Result<(), OutOfMemory>
    ensures { OnOk result (line.new ≡ line.old ++ program_line program) }
{
    match program {
        None => Ok(()),
        Some(program) => {
            add_fingerprint(line, program)?;
            line.text("\n")
        }
    }
}

/// Adds the lines of the plans, of the program and of the number of endings.
#[tactic(auto, unfolding(crate::specs::Text::header_text))]
fn add_header(line: &mut Line, header: &Header, count: u32, endings: u64) -> Result<(), OutOfMemory>
    ensures { OnOk result (line.new ≡
        line.old ++ header_text header.now.is_weak header.now.seed header.now.first
        count header.now.program endings) }
{
    add_plans_line(line, header, count)?;
    add_program(line, header.program)?;
    line.text("endings ")?;
    line.decimal(endings)?;
    line.text("\n")
}

/// Adds the word of a weak hunt.
fn add_weak_word(line: &mut Line, is_weak: bool) -> Result<(), OutOfMemory>
    ensures { OnOk result (line.new ≡ line.old ++ weak_word is_weak) }
{
    if is_weak { line.text(" weak") } else { Ok(()) }
}

fn add_endings(
    line: &mut Line,
    marked: bool,
    header: &Header,
    rows: &[Row],
) -> Result<(), OutOfMemory>
    ensures { OnOk result (line.new ≡ line.old ++
        endings_text header.now.is_weak marked header.now.ranges.items 1 rows.now) }
{
    let form = EndingForm {
        is_weak: header.is_weak,
        is_marked: marked,
        ranges: &header.ranges,
    };
    for (index, row) in rows.iter().enumerate() {
        add_ending(line, &form, index as u64 + 1, row)?;
    }
    Ok(())
}
