ghost use Rattle.std.specs.Prelude.{◌≡◌, ◌+◌, ◌*◌, ◌==◌, ◌++◌, Err, OnOk, codes, nat_eq};
ghost use Rattle.host_io.specs.Taken.{WritesText};
ghost use Rattle.hunt_comparison.specs.Text.{comparison_text, has_same_share, only_text, only_texts, share_line, share_text, share_texts, share_words};
ghost use Rattle.hunt_table.specs.Text.{ending_text};

use crate::twins::{Compared, Twin};
use host_io::{RunError, Sink, put_all};
use hunt_table::{EndingForm, Header, add_ending};
use pages::OutOfMemory;
use report_lines::Line;
use std::alloc::Global;

/// Writes how two tables differ, given the rows of each with their twins in the other one: the endings that only the old one has, those that
/// only the new one has, and of those of both that come more or less often the share of the plans. The text is made as a whole before any of
/// it is put.
///
/// # Errors
///
/// `OutOfMemory` where the text found no memory: nothing is out then. `SinkFailed`: a beginning of the text is out.
#[tactic(auto, unfolding(crate::specs::Text::comparison_text))]
pub fn write_comparison<S: Sink>(
    alloc: Global,
    old_header: &Header,
    new_header: &Header,
    olds: &[Compared<'_>],
    news: &[Compared<'_>],
    out: &mut S,
) -> Result<(), RunError>
    ensures writes { WritesText
        (comparison_text old_header.now new_header.now olds.now news.now) (S.took out.old)
        (S.failures out.old) result (S.took out.new) (S.failures out.new) }
    ensures memory { result ≡ Err RunError.OutOfMemory → S.took out.new ≡ S.took out.old }
{
    let mut line = Line::new(alloc);
    add_comparison(&mut line, old_header, new_header, olds, news)?;
    put_all(out, line.as_bytes())
}

/// Adds the whole text.
#[tactic(auto, unfolding(crate::specs::Text::comparison_text))]
fn add_comparison(
    line: &mut Line,
    old_header: &Header,
    new_header: &Header,
    olds: &[Compared<'_>],
    news: &[Compared<'_>],
) -> Result<(), OutOfMemory>
    ensures { OnOk result (line.new ≡
        line.old ++ comparison_text old_header.now new_header.now olds.now news.now) }
{
    add_only(line, "lost ", old_header, olds)?;
    add_only(line, "new ", new_header, news)?;
    add_shares(line, old_header.count, new_header.count, olds)?;
    line.text("end\n")
}

/// Adds the endings that only one table has, behind a word.
fn add_only(
    line: &mut Line,
    word: &str,
    header: &Header,
    compared: &[Compared<'_>],
) -> Result<(), OutOfMemory>
    ensures { OnOk result (line.new ≡
        line.old ++ only_texts word.now header.now 1 compared.now) }
{
    for (index, each) in compared.iter().enumerate() {
        add_one(line, word, header, index as u64 + 1, each)?;
    }
    Ok(())
}

/// Adds an ending behind a word, where it has no twin.
fn add_one(
    line: &mut Line,
    word: &str,
    header: &Header,
    number: u64,
    compared: &Compared<'_>,
) -> Result<(), OutOfMemory>
    ensures { OnOk result (line.new ≡
        line.old ++ only_text word.now header.now number compared.now) }
{
    match compared.twin {
        Some(_) => Ok(()),
        None => {
            let form = EndingForm {
                is_weak: header.is_weak,
                is_marked: true,
                ranges: &header.ranges,
            };
            line.text(word)?;
            add_ending(line, &form, number, compared.row)
        }
    }
}

/// Adds the shares of the endings that both tables have, where they changed. The tables are of so many plans.
fn add_shares(
    line: &mut Line,
    all: u32,
    others: u32,
    compared: &[Compared<'_>],
) -> Result<(), OutOfMemory>
    ensures { OnOk result (line.new ≡ line.old ++ share_texts all others 1 compared.now) }
{
    for (index, each) in compared.iter().enumerate() {
        add_share(line, all, others, index as u64 + 1, each)?;
    }
    Ok(())
}

/// Adds the share of an ending in both tables, where it changed.
fn add_share(
    line: &mut Line,
    all: u32,
    others: u32,
    number: u64,
    compared: &Compared<'_>,
) -> Result<(), OutOfMemory>
    ensures { OnOk result (line.new ≡ line.old ++ share_text all others number compared.now) }
{
    match compared.twin {
        None => Ok(()),
        Some(twin) => add_other_share(line, all, others, number, compared.row.plans, twin),
    }
}

/// Adds the share of an ending and that of its twin, where they differ.
fn add_other_share(
    line: &mut Line,
    all: u32,
    others: u32,
    number: u64,
    plans: u32,
    twin: Twin,
) -> Result<(), OutOfMemory>
    ensures { OnOk result (line.new ≡ line.old ++ share_line all others number plans twin) }
{
    if has_same_share(plans, all, twin.plans, others) {
        return Ok(());
    }
    line.text("share")?;
    add_share_words(line, number, plans, all)?;
    line.text(" new")?;
    add_share_words(line, twin.number, twin.plans, others)?;
    line.text("\n")
}

/// Whether two numbers of plans are the same share of so many.
fn has_same_share(plans: u32, all: u32, other_plans: u32, other_all: u32) -> bool
    ensures { result ≡ has_same_share plans all other_plans other_all }
{
    u64::from(plans) * u64::from(other_all) == u64::from(other_plans) * u64::from(all)
}

/// Adds the number of an ending, and how many of so many plans lead there.
fn add_share_words(line: &mut Line, number: u64, plans: u32, all: u32) -> Result<(), OutOfMemory>
    ensures { OnOk result (line.new ≡ line.old ++ share_words number plans all) }
{
    line.text(" ending ")?;
    line.decimal(number)?;
    line.text(" plans ")?;
    line.decimal(u64::from(plans))?;
    line.text(" of ")?;
    line.decimal(u64::from(all))
}
