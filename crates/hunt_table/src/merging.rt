mod appending;

ghost use Rattle.std.specs.Prelude.{◌≡◌, ◌⊎◌, Err, IfErr, IfOk};
ghost use Rattle.host_io.specs.declared.error.RunError.TheVariants as refusals;
ghost use Rattle.hunt_table.specs.Merging.{AreApart, AreMerged, IsFirstNoTable, IsFirstOfOther, IsMergedText};
ghost use Rattle.hunt_table.specs.declared.merge_error.MergeError.TheVariants.{Apart, NotATable, OtherProgram, Run};
ghost use Rattle.host_io.specs.Writes.{WritesAnswer};

use crate::merge_error::MergeError;
use crate::merging::appending::{append, are_few};
use crate::reading::read_table;
use crate::table::Table;
use crate::writing::write_table;
pub use appending::harts_of;
use host_io::Sink;
use std::alloc::Global;

/// The table that the tables of slices of one hunt are merged to.
fn merged(alloc: Global, texts: &[Vec<u8>]) -> Result<Table, MergeError>
    ensures merged { IfOk result (λ w. AreMerged texts.now w) }
    ensures not_a_table { result ≡ Err NotATable → IsFirstNoTable texts.now }
    ensures apart { result ≡ Err Apart → AreApart texts.now }
    ensures other { result ≡ Err OtherProgram → IsFirstOfOther texts.now }
    ensures errors { IfErr result (λ e. (e ≡ NotATable) ⊎ (e ≡ Apart) ⊎ (e ≡ OtherProgram) ⊎
        (e ≡ Run refusals.OutOfMemory)) }
{
    let [first, others @ ..] = texts else {
        return Err(MergeError::Apart);
    };
    let mut whole = read_table(alloc, first)?;
    if !are_few(whole.header.first, whole.header.count) {
        return Err(MergeError::Apart);
    }
    let harts = harts_of(&whole.rows);
    for text in others {
        append(&mut whole, read_table(alloc, text)?, harts)?;
    }
    Ok(whole)
}

/// Merges the tables of slices of one hunt, given by their texts in the order of their plans, writes the table of all
/// the plans, and answers it.
///
/// # Errors
///
/// Of the texts in their order, the first that is not a table, `NotATable`, is of another program, `OtherProgram`, or does not adjoin those
/// before it, `Apart`;
/// `OutOfMemory`; `SinkFailed`. Only where the sink failed is anything out: a beginning of the table.
pub fn merge<S: Sink>(alloc: Global, texts: &[Vec<u8>], out: &mut S) -> Result<Table, MergeError>
    // The sink takes the text of the table that the tables are merged to.
    ensures writes { WritesAnswer S.took S.failures (IsMergedText texts.now)
        (λ e. (e ≡ NotATable) ⊎ (e ≡ Apart) ⊎ (e ≡ OtherProgram) ⊎
        (e ≡ Run refusals.OutOfMemory))
        (Run refusals.OutOfMemory) (Run refusals.SinkFailed) out.old out.new result }
    // Where memory is refused, it took nothing.
    ensures memory { result ≡ Err (Run refusals.OutOfMemory) → S.took out.new ≡ S.took out.old }
    // Of the texts in their order, the first is refused that is no table's, or that of another program's table, or not that of the slice
    // which follows.
    ensures not_a_table { result ≡ Err NotATable → IsFirstNoTable texts.now }
    ensures other { result ≡ Err OtherProgram → IsFirstOfOther texts.now }
    ensures apart { result ≡ Err Apart → AreApart texts.now }
{
    let table = merged(alloc, texts)?;
    write_table(alloc, &table.header, table.header.count, &table.rows, out)?;
    Ok(table)
}
