//! Titles of boxes, which a viewer shows where it is pointed at.

ghost use Rattle.std.specs.Prelude.{◌≡◌, ◌++◌, OnOk, map, option_map, take};
ghost use Rattle.elf_loader.specs.Offsets.{as_offset};
ghost use Rattle.picture.specs.Titles.{escape, escaped, object_text, offset_text, part_text, pc_text, title_text, told, told_at};

use crate::site::Site;
use elf_loader::SymbolOffset;
use pages::OutOfMemory;
use report_lines::Line;
use round_schedule::Event;

/// The most bytes of an object's name that are shown.
const LONGEST: usize = 200;

/// Adds a byte of a name as text of XML.
fn escape(line: &mut Line, byte: u8) -> Result<(), OutOfMemory>
    ensures { OnOk result (line.new ≡ line.old ++ escape byte) }
{
    match byte {
        b'&' => line.text("&amp;"),
        b'<' => line.text("&lt;"),
        b'>' => line.text("&gt;"),
        32..=126 => line.bytes(&[byte]),
        _ => line.text("?"),
    }
}

fn escaped(line: &mut Line, name: &[u8]) -> Result<(), OutOfMemory>
    ensures { OnOk result (line.new ≡ line.old ++ escaped name.now) }
{
    match name {
        [] => Ok(()),
        [first, rest @ ..] => {
            escape(line, *first)?;
            escaped(line, rest)
        }
    }
}

pub fn pc(line: &mut Line, pc: Option<u64>) -> Result<(), OutOfMemory>
    ensures { OnOk result (line.new ≡ line.old ++ pc_text pc) }
{
    match pc {
        None => Ok(()),
        Some(pc) => {
            line.text(" pc ")?;
            line.hex(pc, 16)
        }
    }
}

fn offset(line: &mut Line, offset: u64) -> Result<(), OutOfMemory>
    ensures { OnOk result (line.new ≡ line.old ++ offset_text offset) }
{
    if offset == 0 {
        return Ok(());
    }
    line.text("+")?;
    line.decimal(offset)
}

/// As much of a name as is shown.
fn shown_of(name: &[u8]) -> &[u8]
    ensures { result.now ≡ take 200 name.now }
{
    &name[..name.len().min(LONGEST)]
}

fn part(line: &mut Line, part: &SymbolOffset<'_>) -> Result<(), OutOfMemory>
    ensures { OnOk result (line.new ≡ line.old ++ part_text (as_offset part.now)) }
{
    line.text(" ")?;
    escaped(line, shown_of(part.name))?;
    offset(line, part.offset)
}

pub fn object(line: &mut Line, object: Option<SymbolOffset<'_>>) -> Result<(), OutOfMemory>
    ensures { OnOk result (line.new ≡ line.old ++ object_text (option_map as_offset object.entry)) }
{
    match object {
        None => Ok(()),
        Some(touched) => part(line, &touched),
    }
}

/// Adds the title of an event.
#[tactic(auto, unfolding(crate::specs::Titles::title_text))]
pub(crate) fn title(line: &mut Line, event: &Event, site: &Site<'_>) -> Result<(), OutOfMemory>
    ensures { OnOk result (line.new ≡ line.old ++ title_text event.now (told site.now)) }
{
    line.text("<title>round ")?;
    line.decimal(event.round as u64)?;
    line.text(" hart ")?;
    line.decimal(event.hart as u64)?;
    line.text(" place ")?;
    line.decimal(event.access.place())?;
    pc(line, site.pc)?;
    object(line, site.object)?;
    line.text("</title>\n")
}

/// What is known of the event of a box; nothing past the list.
pub(crate) fn site_at<'a>(sites: &[Site<'a>], number: usize) -> Site<'a>
    ensures { told result ≡ told_at (map told sites.now) number }
{
    match sites.get(number) {
        Some(site) => *site,
        None => Site {
            pc: None,
            object: None,
        },
    }
}
