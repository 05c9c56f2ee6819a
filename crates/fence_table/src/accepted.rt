ghost use Rattle.std.specs.Prelude.{◌≡◌, ◌⊎◌, ◌+◌, ◌≤◌, ◌==◌, ◌++◌, [], ◌∷◌, if◌then◌else◌, not, drop, length, IfErr, IfOk, None, OnOk, Some, option_map};
ghost use Rattle.std.specs.List.{list_all, prefix_len};
ghost use Rattle.hunt_table.specs.Names.{is_name_byte};
ghost use Rattle.std.specs.Str.{bytes_eq};
ghost use Rattle.fence_table.specs.Accepting.{accepted_in, has_gap, is_name, is_of, is_word, names, said_in, to_blank, words_at};
ghost use Rattle.fence_table.specs.declared.accept_error.AcceptError.TheVariants as refusals;

use crate::accept_error::AcceptError;
use crate::gap::NamedGap;
use crate::site::{Site, SiteName};
use crate::writing::add_site_name;
use pages::OutOfMemory;
use report_lines::Line;
use std::alloc::Global;
use std::marker::Model;

/// The two words of a gap that is known.
#[derive(Drop)]
struct Pair {
    earlier: Vec<u8>,
    later: Vec<u8>,
}

impl Model for Pair {
    ghost use Rattle.fence_table.specs.Accepting.{Words};

    ghost Value = { Words };

    ghost view = { λ p. (p.earlier.items, p.later.items) };
}

/// Gaps at which a fence is known to be missing.
#[derive(Drop)]
pub struct Accepted {
    pairs: Vec<Pair>,
}

impl Model for Accepted {
    ghost use Rattle.std.specs.Prelude.{List};
    ghost use Rattle.fence_table.specs.Accepting.{Words};

    ghost Value = { List Words };

    ghost view = { λ a. a.pairs.items };
}

impl Accepted {
    /// Reads a list of gaps: two words a line with one blank between them, the instructions of the gap, each as the table of missing
    /// fences prints it: by its address of 16 digits, or by its function. An empty line says nothing, nor does one that begins with `#`.
    ///
    /// # Errors
    ///
    /// `NotAGap` for the first line that is none of these; `OutOfMemory`.
    pub fn read(alloc: Global, text: &[u8]) -> Result<Accepted, AcceptError>
        ensures found { IfOk result (λ a. accepted_in text.now ≡ Some a) }
        ensures errors { IfErr result (λ e. (e ≡ refusals.OutOfMemory) ⊎
            (accepted_in text.now ≡ None)) }
    {
        let mut pairs = Vec::new(alloc);
        let mut rest = text;
        for index in 0..text.len() {
            let end = length_before(rest, b'\n');
            if !add_line(alloc, &mut pairs, &rest[..end])? {
                return Err(AcceptError::NotAGap(index as u64 + 1));
            }
            rest = after(rest, end);
        }
        Ok(Accepted { pairs })
    }

    /// Whether a gap is among them.
    ///
    /// # Errors
    ///
    /// `OutOfMemory` alone.
    pub fn has(&self, alloc: Global, gap: &NamedGap) -> Result<bool, OutOfMemory>
        ensures { IfOk result (λ b. b ≡ has_gap self.now gap.now) }
    {
        let mut rest = self.pairs.as_slice();
        while let [pair, after @ ..] = rest {
            if is_of(alloc, pair, gap)? {
                return Ok(true);
            }
            rest = after;
        }
        Ok(false)
    }
}

/// Adds what a line says. False: it has other words than two.
fn add_line(alloc: Global, pairs: &mut Vec<Pair>, line: &[u8]) -> Result<bool, OutOfMemory>
    ensures { IfOk result (λ ok. option_map (λ said. pairs.old.items ++ said) (said_in line.now) ≡
        (if ok then Some pairs.new.items else None)) }
{
    if line.is_empty() || line[0] == b'#' {
        return Ok(true);
    }
    match words_of(line) {
        None => Ok(false),
        Some((earlier, later)) => {
            add_pair(alloc, pairs, earlier, later)?;
            Ok(true)
        }
    }
}

/// Adds a gap.
fn add_pair(
    alloc: Global,
    pairs: &mut Vec<Pair>,
    earlier: &[u8],
    later: &[u8],
) -> Result<(), OutOfMemory>
    ensures { OnOk result (pairs.new.items ≡ pairs.old.items ++ (earlier.now, later.now) ∷ []) }
{
    let pair = Pair {
        earlier: Vec::from_slice(alloc, earlier)?,
        later: Vec::from_slice(alloc, later)?,
    };
    match pairs.push(pair) {
        Ok(()) => Ok(()),
        Err(_) => Err(OutOfMemory),
    }
}

/// The two words of a line, if it has two.
fn words_of(line: &[u8]) -> Option<(&[u8], &[u8])>
    ensures { option_map (λ w. (w.0.now, w.1.now)) result ≡ words_at (to_blank line.now) line.now }
{
    let blank = length_before(line, b' ');
    let (earlier, later) = (&line[..blank], after(line, blank));
    if is_word(earlier) && is_word(later) {
        Some((earlier, later))
    } else {
        None
    }
}

/// Whether bytes are some characters that can be printed, and no blank.
fn is_word(bytes: &[u8]) -> bool
    ensures { result ≡ is_word bytes.now }
{
    !bytes.is_empty() && are_name_bytes(bytes)
}

/// Whether a byte is a character that can be printed, and no blank.
fn is_name_byte(byte: u8) -> bool
    ensures { result ≡ is_name_byte byte }
{
    (b'!'..=b'~').contains(&byte)
}

fn are_name_bytes(bytes: &[u8]) -> bool
    ensures { result ≡ list_all is_name_byte bytes.now }
{
    bytes.iter().all(|byte| is_name_byte(*byte))
}

/// How many bytes stand before the first one of a value.
fn length_before(bytes: &[u8], end: u8) -> usize
    ensures count { result ≡ prefix_len (λ b. not (b == end)) bytes.now }
    ensures within { result ≤ length bytes.now }
{
    for (position, byte) in bytes.iter().enumerate() {
        if *byte == end {
            return position;
        }
    }
    bytes.len()
}

/// What stands behind the byte at a position.
fn after(bytes: &[u8], position: usize) -> &[u8]
    requires { position ≤ length bytes.now }
    ensures { result.now ≡ drop (position + 1) bytes.now }
{
    if position < bytes.len() {
        &bytes[position + 1..]
    } else {
        &[]
    }
}

/// Whether the words name the instructions of a gap.
fn is_of(alloc: Global, pair: &Pair, gap: &NamedGap) -> Result<bool, OutOfMemory>
    ensures { IfOk result (λ b. b ≡ is_of gap.now pair.now) }
{
    if names(alloc, &pair.earlier, &gap.earlier)? {
        names(alloc, &pair.later, &gap.later)
    } else {
        Ok(false)
    }
}

/// Whether a word is what the table prints of an instruction.
fn names(alloc: Global, word: &[u8], site: &Site) -> Result<bool, OutOfMemory>
    ensures { IfOk result (λ b. b ≡ names word.now site.now) }
{
    let mut pc = Line::new(alloc);
    pc.hex(site.pc, 16)?;
    if are_same(word, pc.as_bytes()) {
        return Ok(true);
    }
    is_name(alloc, word, &site.name)
}

/// Whether a word is where an instruction stands in a function.
fn is_name(alloc: Global, word: &[u8], name: &Option<SiteName>) -> Result<bool, OutOfMemory>
    ensures { IfOk result (λ b. b ≡ is_name word.now name.now) }
{
    match name {
        None => Ok(false),
        Some(name) => {
            let mut text = Line::new(alloc);
            add_site_name(alloc, &mut text, name)?;
            Ok(are_same(word, text.as_bytes()))
        }
    }
}

fn are_same(bytes: &[u8], others: &[u8]) -> bool
    ensures { result ≡ bytes_eq bytes.now others.now }
{
    bytes == others
}
