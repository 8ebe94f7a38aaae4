//! The reader of object lines.
//!
//! A text of object lines becomes the lines that it spells, in order, or the first place at which it
//! breaks. What a text spells is stated in `live_model`; this crate reads exactly that. The one idea:
//! a line is a row of fields that are found by their letters, so a reader goes over the fields once,
//! keeps the value of each under its letter, and makes the line of what it found. Nothing is kept of
//! a text but the lines themselves. The layer above may rely on: what is read is what the text
//! spells, every object is good, a break is the first one of the text, and want of memory alone
//! refuses a text without a break.
#![tactic(auto)]

ghost use Rattle.std.specs.Prelude.{◌≡◌, ◌==◌, ◌<◌, ◌≤◌, ◌+◌, ◌^◌, ◌++◌, ◌∷◌, [], Some, length, vec_len, IfErr, IfOk, OnOk};
ghost use Rattle.std.specs.List.{AllByRecursion};
ghost use Rattle.live_model.specs.Objects.{IsGoodLine};
ghost use Rattle.live_model.specs.ObjectLines.{first_of, line_of};
ghost use Rattle.live_model.specs.OplTexts.{OplText, is_skipped};
ghost use Rattle.opl_reader.specs.Readings.{IsCause, IsExact, IsCauseAt};

mod items;
mod lists;
mod members;
mod refs;
mod rows;
mod tags;
mod value_error;
mod values;

pub use live_model::{Line, OplBreak, OplKind};
use owned_data::List;
use rows::read_row;
use std::alloc::{AllocError, AllocFailed, Global};
use text_pieces::{TextLine, all_blank, next_line};
use thiserror::Error;

/// Why a text was not read.
#[derive(Clone, Copy, PartialEq, Eq, Debug, Error)]
pub enum OplError {
    /// Memory was refused.
    #[error("no memory")]
    NoMemory,
    /// The text breaks, here first.
    #[error("{} at {}", .0.kind, .0.at)]
    Broken(OplBreak),
}

impl From<owned_data::NoMemory> for OplError {
    ghost use Rattle.opl_reader.specs.declared.OplError.TheVariants.{NoMemory};

    ghost from_gives = { λ _ e. e ≡ NoMemory };

    fn from(_: owned_data::NoMemory) -> Self {
        OplError::NoMemory
    }
}

impl From<AllocError> for OplError {
    ghost use Rattle.opl_reader.specs.declared.OplError.TheVariants.{NoMemory};

    ghost from_gives = { λ _ e. e ≡ NoMemory };

    fn from(_: AllocError) -> Self {
        OplError::NoMemory
    }
}

impl<T: Drop> From<AllocFailed<T>> for OplError {
    ghost use Rattle.opl_reader.specs.declared.OplError.TheVariants.{NoMemory};

    ghost from_gives = { λ _ e. e ≡ NoMemory };

    fn from(_: AllocFailed<T>) -> Self {
        OplError::NoMemory
    }
}

/// How many object lines a text may have.
const MOST_LINES: usize = 4_000_000;

/// The lines that a text of object lines spells, in order. `Broken` with the first break of the text
/// exactly where it has one, unless memory was refused before.
pub fn read_all(alloc: Global, bytes: &[u8]) -> Result<Vec<Line>, OplError>
    ensures lines { IfOk result (λ lines. OplText bytes.now lines.items) }
    ensures good { IfOk result (λ lines. AllByRecursion IsGoodLine lines.items) }
    ensures broken { IfErr result (IsCause bytes.now) }
{
    let mut lines = Vec::new(alloc);
    let mut at = 0;
    let mut rest = bytes;
    while let Some(row) = next_line(at, rest) {
        if !is_skipped(row.bytes) {
            add_row(alloc, &mut lines, &row)?;
        }
        at = row.next;
        rest = row.rest;
    }
    Ok(lines)
}

/// Nothing to be done: that what `read_all` ensures is one answer. A text spells one list of lines at
/// most, and spells one exactly where it has no break.
pub fn readings_are_exact(bytes: &[u8])
    ensures { IsExact bytes.now }
{
    let _ = bytes.len();
}

// Reads an object line and puts it behind those before it.
fn add_row(alloc: Global, lines: &mut Vec<Line>, row: &TextLine<'_>) -> Result<(), OplError>
    requires row { row.now.at + length row.now.bytes.now < 2 ^ 63 }
    requires lines { vec_len lines.old ≤ 4000000 }
    ensures line { OnOk result ((line : Line) × (line_of row.now.bytes.now ≡ Some line) × (lines.new.items ≡ lines.old.items ++ line ∷ [])) }
    ensures within { OnOk result (vec_len lines.old < 4000000) }
    ensures broken { IfErr result (IsCauseAt (vec_len lines.old) row.now.at row.now.bytes.now) }
{
    if lines.len() == MOST_LINES {
        return Err(broken(row.at, OplKind::OverLimit));
    }
    match read_row(alloc, row.bytes) {
        Ok(line) => {
            lines.push(line)?;
            Ok(())
        }
        Err(OplError::Broken(b)) => Err(broken(row.at + b.at, b.kind)),
        Err(OplError::NoMemory) => Err(OplError::NoMemory),
    }
}

pub(crate) fn broken(at: usize, kind: OplKind) -> OplError
    ensures { result ≡ OplError.Broken (record { at = at; kind = kind }) }
{
    OplError::Broken(OplBreak { at, kind })
}

// A line of blanks, or one that begins with `#`.
fn is_skipped(line: &[u8]) -> bool
    ensures { result ≡ is_skipped line.now }
{
    all_blank(line) || begins_with_hash(line)
}

fn begins_with_hash(line: &[u8]) -> bool
    ensures { result ≡ (first_of line.now == 35) }
{
    match line {
        [first, ..] => *first == b'#',
        [] => false,
    }
}
