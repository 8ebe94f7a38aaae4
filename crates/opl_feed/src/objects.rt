//! The lines of a text, read one by one: by the fast reader of rows, and by the exact reader where that answers nothing.

ghost use Rattle.std.specs.Prelude.{◌≡◌, ◌≤◌, ◌<◌, ◌+◌, ◌^◌, ◌++◌, ◌∷◌, [], length, take, Some, false, IfErr, IfOk};
ghost use Rattle.std.specs.Bool.{OnTrue};
ghost use Rattle.std.specs.Str.Lines.{strip_carriage_return};
ghost use Rattle.live_model.specs.ObjectLines.{line_of};
ghost use Rattle.live_model.specs.OplTexts.{OplText, is_skipped, text_break};
ghost use Rattle.opl_feed.specs.Streams.{has_line_feed};
ghost use Rattle.opl_feed.specs.Rows.{AreRead, IsRowsCause, row_of};

use opl_reader::{Line, OplBreak, OplError, OplKind, read_all};
use opl_rows::{Row, read_line};
use std::alloc::Global;

/// How many object lines a text may have.
const MOST_LINES: usize = 4_000_000;

/// Reads the bytes of a line without its line feed, and puts what it spells behind the lines. Answers how many object lines
/// there are with it.
pub(crate) fn add_line(
    alloc: Global,
    at: usize,
    rows: usize,
    line: &[u8],
    row: &mut Row,
    lines: &mut Vec<Line>,
) -> Result<usize, OplError>
    requires rows { rows ≤ 4000000 }
    requires line { has_line_feed line.now ≡ false }
    requires room { at + length line.now < 2 ^ 63 }
    ensures read { IfOk result (λ m. AreRead rows (row_of at line.now) m lines.old.items lines.new.items) }
    ensures few { IfOk result (λ m. m ≤ 4000000) }
    ensures broken { IfErr result (IsRowsCause rows (row_of at line.now)) }
    ensures front { take (length lines.old.items) lines.new.items ≡ lines.old.items }
{
    let text = without_return(line);
    if !begins_an_object(text) {
        return add_exactly(alloc, at, rows, line, lines);
    }
    match read_line(alloc, text, row)? {
        Some(object) => add_object(at, rows, line, object, lines),
        None => add_exactly(alloc, at, rows, line, lines),
    }
}

/// A line without the one carriage return at its end.
fn without_return(line: &[u8]) -> &[u8]
    ensures { result.now ≡ strip_carriage_return line.now }
{
    if line.is_empty() {
        return line;
    }
    let last = line.len() - 1;
    if line[last] == b'\r' {
        &line[..last]
    } else {
        line
    }
}

/// Whether the first byte is one with which an id may begin.
fn begins_an_object(text: &[u8]) -> bool
    ensures { OnTrue result (is_skipped text.now ≡ false) }
{
    match text {
        [b'n', ..] => true,
        [b'w', ..] => true,
        [b'r', ..] => true,
        _ => false,
    }
}

/// Puts the object line that a line spells behind the lines.
fn add_object(
    at: usize,
    rows: usize,
    line: &[u8],
    object: Line,
    lines: &mut Vec<Line>,
) -> Result<usize, OplError>
    requires rows { rows ≤ 4000000 }
    requires kept { is_skipped (strip_carriage_return line.now) ≡ false }
    requires object { line_of (strip_carriage_return line.now) ≡ Some object }
    ensures read { IfOk result (λ m. AreRead rows (row_of at line.now) m lines.old.items lines.new.items) }
    ensures few { IfOk result (λ m. m ≤ 4000000) }
    ensures broken { IfErr result (IsRowsCause rows (row_of at line.now)) }
    ensures front { take (length lines.old.items) lines.new.items ≡ lines.old.items }
{
    if rows == MOST_LINES {
        return Err(over_limit(at));
    }
    lines.push(object)?;
    Ok(rows + 1)
}

/// The same by the exact reader, which reads every line, and names the break.
fn add_exactly(
    alloc: Global,
    at: usize,
    rows: usize,
    line: &[u8],
    lines: &mut Vec<Line>,
) -> Result<usize, OplError>
    requires rows { rows ≤ 4000000 }
    requires line { has_line_feed line.now ≡ false }
    requires room { at + length line.now < 2 ^ 63 }
    ensures read { IfOk result (λ m. AreRead rows (row_of at line.now) m lines.old.items lines.new.items) }
    ensures few { IfOk result (λ m. m ≤ 4000000) }
    ensures broken { IfErr result (IsRowsCause rows (row_of at line.now)) }
    ensures front { take (length lines.old.items) lines.new.items ≡ lines.old.items }
{
    match read_all(alloc, line) {
        Ok(read) => add_read(at, rows, line, read, lines),
        Err(OplError::Broken(b)) => Err(line_break(at, rows, line, b)),
        Err(OplError::NoMemory) => Err(OplError::NoMemory),
    }
}

/// Puts what a line spells behind the lines: nothing, or the one object line that is read of it.
fn add_read(
    at: usize,
    rows: usize,
    line: &[u8],
    read: Vec<Line>,
    lines: &mut Vec<Line>,
) -> Result<usize, OplError>
    requires rows { rows ≤ 4000000 }
    requires line { has_line_feed line.now ≡ false }
    requires read { OplText line.now read.items }
    ensures read { IfOk result (λ m. AreRead rows (row_of at line.now) m lines.old.items lines.new.items) }
    ensures few { IfOk result (λ m. m ≤ 4000000) }
    ensures broken { IfErr result (IsRowsCause rows (row_of at line.now)) }
    ensures front { take (length lines.old.items) lines.new.items ≡ lines.old.items }
{
    let mut read = read;
    let Some(line) = read.pop() else {
        return Ok(rows);
    };
    if rows == MOST_LINES {
        return Err(over_limit(at));
    }
    lines.push(line)?;
    Ok(rows + 1)
}

/// The break of a line that is broken at `b`, where it begins at an offset of a stream: the 4,000,001st object line is over the
/// limit, whatever it is.
fn line_break(at: usize, rows: usize, line: &[u8], b: OplBreak) -> OplError
    requires rows { rows ≤ 4000000 }
    requires line { has_line_feed line.now ≡ false }
    requires room { at + length line.now < 2 ^ 63 }
    requires broken { text_break line.now ≡ Some b }
    ensures { IsRowsCause rows (row_of at line.now) result }
{
    if rows == MOST_LINES {
        return over_limit(at);
    }
    OplError::Broken(OplBreak {
        at: at + b.at,
        kind: b.kind,
    })
}

fn over_limit(at: usize) -> OplError
    ensures { result ≡ OplError.Broken (record { at = at; kind = OplKind.OverLimit }) }
{
    OplError::Broken(OplBreak {
        at,
        kind: OplKind::OverLimit,
    })
}
