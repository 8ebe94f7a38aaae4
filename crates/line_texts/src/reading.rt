//! A text, line by line.

ghost use Rattle.std.specs.Prelude.{◌≡◌, ◌==◌, ◌<◌, ◌≤◌, ◌+◌, ◌^◌, ◌++◌, ◌∷◌, [], Some, length, vec_len, IfErr, IfOk, OnOk};
ghost use Rattle.std.specs.List.{AllByRecursion};
ghost use Rattle.live_model.specs.ObjectLines.{first_of};
ghost use Rattle.live_model.specs.OplTexts.{is_skipped};
ghost use Rattle.line_texts.specs.Forms.{IsText};
ghost use Rattle.line_texts.specs.Readings.{IsCause, IsCauseAt, IsRead};

use crate::errors::{LineError, broken};
use crate::form::LineForm;
use std::alloc::Global;
use text_pieces::{TextLine, all_blank, next_line};

/// The items that the lines of a text spell, in order; a line of blanks, and one that begins with `#`, is skipped. `Broken` with the
/// first break of the text exactly where it has one, unless memory was refused before.
pub fn read_lines<F: LineForm>(
    alloc: Global,
    bytes: &[u8],
) -> Result<Vec<F::Item>, LineError<F::Kind>>
    ensures items { IfOk result (λ items. IsText F.form bytes.now items.items) }
    ensures good { IfOk result (λ items. AllByRecursion F.is_good items.items) }
    ensures broken { IfErr result (IsCause F.form bytes.now) }
{
    let mut items = Vec::new(alloc);
    let mut at = 0;
    let mut rest = bytes;
    while let Some(row) = next_line(at, rest) {
        if !is_skipped(row.bytes) {
            add_row::<F>(alloc, &mut items, &row)?;
        }
        at = row.next;
        rest = row.rest;
    }
    Ok(items)
}

/// Reads a line that counts and puts its item after those before it.
fn add_row<F: LineForm>(
    alloc: Global,
    items: &mut Vec<F::Item>,
    row: &TextLine<'_>,
) -> Result<(), LineError<F::Kind>>
    requires row { row.now.at + length row.now.bytes.now < 2 ^ 63 }
    requires items { vec_len items.old ≤ F.form.most }
    ensures item { OnOk result ((item : F.Item) × (IsRead F.form F.is_good row.now.bytes.now item) × (items.new.items ≡ items.old.items ++ item ∷ [])) }
    ensures within { OnOk result (vec_len items.old < F.form.most) }
    ensures broken { IfErr result (IsCauseAt F.form (vec_len items.old) row.now.at row.now.bytes.now) }
{
    if items.len() == F::most() {
        return Err(broken(row.at, F::over()));
    }
    match F::read_line(alloc, row.bytes) {
        Ok(item) => {
            items.push(item)?;
            Ok(())
        }
        Err(LineError::Broken(b)) => Err(broken(row.at + b.at, b.kind)),
        Err(LineError::NoMemory) => Err(LineError::NoMemory),
    }
}

/// A line of blanks, or one that begins with `#`.
fn is_skipped(line: &[u8]) -> bool
    ensures { result ≡ is_skipped line.now }
{
    all_blank(line) || begins_with_hash(line)
}

fn begins_with_hash(line: &[u8]) -> bool
    ensures { result ≡ (first_of line.now == 35) }
{
    match line {
        [first, ..] => *first == b'#',
        [] => false,
    }
}
