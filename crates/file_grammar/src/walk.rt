//! The walk that finds the first break of form.

ghost use Rattle.std.specs.Prelude.{◌==◌, if◌then◌else◌, Ok, ◌≡◌, ◌<◌, ◌≤◌, length, None, Some, IfOk, IfErr, OnErr, MatchOption, MatchResult, IfSome};
ghost use Rattle.std.specs.Option.{option_or};
ghost use Rattle.obf_wire.specs.Fields.{IsWindow, behind, part_of};
ghost use Rattle.obf_wire.specs.Windows.{range_of};
ghost use Rattle.obf_wire.specs.declared.file.FileKind.TheVariants.{BadVersion};
ghost use Rattle.file_grammar.specs.Tables.{content_of, version_number};
ghost use Rattle.file_grammar.specs.Messages.{Fields};
ghost use Rattle.file_grammar.specs.Walks.{ComesNext, CountsNone, CountsOn, IsInside, IsTurn, break_from};
ghost use Rattle.file_grammar.specs.Readings.{break_in, filled, groups_at, measured, message_at, message_from, numbers_at};

use crate::parts::{Content, Group, Part, Version};
use crate::tables::{content, next_fields};
use obf_wire::{Cursor, Field, FileBreak, FileKind, Window, WireBreak, read_varint};

/// Whether the bytes of a window are a message of this form: `Err` with the first break of form exactly where they are not. It
/// takes no memory.
#[cycle(messages)]
pub fn form(part: Part, window: Window<'_>) -> Result<(), FileBreak>
    ensures { break_in result ≡ break_in (message_at part (range_of window.entry)) }
{
    let mut cursor = Cursor::new(window);
    let mut last = None;
    while let Some(field) = next_field(&mut cursor, part, last)? {
        inside(part, window.all(), &field)?;
        last = Some(field.key);
    }
    Ok(())
}

// The next field of a message, behind the last one.
#[tactic(auto, using(crate::proofs::Fuel::turn_read))]
pub(crate) fn next_field(
    cursor: &mut Cursor<'_>,
    part: Part,
    last: Option<u64>,
) -> Result<Option<Field>, FileBreak>
    ensures broken { IfErr result (λ b. break_in (message_from part last cursor.old) ≡ Some b) }
    ensures next { IfOk result (ComesNext part last cursor.old cursor.new) }
    ensures none { IfErr result (λ _. (fields : Fields) → message_from part last cursor.old ≡ Ok fields → ⊥) }
    ensures ended { IfOk result (λ found. break_in (message_from part last cursor.old) ≡ break_from part cursor.old (Ok found)) }
    ensures inside { IfOk result (λ found. IfSome found (λ f. IsInside cursor.old f × (cursor.new.place ≡ f.to))) }
    ensures same { (cursor.new.bytes ≡ cursor.old.bytes) × (cursor.new.end ≡ cursor.old.end) }
    ensures window { IsWindow cursor.new }
    ensures stays { MatchResult result (λ found. cursor.new ≡ behind cursor.old found) (λ _. cursor.new ≡ cursor.old) }
{
    match read_field(cursor, part, last) {
        Ok(found) => Ok(found),
        Err(b) => Err(FileBreak::from(b)),
    }
}

fn read_field(
    cursor: &mut Cursor<'_>,
    part: Part,
    last: Option<u64>,
) -> Result<Option<Field>, WireBreak>
    ensures turn { IsTurn part last cursor.old result }
    ensures inside { IfOk result (λ found. IfSome found (λ f. IsInside cursor.old f × (cursor.new.place ≡ f.to))) }
    ensures moved { IfOk result (λ found. cursor.new ≡ behind cursor.old found) }
    ensures same { (cursor.new.bytes ≡ cursor.old.bytes) × (cursor.new.end ≡ cursor.old.end) }
    ensures window { IsWindow cursor.new }
    ensures stays { OnErr result (cursor.new ≡ cursor.old) }
{
    let next = next_fields(part, last);
    cursor.next_field(next.keys(), next.may_end)
}

// What a field holds.
#[cycle(messages)]
fn inside(part: Part, bytes: &[u8], field: &Field) -> Result<(), FileBreak>
    requires ordered { field.now.from ≤ field.now.to }
    requires within { field.now.to ≤ length bytes.now }
    ensures { break_in result ≡ break_in (filled message_at bytes.now field.now (content_of part field.now.key)) }
{
    match content(part, field.key) {
        None => Err(FileBreak {
            at: field.at,
            kind: FileKind::BadKey,
        }),
        Some(Content::Number) => Ok(()),
        Some(Content::Version(version)) => has_version(version, field),
        Some(Content::Bytes) => Ok(()),
        Some(Content::Numbers(group)) => numbers(group, Window::new(bytes, field.from, field.to)),
        Some(Content::Message(inner)) => form(inner, Window::new(bytes, field.from, field.to)),
    }
}

// Whether the field holds the number of the version.
fn has_version(version: Version, field: &Field) -> Result<(), FileBreak>
    ensures { break_in result ≡ (if field.now.value == version_number version then None else Some (record { at = field.now.at; kind = BadVersion })) }
{
    if field.value == version.number() {
        Ok(())
    } else {
        Err(FileBreak {
            at: field.at,
            kind: FileKind::BadVersion,
        })
    }
}

// A list of numbers in whole groups.
fn numbers(group: Group, window: Window<'_>) -> Result<(), FileBreak>
    ensures { break_in result ≡ break_in (groups_at group (range_of window.entry)) }
{
    let count = count_numbers(window)?;
    if count % group.size() == 0 {
        Ok(())
    } else {
        Err(FileBreak {
            at: window.to(),
            kind: FileKind::Short,
        })
    }
}

// How many numbers stand there.
fn count_numbers(window: Window<'_>) -> Result<usize, FileBreak>
    ensures { result ≡ measured 0 (numbers_at (range_of window.entry)) }
{
    let mut at = window.from();
    let mut count = 0;
    while at < window.to() {
        at = next_number(window, at)?;
        count += 1;
    }
    Ok(count)
}

// Behind the number that stands there.
fn next_number(window: Window<'_>, at: usize) -> Result<usize, FileBreak>
    requires { at < window.to }
    ensures on { IfOk result (λ next. CountsOn (part_of window.entry.bytes.now at window.entry.to) next) }
    ensures broken { IfErr result (CountsNone (part_of window.entry.bytes.now at window.entry.to)) }
    ensures forward { IfOk result (λ next. (at < next) × (next ≤ window.entry.to)) }
{
    match read_varint(window.all(), at, window.to()) {
        Ok((_, next)) => Ok(next),
        Err(b) => Err(FileBreak::from(b)),
    }
}
