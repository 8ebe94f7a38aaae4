//! Where the entries and the blocks of lists stand.

ghost use Rattle.std.specs.Prelude.{◌≡◌, ◌≤◌, Ok, Some, length, IfOk, OnOk};
ghost use Rattle.obf_wire.specs.Windows.{range_of};
ghost use Rattle.file_grammar.specs.declared.parts.Part.TheVariants.{KeyEntry as EntryPart, Keyed as ListPart};
ghost use Rattle.file_grammar.specs.AddressRules.{KeyEntry, entry_with, keyed_list};
ghost use Rattle.file_grammar.specs.Messages.{Fields};
ghost use Rattle.file_grammar.specs.Readings.{message_at};
ghost use Rattle.addr_section.specs.Kept.{IsEntryKept, IsListKept};
ghost use Rattle.addr_section.specs.Layout.{IsEntryPut, IsFieldPut};

use crate::kept::{EntryKept, ListKept};
use crate::spans::span_of;
use boxed_exact::{next_number, next_payload};
use file_grammar::{FieldWalk, Part, Version};
use obf_wire::{Field, Window};
use owned_data::Mem;
use std::alloc::Global;

/// The key of an entry in a list.
const ENTRY: u64 = 10;

/// Where the entries and the blocks of the list in a window stand, whose form is good.
pub(crate) fn list_in(alloc: Global, version: Version, window: Window<'_>) -> Mem<ListKept>
    ensures { IfOk result (λ kept. (fields : Fields) → message_at (ListPart version) (range_of window.entry) ≡ Ok fields
        → IsListKept version window.entry.bytes.now kept (keyed_list fields)) }
{
    let entries = Vec::new(alloc);
    let blocks = Vec::new(alloc);
    let mut list = ListKept { entries, blocks };
    let mut walk = FieldWalk::new(Part::Keyed(version), window);
    while let Some(field) = walk.next() {
        put_field(window, field, &mut list)?;
    }
    Ok(list)
}

/// Adds the entry or the block that a field is.
fn put_field(window: Window<'_>, field: Field, list: &mut ListKept) -> Mem<()>
    requires ordered { field.from ≤ field.to }
    requires within { field.to ≤ length window.bytes.now }
    ensures { OnOk result (IsFieldPut window.entry.bytes.now field list.old list.new) }
{
    if field.key == ENTRY {
        put_entry(window, field, &mut list.entries)
    } else {
        list.blocks.push(span_of(field))?;
        Ok(())
    }
}

/// Adds the entry that a field is.
fn put_entry(window: Window<'_>, field: Field, entries: &mut Vec<EntryKept>) -> Mem<()>
    requires ordered { field.from ≤ field.to }
    requires within { field.to ≤ length window.bytes.now }
    ensures { OnOk result (IsEntryPut window.entry.bytes.now field entries.old.items entries.new.items) }
{
    let entry = read_entry(window.part(field.from, field.to), field.at);
    entries.push(entry)?;
    Ok(())
}

/// The entry in a window, whose form is good and whose field begins at `at`.
fn read_entry(window: Window<'_>, at: usize) -> EntryKept
    ensures { (fields : Fields) (entry : KeyEntry) → message_at EntryPart (range_of window.entry) ≡ Ok fields → entry_with at fields ≡ Some entry
        → IsEntryKept window.entry.bytes.now result entry }
{
    let mut walk = FieldWalk::new(Part::KeyEntry, window);
    let first = next_payload(&mut walk);
    let last = next_payload(&mut walk);
    let place = next_number(&mut walk);
    EntryKept {
        at,
        first,
        last,
        place,
    }
}
