//! Addresses in one pass: the form is read in a straight line, and each rule is asked on the way by the calls of the exact way.

ghost use Rattle.std.specs.Prelude.{◌≡◌, ◌≤◌, ◌+◌, [], List, None, Option, length, IfOk, IfSome};
ghost use Rattle.obf_wire.specs.Fields.{part_of};
ghost use Rattle.obf_wire.specs.Windows.{range_of};
ghost use Rattle.file_grammar.specs.AddressRules.{Address, KeyEntry};
ghost use Rattle.boxed_exact.specs.Sides.{AreRising, beside};
ghost use Rattle.addr_section.specs.Kept.{AreAddressesKept, AreEntriesKept};
ghost use Rattle.addr_section.specs.Seen.{IsSortKeyOf};
ghost use Rattle.addr_section.specs.Straight.{AreBlocksRead, AreEntriesRead, IsBlockRead, IsListRead};

use crate::address_rules::check_address;
use crate::addresses::SortKey;
use crate::block_rules::{BlockSeen, with_address};
use crate::kept::{AddressesKept, EntryKept, ListKept};
use crate::list_rules::{ask_block, ask_unnamed, behind, check_entries};
use crate::spans::span_of;
use crate::straight::{see_address, see_entry};
use boxed_exact::{Around, Payload};
use file_grammar::{FirstBreak, Version};
use obf_wire::{Window, expected, expected_wide};
use owned_data::{Mem, NoMemory};
use std::alloc::Global;

/// The keys of the list of names and of that of houses.
const NAMES: u8 = 14;

const HOUSES: u8 = 22;

/// The keys of an entry and of a block.
const ENTRY: u8 = 10;

const BLOCK: u8 = 22;

/// The key of an address.
const ADDRESS: u8 = 10;

/// A list that was seen, and how many addresses it has.
#[derive(Drop)]
pub(crate) struct ListSeen {
    pub(crate) list: ListKept,
    pub(crate) count: usize,
}

/// Reads the addresses of a file of this version in a window in one pass. `Some` only where their form is good and all that has
/// to hold of them holds. `None` says nothing.
pub fn see(
    alloc: Global,
    version: Version,
    window: Window<'_>,
    around: &Around<'_>,
) -> Mem<Option<AddressesKept>>
    requires marks { AreRising around.now.marks }
    ensures { IfOk result (λ found. IfSome found (AreAddressesKept version (beside around.now) (range_of window.entry))) }
{
    let Some(names) = expected_wide(window, window.from(), NAMES) else {
        return Ok(None);
    };
    let Some(houses) = expected_wide(window, names.to, HOUSES) else {
        return Ok(None);
    };
    if houses.to != window.to() {
        return Ok(None);
    }
    let mut first = FirstBreak::none();
    let part = window.part(names.from, names.to);
    let found = see_list(alloc, false, version, part, around, &mut first)?;
    let Some(named) = found else {
        return Ok(None);
    };
    let part = window.part(houses.from, houses.to);
    let found = see_list(alloc, true, version, part, around, &mut first)?;
    let Some(housed) = found else {
        return Ok(None);
    };
    let Some(records) = named.count.checked_add(housed.count) else {
        return Ok(None);
    };
    match first.found() {
        None => Ok(Some(AddressesKept {
            names: named.list,
            houses: housed.list,
            records,
        })),
        Some(_) => Ok(None),
    }
}

/// Reads the list in a window, and asks every rule of it. `Some` only where its form is good.
fn see_list(
    alloc: Global,
    houses: bool,
    version: Version,
    window: Window<'_>,
    around: &Around<'_>,
    first: &mut FirstBreak,
) -> Mem<Option<ListSeen>>
    requires marks { AreRising around.now.marks }
    ensures { IfOk result (λ found. IfSome found (λ seen. IsListRead houses (beside around.now) version (range_of window.entry) first.old first.new seen.list seen.count)) }
{
    let mut entries = Vec::new(alloc);
    let from = see_entries(version, window, &mut entries)?;
    check_entries(window.all(), entries.as_slice(), first);
    let mut blocks = Vec::new(alloc);
    let found = see_blocks(
        alloc,
        houses,
        version,
        window,
        from,
        entries.as_slice(),
        around,
        &mut blocks,
        first,
    )?;
    let Some(count) = found else {
        return Ok(None);
    };
    let list = ListKept { entries, blocks };
    Ok(Some(ListSeen { list, count }))
}

/// Adds the entries at the beginning of the list in a window, and says where they end.
fn see_entries(version: Version, window: Window<'_>, entries: &mut Vec<EntryKept>) -> Mem<usize>
    ensures read { IfOk result (AreEntriesRead version (range_of window.entry) entries.old.items entries.new.items) }
    ensures inside { IfOk result (λ at. at ≤ window.entry.to) }
{
    let mut at = window.from();
    while at < window.to() {
        let Some(field) = expected(window, at, ENTRY) else {
            return Ok(at);
        };
        let Some(entry) = see_entry(window.part(field.from, field.to), field.at) else {
            return Ok(at);
        };
        entries.push(entry)?;
        at = field.to;
    }
    Ok(at)
}

/// Reads the blocks from `from` on in a window, asks every rule of them beside these entries, adds where they stand, and says how
/// many addresses they have. `Some` only where their form is good.
fn see_blocks(
    alloc: Global,
    houses: bool,
    version: Version,
    window: Window<'_>,
    from: usize,
    entries: &[EntryKept],
    around: &Around<'_>,
    blocks: &mut Vec<Payload>,
    first: &mut FirstBreak,
) -> Mem<Option<usize>>
    requires inside { from ≤ window.to }
    requires marks { AreRising around.now.marks }
    ensures { IfOk result (λ found. IfSome found (λ count. (keys : List KeyEntry) → AreEntriesKept window.entry.bytes.now entries.now keys
        → AreBlocksRead houses (beside around.now) version (part_of window.entry.bytes.now from window.entry.to) keys first.old first.new blocks.old.items blocks.new.items count)) }
{
    let mut at = from;
    let mut named = entries;
    let mut before = None;
    let mut count: usize = 0;
    while at < window.to() {
        let Some(field) = expected_wide(window, at, BLOCK) else {
            return Ok(None);
        };
        let part = window.part(field.from, field.to);
        let found = see_addresses(alloc, houses, version, part, before, around, first)?;
        let Some(seen) = found else {
            return Ok(None);
        };
        let Some(sum) = count.checked_add(seen.count) else {
            return Ok(None);
        };
        ask_block(window.all(), from, named, field.at, &seen, first);
        blocks.push(span_of(field))?;
        count = sum;
        before = seen.last.or(before);
        named = behind(named);
        at = field.to;
    }
    ask_unnamed(named, first);
    Ok(Some(count))
}

/// Reads the addresses of the block in a window, after the blocks before it, and asks every rule of them. `Some` only where its
/// form is good.
fn see_addresses<'a>(
    alloc: Global,
    houses: bool,
    version: Version,
    window: Window<'a>,
    before: Option<SortKey<'a>>,
    around: &Around<'_>,
    first: &mut FirstBreak,
) -> Mem<Option<BlockSeen<'a>>>
    requires marks { AreRising around.now.marks }
    ensures { IfOk result (λ found. IfSome found (λ seen. (prev : Option Address) → IsSortKeyOf before.entry prev
        → IsBlockRead houses (beside around.now) version (range_of window.entry) prev first.old first.new seen)) }
{
    let mut seen = BlockSeen {
        count: 0,
        first: None,
        last: None,
    };
    let mut at = window.from();
    while at < window.to() {
        let Some(field) = expected(window, at, ADDRESS) else {
            return Ok(None);
        };
        let Some(one) = see_address(version, window.part(field.from, field.to), field.at) else {
            return Ok(None);
        };
        let last = seen.last.or(before);
        check_address(alloc, houses, &one, last, around, first)?;
        seen = with_address(seen, one.sort_key());
        at = field.to;
    }
    Ok(Some(seen))
}
