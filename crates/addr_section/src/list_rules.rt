//! What has to hold of a list: of its entries, and of the blocks that they name.

ghost use Rattle.std.specs.Prelude.{◌≡◌, ◌+◌, ◌&&◌, ◌==◌, nat_le, ℕ, List, Option, drop, flat_map, length, IfOk};
ghost use Rattle.file_grammar.specs.declared.parts.Version.{Version};
ghost use Rattle.file_grammar.specs.AddressRules.{Address, KeyEntry, KeyedBlock, KeyedList, addresses_in, entry_facts, first_at, first_of, has_key, key_facts, keyed_facts, last_of};
ghost use Rattle.file_grammar.specs.Facts.{earlier, first_failing};
ghost use Rattle.boxed_exact.specs.Sides.{AreRising, beside};
ghost use Rattle.addr_section.specs.Asked.{AreBlocksAsked, AreUnnamed, IsPairAsked, pair_facts};
ghost use Rattle.addr_section.specs.Kept.{AreBlocksKept, AreEntriesKept, IsBlockKept, IsEntryKept, IsListKept};
ghost use Rattle.addr_section.specs.Seen.{IsSortKeyOf};
ghost use Rattle.addr_section.specs.Straight.{IsBlockNamed};

use crate::address_rules::is_same_key;
use crate::addresses::SortKey;
use crate::block_rules::{BlockSeen, check_addresses};
use crate::kept::{EntryKept, ListKept};
use crate::spans::{text_at, window_at};
use boxed_exact::{Around, Payload, is_utf8};
use file_grammar::{FirstBreak, Version};
use obf_wire::FileKind;
use owned_data::{Mem, NoMemory};
use std::alloc::Global;

/// Checks every rule of a list that stands so among these bytes, of houses or else of names, and says how many addresses it has.
pub(crate) fn check_list(
    alloc: Global,
    houses: bool,
    version: Version,
    bytes: &[u8],
    list: &ListKept,
    around: &Around<'_>,
    first: &mut FirstBreak,
) -> Mem<usize>
    requires marks { AreRising around.now.marks }
    ensures { IfOk result (λ count. (it : KeyedList) → IsListKept version bytes.now list.now it
        → (first.new ≡ earlier first.old (first_failing (keyed_facts houses (beside around.now) it))) × (count ≡ length (addresses_in it.blocks))) }
{
    let entries = list.entries.as_slice();
    check_entries(bytes, entries, first);
    check_blocks(
        alloc,
        houses,
        version,
        bytes,
        entries,
        list.blocks.as_slice(),
        around,
        first,
    )
}

/// Asks whether the keys of entries are UTF-8.
pub(crate) fn check_entries(bytes: &[u8], entries: &[EntryKept], first: &mut FirstBreak)
    ensures { (its : List KeyEntry) → AreEntriesKept bytes.now entries.now its → first.new ≡ earlier first.old (first_failing (flat_map entry_facts its)) }
{
    let mut rest = entries;
    while let Some((entry, after)) = rest.split_first() {
        check_entry(bytes, entry, first);
        rest = after;
    }
}

/// Asks whether the keys of an entry are UTF-8.
fn check_entry(bytes: &[u8], entry: &EntryKept, first: &mut FirstBreak)
    ensures { (it : KeyEntry) → IsEntryKept bytes.now entry.now it → first.new ≡ earlier first.old (first_failing (entry_facts it)) }
{
    first.ask(
        entry.first.at,
        FileKind::BadText,
        is_utf8(text_at(bytes, entry.first)),
    );
    first.ask(
        entry.last.at,
        FileKind::BadText,
        is_utf8(text_at(bytes, entry.last)),
    );
}

/// Checks every rule of blocks beside their entries, and counts their addresses. More than have a number of 64 bits are out of
/// memory.
fn check_blocks(
    alloc: Global,
    houses: bool,
    version: Version,
    bytes: &[u8],
    entries: &[EntryKept],
    blocks: &[Payload],
    around: &Around<'_>,
    first: &mut FirstBreak,
) -> Mem<usize>
    requires marks { AreRising around.now.marks }
    ensures { IfOk result (λ count. (keys : List KeyEntry) (its : List KeyedBlock) → AreEntriesKept bytes.now entries.now keys → AreBlocksKept version bytes.now blocks.now its
        → AreBlocksAsked houses (beside around.now) keys its first.old first.new count) }
{
    let start = first_at(blocks);
    let mut named = entries;
    let mut rest = blocks;
    let mut before = None;
    let mut count: usize = 0;
    while let Some((span, after)) = rest.split_first() {
        let seen = check_block(
            alloc, houses, version, bytes, start, named, *span, before, around, first,
        )?;
        let Some(sum) = count.checked_add(seen.count) else {
            return Err(NoMemory);
        };
        count = sum;
        before = seen.last.or(before);
        named = behind(named);
        rest = after;
    }
    ask_unnamed(named, first);
    Ok(count)
}

/// Where the first block stands.
fn first_at(blocks: &[Payload]) -> usize
    ensures { (version : Version) (bytes : List ℕ) (its : List KeyedBlock) → AreBlocksKept version bytes blocks.now its → result ≡ first_at its }
{
    match blocks {
        [] => 0,
        [span, ..] => span.at,
    }
}

/// The entries after the first one.
pub(crate) fn behind(entries: &[EntryKept]) -> &[EntryKept]
    ensures { result.now ≡ drop 1 entries.now }
{
    match entries {
        [] => entries,
        [_, after @ ..] => after,
    }
}

/// Asks of each of these entries where its block is; it has none.
pub(crate) fn ask_unnamed(entries: &[EntryKept], first: &mut FirstBreak)
    ensures { (its : List KeyEntry) (bytes : List ℕ) → AreEntriesKept bytes entries.now its → AreUnnamed its first.old first.new }
{
    let mut rest = entries;
    while let Some((entry, after)) = rest.split_first() {
        first.ask(entry.place.at, FileKind::BadPlace, false);
        rest = after;
    }
}

/// Checks every rule of a block, where the first one stands at `start`, beside the first of the entries that are left.
fn check_block<'a>(
    alloc: Global,
    houses: bool,
    version: Version,
    bytes: &'a [u8],
    start: usize,
    entries: &[EntryKept],
    span: Payload,
    before: Option<SortKey<'a>>,
    around: &Around<'_>,
    first: &mut FirstBreak,
) -> Mem<BlockSeen<'a>>
    requires marks { AreRising around.now.marks }
    ensures { IfOk result (λ seen. (keys : List KeyEntry) (it : KeyedBlock) (prev : Option Address) → AreEntriesKept bytes.now entries.now keys → IsBlockKept version bytes.now span it → IsSortKeyOf before.entry prev
        → IsPairAsked houses (beside around.now) start keys prev it first.old first.new seen) }
{
    let window = window_at(bytes, span);
    let seen = check_addresses(alloc, houses, version, window, before, around, first)?;
    ask_block(bytes, start, entries, span.at, &seen, first);
    Ok(seen)
}

/// Asks whether the block at an offset has 1 to 64 addresses, and is that of the first of the entries that are left.
pub(crate) fn ask_block(
    bytes: &[u8],
    start: usize,
    entries: &[EntryKept],
    at: usize,
    seen: &BlockSeen<'_>,
    first: &mut FirstBreak,
)
    ensures { (keys : List KeyEntry) (it : KeyedBlock) → AreEntriesKept bytes.now entries.now keys → it.at ≡ at → seen.now.count ≡ length it.addresses → IsSortKeyOf seen.now.first (first_of it.addresses) → IsSortKeyOf seen.now.last (last_of it.addresses)
        → IsBlockNamed start keys it first.old first.new }
{
    first.ask(at, FileKind::BadCount, is_count(seen.count));
    ask_pair(bytes, start, entries, at, seen, first);
}

/// Asks whether the first of the entries that are left is that of the block at an offset; none is where none is left.
fn ask_pair(
    bytes: &[u8],
    start: usize,
    entries: &[EntryKept],
    at: usize,
    seen: &BlockSeen<'_>,
    first: &mut FirstBreak,
)
    ensures { (keys : List KeyEntry) (it : KeyedBlock) → AreEntriesKept bytes.now entries.now keys → it.at ≡ at → IsSortKeyOf seen.now.first (first_of it.addresses) → IsSortKeyOf seen.now.last (last_of it.addresses)
        → first.new ≡ earlier first.old (first_failing (pair_facts start keys it)) }
{
    match entries.split_first() {
        None => first.ask(at, FileKind::BadPlace, false),
        Some((entry, _)) => ask_named(bytes, start, entry, at, seen, first),
    }
}

/// Whether a block may have so many addresses.
fn is_count(count: usize) -> bool
    ensures { result ≡ (nat_le 1 count && nat_le count 64) }
{
    1 <= count && count <= 64
}

/// Asks whether an entry names the block at an offset, where the first one stands at `start`, and has its first and last key.
fn ask_named(
    bytes: &[u8],
    start: usize,
    entry: &EntryKept,
    at: usize,
    seen: &BlockSeen<'_>,
    first: &mut FirstBreak,
)
    ensures { (key : KeyEntry) (it : KeyedBlock) → IsEntryKept bytes.now entry.now key → it.at ≡ at → IsSortKeyOf seen.now.first (first_of it.addresses) → IsSortKeyOf seen.now.last (last_of it.addresses)
        → first.new ≡ earlier first.old (first_failing (key_facts start key it)) }
{
    let named = is_named(start, entry.place.value, at);
    let keyed = has_keys(
        text_at(bytes, entry.first),
        text_at(bytes, entry.last),
        seen,
    );
    first.ask(entry.place.at, FileKind::BadPlace, named);
    first.ask(entry.at, FileKind::BadOrder, keyed);
}

/// Whether the offset after the first block is that of a block.
fn is_named(start: usize, place: u64, at: usize) -> bool
    ensures { result ≡ (start + place == at) }
{
    start as u128 + u128::from(place) == at as u128
}

/// Whether these are the first and the last key of a block.
fn has_keys(first: &[u8], last: &[u8], seen: &BlockSeen<'_>) -> bool
    ensures { (it : KeyedBlock) → IsSortKeyOf seen.now.first (first_of it.addresses) → IsSortKeyOf seen.now.last (last_of it.addresses)
        → result ≡ (has_key first.now (first_of it.addresses) && has_key last.now (last_of it.addresses)) }
{
    has_key(first, seen.first) && has_key(last, seen.last)
}

/// Whether a key is that of an address, where there is one.
fn has_key(text: &[u8], key: Option<SortKey<'_>>) -> bool
    ensures { (a : Option Address) → IsSortKeyOf key.entry a → result ≡ has_key text.now a }
{
    match key {
        None => true,
        Some(key) => is_same_key(text, key.key),
    }
}
