//! The section of addresses, written.

ghost use Rattle.std.specs.Prelude.{◌≡◌, ◌*◌, ◌^◌, ◌<◌, ◌++◌, flat_map, length, IfOk, OnErr, OnOk};
ghost use Rattle.std.specs.List.{AllByRecursion};
ghost use Rattle.live_model.specs.Fits.{FitsAddress};
ghost use Rattle.obf_wire.specs.Fields.{section, short_field};
ghost use Rattle.boxed_write.specs.Classes.{held};
ghost use Rattle.boxed_write.specs.Packed.{cut, cuts};
ghost use Rattle.addr_section.specs.Keyed.{IsKeyed, addresses_of};
ghost use Rattle.file_grammar.specs.AddressRules.{first_of, last_of};
ghost use Rattle.addr_section.specs.Packed.{address_bytes, block, entries_from, entry, key_or_empty, keyed_blocks, packed_addresses};

use crate::order::{Keyed, ordered, rank};
use boxed_write::put_point_list;
use live_model::AddrRec;
use obf_wire::Out;
use owned_data::{Mem, NoMemory};
use std::alloc::Global;

/// How many addresses a block holds at most.
const MOST: usize = 64;

/// The numbers of the fields of a section.
const NAMES: u64 = 1;

const HOUSES: u64 = 2;

/// The numbers of the fields of a list.
const ENTRY: u64 = 1;

const BLOCK: u64 = 2;

/// The numbers of the fields of an entry.
const FIRST: u64 = 1;

const LAST: u64 = 2;

const PLACE: u64 = 3;

/// The number of the field that an address of a block is.
const ADDRESS: u64 = 1;

/// The numbers of the fields of an address.
const ORDINAL: u64 = 1;

const KIND: u64 = 2;

const KEY: u64 = 3;

const NAME: u64 = 4;

const NUMBER: u64 = 5;

const POINTS: u64 = 6;

const LANG: u64 = 7;

/// Appends the bytes of the section of these addresses, in whichever order they are given; equal ones may be among them.
/// After out of memory `out` is as it was. It takes n log n time; the key of each name is made once.
pub fn write(alloc: Global, records: &[&AddrRec], out: &mut Vec<u8>) -> Mem<()>
    requires { AllByRecursion FitsAddress (held records.now) }
    ensures ok { OnOk result (out.new.items ≡ out.old.items ++ packed_addresses (held records.now)) }
    ensures err { OnErr result (out.new.items ≡ out.old.items) }
{
    let bytes = section_of(alloc, records)?;
    match out.extend_from_slice(&bytes) {
        Ok(()) => Ok(()),
        Err(_) => Err(NoMemory),
    }
}

/// The bytes of the section.
fn section_of(alloc: Global, records: &[&AddrRec]) -> Mem<Vec<u8>>
    requires { AllByRecursion FitsAddress (held records.now) }
    ensures { IfOk result (λ bytes. bytes.items ≡ packed_addresses (held records.now)) }
{
    let mut out = Out::new(alloc);
    put_list(alloc, NAMES, &ordered(alloc, false, records)?, &mut out)?;
    put_list(alloc, HOUSES, &ordered(alloc, true, records)?, &mut out)?;
    Ok(out.finish())
}

/// Appends the field of a list: its entries, then its blocks. After out of memory a part of it may have been appended.
fn put_list(alloc: Global, number: u64, keyed: &[Keyed<'_>], out: &mut Out) -> Mem<()>
    requires number { number < 2 ^ 29 }
    requires keys { AllByRecursion IsKeyed keyed.now }
    ensures { OnOk result (out.new ≡ out.old ++ section number (keyed_blocks (cuts 64 (addresses_of keyed.now)))) }
{
    let mut blocks = Out::new(alloc);
    let start = out.begin_section(number)?;
    put_blocks(keyed, out, &mut blocks)?;
    out.put_bytes(blocks.as_slice())?;
    out.end_section(start);
    Ok(())
}

/// Appends an entry for each block, and the blocks.
fn put_blocks(keyed: &[Keyed<'_>], entries: &mut Out, blocks: &mut Out) -> Mem<()>
    requires keys { AllByRecursion IsKeyed keyed.now }
    ensures entries { OnOk result (entries.new ≡ entries.old ++ entries_from (length blocks.old) (cuts 64 (addresses_of keyed.now))) }
    ensures blocks { OnOk result (blocks.new ≡ blocks.old ++ flat_map block (cuts 64 (addresses_of keyed.now))) }
{
    let count = keyed.len().div_ceil(MOST);
    for index in 0..count {
        let cut = block_at(keyed, index);
        put_entry(cut, blocks.len() as u64, entries)?;
        put_block(cut, blocks)?;
    }
    Ok(())
}

/// Appends the entry of a block at an offset.
fn put_entry(keyed: &[Keyed<'_>], offset: u64, out: &mut Out) -> Mem<()>
    requires keys { AllByRecursion IsKeyed keyed.now }
    ensures { OnOk result (out.new ≡ out.old ++ entry offset (addresses_of keyed.now)) }
{
    let start = out.begin_short(ENTRY)?;
    out.put_short(FIRST, first_key(keyed))?;
    out.put_short(LAST, last_key(keyed))?;
    out.put_number(PLACE, offset)?;
    out.end_short(start)
}

/// The key of the first address; of none, the empty one.
fn first_key<'b>(keyed: &'b [Keyed<'_>]) -> &'b [u8]
    requires { AllByRecursion IsKeyed keyed.now }
    ensures { result.now ≡ key_or_empty (first_of (addresses_of keyed.now)) }
{
    match keyed {
        [first, ..] => first.key.as_bytes(),
        [] => &[],
    }
}

/// The key of the last address; of none, the empty one.
fn last_key<'b>(keyed: &'b [Keyed<'_>]) -> &'b [u8]
    requires { AllByRecursion IsKeyed keyed.now }
    ensures { result.now ≡ key_or_empty (last_of (addresses_of keyed.now)) }
{
    match keyed {
        [.., last] => last.key.as_bytes(),
        [] => &[],
    }
}

/// Appends a whole block of these addresses.
fn put_block(keyed: &[Keyed<'_>], out: &mut Out) -> Mem<()>
    requires keys { AllByRecursion IsKeyed keyed.now }
    ensures { OnOk result (out.new ≡ out.old ++ block (addresses_of keyed.now)) }
{
    let start = out.begin_section(BLOCK)?;
    put_addresses(keyed, out)?;
    out.end_section(start);
    Ok(())
}

/// Appends the addresses of a block.
fn put_addresses(keyed: &[Keyed<'_>], out: &mut Out) -> Mem<()>
    requires keys { AllByRecursion IsKeyed keyed.now }
    ensures { OnOk result (out.new ≡ out.old ++ flat_map (λ a. short_field 1 (address_bytes a)) (addresses_of keyed.now)) }
{
    let mut rest = keyed;
    while let [one, after @ ..] = rest {
        put_address(one, out)?;
        rest = after;
    }
    Ok(())
}

/// Appends an address.
fn put_address(keyed: &Keyed<'_>, out: &mut Out) -> Mem<()>
    requires key { IsKeyed keyed.now }
    ensures { OnOk result (out.new ≡ out.old ++ short_field 1 (address_bytes keyed.now.address.now)) }
{
    let start = out.begin_short(ADDRESS)?;
    put_fields(keyed, out)?;
    out.end_short(start)
}

/// Appends the fields of an address.
fn put_fields(keyed: &Keyed<'_>, out: &mut Out) -> Mem<()>
    requires key { IsKeyed keyed.now }
    ensures { OnOk result (out.new ≡ out.old ++ address_bytes keyed.now.address.now) }
{
    let address = keyed.address;
    out.put_number(ORDINAL, address.id.ordinal())?;
    out.put_number(KIND, rank(address.kind))?;
    out.put_short(KEY, keyed.key.as_bytes())?;
    out.put_short(NAME, address.name.as_bytes())?;
    out.put_short(NUMBER, address.number.as_bytes())?;
    put_point_list(POINTS, &[address.point], out)?;
    out.put_short(LANG, address.lang.as_bytes())
}

/// The addresses of the block of an index.
fn block_at<'a, 'b>(keyed: &'b [Keyed<'a>], index: usize) -> &'b [Keyed<'a>]
    requires { 64 * index < length keyed.now }
    ensures { result.now ≡ cut 64 keyed.now index }
{
    let rest = &keyed[MOST * index..];
    if rest.len() < MOST {
        rest
    } else {
        &rest[..MOST]
    }
}
