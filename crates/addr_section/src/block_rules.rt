//! What has to hold of the addresses of a block.

ghost use Rattle.std.specs.Prelude.{◌≡◌, ◌<◌, ◌+◌, List, Option, Ok, Some, IfOk};
ghost use Rattle.std.specs.Option.{option_or};
ghost use Rattle.obf_wire.specs.Windows.{range_of};
ghost use Rattle.file_grammar.specs.declared.parts.Part.TheVariants.{Address as AddressPart, KeyedBlock as BlockPart};
ghost use Rattle.file_grammar.specs.AddressRules.{Address};
ghost use Rattle.file_grammar.specs.Messages.{Fields};
ghost use Rattle.file_grammar.specs.Readings.{message_at};
ghost use Rattle.boxed_exact.specs.Sides.{AreRising, beside};
ghost use Rattle.addr_section.specs.Asked.{IsAddressAsked, IsBlockAsked};
ghost use Rattle.addr_section.specs.Kept.{addresses_within};
ghost use Rattle.addr_section.specs.Seen.{IsSortKeyOf};

use crate::address_rules::check_address;
use crate::addresses::{SortKey, read_address};
use boxed_exact::Around;
use file_grammar::{FieldWalk, FirstBreak, Part, Version};
use obf_wire::Window;
use owned_data::Mem;
use std::alloc::Global;

/// What was seen of a block: how many addresses it has, and what the order goes by of the first and the last of them.
#[derive(Clone, Copy)]
pub(crate) struct BlockSeen<'a> {
    pub(crate) count: usize,
    pub(crate) first: Option<SortKey<'a>>,
    pub(crate) last: Option<SortKey<'a>>,
}

/// Checks every rule of the addresses of the block in a window, whose form is good, after the blocks before it.
pub(crate) fn check_addresses<'a>(
    alloc: Global,
    houses: bool,
    version: Version,
    window: Window<'a>,
    before: Option<SortKey<'a>>,
    around: &Around<'_>,
    first: &mut FirstBreak,
) -> Mem<BlockSeen<'a>>
    requires marks { AreRising around.now.marks }
    ensures { IfOk result (λ seen. (fields : Fields) (prev : Option Address) → message_at (BlockPart version) (range_of window.entry) ≡ Ok fields → IsSortKeyOf before.entry prev
        → IsBlockAsked houses (beside around.now) prev (addresses_within fields) first.old first.new seen) }
{
    let mut walk = FieldWalk::new(Part::KeyedBlock(version), window);
    let mut seen = BlockSeen {
        count: 0,
        first: None,
        last: None,
    };
    while let Some(field) = walk.next() {
        let part = window.part(field.from, field.to);
        let last = seen.last.or(before);
        let key = ask_address(alloc, houses, version, part, field.at, last, around, first)?;
        seen = with_address(seen, key);
    }
    Ok(seen)
}

/// Checks every rule of the address in a window, whose form is good and whose field begins at `at`, after another one, and says
/// what the order goes by of it.
fn ask_address<'a>(
    alloc: Global,
    houses: bool,
    version: Version,
    window: Window<'a>,
    at: usize,
    before: Option<SortKey<'a>>,
    around: &Around<'_>,
    first: &mut FirstBreak,
) -> Mem<SortKey<'a>>
    requires marks { AreRising around.now.marks }
    ensures { IfOk result (λ key. (fields : Fields) (prev : Option Address) → message_at (AddressPart version) (range_of window.entry) ≡ Ok fields → IsSortKeyOf before.entry prev
        → IsAddressAsked houses (beside around.now) prev at fields first.old first.new key) }
{
    let seen = read_address(version, window, at);
    check_address(alloc, houses, &seen, before, around, first)?;
    Ok(seen.sort_key())
}

/// What was seen, with one address more.
pub(crate) fn with_address<'a>(seen: BlockSeen<'a>, key: SortKey<'a>) -> BlockSeen<'a>
    requires { seen.count < 18446744073709551615 }
    ensures { result ≡ record { count = seen.entry.count + 1; first = option_or seen.entry.first (Some key.entry); last = Some key.entry } }
{
    BlockSeen {
        count: seen.count + 1,
        first: seen.first.or(Some(key)),
        last: Some(key),
    }
}
