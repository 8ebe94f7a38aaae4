//! Addresses, rule by rule.

ghost use Rattle.std.specs.Prelude.{◌≡◌, None, Ok, IfErr, IfOk};
ghost use Rattle.obf_wire.specs.Windows.{range_of};
ghost use Rattle.file_grammar.specs.declared.parts.Part.TheVariants.{Addresses as AddressesPart};
ghost use Rattle.file_grammar.specs.AddressRules.{addresses_of};
ghost use Rattle.file_grammar.specs.Messages.{Fields};
ghost use Rattle.file_grammar.specs.Readings.{break_in, message_at};
ghost use Rattle.boxed_exact.specs.Breaks.{Breaks};
ghost use Rattle.boxed_exact.specs.Sides.{AreRising, beside};
ghost use Rattle.addr_section.specs.Breaks.{addresses_break};
ghost use Rattle.addr_section.specs.Kept.{AreAddressesKept, AreListsKept};

use crate::kept::{AddressesKept, ListKept};
use crate::layout::list_in;
use crate::list_rules::check_list;
use boxed_exact::{Around, next_payload};
use file_grammar::{FieldWalk, FirstBreak, Part, Version, form};
use obf_wire::{FileError, Window};
use owned_data::Mem;
use std::alloc::Global;

/// Where the two lists of a section stand.
#[derive(Drop)]
pub(crate) struct Lists {
    pub(crate) names: ListKept,
    pub(crate) houses: ListKept,
}

/// Checks the addresses of a file of this version in a window, rule by rule, and says what there is of them. `Broken` with the
/// first break of form, or else with the first rule that fails, exactly where there is one, unless memory was refused before.
/// More records than have a number of 64 bits are out of memory.
#[tactic(auto, using(crate::proofs::Good::kept_good))]
pub fn check_exactly(
    alloc: Global,
    version: Version,
    window: Window<'_>,
    around: &Around<'_>,
) -> Result<AddressesKept, FileError>
    requires marks { AreRising around.now.marks }
    ensures good { IfOk result (λ _. addresses_break version (beside around.now) (range_of window.entry) ≡ None) }
    ensures kept { IfOk result (AreAddressesKept version (beside around.now) (range_of window.entry)) }
    ensures broken { IfErr result (λ error. Breaks error (addresses_break version (beside around.now) (range_of window.entry))) }
{
    form(Part::Addresses(version), window)?;
    check_rules(alloc, version, window, around)
}

/// Checks every rule of the addresses in a window, whose form is good.
fn check_rules(
    alloc: Global,
    version: Version,
    window: Window<'_>,
    around: &Around<'_>,
) -> Result<AddressesKept, FileError>
    requires marks { AreRising around.now.marks }
    requires form { None ≡ break_in (message_at (AddressesPart version) (range_of window)) }
    ensures kept { IfOk result (AreAddressesKept version (beside around.now) (range_of window.entry)) }
    ensures broken { IfErr result (λ error. Breaks error (addresses_break version (beside around.now) (range_of window.entry))) }
{
    let Lists { names, houses } = lists_in(alloc, version, window)?;
    let bytes = window.all();
    let mut first = FirstBreak::none();
    let named = check_list(alloc, false, version, bytes, &names, around, &mut first)?;
    let housed = check_list(alloc, true, version, bytes, &houses, around, &mut first)?;
    let Some(records) = named.checked_add(housed) else {
        return Err(FileError::NoMemory);
    };
    match first.found() {
        None => Ok(AddressesKept {
            names,
            houses,
            records,
        }),
        Some(found) => Err(FileError::Broken(found)),
    }
}

/// Where the two lists of the section in a window stand, whose form is good.
fn lists_in(alloc: Global, version: Version, window: Window<'_>) -> Mem<Lists>
    ensures { IfOk result (λ lists. (fields : Fields) → message_at (AddressesPart version) (range_of window.entry) ≡ Ok fields
        → AreListsKept version window.entry.bytes.now lists.names lists.houses (addresses_of fields)) }
{
    let mut walk = FieldWalk::new(Part::Addresses(version), window);
    let names = next_payload(&mut walk);
    let houses = next_payload(&mut walk);
    Ok(Lists {
        names: list_in(alloc, version, window.part(names.from, names.to))?,
        houses: list_in(alloc, version, window.part(houses.from, houses.to))?,
    })
}
