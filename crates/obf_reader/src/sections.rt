//! The sections of records, checked.

ghost use Rattle.std.specs.Prelude.{◌≡◌, ◌≤◌, ◌+◌, None, Some, length, IfErr, IfOk, IfSome};
ghost use Rattle.file_grammar.specs.declared.parts.Boxed.TheVariants.{Map};
ghost use Rattle.file_grammar.specs.Facts.{earlier};
ghost use Rattle.file_grammar.specs.Files.{version_of};
ghost use Rattle.file_grammar.specs.MapRules.{map_boxing};
ghost use Rattle.obf_wire.specs.Windows.{range_of};
ghost use Rattle.boxed_exact.specs.Breaks.{section_break};
ghost use Rattle.boxed_exact.specs.Sides.{AreRising, beside};
ghost use Rattle.boxed_check.specs.Keeping.{IsKept};
ghost use Rattle.addr_section.specs.Breaks.{addresses_break};
ghost use Rattle.addr_section.specs.Kept.{AreAddressesKept};
ghost use Rattle.poi_section.specs.Groups.{ArePoisKept, pois_break};
ghost use Rattle.road_section.specs.Routing.{IsRoutingKept, routing_break};
ghost use Rattle.obf_reader.specs.Kept.{AreKept, HasSum, IsFound, TellsNone, sections_break};
ghost use Rattle.obf_reader.specs.Spread.{AreInBytes, IsInBytes, window_of};

use crate::spans::Sections;
use addr_section::AddressesKept;
use boxed_check::{Kept, see_section};
use boxed_exact::{Around, Payload};
use file_grammar::{FirstBreak, Version};
use map_section::MapClass;
use obf_wire::{FileBreak, FileError, Window};
use owned_data::{Mem, NoMemory};
use poi_section::{PoisKept, see_groups};
use road_section::Kept as RoutingKept;
use std::alloc::Global;

/// What there is of the sections of records, of which every rule holds, and how many records they have in all.
#[derive(Debug, Drop)]
pub struct KeptSections {
    pub(crate) map: Kept,
    pub(crate) addresses: AddressesKept,
    pub(crate) pois: PoisKept,
    pub(crate) roads: RoutingKept,
    pub(crate) records: usize,
}

impl KeptSections {
    /// What there is of each section. More records than have a number of 64 bits are out of memory.
    fn of(
        map: Kept,
        addresses: AddressesKept,
        pois: PoisKept,
        roads: RoutingKept,
    ) -> Mem<KeptSections>
        ensures parts { IfOk result (λ kept. (kept.map ≡ map) × (kept.addresses ≡ addresses) × (kept.pois ≡ pois) × (kept.roads ≡ roads)) }
        ensures records { IfOk result HasSum }
    {
        let routing = sum_of(roads.roads.records(), roads.bans.records())?;
        let named = sum_of(addresses.records(), pois.records())?;
        let drawn = sum_of(map.records(), named)?;
        Ok(KeptSections {
            records: sum_of(drawn, routing)?,
            map,
            addresses,
            pois,
            roads,
        })
    }
}

/// The sum of two counts, which are out of memory where it has no 64 bits.
fn sum_of(a: usize, b: usize) -> Mem<usize>
    ensures { IfOk result (λ sum. sum ≡ a + b) }
{
    match a.checked_add(b) {
        Some(sum) => Ok(sum),
        None => Err(NoMemory),
    }
}

/// The bytes of a section.
fn window_at(bytes: &[u8], section: Payload) -> Window<'_>
    requires { IsInBytes bytes.now section }
    ensures { range_of result ≡ window_of bytes.now section }
{
    Window::new(bytes, section.from, section.to)
}

/// The sections in one pass: `Some` only where they are of good form and every rule holds of them. `None` says nothing.
pub(crate) fn see_sections(
    alloc: Global,
    bytes: &[u8],
    sections: &Sections,
    around: &Around<'_>,
) -> Mem<Option<KeptSections>>
    requires inside { AreInBytes bytes.now sections.now }
    requires marks { AreRising around.now.marks }
    ensures { IfOk result (λ found. IfSome found (AreKept (beside around.now) bytes.now sections.now)) }
{
    let found = see_section::<MapClass>(alloc, window_at(bytes, sections.map), around)?;
    let Some(map) = found else {
        return Ok(None);
    };
    let version = Version::of(bytes);
    let found = addr_section::see(alloc, version, window_at(bytes, sections.addresses), around)?;
    let Some(addresses) = found else {
        return Ok(None);
    };
    let found = see_groups(alloc, window_at(bytes, sections.pois), around)?;
    let Some(pois) = found else {
        return Ok(None);
    };
    let found = road_section::see(alloc, window_at(bytes, sections.roads), around)?;
    let Some(roads) = found else {
        return Ok(None);
    };
    let kept = KeptSections::of(map, addresses, pois, roads)?;
    Ok(Some(kept))
}

/// Checks the sections one after another, and says what there is of them. `Broken` only where one breaks.
pub(crate) fn check_sections(
    alloc: Global,
    bytes: &[u8],
    sections: &Sections,
    around: &Around<'_>,
) -> Result<KeptSections, FileError>
    requires inside { AreInBytes bytes.now sections.now }
    requires marks { AreRising around.now.marks }
    ensures kept { IfOk result (AreKept (beside around.now) bytes.now sections.now) }
    ensures broken { IfErr result (λ error. sections_break (beside around.now) bytes.now sections.now ≡ None → TellsNone error) }
{
    let map = check_map(alloc, bytes, sections, around)?;
    let addresses = check_addresses(alloc, bytes, sections, around)?;
    let pois = check_pois(alloc, bytes, sections, around)?;
    let roads = check_roads(alloc, bytes, sections, around)?;
    let kept = KeptSections::of(map, addresses, pois, roads)?;
    Ok(kept)
}

/// Checks the section of map records, and says what there is of it. `Broken` only where it breaks.
fn check_map(
    alloc: Global,
    bytes: &[u8],
    sections: &Sections,
    around: &Around<'_>,
) -> Result<Kept, FileError>
    requires inside { AreInBytes bytes.now sections.now }
    requires marks { AreRising around.now.marks }
    ensures kept { IfOk result (IsKept Map map_boxing (beside around.now) (window_of bytes.now sections.now.map)) }
    ensures broken { IfErr result (λ error. sections_break (beside around.now) bytes.now sections.now ≡ None → TellsNone error) }
{
    boxed_check::check::<MapClass>(alloc, window_at(bytes, sections.map), around)
}

/// The same of the section of addresses.
fn check_addresses(
    alloc: Global,
    bytes: &[u8],
    sections: &Sections,
    around: &Around<'_>,
) -> Result<AddressesKept, FileError>
    requires inside { AreInBytes bytes.now sections.now }
    requires marks { AreRising around.now.marks }
    ensures kept { IfOk result (AreAddressesKept (version_of bytes.now) (beside around.now) (window_of bytes.now sections.now.addresses)) }
    ensures broken { IfErr result (λ error. sections_break (beside around.now) bytes.now sections.now ≡ None → TellsNone error) }
{
    addr_section::check(
        alloc,
        Version::of(bytes),
        window_at(bytes, sections.addresses),
        around,
    )
}

/// The same of the section of points of interest.
fn check_pois(
    alloc: Global,
    bytes: &[u8],
    sections: &Sections,
    around: &Around<'_>,
) -> Result<PoisKept, FileError>
    requires inside { AreInBytes bytes.now sections.now }
    requires marks { AreRising around.now.marks }
    ensures kept { IfOk result (ArePoisKept (beside around.now) (window_of bytes.now sections.now.pois)) }
    ensures broken { IfErr result (λ error. sections_break (beside around.now) bytes.now sections.now ≡ None → TellsNone error) }
{
    poi_section::check(alloc, window_at(bytes, sections.pois), around)
}

/// The same of the section of roads and restrictions.
fn check_roads(
    alloc: Global,
    bytes: &[u8],
    sections: &Sections,
    around: &Around<'_>,
) -> Result<RoutingKept, FileError>
    requires inside { AreInBytes bytes.now sections.now }
    requires marks { AreRising around.now.marks }
    ensures kept { IfOk result (IsRoutingKept (beside around.now) (window_of bytes.now sections.now.roads)) }
    ensures broken { IfErr result (λ error. sections_break (beside around.now) bytes.now sections.now ≡ None → TellsNone error) }
{
    road_section::check(alloc, window_at(bytes, sections.roads), around)
}

/// Asks the sections rule by rule, besides what was asked before.
pub(crate) fn ask_sections(
    alloc: Global,
    bytes: &[u8],
    sections: &Sections,
    around: &Around<'_>,
    first: &mut FirstBreak,
) -> Mem<()>
    requires inside { AreInBytes bytes.now sections.now }
    requires marks { AreRising around.now.marks }
    ensures { IfOk result (λ _. first.new ≡ earlier first.old (sections_break (beside around.now) bytes.now sections.now)) }
{
    let found = map_break(alloc, window_at(bytes, sections.map), around)?;
    ask_found(first, found);
    let version = Version::of(bytes);
    let found = addresses_break(alloc, version, window_at(bytes, sections.addresses), around)?;
    ask_found(first, found);
    let found = pois_break(alloc, window_at(bytes, sections.pois), around)?;
    ask_found(first, found);
    let found = roads_break(alloc, window_at(bytes, sections.roads), around)?;
    ask_found(first, found);
    Ok(())
}

/// A break, where there is one, among those that were found before.
fn ask_found(first: &mut FirstBreak, found: Option<FileBreak>)
    ensures { first.new ≡ earlier first.old found }
{
    if let Some(found) = found {
        first.ask(found.at, found.kind, false);
    }
}

/// The first break of the section of map records.
#[tactic(auto, using(crate::proofs::Checked::found_is))]
fn map_break(alloc: Global, window: Window<'_>, around: &Around<'_>) -> Mem<Option<FileBreak>>
    requires { AreRising around.now.marks }
    ensures { IfOk result (λ found. found ≡ section_break Map map_boxing (beside around.now) (range_of window.entry)) }
{
    found_in(boxed_exact::check_exactly::<MapClass>(alloc, window, around))
}

/// The first break of the section of addresses.
fn addresses_break(
    alloc: Global,
    version: Version,
    window: Window<'_>,
    around: &Around<'_>,
) -> Mem<Option<FileBreak>>
    requires { AreRising around.now.marks }
    ensures { IfOk result (λ found. found ≡ addresses_break version (beside around.now) (range_of window.entry)) }
{
    found_in(addr_section::check_exactly(alloc, version, window, around))
}

/// The first break of the section of points of interest.
fn pois_break(alloc: Global, window: Window<'_>, around: &Around<'_>) -> Mem<Option<FileBreak>>
    requires { AreRising around.now.marks }
    ensures { IfOk result (λ found. found ≡ pois_break (beside around.now) (range_of window.entry)) }
{
    found_in(poi_section::check(alloc, window, around))
}

/// The first break of the section of roads and restrictions.
fn roads_break(alloc: Global, window: Window<'_>, around: &Around<'_>) -> Mem<Option<FileBreak>>
    requires { AreRising around.now.marks }
    ensures { IfOk result (λ found. found ≡ routing_break (beside around.now) (range_of window.entry)) }
{
    found_in(road_section::check_exactly(alloc, window, around))
}

/// The break that a check found, where it found one.
fn found_in<T: Drop>(checked: Result<T, FileError>) -> Mem<Option<FileBreak>>
    ensures { IfOk result (IsFound checked) }
{
    match checked {
        Ok(_) => Ok(None),
        Err(FileError::Broken(found)) => Ok(Some(found)),
        Err(FileError::NoMemory) => Err(NoMemory),
    }
}
