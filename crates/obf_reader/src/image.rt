//! A map file that was read.

ghost use Rattle.std.specs.Prelude.{◌≡◌, ◌==◌, None, Some, length, map, slice_get, true, IfErr, IfOk, MatchOption, Ok};
ghost use Rattle.std.specs.List.{list_all, list_any};
ghost use Rattle.std.specs.Ordering.{nat_cmp};
ghost use Rattle.live_model.specs.Ids.{ordinal};
ghost use Rattle.ordered_lists.specs.Ordered.{IsRisingBy};
ghost use Rattle.stamp_core.specs.Heads.{IsGoodHead};
ghost use Rattle.file_grammar.specs.Files.{file_break, whole};
ghost use Rattle.file_grammar.specs.BoxRules.{is_ordinal};
ghost use Rattle.file_grammar.specs.Readings.{IsInMemory};
ghost use Rattle.boxed_exact.specs.Breaks.{Breaks};
ghost use Rattle.file_grammar.specs.declared.parts.Part.TheVariants.{Addresses as AddressesPart};
ghost use Rattle.file_grammar.specs.AddressRules.{address_records_in, addresses_of};
ghost use Rattle.file_grammar.specs.RoadRules.{ban_read, road_read};
ghost use Rattle.file_grammar.specs.Messages.{Fields};
ghost use Rattle.file_grammar.specs.Readings.{message_at};
ghost use Rattle.map_section.specs.MapLawful.{map_reads};
ghost use Rattle.poi_section.specs.PoiSections.{group_read};
ghost use Rattle.boxed_read.specs.Meeting.{in_boxes};
ghost use Rattle.boxed_read.specs.Steps.{joined};
ghost use Rattle.addr_read.specs.Records.{address_blocks};
ghost use Rattle.obf_reader.specs.Images.{IsImage, IsImageFile, IsImageOf, addresses_window, bans_of, groups_of, maps_of, roads_of};
ghost use Rattle.obf_reader.specs.Reads.{IsGoodRead};

use crate::heads::head_of;
use crate::parts::{PartsRead, read_parts};
use crate::reading::{first_break, kept_of, read_good};
use crate::sections::KeptSections;
use crate::spans::Sections;
use addr_read::Section as Addresses;
use boxed_exact::Payload;
use boxed_read::Section;
use file_grammar::{Part, Version, form};
use file_order::Ordered;
use live_model::ObjId;
use map_section::MapClass;
use obf_wire::{FileError, Window};
use poi_section::Pois;
use road_section::{BanClass, RoadClass};
use stamp_core::Head;
use std::alloc::Global;
use std::marker::Model;
use tag_rules::Rules;

/// A map file: its bytes, which break no rule, and what they hold. It is seen as its bytes, its version, its head, its
/// rules, its marks as ordinals, where its sections of records stand, and how many records these have.
#[derive(Debug, Drop)]
pub struct Image {
    bytes: Vec<u8>,
    version: Version,
    head: Head,
    rules: Rules,
    marks: Vec<u64>,
    sections: Sections,
    kept: KeptSections,
}

impl Model for Image {
    ghost use Rattle.obf_reader.specs.Images.{IsImage, Seen};

    ghost Value = { Seen };

    ghost view = { λ image. record { bytes = image.bytes.items; version = image.version; head = image.head; rules = image.rules; marks = image.marks.items; sections = image.sections; kept = image.kept; records = image.kept.records } };

    ghost invariant = { λ image. IsImage (record { bytes = image.bytes.items; version = image.version; head = image.head; rules = image.rules; marks = image.marks.items; sections = image.sections; kept = image.kept; records = image.kept.records }) };
}

impl Image {
    /// Reads a map file, and keeps its bytes. `Broken` with the first break exactly where the bytes are no map file,
    /// unless memory was refused before. A good file is read once.
    pub fn read(alloc: Global, bytes: Vec<u8>) -> Result<Image, FileError>
        ensures good { IfOk result (λ image. (file_break bytes.items ≡ None) × IsImageOf bytes.items image) }
        ensures broken { IfErr result (λ error. Breaks error (file_break bytes.items)) }
    {
        let found = read_good(alloc, &bytes)?;
        if let Some(file) = found {
            return Ok(Image::of(bytes, file.parts, file.kept));
        }
        Image::read_exactly(alloc, bytes)
    }

    /// The same rule by rule, for the first break.
    fn read_exactly(alloc: Global, bytes: Vec<u8>) -> Result<Image, FileError>
        ensures good { IfOk result (λ image. (file_break bytes.items ≡ None) × IsImageOf bytes.items image) }
        ensures broken { IfErr result (λ error. Breaks error (file_break bytes.items)) }
    {
        form(Part::File(Version::of(&bytes)), Window::whole(&bytes))?;
        let parts = read_parts(alloc, &bytes)?;
        if let Some(found) = first_break(alloc, &bytes, &parts)? {
            return Err(FileError::Broken(found));
        }
        let kept = kept_of(alloc, &bytes, &parts)?;
        Ok(Image::of(bytes, parts, kept))
    }

    /// The image of a file that breaks no rule.
    fn of(bytes: Vec<u8>, parts: PartsRead, kept: KeptSections) -> Image
        requires { IsGoodRead bytes.items parts kept }
        ensures { IsImageOf bytes.items result }
    {
        Image {
            version: Version::of(&bytes),
            bytes,
            head: head_of(parts.head),
            rules: parts.rules.rules,
            marks: parts.marks.marks,
            sections: parts.sections,
            kept,
        }
    }

    /// The bytes of the file.
    pub fn bytes(&self) -> &[u8]
        ensures bytes { result.now ≡ self.now.bytes }
        ensures file { IsImage self.now }
    {
        self.bytes.as_slice()
    }

    /// The version of its form.
    pub fn version(&self) -> Version
        ensures { result ≡ self.now.version }
    {
        self.version
    }

    /// What the file covers. Its stamps fit its level.
    pub fn head(&self) -> &Head
        ensures head { result.now ≡ self.now.head }
        ensures good { IsGoodHead self.now.head }
    {
        &self.head
    }

    /// The rules of the file.
    pub fn rules(&self) -> &Rules
        ensures { result.now ≡ self.now.rules }
    {
        &self.rules
    }

    /// Whether the object is marked, so that the file decides on its records. A base marks none.
    pub fn marks_has(&self, id: &ObjId) -> bool
        ensures { result ≡ list_any (λ mark. mark == ordinal id.now) self.now.marks }
    {
        has(self.marks.as_slice(), id.ordinal())
    }

    /// The mark at a place, counted from 0. `None` exactly where the place is not below `mark_count`.
    pub fn mark_at(&self, index: usize) -> Option<ObjId>
        ensures { MatchOption result (slice_get self.now.marks index ≡ None) (λ id. slice_get self.now.marks index ≡ Some (ordinal id)) }
    {
        object_at(self.marks.as_slice(), index)
    }

    /// How many marks there are.
    pub fn mark_count(&self) -> usize
        ensures { result ≡ length self.now.marks }
    {
        self.marks.len()
    }

    /// The section of map records, in the order of the file.
    #[tactic(auto, using(crate::proofs::Images::section_checked, crate::proofs::Images::maps_read))]
    pub fn map(&self) -> Section<'_, MapClass>
        ensures { result ≡ in_boxes map_reads (maps_of self.now) }
    {
        let window = Window::new(
            self.bytes.as_slice(),
            self.sections.map.from,
            self.sections.map.to,
        );
        Section::new(window, &self.kept.map)
    }

    /// Where the section of map records stands.
    pub fn map_span(&self) -> Payload
        ensures { result ≡ self.now.sections.map }
    {
        self.sections.map
    }

    /// The groups of points of interest: of each the records of each block, in the order of the file.
    #[tactic(auto, using(crate::proofs::Images::pois_checked, crate::proofs::Images::groups_read))]
    pub fn pois(&self) -> Pois<'_>
        ensures { result ≡ map group_read (groups_of self.now) }
    {
        let window = Window::new(
            self.bytes.as_slice(),
            self.sections.pois.from,
            self.sections.pois.to,
        );
        Pois::new(window, &self.kept.pois)
    }

    /// The section of addresses: the records of each block, in the order of the file.
    #[tactic(auto, using(crate::proofs::Images::addresses_checked))]
    pub fn addresses(&self) -> Addresses<'_>
        ensures blocks { (fields : Fields) → message_at (AddressesPart self.now.version) (addresses_window self.now) ≡ Ok fields → result ≡ address_blocks (addresses_of fields) }
        ensures records { (fields : Fields) → message_at (AddressesPart self.now.version) (addresses_window self.now) ≡ Ok fields → joined result ≡ address_records_in (addresses_of fields) }
    {
        let window = Window::new(
            self.bytes.as_slice(),
            self.sections.addresses.from,
            self.sections.addresses.to,
        );
        Addresses::new(self.version, window, &self.kept.addresses)
    }

    /// The section of roads: the records of each block, in the order of the file.
    #[tactic(auto, using(crate::proofs::Images::roads_checked, crate::proofs::Images::routing_inside, crate::proofs::Images::roads_of_section))]
    pub fn roads(&self) -> Section<'_, RoadClass>
        ensures { result ≡ in_boxes road_read (roads_of self.now) }
    {
        let kept = &self.kept.roads;
        let window = Window::new(
            self.bytes.as_slice(),
            kept.spans.roads.from,
            kept.spans.roads.to,
        );
        Section::new(window, &kept.roads)
    }

    /// The section of restrictions: the records of each block, in the order of the file.
    #[tactic(auto, using(crate::proofs::Images::bans_checked, crate::proofs::Images::routing_inside, crate::proofs::Images::bans_of_section))]
    pub fn restrictions(&self) -> Section<'_, BanClass>
        ensures { result ≡ in_boxes ban_read (bans_of self.now) }
    {
        let kept = &self.kept.roads;
        let window = Window::new(
            self.bytes.as_slice(),
            kept.spans.bans.from,
            kept.spans.bans.to,
        );
        Section::new(window, &kept.bans)
    }

    /// How many records of all classes the file has.
    pub fn record_count(&self) -> usize
        ensures { result ≡ self.now.records }
    {
        self.kept.records
    }
}

/// Its place among others goes by its head and its rules.
impl Ordered for Image {
    ghost head_of = { λ image. image.head };

    ghost rules_of = { λ image. image.rules };

    fn head(&self) -> &Head {
        &self.head
    }

    fn rules(&self) -> &Rules {
        &self.rules
    }
}

/// That the bytes of an image are a file of its version with its head, its rules and its marks, and with as many records as it
/// counts. There is nothing to run.
pub fn images_are_files(image: &Image)
    ensures { IsImageFile image.now }
{
    in_memory(image.bytes.as_slice());
}

/// That bytes are fewer than 2^64, and each is one.
fn in_memory(bytes: &[u8])
    ensures { IsInMemory (whole bytes.now) }
{
    let _ = bytes.len();
}

/// The object of the mark at a place.
fn object_at(marks: &[u64], index: usize) -> Option<ObjId>
    requires { list_all is_ordinal marks.now ≡ true }
    ensures { MatchOption result (slice_get marks.now index ≡ None) (λ id. slice_get marks.now index ≡ Some (ordinal id)) }
{
    match marks.get(index) {
        Some(mark) => ObjId::from_ordinal(*mark),
        None => None,
    }
}

fn has(marks: &[u64], ordinal: u64) -> bool
    requires { IsRisingBy nat_cmp (λ n. n) marks.now }
    ensures { result ≡ list_any (λ mark. mark == ordinal) marks.now }
{
    match marks.binary_search(&ordinal) {
        Ok(_) => true,
        Err(_) => false,
    }
}
