//! A file read in one pass, or rule by rule.

ghost use Rattle.std.specs.Prelude.{◌≡◌, true, None, IfErr, IfOk, IfSome, Ok};
ghost use Rattle.std.specs.Ordering.{nat_cmp};
ghost use Rattle.ordered_lists.specs.Ordered.{IsRisingBy};
ghost use Rattle.obf_wire.specs.declared.file.FileBreak.{FileBreak};
ghost use Rattle.file_grammar.specs.Facts.{first_failing};
ghost use Rattle.file_grammar.specs.Files.{FileParts, facts_in, file_in};
ghost use Rattle.file_grammar.specs.Messages.{Fields};
ghost use Rattle.boxed_exact.specs.Sides.{AreRising, beside, ordinals_of};
ghost use Rattle.obf_reader.specs.Kept.{AreKept, TellsNone, sections_break};
ghost use Rattle.obf_reader.specs.Parts.{AreParts, IsReadOf, beside_of, marks_of, own_facts};
ghost use Rattle.obf_reader.specs.Reads.{IsGoodRead, StandAlike};
ghost use Rattle.obf_reader.specs.Spread.{AreInBytes};

use crate::parts::{PartsRead, check_parts, read_parts};
use crate::sections::{KeptSections, ask_sections, check_sections, see_sections};
use crate::spans::Sections;
use crate::top::{TopFields, top_of};
use boxed_exact::{Around, Payload};
use obf_wire::{Field, FileBreak, FileError, Marks};
use owned_data::Mem;
use std::alloc::Global;

/// A file that was read in one pass and found good.
#[derive(Debug, Drop)]
pub(crate) struct GoodFile {
    pub(crate) parts: PartsRead,
    pub(crate) kept: KeptSections,
}

/// Reads a file in one pass: `Some` only where it breaks no rule. `None` says nothing.
pub(crate) fn read_good(alloc: Global, bytes: &[u8]) -> Mem<Option<GoodFile>>
    ensures { IfOk result (λ found. IfSome found (λ file. IsGoodRead bytes.now file.parts file.kept)) }
{
    let Some(top) = top_of(bytes) else {
        return Ok(None);
    };
    let parts = read_parts(alloc, bytes)?;
    if !stand_alike(&parts.sections, &top) || !are_good(&parts) {
        return Ok(None);
    }
    let found = see_parts(alloc, bytes, &parts)?;
    let Some(kept) = found else {
        return Ok(None);
    };
    Ok(Some(GoodFile { parts, kept }))
}

/// Whether the sections stand where these fields do.
fn stand_alike(sections: &Sections, top: &TopFields) -> bool
    ensures { result ≡ true → StandAlike sections.now top.now }
{
    is_at(sections.map, &top.map)
        && is_at(sections.addresses, &top.addresses)
        && is_at(sections.pois, &top.pois)
        && is_at(sections.roads, &top.roads)
}

/// Whether the payload of the field stands there.
fn is_at(payload: Payload, field: &Field) -> bool
    ensures { result ≡ true → (payload.from ≡ field.now.from) × (payload.to ≡ field.now.to) }
{
    payload.from == field.from && payload.to == field.to
}

/// Whether every rule holds of the parts outside the sections of records.
fn are_good(parts: &PartsRead) -> bool
    ensures { result ≡ true → (own : FileParts) → AreParts parts.now own → first_failing (own_facts own) ≡ None }
{
    check_parts(parts).found().is_none()
}

/// The sections of records in one pass.
fn see_parts(alloc: Global, bytes: &[u8], parts: &PartsRead) -> Mem<Option<KeptSections>>
    requires inside { AreInBytes bytes.now parts.now.sections }
    requires rising { IsRisingBy nat_cmp (λ n. n) parts.now.marks.marks.items }
    ensures { IfOk result (λ found. IfSome found (AreKept (beside_of parts.now) bytes.now parts.now.sections)) }
{
    let around = around_of(parts);
    see_sections(alloc, bytes, &parts.sections, &around)
}

/// The first break of a file of good form.
pub(crate) fn first_break(alloc: Global, bytes: &[u8], parts: &PartsRead) -> Mem<Option<FileBreak>>
    requires inside { AreInBytes bytes.now parts.now.sections }
    requires rising { IsRisingBy nat_cmp (λ n. n) parts.now.marks.marks.items }
    ensures { IfOk result (λ found. (fields : Fields) → IsReadOf bytes.now parts.now fields → found ≡ first_failing (facts_in (file_in fields))) }
{
    let mut first = check_parts(parts);
    let around = around_of(parts);
    ask_sections(alloc, bytes, &parts.sections, &around, &mut first)?;
    Ok(first.found())
}

/// What there is of the sections of records, which break no rule. Out of memory is the only error.
pub(crate) fn kept_of(
    alloc: Global,
    bytes: &[u8],
    parts: &PartsRead,
) -> Result<KeptSections, FileError>
    requires inside { AreInBytes bytes.now parts.now.sections }
    requires rising { IsRisingBy nat_cmp (λ n. n) parts.now.marks.marks.items }
    requires sound { sections_break (beside_of parts.now) bytes.now parts.now.sections ≡ None }
    ensures kept { IfOk result (AreKept (beside_of parts.now) bytes.now parts.now.sections) }
    ensures memory { IfErr result TellsNone }
{
    let around = around_of(parts);
    check_sections(alloc, bytes, &parts.sections, &around)
}

/// What stands beside the sections of records.
fn around_of(parts: &PartsRead) -> Around<'_>
    requires { IsRisingBy nat_cmp (λ n. n) parts.now.marks.marks.items }
    ensures beside { beside result ≡ beside_of parts.now }
    ensures rising { AreRising result.marks }
{
    Around {
        rules: &parts.rules.rules,
        marks: marks_beside(parts),
    }
}

/// The ordinals that records may have: in a base, and beside marks that break a rule of their own, every one.
fn marks_beside(parts: &PartsRead) -> Marks<'_>
    requires { IsRisingBy nat_cmp (λ n. n) parts.now.marks.marks.items }
    ensures ordinals { ordinals_of result ≡ marks_of parts.now }
    ensures rising { AreRising result }
{
    if parts.head.level == 0 || !(parts.marks.rise && parts.marks.ordinals) {
        Marks::Any
    } else {
        Marks::Only(parts.marks.marks.as_slice())
    }
}
