//! Addresses and entries in a straight line.

ghost use Rattle.std.specs.Prelude.{◌≡◌, ◌≤◌, length, slice_range, true, IfSome};
ghost use Rattle.obf_wire.specs.Fields.{part_of};
ghost use Rattle.obf_wire.specs.Windows.{range_of};
ghost use Rattle.file_grammar.specs.declared.parts.Version.TheVariants.{One, Two};
ghost use Rattle.addr_section.specs.Straight.{IsAddressRead, IsEntryRead, IsLangRead};

use crate::addresses::{AddressSeen, GRID, TextSeen};
use crate::kept::EntryKept;
use crate::spans::span_of;
use boxed_check::points_in;
use boxed_exact::{Number, PointsSeen};
use file_grammar::Version;
use obf_wire::{Field, Window, expected};

/// The keys of an address: its ordinal, kind, key, name, number and points, and its language.
const ORDINAL: u8 = 8;

const KIND: u8 = 16;

const KEY: u8 = 26;

const NAME: u8 = 34;

const NUMBER: u8 = 42;

const POINTS: u8 = 50;

const LANG: u8 = 58;

/// The keys of an entry: its first and its last key, and the offset of its block.
const FIRST: u8 = 10;

const LAST: u8 = 18;

const PLACE: u8 = 24;

/// The address in a window, whose field begins at `at`. `Some` only where its form is good, and its points are on the grid.
pub(crate) fn see_address(
    version: Version,
    window: Window<'_>,
    at: usize,
) -> Option<AddressSeen<'_>>
    ensures { IfSome result (IsAddressRead version (range_of window.entry) at) }
{
    let Some(ordinal) = expected(window, window.from(), ORDINAL) else {
        return None;
    };
    let Some(kind) = expected(window, ordinal.to, KIND) else {
        return None;
    };
    let Some(key) = expected(window, kind.to, KEY) else {
        return None;
    };
    let Some(name) = expected(window, key.to, NAME) else {
        return None;
    };
    let Some(number) = expected(window, name.to, NUMBER) else {
        return None;
    };
    let Some(points) = expected(window, number.to, POINTS) else {
        return None;
    };
    let Some(lang) = see_lang(version, window, points.to) else {
        return None;
    };
    let Some(count) = points_in(window.part(points.from, points.to), &GRID) else {
        return None;
    };
    Some(AddressSeen {
        at,
        ordinal: number_of(ordinal),
        kind: number_of(kind),
        key: text_of(window, key),
        name: text_of(window, name),
        number: text_of(window, number),
        points_at: points.at,
        points: all_on_grid(count),
        lang,
    })
}

/// The language that is left from `from` on in a window, as a file of this version has it.
fn see_lang(version: Version, window: Window<'_>, from: usize) -> Option<Option<TextSeen<'_>>>
    requires { from ≤ window.to }
    ensures { IfSome result (IsLangRead version (part_of window.entry.bytes.now from window.entry.to)) }
{
    match version {
        Version::One => see_no_lang(window, from),
        Version::Two => see_last_text(window, from),
    }
}

/// Nothing is left.
fn see_no_lang(window: Window<'_>, from: usize) -> Option<Option<TextSeen<'_>>>
    requires { from ≤ window.to }
    ensures { IfSome result (IsLangRead One (part_of window.entry.bytes.now from window.entry.to)) }
{
    if from == window.to() {
        Some(None)
    } else {
        None
    }
}

/// The language, and nothing else, is left.
fn see_last_text(window: Window<'_>, from: usize) -> Option<Option<TextSeen<'_>>>
    requires { from ≤ window.to }
    ensures { IfSome result (IsLangRead Two (part_of window.entry.bytes.now from window.entry.to)) }
{
    let Some(lang) = expected(window, from, LANG) else {
        return None;
    };
    if lang.to != window.to() {
        return None;
    }
    Some(Some(text_of(window, lang)))
}

/// The entry in a window, whose field begins at `at`. `Some` only where its form is good.
pub(crate) fn see_entry(window: Window<'_>, at: usize) -> Option<EntryKept>
    ensures { IfSome result (IsEntryRead (range_of window.entry) at) }
{
    let Some(first) = expected(window, window.from(), FIRST) else {
        return None;
    };
    let Some(last) = expected(window, first.to, LAST) else {
        return None;
    };
    let Some(place) = expected(window, last.to, PLACE) else {
        return None;
    };
    if place.to != window.to() {
        return None;
    }
    Some(EntryKept {
        at,
        first: span_of(first),
        last: span_of(last),
        place: number_of(place),
    })
}

/// The number that a field is.
fn number_of(field: Field) -> Number
    ensures { result ≡ record { at = field.at; value = field.value } }
{
    Number {
        at: field.at,
        value: field.value,
    }
}

/// The text that a field of a window is.
fn text_of(window: Window<'_>, field: Field) -> TextSeen<'_>
    requires ordered { field.from ≤ field.to }
    requires within { field.to ≤ length window.bytes.now }
    ensures at { result.at ≡ field.at }
    ensures text { result.text.now ≡ slice_range window.entry.bytes.now field.from field.to }
{
    TextSeen {
        at: field.at,
        text: &window.all()[field.from..field.to],
    }
}

/// So many points, all on the grid.
fn all_on_grid(count: usize) -> PointsSeen
    ensures count { result.count ≡ count }
    ensures grid { result.on_grid ≡ true }
{
    PointsSeen {
        count,
        on_grid: true,
        in_box: true,
    }
}
