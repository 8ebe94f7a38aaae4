//! What has to hold of an address, rule by rule.

ghost use Rattle.std.specs.Prelude.{◌≡◌, ◌&&◌, ◌||◌, not, ◌==◌, Option, IfOk, OnOk};
ghost use Rattle.std.specs.Ordering.{is_eq};
ghost use Rattle.std.specs.Str.{is_utf8};
ghost use Rattle.text_table.specs.Tables.{text_cmp};
ghost use Rattle.live_model.specs.Records.{is_empty};
ghost use Rattle.file_grammar.specs.AddressRules.{Address, is_addressed, is_house_kind, is_key_of, is_kind_in, is_lang_for, is_number_for, is_same_key};
ghost use Rattle.file_grammar.specs.BoxRules.{is_ordinal};
ghost use Rattle.file_grammar.specs.Facts.{earlier, first_failing};
ghost use Rattle.boxed_exact.specs.Sides.{AreRising, beside};
ghost use Rattle.addr_section.specs.Seen.{lang_seen, may_follow, numbers_rise, rises, seen_facts};

use crate::addresses::{AddressSeen, SortKey, TextSeen};
use crate::languages::is_language;
use boxed_exact::{
    Around, PointsSeen, is_marked, is_node, is_ordinal, is_utf8, is_way, text_rises,
};
use file_grammar::FirstBreak;
use name_fold::is_key_of;
use obf_wire::FileKind;
use owned_data::Mem;
use std::alloc::Global;
use std::cmp::Ordering;
use std::str::from_utf8;

/// The kinds of addresses, as they are numbered.
const STREET: u64 = 1;

const HOUSE: u64 = 2;

/// Checks every rule of an address in the list of houses, or else of names, after another one.
pub(crate) fn check_address(
    alloc: Global,
    houses: bool,
    seen: &AddressSeen<'_>,
    before: Option<SortKey<'_>>,
    around: &Around<'_>,
    first: &mut FirstBreak,
) -> Mem<()>
    requires { AreRising around.now.marks }
    ensures { OnOk result (first.new ≡ earlier first.old (first_failing (seen_facts houses (beside around.now) before.entry seen.now))) }
{
    let kind = seen.kind.value;
    let ordinal = seen.ordinal.value;
    let named = is_key(alloc, seen.name.text, seen.key.text)?;
    first.ask(
        seen.at,
        FileKind::BadOrder,
        may_follow(before, seen.sort_key()),
    );
    first.ask(seen.ordinal.at, FileKind::BadId, is_id(kind, ordinal));
    first.ask(
        seen.ordinal.at,
        FileKind::BadMark,
        is_marked(around.marks, u128::from(ordinal)),
    );
    first.ask(seen.kind.at, FileKind::BadRef, is_kind_in(houses, kind));
    first.ask(seen.key.at, FileKind::BadText, named);
    first.ask(seen.name.at, FileKind::BadText, is_name(seen.name.text));
    first.ask(
        seen.number.at,
        FileKind::BadText,
        is_number_for(kind, seen.number.text),
    );
    first.ask(
        seen.points_at,
        FileKind::BadPoint,
        is_one_location(seen.points),
    );
    ask_lang(kind, seen.lang, first);
    Ok(())
}

/// Asks whether a language that stands there may be that of an address of this kind.
fn ask_lang(kind: u64, lang: Option<TextSeen<'_>>, first: &mut FirstBreak)
    ensures { first.new ≡ earlier first.old (first_failing (lang_seen kind lang.entry)) }
{
    if let Some(lang) = lang {
        first.ask(lang.at, FileKind::BadText, is_lang_for(kind, lang.text));
    }
}

/// Whether an address may stand after this one.
fn may_follow(before: Option<SortKey<'_>>, next: SortKey<'_>) -> bool
    ensures { result ≡ may_follow before.entry next.entry }
{
    match before {
        None => true,
        Some(before) => rises(before, next),
    }
}

/// Whether one address may stand after another: rising by key, kind and ordinal, where the keys are UTF-8.
fn rises(one: SortKey<'_>, other: SortKey<'_>) -> bool
    ensures { result ≡ rises one.entry other.entry }
{
    text_rises(one.key, other.key)
        || (is_same(one.key, other.key) && numbers_rise(one, other))
        || !(is_utf8(one.key) && is_utf8(other.key))
}

/// Whether one address comes before another by kind and ordinal, or both are the same.
fn numbers_rise(one: SortKey<'_>, other: SortKey<'_>) -> bool
    ensures { result ≡ numbers_rise one.entry other.entry }
{
    one.kind < other.kind
        || (one.kind == other.kind
            && (one.ordinal <= other.ordinal
                || !(is_ordinal(u128::from(one.ordinal)) && is_ordinal(u128::from(other.ordinal)))))
}

/// Whether two texts are the same.
fn is_same(one: &[u8], other: &[u8]) -> bool
    ensures { result ≡ is_eq (text_cmp one.now other.now) }
{
    one.cmp(other) == Ordering::Equal
}

/// Whether two keys are the same, where both are UTF-8.
pub(crate) fn is_same_key(one: &[u8], other: &[u8]) -> bool
    ensures { result ≡ is_same_key one.now other.now }
{
    one == other || !(is_utf8(one) && is_utf8(other))
}

/// Whether the ordinal is one of an object that may have an address of this kind.
fn is_id(kind: u64, ordinal: u64) -> bool
    ensures { result ≡ (is_ordinal ordinal && is_addressed kind ordinal) }
{
    is_ordinal(u128::from(ordinal)) && is_addressed(kind, u128::from(ordinal))
}

/// Whether an object of this ordinal may have an address of this kind: a street is a way's, all else a node's or a way's.
fn is_addressed(kind: u64, ordinal: u128) -> bool
    ensures { result ≡ is_addressed kind ordinal }
{
    if kind == STREET {
        return is_way(ordinal);
    }
    is_node(ordinal) || is_way(ordinal)
}

/// Whether addresses of this kind stand in the list of houses, or else in that of names.
fn is_kind_in(houses: bool, kind: u64) -> bool
    ensures { result ≡ is_kind_in houses kind }
{
    if houses {
        return kind == HOUSE;
    }
    kind <= STREET
}

/// Whether a text is the key of a name, where that is UTF-8.
fn is_key(alloc: Global, name: &[u8], text: &[u8]) -> Mem<bool>
    ensures { IfOk result (λ is. is ≡ is_key_of name.now text.now) }
{
    let Ok(name) = from_utf8(name) else {
        return Ok(is_utf8(text));
    };
    let named = is_key_of(alloc, name, text)?;
    Ok(is_utf8(text) && named)
}

/// Whether a text may be a name.
fn is_name(text: &[u8]) -> bool
    ensures { result ≡ (is_utf8 text.now && not (is_empty text.now)) }
{
    is_utf8(text) && !text.is_empty()
}

/// Whether a text may be the number of an address of this kind: a house has one, and nothing else.
fn is_number_for(kind: u64, text: &[u8]) -> bool
    ensures { result ≡ is_number_for kind text.now }
{
    is_utf8(text) && (kind == HOUSE) != text.is_empty()
}

/// Whether a text may be the language of an address of this kind: none or a language, and none for a house.
fn is_lang_for(kind: u64, text: &[u8]) -> bool
    ensures { result ≡ is_lang_for kind text.now }
{
    text.is_empty() || (is_language(text) && kind != HOUSE)
}

/// Whether there is one point, and it is on the grid.
fn is_one_location(points: PointsSeen) -> bool
    ensures { result ≡ (points.on_grid && (points.count == 1)) }
{
    points.on_grid && points.count == 1
}
