//! The fields of a rule line, each read for itself.

ghost use Rattle.std.specs.Prelude.{◌≡◌, ◌≢◌, ◌≤◌, [], drop, take, true, false, None, Some, IfErr, IfOk, IfSome, IsTrue, IsUtf8, MatchOption, is_some, bytes_eq, codes};
ghost use Rattle.std.specs.Str.{is_utf8};
ghost use Rattle.std.specs.List.{list_all};
ghost use Rattle.text_pieces.specs.Escapes.{text_of};
ghost use Rattle.live_model.specs.Rules.{IsClass, shape_of, admitted_of, zoom_of, is_category, is_category_byte, poi_of, named_class, class_with, stands_with};
ghost use Rattle.tag_rules.specs.Readings.{IsPiece, OnBroken};

use crate::errors::{RuleError, broken};
use live_model::{Class, RuleKind, Shape};
use owned_data::{Mem, Text};
use std::alloc::Global;
use std::str::from_utf8;
use text_pieces::{EscapeError, Field, is_digit, number, read_escaped};

/// `point`, `line` or `area`.
#[tactic(auto, unfolding(live_model::specs::Rules::shape_of))]
pub(crate) fn shape(bytes: &[u8]) -> Option<Shape>
    ensures { result ≡ shape_of bytes.now }
{
    match bytes {
        b"point" => Some(Shape::Point),
        b"line" => Some(Shape::Line),
        b"area" => Some(Shape::Area),
        _ => None,
    }
}

/// The zoom that a field spells: one or two digits, at most 22. `None` exactly where it spells none.
#[tactic(auto, unfolding(live_model::specs::Rules::zoom_of))]
pub fn read_zoom(bytes: &[u8]) -> Option<u8>
    ensures value { result ≡ zoom_of bytes.now }
    ensures within { IfSome result (λ zoom. zoom ≤ 22) }
{
    match number(bytes, 2, 22) {
        Some(zoom) => Some(zoom as u8),
        None => None,
    }
}

/// The text that a field spells.
#[tactic(auto, using(crate::proofs::Texts::no_text))]
pub(crate) fn text(alloc: Global, field: &Field<'_>) -> Result<Text, RuleError>
    requires { IsPiece field.now }
    ensures text { IfOk result (λ text. text_of field.now.bytes.now ≡ Some text) }
    ensures good { IfOk result (λ text. IsUtf8 text × (text ≢ [])) }
    ensures broken { IfErr result (OnBroken field.now.at RuleKind.BadEscape (text_of field.now.bytes.now ≡ None)) }
{
    match read_escaped(alloc, characters(field.bytes)) {
        Ok(text) => {
            let _characters = text.as_str();
            Ok(text)
        }
        Err(EscapeError::NoMemory) => Err(RuleError::NoMemory),
        Err(EscapeError::Bad) => Err(broken(field.at, RuleKind::BadEscape)),
        Err(EscapeError::NotPlain) => Err(broken(field.at, RuleKind::BadEscape)),
    }
}

// The same bytes as characters. That they are UTF-8 was seen before, with their whole line.
#[tactic(auto, using(crate::proofs::Texts::seen_other))]
fn characters(bytes: &[u8]) -> &str
    requires { IsTrue (is_utf8 bytes.now) }
    ensures { result.now ≡ bytes.now }
{
    match from_utf8(bytes) {
        Ok(text) => text,
        Err(_) => "",
    }
}

/// The value that a field admits; none where it is the star, which admits every value.
#[tactic(auto, unfolding(live_model::specs::Rules::admitted_of))]
pub(crate) fn admitted(alloc: Global, field: &Field<'_>) -> Result<Option<Text>, RuleError>
    requires { IsPiece field.now }
    ensures admitted { IfOk result (λ value. admitted_of field.now.bytes.now ≡ Some value) }
    ensures good { IfOk result (λ value. IfSome value (λ text. IsUtf8 text × (text ≢ []))) }
    ensures broken { IfErr result (OnBroken field.now.at RuleKind.BadEscape (admitted_of field.now.bytes.now ≡ None)) }
{
    if let b"*" = field.bytes {
        return Ok(None);
    }
    let value = text(alloc, field)?;
    Ok(Some(value))
}

/// The class of a rule of this shape.
pub(crate) fn class(alloc: Global, shape: Shape, field: &Field<'_>) -> Result<Class, RuleError>
    ensures class { IfOk result (λ class. class_with (Some shape) (named_class field.now.bytes.now) ≡ Some class) }
    ensures good { IfOk result (IsClass shape) }
    ensures broken { IfErr result (OnBroken field.now.at RuleKind.BadClass (class_with (Some shape) (named_class field.now.bytes.now) ≡ None)) }
{
    let Some(class) = named_class(alloc, field.bytes)? else {
        return Err(broken(field.at, RuleKind::BadClass));
    };
    if stands_with(shape, &class) {
        Ok(class)
    } else {
        Err(broken(field.at, RuleKind::BadClass))
    }
}

// A road is a line.
fn stands_with(shape: Shape, class: &Class) -> bool
    ensures { result ≡ stands_with shape class.now }
{
    match class {
        Class::Road => shape == Shape::Line,
        _ => true,
    }
}

// `map`, `road`, `place`, or a category.
#[tactic(auto, unfolding(live_model::specs::Rules::named_class))]
fn named_class(alloc: Global, bytes: &[u8]) -> Mem<Option<Class>>
    ensures class { IfOk result (λ class. class ≡ named_class bytes.now) }
{
    match bytes {
        b"map" => Ok(Some(Class::Map)),
        b"road" => Ok(Some(Class::Road)),
        b"place" => Ok(Some(Class::Place)),
        _ => poi(alloc, bytes),
    }
}

// `poi.` and a category.
#[tactic(auto, unfolding(live_model::specs::Rules::poi_of))]
fn poi(alloc: Global, bytes: &[u8]) -> Mem<Option<Class>>
    ensures class { IfOk result (λ class. class ≡ poi_of bytes.now) }
{
    let Some(category) = behind_poi(bytes) else {
        return Ok(None);
    };
    match read_category(alloc, category)? {
        Some(category) => Ok(Some(Class::Poi(category))),
        None => Ok(None),
    }
}

/// The category of points of interest that a field names: 1 to 32 bytes out of `a` to `z`, `0` to `9` and `_`. `None` exactly
/// where it names none.
pub fn read_category(alloc: Global, bytes: &[u8]) -> Mem<Option<Text>>
    ensures { IfOk result (λ found. MatchOption found (is_category bytes.now ≡ false) (λ category. (is_category bytes.now ≡ true) × (category ≡ bytes.now))) }
{
    if !is_category(bytes) {
        return Ok(None);
    }
    let category = Text::copied(alloc, name(bytes))?;
    Ok(Some(category))
}

// What stands behind `poi.`, where the bytes begin so.
fn behind_poi(bytes: &[u8]) -> Option<&[u8]>
    ensures { MatchOption result (bytes_eq (take 4 bytes.now) (codes "poi.") ≡ false) (λ category. (bytes_eq (take 4 bytes.now) (codes "poi.") ≡ true) × (category.now ≡ drop 4 bytes.now)) }
{
    match bytes {
        [b'p', b'o', b'i', b'.', category @ ..] => Some(category),
        _ => None,
    }
}

// 1 to 32 bytes out of `a` to `z`, `0` to `9` and `_`.
fn is_category(bytes: &[u8]) -> bool
    ensures { result ≡ is_category bytes.now }
{
    are_category_bytes(bytes) && (1 <= bytes.len() && bytes.len() <= 32)
}

fn are_category_bytes(bytes: &[u8]) -> bool
    ensures { result ≡ list_all is_category_byte bytes.now }
{
    let mut rest = bytes;
    while let [c, after @ ..] = rest {
        if !is_category_byte(*c) {
            return false;
        }
        rest = after;
    }
    true
}

fn is_category_byte(c: u8) -> bool
    ensures { result ≡ is_category_byte c }
{
    (b'a' <= c && c <= b'z') || (is_digit(c) || c == b'_')
}

// The characters of a category, which are ASCII.
#[tactic(auto)]
fn name(category: &[u8]) -> &str
    requires { IsTrue (is_category category.now) }
    ensures { result.now ≡ category.now }
{
    match from_utf8(category) {
        Ok(text) => text,
        Err(_) => "",
    }
}
