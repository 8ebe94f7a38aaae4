//! One object line: an id, and fields that are found by their letters.

ghost use Rattle.std.specs.Prelude.{◌≡◌, ◌<◌, ◌^◌, ◌+◌, [], length, false, None, Some, IfErr, IfOk, IsTrue, OnOk, unwrap_or};
ghost use Rattle.std.specs.Str.{is_utf8};
ghost use Rattle.text_pieces.specs.Lines.{fields_from};
ghost use Rattle.live_model.specs.ObjectLines.{line_of};
ghost use Rattle.live_model.specs.LineTests.{fields_tests, value_tests, failure_in, failure_kind};
ghost use Rattle.opl_reader.specs.Readings.{AreTexts, FailsWith, IsFieldsCause, IsRowCause};
ghost use Rattle.opl_reader.specs.Values.{FailsBy};
ghost use Rattle.opl_reader.specs.FoundFields.{has, with_value, with_field, field_failure, found_in, point_of, line_of_found};

use crate::lists::{members, refs, tags, user_name_break};
use crate::value_error::ValueError;
use crate::values::{coordinate, gone, is_count, is_time, letter, object, version};
use crate::{OplError, broken};
use live_model::{Entity, Kind, Letter, Line, Member, ObjId, OplKind, Point, Tag};
use owned_data::List;
use std::alloc::Global;
use std::str::from_utf8;
use text_pieces::next_field;

/// The magnitude of the longitudes furthest from 0, in units of 10^-7 degrees.
const MOST_LON: u32 = 1_800_000_000;

/// The magnitude of the latitudes furthest from 0, in units of 10^-7 degrees.
const MOST_LAT: u32 = 900_000_000;

/// The values of the fields that a line has, each under its letter. Of those that no line keeps only
/// that they were there.
#[derive(Drop)]
pub(crate) struct Found {
    version: Option<u32>,
    gone: Option<bool>,
    change: bool,
    time: bool,
    user_id: bool,
    user_name: bool,
    tags: Option<List<Tag>>,
    lon: Option<Option<i64>>,
    lat: Option<Option<i64>>,
    refs: Option<List<i64>>,
    members: Option<List<Member>>,
}

/// The line that a whole object line spells. The place of a break is counted from its first byte.
pub(crate) fn read_row(alloc: Global, row: &[u8]) -> Result<Line, OplError>
    requires { length row.now < 2 ^ 63 }
    ensures line { IfOk result (λ line. line_of row.now ≡ Some line) }
    ensures broken { IfErr result (IsRowCause row.now) }
{
    if !is_text(row) {
        return Err(broken(0, OplKind::NotUtf8));
    }
    let Some(head) = next_field(0, row) else {
        return Err(broken(0, OplKind::BadId));
    };
    if head.at != 0 {
        return Err(broken(0, OplKind::BadId));
    }
    let Some(id) = object(head.bytes) else {
        return Err(broken(0, OplKind::BadId));
    };
    let found = fields(alloc, id.kind(), head.next, head.rest)?;
    Ok(line(alloc, id, found))
}

// Whether bytes are UTF-8.
#[tactic(auto, using(crate::proofs::Texts::seen_text, crate::proofs::Texts::seen_other))]
fn is_text(bytes: &[u8]) -> bool
    ensures { result ≡ is_utf8 bytes.now }
{
    match from_utf8(bytes) {
        Ok(_) => true,
        Err(_) => false,
    }
}

// The same bytes as characters. That they are UTF-8 was seen before, with their whole line.
#[tactic(auto, using(crate::proofs::Texts::seen_other))]
fn text(bytes: &[u8]) -> &str
    requires { IsTrue (is_utf8 bytes.now) }
    ensures { result.now ≡ bytes.now }
{
    match from_utf8(bytes) {
        Ok(text) => text,
        Err(_) => "",
    }
}

// The values of the fields of bytes that begin at a place of the line.
fn fields(alloc: Global, kind: Kind, at: usize, bytes: &[u8]) -> Result<Found, OplError>
    requires within { at + length bytes.now < 2 ^ 63 }
    requires texts { AreTexts (fields_from at bytes.now) }
    ensures fields { OnOk result (failure_in (fields_tests kind [] (fields_from at bytes.now)) ≡ None) }
    ensures found { IfOk result (λ found. found ≡ found_in (fields_from at bytes.now)) }
    ensures broken { IfErr result (IsFieldsCause kind (fields_from at bytes.now) (at + length bytes.now)) }
{
    let mut found = Found::new();
    let mut at = at;
    let mut rest = bytes;
    while let Some(field) = next_field(at, rest) {
        match add_field(alloc, kind, &mut found, field.bytes) {
            Ok(()) => {}
            Err(ValueError::Bad(break_kind)) => return Err(broken(field.at, break_kind)),
            Err(ValueError::NoMemory) => return Err(OplError::NoMemory),
        }
        at = field.next;
        rest = field.rest;
    }
    Ok(found)
}

// Finds the value of one more field.
fn add_field(alloc: Global, kind: Kind, found: &mut Found, field: &[u8]) -> Result<(), ValueError>
    requires { IsTrue (is_utf8 field.now) }
    ensures ok { OnOk result (field_failure kind field.now found.old ≡ None) }
    ensures found { OnOk result (found.new ≡ with_field kind field.now found.old) }
    ensures bad { IfErr result (FailsWith (field_failure kind field.now found.old)) }
{
    let Some((first, value)) = field.split_first() else {
        return Err(ValueError::Bad(OplKind::BadField));
    };
    let Some(letter) = letter(kind, *first) else {
        return Err(ValueError::Bad(OplKind::BadField));
    };
    if found.has(letter) {
        return Err(ValueError::Bad(OplKind::Twice));
    }
    found.add(alloc, letter, value)?;
    Ok(())
}

impl Found {
    // Nothing is found yet.
    fn new() -> Found
        ensures { result ≡ found_in [] }
    {
        Found {
            version: None,
            gone: None,
            change: false,
            time: false,
            user_id: false,
            user_name: false,
            tags: None,
            lon: None,
            lat: None,
            refs: None,
            members: None,
        }
    }

    // Whether a field of this letter was found.
    fn has(&self, letter: Letter) -> bool
        ensures { result ≡ has letter self.now }
    {
        match letter {
            Letter::Version => self.version.is_some(),
            Letter::State => self.gone.is_some(),
            Letter::Change => self.change,
            Letter::Time => self.time,
            Letter::UserId => self.user_id,
            Letter::UserName => self.user_name,
            Letter::Tags => self.tags.is_some(),
            Letter::Lon => self.lon.is_some(),
            Letter::Lat => self.lat.is_some(),
            Letter::Refs => self.refs.is_some(),
            Letter::Members => self.members.is_some(),
        }
    }

    // Reads the value of a field and keeps it under its letter.
    fn add(&mut self, alloc: Global, letter: Letter, value: &[u8]) -> Result<(), ValueError>
        requires { IsTrue (is_utf8 value.now) }
        ensures ok { OnOk result (self.new ≡ with_value letter value.now self.old) }
        ensures value { OnOk result (failure_kind (value_tests letter value.now) ≡ None) }
        ensures bad { IfErr result (FailsBy (value_tests letter value.now)) }
    {
        match letter {
            Letter::Version => self.version = Some(or_bad_number(version(value))?),
            Letter::State => self.gone = Some(gone(value).ok_or(ValueError::Bad(
                OplKind::BadField,
            ))?),
            Letter::Change => {
                see_number(is_count(value))?;
                self.change = true;
            }
            Letter::Time => {
                see_number(is_time(value))?;
                self.time = true;
            }
            Letter::UserId => {
                see_number(is_count(value))?;
                self.user_id = true;
            }
            Letter::UserName => {
                see_user_name(value)?;
                self.user_name = true;
            }
            Letter::Tags => self.tags = Some(tags(alloc, text(value))?),
            Letter::Lon => self.lon = Some(or_bad_number(coordinate(value, MOST_LON))?),
            Letter::Lat => self.lat = Some(or_bad_number(coordinate(value, MOST_LAT))?),
            Letter::Refs => self.refs = Some(refs(alloc, value)?),
            Letter::Members => self.members = Some(members(alloc, text(value))?),
        }
        Ok(())
    }
}

// The value of a number, where it is one.
fn or_bad_number<T: Drop>(value: Option<T>) -> Result<T, ValueError>
    ensures ok { IfOk result (λ x. value ≡ Some x) }
    ensures bad { IfErr result (λ e. (e ≡ ValueError.Bad OplKind.BadNumber) × (value ≡ None)) }
{
    match value {
        Some(value) => Ok(value),
        None => Err(ValueError::Bad(OplKind::BadNumber)),
    }
}

// Nothing, where a value is a number.
fn see_number(is_number: bool) -> Result<(), ValueError>
    ensures ok { OnOk result (IsTrue is_number) }
    ensures bad { IfErr result (λ e. (e ≡ ValueError.Bad OplKind.BadNumber) × (is_number ≡ false)) }
{
    if is_number {
        Ok(())
    } else {
        Err(ValueError::Bad(OplKind::BadNumber))
    }
}

// Nothing, where a value is a user's name.
fn see_user_name(value: &[u8]) -> Result<(), ValueError>
    requires { IsTrue (is_utf8 value.now) }
    ensures ok { OnOk result (failure_kind (value_tests Letter.UserName value.now) ≡ None) }
    ensures bad { IfErr result (FailsBy (value_tests Letter.UserName value.now)) }
{
    match user_name_break(text(value)) {
        Some(kind) => Err(ValueError::Bad(kind)),
        None => Ok(()),
    }
}

// The line of an object with these values.
fn line(alloc: Global, id: ObjId, found: Found) -> Line
    ensures { result ≡ line_of_found id found }
{
    let version = found.version.unwrap_or(0);
    if found.gone.unwrap_or(false) {
        return Line::Gone(id, version);
    }
    Line::Live(Entity {
        id,
        version,
        tags: or_empty(alloc, found.tags),
        place: place(found.lon.unwrap_or(None), found.lat.unwrap_or(None)),
        refs: or_empty(alloc, found.refs),
        members: or_empty(alloc, found.members),
    })
}

fn or_empty<T: Drop>(alloc: Global, list: Option<List<T>>) -> List<T>
    ensures { result ≡ unwrap_or list [] }
{
    match list {
        Some(list) => list,
        None => List::new(alloc),
    }
}

// The point at a longitude and a latitude, where both are there.
fn place(lon: Option<i64>, lat: Option<i64>) -> Option<Point>
    ensures { result ≡ point_of lon lat }
{
    Point::from_degrees(lon?, lat?)
}
