//! The values of the fields, each read once.

ghost use Rattle.std.specs.Prelude.{[], None, true, ◌≡◌, ◌≤◌, ◌==◌, if◌then◌else◌, Some, length, IfOk, IfSome, MatchOption};
ghost use Rattle.std.specs.Option.{option_map};
ghost use Rattle.live_model.specs.FieldValues.{tags_from, pairs_of, version_of, gone_of, is_count, is_time, coordinate_of, has_form};
ghost use Rattle.live_model.specs.ObjectLines.{letter_of, common_letter_of};
ghost use Rattle.live_model.specs.LineTests.{value_tests, failure_kind};
ghost use Rattle.text_pieces.specs.Numbers.{is_digit};
ghost use Rattle.opl_rows.specs.Fronts.{front, back, is_end, plain_of, behind_plain, is_plain};
ghost use Rattle.opl_rows.specs.Rows.{found_of, ValueRead};

use crate::held::Tags;
use crate::members::read_members;
use crate::numbers::{behind_minus, degrees, is_digit, is_end, number};
use crate::refs::read_refs;
use crate::rows::Row;
use crate::texts::{read_tags, text};
use live_model::{Kind, Letter};
use std::alloc::AllocError;
use text_pieces::is_blank;

/// The letter of a byte on objects of a kind.
#[tactic(auto, unfolding(live_model::specs::ObjectLines::letter_of))]
pub(crate) fn letter(kind: Kind, byte: u8) -> Option<Letter>
    ensures { result ≡ letter_of kind byte }
{
    match kind {
        Kind::Node => node_letter(byte),
        Kind::Way => way_letter(byte),
        Kind::Relation => relation_letter(byte),
    }
}

#[tactic(auto, unfolding(live_model::specs::ObjectLines::letter_of))]
fn node_letter(byte: u8) -> Option<Letter>
    ensures { result ≡ letter_of Kind.Node byte }
{
    match byte {
        b'x' => Some(Letter::Lon),
        b'y' => Some(Letter::Lat),
        _ => common_letter(byte),
    }
}

#[tactic(auto, unfolding(live_model::specs::ObjectLines::letter_of))]
fn way_letter(byte: u8) -> Option<Letter>
    ensures { result ≡ letter_of Kind.Way byte }
{
    match byte {
        b'N' => Some(Letter::Refs),
        _ => common_letter(byte),
    }
}

#[tactic(auto, unfolding(live_model::specs::ObjectLines::letter_of))]
fn relation_letter(byte: u8) -> Option<Letter>
    ensures { result ≡ letter_of Kind.Relation byte }
{
    match byte {
        b'M' => Some(Letter::Members),
        _ => common_letter(byte),
    }
}

/// The letters that stand on objects of every kind.
fn common_letter(byte: u8) -> Option<Letter>
    ensures { result ≡ common_letter_of byte }
{
    match byte {
        b'v' => Some(Letter::Version),
        b'd' => Some(Letter::State),
        b'c' => Some(Letter::Change),
        b't' => Some(Letter::Time),
        b'i' => Some(Letter::UserId),
        b'u' => Some(Letter::UserName),
        b'T' => Some(Letter::Tags),
        _ => None,
    }
}

/// The rest behind the value of a letter, which the row then holds too.
pub(crate) fn value<'a>(
    letter: Letter,
    bytes: &'a [u8],
    row: &mut Row,
) -> Result<Option<&'a [u8]>, AllocError>
    ensures { IfOk result (λ r. IfSome r (λ rest. ValueRead letter bytes.now rest.now (found_of row.old) (found_of row.new))) }
{
    match letter {
        Letter::Version => {
            let Some((found, rest)) = version(bytes) else {
                return Ok(None);
            };
            row.version = Some(found);
            Ok(Some(rest))
        }
        Letter::State => {
            let Some((found, rest)) = state(bytes) else {
                return Ok(None);
            };
            row.gone = Some(found);
            Ok(Some(rest))
        }
        Letter::Change => {
            let Some(rest) = count(bytes) else {
                return Ok(None);
            };
            row.change = true;
            Ok(Some(rest))
        }
        Letter::Time => {
            let Some(rest) = time(bytes) else {
                return Ok(None);
            };
            row.time = true;
            Ok(Some(rest))
        }
        Letter::UserId => {
            let Some(rest) = count(bytes) else {
                return Ok(None);
            };
            row.user_id = true;
            Ok(Some(rest))
        }
        Letter::UserName => {
            row.scratch.clear();
            let Some(rest) = name(bytes, &mut row.scratch)? else {
                return Ok(None);
            };
            row.user_name = true;
            Ok(Some(rest))
        }
        Letter::Lon => {
            let Some((found, rest)) = coordinate(bytes, 1_800_000_000) else {
                return Ok(None);
            };
            row.lon = Some(found);
            Ok(Some(rest))
        }
        Letter::Lat => {
            let Some((found, rest)) = coordinate(bytes, 900_000_000) else {
                return Ok(None);
            };
            row.lat = Some(found);
            Ok(Some(rest))
        }
        Letter::Tags => {
            row.tags.clear();
            let Some(rest) = read_tags(bytes, &mut row.tags)? else {
                return Ok(None);
            };
            row.has_tags = true;
            Ok(Some(rest))
        }
        Letter::Refs => {
            row.refs.clear();
            let Some(rest) = read_refs(bytes, &mut row.refs)? else {
                return Ok(None);
            };
            row.has_refs = true;
            Ok(Some(rest))
        }
        Letter::Members => {
            row.members.clear();
            let Some(rest) = read_members(row.alloc, bytes, &mut row.scratch, &mut row.members)?
            else {
                return Ok(None);
            };
            row.has_members = true;
            Ok(Some(rest))
        }
    }
}

#[tactic(auto, unfolding(live_model::specs::FieldValues::version_of))]
fn version(bytes: &[u8]) -> Option<(u32, &[u8])>
    ensures value { IfSome result (λ n. version_of (front bytes.now) ≡ Some n.0) }
    ensures rest { IfSome result (λ n. n.1.now ≡ back bytes.now) }
{
    let Some(found) = number(bytes, 10, 4_294_967_295) else {
        return None;
    };
    Some((found.value as u32, found.rest))
}

#[tactic(auto, unfolding(live_model::specs::FieldValues::gone_of))]
fn state(bytes: &[u8]) -> Option<(bool, &[u8])>
    ensures value { IfSome result (λ n. gone_of (front bytes.now) ≡ Some n.0) }
    ensures rest { IfSome result (λ n. n.1.now ≡ back bytes.now) }
{
    match bytes {
        [b'V', rest @ ..] if is_end(rest) => Some((false, rest)),
        [b'D', rest @ ..] if is_end(rest) => Some((true, rest)),
        _ => None,
    }
}

/// A changeset or a user.
#[tactic(auto, using(crate::proofs::Plain::count_is))]
fn count(bytes: &[u8]) -> Option<&[u8]>
    ensures value { IfSome result (λ rest. is_count (front bytes.now) ≡ true) }
    ensures rest { IfSome result (λ rest. rest.now ≡ back bytes.now) }
{
    let Some(found) = number(behind_minus(bytes), 19, 18_446_744_073_709_551_615) else {
        return None;
    };
    Some(found.rest)
}

/// Nothing, or a time.
#[tactic(auto, unfolding(live_model::specs::FieldValues::is_time))]
fn time(bytes: &[u8]) -> Option<&[u8]>
    ensures value { IfSome result (λ rest. is_time (front bytes.now) ≡ true) }
    ensures rest { IfSome result (λ rest. rest.now ≡ back bytes.now) }
{
    if is_end(bytes) {
        return Some(bytes);
    }
    let Some(rest) = formed(b"dddd-dd-ddTdd:dd:ddZ", bytes) else {
        return None;
    };
    Some(rest)
}

/// What stands behind a value of this form.
fn formed<'a>(form: &[u8], bytes: &'a [u8]) -> Option<&'a [u8]>
    ensures value { IfSome result (λ rest. has_form form.now (front bytes.now) ≡ true) }
    ensures rest { IfSome result (λ rest. rest.now ≡ back bytes.now) }
{
    let mut wanted = form;
    let mut rest = bytes;
    while let [f, more @ ..] = wanted {
        let [c, after @ ..] = rest else {
            return None;
        };
        if is_blank(*c) || !fits(*f, *c) {
            return None;
        }
        wanted = more;
        rest = after;
    }
    if is_end(rest) { Some(rest) } else { None }
}

/// Whether a byte fits one of a form: a digit for `d`, and else the byte itself.
fn fits(form: u8, c: u8) -> bool
    ensures { result ≡ (if form == 100 then is_digit c else c == form) }
{
    if form == b'd' { is_digit(c) } else { c == form }
}

/// A coordinate, or nothing.
#[tactic(auto, unfolding(live_model::specs::FieldValues::coordinate_of))]
fn coordinate(bytes: &[u8], most: u64) -> Option<(Option<i64>, &[u8])>
    requires { most ≤ 1800000000 }
    ensures value { IfSome result (λ n. coordinate_of most (front bytes.now) ≡ Some n.0) }
    ensures rest { IfSome result (λ n. n.1.now ≡ back bytes.now) }
{
    if is_end(bytes) {
        return Some((None, bytes));
    }
    let Some(found) = degrees(bytes, most) else {
        return None;
    };
    Some((Some(found.value), found.rest))
}

/// A user's name, which is spelled into a buffer that nobody reads.
fn name<'a>(bytes: &'a [u8], scratch: &mut Tags) -> Result<Option<&'a [u8]>, AllocError>
    ensures value { IfOk result (λ r. IfSome r (λ rest. failure_kind (value_tests Letter.UserName (front bytes.now)) ≡ None)) }
    ensures rest { IfOk result (λ r. IfSome r (λ rest. rest.now ≡ back bytes.now)) }
{
    let Some(rest) = text(bytes, scratch)? else {
        return Ok(None);
    };
    if !is_end(rest) {
        return Ok(None);
    }
    Ok(Some(rest))
}
