//! What the value of a field spells: a function for each letter.

ghost use Rattle.std.specs.Prelude.{◌≡◌, ◌==◌, ◌≤◌, if◌then◌else◌, length, MatchOption, None, Some};
ghost use Rattle.std.specs.List.{position_or_len};
ghost use Rattle.live_model.specs.FieldValues.{kind_of, object_of, version_of, gone_of, coordinate_of, is_count, is_time, has_form, parted_at};
ghost use Rattle.text_pieces.specs.Numbers.{is_digit};
ghost use Rattle.live_model.specs.ObjectLines.{common_letter_of, letter_of};

use live_model::{Kind, Letter, ObjId};
use text_pieces::{degrees, is_digit, is_digits, number, read_id};

/// How many digits a changeset or a user has at most.
const MOST_COUNT_DIGITS: usize = 19;

/// The letter of a byte on objects of a kind.
#[tactic(auto, unfolding(live_model::specs::ObjectLines::letter_of))]
pub(crate) fn letter(kind: Kind, byte: u8) -> Option<Letter>
    ensures { result ≡ letter_of kind byte }
{
    match kind {
        Kind::Node => node_letter(byte),
        Kind::Way => way_letter(byte),
        Kind::Relation => relation_letter(byte),
    }
}

#[tactic(auto, unfolding(live_model::specs::ObjectLines::letter_of))]
fn node_letter(byte: u8) -> Option<Letter>
    ensures { result ≡ letter_of Kind.Node byte }
{
    match byte {
        b'x' => Some(Letter::Lon),
        b'y' => Some(Letter::Lat),
        _ => common_letter(byte),
    }
}

#[tactic(auto, unfolding(live_model::specs::ObjectLines::letter_of))]
fn way_letter(byte: u8) -> Option<Letter>
    ensures { result ≡ letter_of Kind.Way byte }
{
    match byte {
        b'N' => Some(Letter::Refs),
        _ => common_letter(byte),
    }
}

#[tactic(auto, unfolding(live_model::specs::ObjectLines::letter_of))]
fn relation_letter(byte: u8) -> Option<Letter>
    ensures { result ≡ letter_of Kind.Relation byte }
{
    match byte {
        b'M' => Some(Letter::Members),
        _ => common_letter(byte),
    }
}

// The letters that stand on objects of every kind.
fn common_letter(byte: u8) -> Option<Letter>
    ensures { result ≡ common_letter_of byte }
{
    match byte {
        b'v' => Some(Letter::Version),
        b'd' => Some(Letter::State),
        b'c' => Some(Letter::Change),
        b't' => Some(Letter::Time),
        b'i' => Some(Letter::UserId),
        b'u' => Some(Letter::UserName),
        b'T' => Some(Letter::Tags),
        _ => None,
    }
}

/// An id with the letter of its kind.
#[tactic(auto, unfolding(live_model::specs::FieldValues::object_of), using(live_model::proofs::ValueBounds::id_within))]
pub(crate) fn object(bytes: &[u8]) -> Option<ObjId>
    ensures { result ≡ object_of bytes.now }
{
    let Some((first, digits)) = bytes.split_first() else {
        return None;
    };
    let Some(kind) = kind(*first) else {
        return None;
    };
    let Some(number) = read_id(digits) else {
        return None;
    };
    ObjId::new(kind, number)
}

fn kind(byte: u8) -> Option<Kind>
    ensures { result ≡ kind_of byte }
{
    match byte {
        b'n' => Some(Kind::Node),
        b'w' => Some(Kind::Way),
        b'r' => Some(Kind::Relation),
        _ => None,
    }
}

/// A version: 1 to 10 digits, at most 4,294,967,295.
#[tactic(auto, unfolding(live_model::specs::FieldValues::version_of), using(live_model::proofs::ValueBounds::number_within))]
pub(crate) fn version(value: &[u8]) -> Option<u32>
    ensures { result ≡ version_of value.now }
{
    let version = number(value, 10, u64::from(u32::MAX))?;
    Some(version as u32)
}

/// Whether the object is gone: `D`, or `V` for one that is live.
#[tactic(auto, unfolding(live_model::specs::FieldValues::gone_of))]
pub(crate) fn gone(value: &[u8]) -> Option<bool>
    ensures { result ≡ gone_of value.now }
{
    match value {
        [b'V'] => Some(false),
        [b'D'] => Some(true),
        _ => None,
    }
}

/// A coordinate in units of 10^-7 degrees, of magnitude at most `most`, or nothing.
#[tactic(auto, unfolding(live_model::specs::FieldValues::coordinate_of))]
pub(crate) fn coordinate(value: &[u8], most: u32) -> Option<Option<i64>>
    ensures { result ≡ coordinate_of most value.now }
{
    if value.is_empty() {
        return Some(None);
    }
    let coordinate = degrees(value, i64::from(most))?;
    Some(Some(coordinate))
}

/// Whether a value is a changeset or a user: a minus or none, and 1 to 19 digits.
#[tactic(auto, unfolding(live_model::specs::FieldValues::is_count))]
pub(crate) fn is_count(value: &[u8]) -> bool
    ensures { result ≡ is_count value.now }
{
    match value {
        [b'-', digits @ ..] => is_digits(digits, MOST_COUNT_DIGITS),
        _ => is_digits(value, MOST_COUNT_DIGITS),
    }
}

/// Whether a value is nothing, or a time of the form of `2024-01-31T23:59:59Z`.
#[tactic(auto, unfolding(live_model::specs::FieldValues::is_time))]
pub(crate) fn is_time(value: &[u8]) -> bool
    ensures { result ≡ is_time value.now }
{
    value.is_empty() || has_form(b"dddd-dd-ddTdd:dd:ddZ", value)
}

// Whether bytes have a form: a digit for each `d` of it, and else the byte itself.
fn has_form(form: &[u8], value: &[u8]) -> bool
    ensures { result ≡ has_form form.now value.now }
{
    let mut wanted = form;
    let mut rest = value;
    while let [f, more @ ..] = wanted {
        let [c, after @ ..] = rest else {
            return false;
        };
        if !fits(*f, *c) {
            return false;
        }
        wanted = more;
        rest = after;
    }
    rest.is_empty()
}

fn fits(form: u8, c: u8) -> bool
    ensures { result ≡ (if form == 100 then is_digit c else c == form) }
{
    if form == b'd' { is_digit(c) } else { c == form }
}

/// What stands before the first byte `c` and what stands behind it.
#[tactic(auto, using(crate::proofs::Cuts::cut_some, crate::proofs::Cuts::cut_none))]
pub(crate) fn cut(bytes: &[u8], c: u8) -> Option<(&[u8], &[u8])>
    ensures { MatchOption result (parted_at c bytes.now ≡ None) (λ parts. parted_at c bytes.now ≡ Some (parts.0.now, parts.1.now)) }
{
    let i = place_of(bytes, c);
    if i < bytes.len() {
        Some((&bytes[..i], &bytes[i + 1..]))
    } else {
        None
    }
}

// The place of the first byte `c`, or the length where there is none.
#[tactic(auto, using(std::proofs::lemmas::List::Sums::position_or_len_is))]
fn place_of(bytes: &[u8], c: u8) -> usize
    ensures place { result ≡ position_or_len (λ b. b == c) bytes.now }
    ensures within { result ≤ length bytes.now }
{
    for (i, b) in bytes.iter().enumerate() {
        if *b == c {
            return i;
        }
    }
    bytes.len()
}
