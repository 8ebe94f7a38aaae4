//! The fields of a question, each read for itself.

ghost use Rattle.std.specs.Prelude.{◌≡◌, ◌≢◌, ◌<◌, ◌+◌, ◌^◌, ◌∷◌, [], Some, None, IfSome, IfOk, IfErr, length, MatchOption};
ghost use Rattle.text_pieces.specs.Escapes.{text_of};
ghost use Rattle.text_pieces.specs.Lines.{fields_from};
ghost use Rattle.live_model.specs.Points.{IsRect};
ghost use Rattle.query_text.specs.declared.errors.QueryError.TheVariants.{Bad};
ghost use Rattle.std.specs.Prelude.{IsTrue};
ghost use Rattle.std.specs.Str.{is_utf8};
ghost use Rattle.query_text.specs.Reading.{AreCorners, AreTexts, rect_of_corners, spelled_by};

use crate::errors::QueryError;
use live_model::{Rect, read_escaped};
use owned_data::Text;
use std::alloc::Global;
use std::str::from_utf8;
use text_pieces::{EscapeError, Field, degrees, next_field};

/// Half a turn and a quarter, in units of 10^-7 degrees.
const HALF_TURN: i64 = 1_800_000_000;

const QUARTER_TURN: i64 = 900_000_000;

/// The four fields of a rectangle.
#[derive(Clone, Copy)]
pub(crate) struct Corners<'a> {
    pub(crate) west: Field<'a>,
    pub(crate) south: Field<'a>,
    pub(crate) east: Field<'a>,
    pub(crate) north: Field<'a>,
}

/// The next four fields, where there are so many.
pub(crate) fn next_corners(at: usize, bytes: &[u8]) -> Option<Corners<'_>>
    requires { at + length bytes.now < 2 ^ 63 }
    ensures { MatchOption result (length (fields_from at bytes.now) < 4) (AreCorners at bytes.now) }
{
    let Some(west) = next_field(at, bytes) else {
        return None;
    };
    let Some(south) = next_field(west.next, west.rest) else {
        return None;
    };
    let Some(east) = next_field(south.next, south.rest) else {
        return None;
    };
    let Some(north) = next_field(east.next, east.rest) else {
        return None;
    };
    Some(Corners {
        west,
        south,
        east,
        north,
    })
}

/// The rectangle that four fields spell, where they do.
pub(crate) fn rect_of(corners: &Corners<'_>) -> Option<Rect>
    ensures rect { result ≡ rect_of_corners corners.now }
    ensures good { IfSome result IsRect }
{
    let west = degrees(corners.west.bytes, HALF_TURN)?;
    let south = degrees(corners.south.bytes, QUARTER_TURN)?;
    let east = degrees(corners.east.bytes, HALF_TURN)?;
    let north = degrees(corners.north.bytes, QUARTER_TURN)?;
    match Rect::new(west, south, east, north) {
        Ok(rect) => Some(rect),
        Err(_) => None,
    }
}

/// The one field that is left, where there is one and no more.
pub(crate) fn only_field(at: usize, bytes: &[u8]) -> Option<Field<'_>>
    requires { at + length bytes.now < 2 ^ 63 }
    ensures fields { MatchOption result (length (fields_from at bytes.now) ≢ 1) (λ f. fields_from at bytes.now ≡ (f.at, f.bytes.now) ∷ []) }
    ensures some { IfSome result (λ f. 0 < length f.bytes.now) }
{
    let Some(field) = next_field(at, bytes) else {
        return None;
    };
    match next_field(field.next, field.rest) {
        Some(_) => None,
        None => Some(field),
    }
}

/// The text that the one field that is left spells. `Bad` exactly where there is no such field, or it spells none.
pub(crate) fn only_text(alloc: Global, at: usize, bytes: &[u8]) -> Result<Text, QueryError>
    requires within { at + length bytes.now < 2 ^ 63 }
    requires texts { AreTexts (fields_from at bytes.now) }
    ensures text { IfOk result (λ text. spelled_by (fields_from at bytes.now) ≡ Some text) }
    ensures some { IfOk result (λ text. text ≢ []) }
    ensures bad { IfErr result (λ e. e ≡ Bad → spelled_by (fields_from at bytes.now) ≡ None) }
{
    let Some(field) = only_field(at, bytes) else {
        return Err(QueryError::Bad);
    };
    match read_escaped(alloc, characters(field.bytes)) {
        Ok(text) => Ok(text),
        Err(EscapeError::NoMemory) => Err(QueryError::NoMemory),
        Err(EscapeError::Bad) => Err(QueryError::Bad),
        Err(EscapeError::NotPlain) => Err(QueryError::Bad),
    }
}

/// The same bytes as characters. That they are UTF-8 was seen before, with the whole text.
#[tactic(auto, using(tag_rules::proofs::Texts::seen_other))]
fn characters(bytes: &[u8]) -> &str
    requires { IsTrue (is_utf8 bytes.now) }
    ensures { result.now ≡ bytes.now }
{
    match from_utf8(bytes) {
        Ok(text) => text,
        Err(_) => "",
    }
}
