//! A question, by its letter.

ghost use Rattle.std.specs.Prelude.{◌≡◌, ◌<◌, ◌+◌, ◌^◌, Some, None, IfSome, IfOk, IfErr, length, List, ℕ};
ghost use Rattle.std.specs.Option.{option_map};
ghost use Rattle.text_pieces.specs.Lines.{fields_from};
ghost use Rattle.live_model.specs.declared.queries.Query.TheVariants.{Prefix, Street as StreetQuery};
ghost use Rattle.live_model.specs.Points.{IsRect, rect_from_fields};
ghost use Rattle.live_model.specs.QueryTexts.{IsQuery, category_from, query_from, query_named, query_of, text_from, view_from};
ghost use Rattle.query_text.specs.declared.errors.QueryError.TheVariants.{Bad};
ghost use Rattle.query_text.specs.Reading.{AreTexts};
ghost use Rattle.query_text.specs.Forms.{query_in};

use crate::errors::QueryError;
use crate::fields::{next_corners, only_field, only_text, rect_of};
use live_model::{Query, Rect};
use std::alloc::Global;
use tag_rules::{read_category, read_zoom};
use text_pieces::next_field;

/// The question that a text spells: `V west south east north zoom`, `C category west south east north`, `A prefix`, `H street` or
/// `S west south east north`, parted by blanks, which may stand at either end too. `Bad` exactly where it spells none.
#[tactic(auto, unfolding(live_model::specs::QueryTexts::query_of), using(crate::proofs::Texts::all_texts))]
pub fn read_query(alloc: Global, text: &str) -> Result<Query, QueryError>
    ensures query { IfOk result (λ query. query_of text.now ≡ Some query) }
    ensures good { IfOk result IsQuery }
    ensures bad { IfErr result (λ e. e ≡ Bad → query_of text.now ≡ None) }
{
    read_fields(alloc, 0, text.as_bytes())
}

/// The question that the fields of bytes spell, which begin at a place of a line and are UTF-8. `Bad` exactly where they spell none.
#[tactic(auto, using(crate::proofs::Texts::texts_after))]
pub fn read_fields(alloc: Global, at: usize, bytes: &[u8]) -> Result<Query, QueryError>
    requires within { at + length bytes.now < 2 ^ 63 }
    requires texts { AreTexts (fields_from at bytes.now) }
    ensures query { IfOk result (λ query. query_from (fields_from at bytes.now) ≡ Some query) }
    ensures good { IfOk result IsQuery }
    ensures bad { IfErr result (λ e. e ≡ Bad → query_from (fields_from at bytes.now) ≡ None) }
{
    let Some(letter) = next_field(at, bytes) else {
        return Err(QueryError::Bad);
    };
    read_named(alloc, letter.bytes, letter.next, letter.rest)
}

/// The question with this letter.
fn read_named(alloc: Global, letter: &[u8], at: usize, bytes: &[u8]) -> Result<Query, QueryError>
    requires within { at + length bytes.now < 2 ^ 63 }
    requires texts { AreTexts (fields_from at bytes.now) }
    ensures query { IfOk result (λ query. query_named letter.now (fields_from at bytes.now) ≡ Some query) }
    ensures good { IfOk result IsQuery }
    ensures bad { IfErr result (λ e. e ≡ Bad → query_named letter.now (fields_from at bytes.now) ≡ None) }
{
    match form_of(letter) {
        Some(Form::View) => read_view(at, bytes),
        Some(Form::Category) => read_listing(alloc, at, bytes),
        Some(Form::Prefix) => read_prefix(alloc, at, bytes),
        Some(Form::Street) => read_street(alloc, at, bytes),
        Some(Form::Roads) => read_roads(at, bytes),
        None => Err(QueryError::Bad),
    }
}

/// What is asked for.
#[derive(Clone, Copy)]
enum Form {
    View,
    Category,
    Prefix,
    Street,
    Roads,
}

/// What a letter asks for.
fn form_of(letter: &[u8]) -> Option<Form>
    ensures { (fields : List (ℕ × List ℕ)) → query_named letter.now fields ≡ query_in result fields }
{
    if letter == b"V".as_slice() {
        Some(Form::View)
    } else if letter == b"C".as_slice() {
        Some(Form::Category)
    } else if letter == b"A".as_slice() {
        Some(Form::Prefix)
    } else if letter == b"H".as_slice() {
        Some(Form::Street)
    } else if letter == b"S".as_slice() {
        Some(Form::Roads)
    } else {
        None
    }
}

/// A rectangle and a zoom.
fn read_view(at: usize, bytes: &[u8]) -> Result<Query, QueryError>
    requires { at + length bytes.now < 2 ^ 63 }
    ensures query { IfOk result (λ query. view_from (fields_from at bytes.now) ≡ Some query) }
    ensures good { IfOk result IsQuery }
    ensures bad { IfErr result (λ e. e ≡ Bad → view_from (fields_from at bytes.now) ≡ None) }
{
    let Some(corners) = next_corners(at, bytes) else {
        return Err(QueryError::Bad);
    };
    let Some(zoom) = only_field(corners.north.next, corners.north.rest) else {
        return Err(QueryError::Bad);
    };
    let Some(rect) = rect_of(&corners) else {
        return Err(QueryError::Bad);
    };
    match read_zoom(zoom.bytes) {
        Some(zoom) => Ok(Query::View { rect, zoom }),
        None => Err(QueryError::Bad),
    }
}

/// A category and a rectangle.
fn read_listing(alloc: Global, at: usize, bytes: &[u8]) -> Result<Query, QueryError>
    requires { at + length bytes.now < 2 ^ 63 }
    ensures query { IfOk result (λ query. category_from (fields_from at bytes.now) ≡ Some query) }
    ensures good { IfOk result IsQuery }
    ensures bad { IfErr result (λ e. e ≡ Bad → category_from (fields_from at bytes.now) ≡ None) }
{
    let Some(field) = next_field(at, bytes) else {
        return Err(QueryError::Bad);
    };
    let Some(category) = read_category(alloc, field.bytes)? else {
        return Err(QueryError::Bad);
    };
    match only_rect(field.next, field.rest) {
        Some(rect) => Ok(Query::Category { category, rect }),
        None => Err(QueryError::Bad),
    }
}

/// A text with which names begin.
fn read_prefix(alloc: Global, at: usize, bytes: &[u8]) -> Result<Query, QueryError>
    requires within { at + length bytes.now < 2 ^ 63 }
    requires texts { AreTexts (fields_from at bytes.now) }
    ensures query { IfOk result (λ query. text_from Prefix (fields_from at bytes.now) ≡ Some query) }
    ensures good { IfOk result IsQuery }
    ensures bad { IfErr result (λ e. e ≡ Bad → text_from Prefix (fields_from at bytes.now) ≡ None) }
{
    let text = only_text(alloc, at, bytes)?;
    Ok(Query::Prefix { text })
}

/// The name of a street.
fn read_street(alloc: Global, at: usize, bytes: &[u8]) -> Result<Query, QueryError>
    requires within { at + length bytes.now < 2 ^ 63 }
    requires texts { AreTexts (fields_from at bytes.now) }
    ensures query { IfOk result (λ query. text_from StreetQuery (fields_from at bytes.now) ≡ Some query) }
    ensures good { IfOk result IsQuery }
    ensures bad { IfErr result (λ e. e ≡ Bad → text_from StreetQuery (fields_from at bytes.now) ≡ None) }
{
    let text = only_text(alloc, at, bytes)?;
    Ok(Query::Street { text })
}

/// A rectangle of roads.
fn read_roads(at: usize, bytes: &[u8]) -> Result<Query, QueryError>
    requires { at + length bytes.now < 2 ^ 63 }
    ensures query { IfOk result (λ query. option_map Query.Roads (rect_from_fields (fields_from at bytes.now)) ≡ Some query) }
    ensures good { IfOk result IsQuery }
    ensures bad { IfErr result (λ e. e ≡ Bad → option_map Query.Roads (rect_from_fields (fields_from at bytes.now)) ≡ None) }
{
    match only_rect(at, bytes) {
        Some(rect) => Ok(Query::Roads { rect }),
        None => Err(QueryError::Bad),
    }
}

/// The rectangle that the fields which are left spell, where they do.
fn only_rect(at: usize, bytes: &[u8]) -> Option<Rect>
    requires { at + length bytes.now < 2 ^ 63 }
    ensures rect { result ≡ rect_from_fields (fields_from at bytes.now) }
    ensures good { IfSome result IsRect }
{
    let Some(corners) = next_corners(at, bytes) else {
        return None;
    };
    match next_field(corners.north.next, corners.north.rest) {
        Some(_) => None,
        None => rect_of(&corners),
    }
}
