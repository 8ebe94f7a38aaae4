//! The fields of a script line, each read for itself.

ghost use Rattle.std.specs.Prelude.{◌≡◌, ◌≢◌, ◌<◌, ◌≤◌, [], length, Some, None, IfSome, IfOk, IfErr, IsTrue};
ghost use Rattle.std.specs.Str.{is_utf8};
ghost use Rattle.line_texts.specs.declared.errors.LineError.TheVariants.{Broken};
ghost use Rattle.script_text.specs.Scripts.{lane_of, name_of, verb_of};
ghost use Rattle.script_text.specs.Names.{IsUnnamed};

use crate::breaks::{ScriptBreak, ScriptError, ScriptKind};
use live_model::read_escaped;
use owned_data::Text;
use std::alloc::Global;
use std::str::from_utf8;
use text_pieces::{EscapeError, Field, number};

/// What a line asks for.
#[derive(Clone, Copy)]
pub(crate) enum Verb {
    Publishing,
    Asking,
}

/// The lane that a field names.
#[tactic(auto, unfolding(crate::specs::Scripts::lane_of))]
pub(crate) fn lane_named(field: &[u8]) -> Option<u8>
    ensures lane { result ≡ lane_of field.now }
    ensures few { IfSome result (λ lane. lane ≤ 7) }
{
    match number(field, 1, 7) {
        Some(lane) => Some(lane as u8),
        None => None,
    }
}

/// The verb that a field names.
#[tactic(auto, unfolding(crate::specs::Scripts::verb_of))]
pub(crate) fn verb_named(field: &[u8]) -> Option<Verb>
    ensures { result ≡ verb_of field.now }
{
    if field == b"P".as_slice() {
        Some(Verb::Publishing)
    } else if field == b"Q".as_slice() {
        Some(Verb::Asking)
    } else {
        None
    }
}

/// A line that breaks.
pub(crate) fn broken(at: usize, kind: ScriptKind) -> ScriptError
    ensures { result ≡ Broken (record { at = at; kind = kind }) }
{
    ScriptError::Broken(ScriptBreak { at, kind })
}

/// The name that a field spells, reported at its place where it spells none.
pub(crate) fn name_in(alloc: Global, field: &Field<'_>) -> Result<Text, ScriptError>
    requires some { 0 < length field.now.bytes.now }
    requires text { IsTrue (is_utf8 field.now.bytes.now) }
    ensures name { IfOk result (λ name. name_of field.now.bytes.now ≡ Some name) }
    ensures some { IfOk result (λ name. name ≢ []) }
    ensures bad { IfErr result (IsUnnamed field.now.at field.now.bytes.now) }
{
    match read_escaped(alloc, characters(field.bytes)) {
        Ok(name) => Ok(name),
        Err(EscapeError::NoMemory) => Err(ScriptError::NoMemory),
        Err(EscapeError::Bad) => Err(broken(field.at, ScriptKind::BadName)),
        Err(EscapeError::NotPlain) => Err(broken(field.at, ScriptKind::BadName)),
    }
}

/// The same bytes as characters. That they are UTF-8 was seen before, with the whole line.
#[tactic(auto, using(tag_rules::proofs::Texts::seen_other))]
pub(crate) fn characters(bytes: &[u8]) -> &str
    requires { IsTrue (is_utf8 bytes.now) }
    ensures { result.now ≡ bytes.now }
{
    match from_utf8(bytes) {
        Ok(text) => text,
        Err(_) => "",
    }
}
