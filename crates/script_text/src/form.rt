//! A line of a script: a lane, a verb, and what the verb takes.

ghost use Rattle.std.specs.Prelude.{◌≡◌, ◌<◌, ◌≤◌, ◌+◌, ◌^◌, length, Some, IfErr, IfOk, IsTrue};
ghost use Rattle.std.specs.Str.{is_utf8};
ghost use Rattle.text_pieces.specs.Lines.{fields_from};
ghost use Rattle.query_text.specs.Reading.{AreTexts};
ghost use Rattle.line_texts.specs.Readings.{IsLineCause};
ghost use Rattle.script_text.specs.Scripts.{IsStep, IsWhat, field_tests, first_place, publication_in, script_form, step_in, step_of, tests_after, what_in};
ghost use Rattle.script_text.specs.Readings.{IsFailure};
ghost use Rattle.script_text.specs.declared.fields.Verb.TheVariants.{Asking, Publishing};

use crate::breaks::{ScriptError, ScriptKind};
use crate::fields::{Verb, broken, characters, lane_named, name_in, verb_named};
use crate::steps::{Step, What};
use hour_words::read_hour;
use line_texts::LineForm;
use query_text::{QueryError, read_fields};
use std::alloc::Global;
use std::str::from_utf8;
use text_pieces::next_field;

/// The lines of scripts.
pub struct ScriptForm;

impl LineForm for ScriptForm {
    ghost use Rattle.script_text.specs.Scripts.{IsStep, script_form};
    ghost use Rattle.script_text.specs.StepLaw.{steps_are_exact};

    type Item = Step;

    type Kind = ScriptKind;

    ghost form = { script_form };

    ghost is_good = { IsStep };

    fn most() -> usize {
        100_000
    }

    fn over() -> ScriptKind {
        ScriptKind::OverLimit
    }

    fn read_line(alloc: Global, row: &[u8]) -> Result<Step, ScriptError> {
        read_row(alloc, row)
    }

    ghost exact = { steps_are_exact };
}

/// The step that a whole line spells. The place of a break is counted from its first byte.
#[tactic(auto, unfolding(crate::specs::Scripts::step_of, crate::specs::Scripts::step_break), using(tag_rules::proofs::Texts::fields_are_texts))]
fn read_row(alloc: Global, row: &[u8]) -> Result<Step, ScriptError>
    requires { length row.now < 2 ^ 63 }
    ensures step { IfOk result (λ step. step_of row.now ≡ Some step) }
    ensures good { IfOk result IsStep }
    ensures broken { IfErr result (IsLineCause script_form row.now) }
{
    if !is_text(row) {
        return Err(broken(0, ScriptKind::NotUtf8));
    }
    read_step(alloc, row)
}

/// Whether bytes are UTF-8.
#[tactic(auto, using(tag_rules::proofs::Texts::seen_text, tag_rules::proofs::Texts::seen_other))]
fn is_text(bytes: &[u8]) -> bool
    ensures { result ≡ is_utf8 bytes.now }
{
    match from_utf8(bytes) {
        Ok(_) => true,
        Err(_) => false,
    }
}

/// The step that the fields of a line spell.
#[tactic(auto, using(crate::proofs::LineFields::texts_after))]
fn read_step(alloc: Global, row: &[u8]) -> Result<Step, ScriptError>
    requires short { length row.now < 2 ^ 63 }
    requires texts { AreTexts (fields_from 0 row.now) }
    ensures step { IfOk result (λ step. step_in (fields_from 0 row.now) ≡ Some step) }
    ensures good { IfOk result IsStep }
    ensures broken { IfErr result (IsFailure (field_tests (length row.now) (fields_from 0 row.now)) (length row.now)) }
{
    let end = row.len();
    let Some(first) = next_field(0, row) else {
        return Err(broken(end, ScriptKind::BadLane));
    };
    let Some(lane) = lane_named(first.bytes) else {
        return Err(broken(first.at, ScriptKind::BadLane));
    };
    let Some(second) = next_field(first.next, first.rest) else {
        return Err(broken(end, ScriptKind::BadVerb));
    };
    let Some(verb) = verb_named(second.bytes) else {
        return Err(broken(second.at, ScriptKind::BadVerb));
    };
    let what = read_what(alloc, verb, second.next, second.rest, end)?;
    Ok(Step { lane, what })
}

/// What the fields after a verb spell, on a line with this end.
fn read_what(
    alloc: Global,
    verb: Verb,
    at: usize,
    bytes: &[u8],
    end: usize,
) -> Result<What, ScriptError>
    requires within { at + length bytes.now ≤ end }
    requires short { end < 2 ^ 63 }
    requires texts { AreTexts (fields_from at bytes.now) }
    ensures what { IfOk result (λ what. what_in (Some verb) (fields_from at bytes.now) ≡ Some what) }
    ensures good { IfOk result IsWhat }
    ensures broken { IfErr result (IsFailure (tests_after (Some verb) end (fields_from at bytes.now)) end) }
{
    match verb {
        Verb::Publishing => read_publication(alloc, at, bytes, end),
        Verb::Asking => read_question(alloc, at, bytes, end),
    }
}

/// An hour and a name.
#[tactic(auto, using(crate::proofs::LineFields::texts_after, crate::proofs::LineFields::text_first))]
fn read_publication(alloc: Global, at: usize, bytes: &[u8], end: usize) -> Result<What, ScriptError>
    requires within { at + length bytes.now ≤ end }
    requires short { end < 2 ^ 63 }
    requires texts { AreTexts (fields_from at bytes.now) }
    ensures what { IfOk result (λ what. publication_in (fields_from at bytes.now) ≡ Some what) }
    ensures good { IfOk result IsWhat }
    ensures broken { IfErr result (IsFailure (tests_after (Some Publishing) end (fields_from at bytes.now)) end) }
{
    let Some(hour) = next_field(at, bytes) else {
        return Err(broken(end, ScriptKind::BadStamp));
    };
    let Some(stamp) = read_hour(characters(hour.bytes)) else {
        return Err(broken(hour.at, ScriptKind::BadStamp));
    };
    let Some(name) = next_field(hour.next, hour.rest) else {
        return Err(broken(end, ScriptKind::BadName));
    };
    let file = name_in(alloc, &name)?;
    match next_field(name.next, name.rest) {
        Some(other) => Err(broken(other.at, ScriptKind::BadName)),
        None => Ok(What::Publish { stamp, file }),
    }
}

/// A question.
fn read_question(alloc: Global, at: usize, bytes: &[u8], end: usize) -> Result<What, ScriptError>
    requires within { at + length bytes.now ≤ end }
    requires short { end < 2 ^ 63 }
    requires texts { AreTexts (fields_from at bytes.now) }
    ensures what { IfOk result (λ what. what_in (Some Asking) (fields_from at bytes.now) ≡ Some what) }
    ensures good { IfOk result IsWhat }
    ensures broken { IfErr result (IsFailure (tests_after (Some Asking) end (fields_from at bytes.now)) end) }
{
    match read_fields(alloc, at, bytes) {
        Ok(query) => Ok(What::Ask(query)),
        Err(QueryError::NoMemory) => Err(ScriptError::NoMemory),
        Err(QueryError::Bad) => Err(broken(place(at, bytes, end), ScriptKind::BadQuery)),
    }
}

/// Where the first field stands; the end of the line where there is none.
fn place(at: usize, bytes: &[u8], end: usize) -> usize
    requires within { at + length bytes.now ≤ end }
    requires short { end < 2 ^ 63 }
    ensures place { result ≡ first_place end (fields_from at bytes.now) }
    ensures within { result ≤ end }
{
    match next_field(at, bytes) {
        Some(field) => field.at,
        None => end,
    }
}
