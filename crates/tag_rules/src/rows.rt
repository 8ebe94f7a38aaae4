//! One rule line: five fields, each of its own form.

ghost use Rattle.std.specs.Prelude.{◌≡◌, ◌<◌, ◌^◌, length, None, Some, IfErr, IfOk, IsTrue, MatchOption};
ghost use Rattle.std.specs.Str.{is_utf8};
ghost use Rattle.live_model.specs.Rules.{IsRule, rule_of, rule_in, rule_fields};
ghost use Rattle.tag_rules.specs.Readings.{AreFields, ArePieces, IsFieldsCause, IsRead, IsRowCause, seen};

use crate::errors::{RuleError, broken};
use crate::values::{admitted, class, read_zoom, shape, text};
use live_model::{Rule, RuleKind};
use std::alloc::Global;
use std::str::from_utf8;
use text_pieces::{Field, next_field};

/// The five fields of a rule line.
#[derive(Clone, Copy)]
pub(crate) struct Fields<'a> {
    shape: Field<'a>,
    key: Field<'a>,
    value: Field<'a>,
    zoom: Field<'a>,
    class: Field<'a>,
}

/// The rule that a whole rule line spells. The place of a break is counted from its first byte.
pub(crate) fn read_row(alloc: Global, row: &[u8]) -> Result<Rule, RuleError>
    requires { length row.now < 2 ^ 63 }
    ensures rule { IfOk result (IsRead row.now) }
    ensures broken { IfErr result (IsRowCause row.now) }
{
    if !is_text(row) {
        return Err(broken(0, RuleKind::NotUtf8));
    }
    let Some(fields) = five_fields(row) else {
        return Err(broken(0, RuleKind::FieldCount));
    };
    rule(alloc, &fields, row.len())
}

// Whether bytes are UTF-8.
#[tactic(auto, using(crate::proofs::Texts::seen_text, crate::proofs::Texts::seen_other))]
fn is_text(bytes: &[u8]) -> bool
    ensures { result ≡ is_utf8 bytes.now }
{
    match from_utf8(bytes) {
        Ok(_) => true,
        Err(_) => false,
    }
}

// The fields of a line, where there are five.
fn five_fields(row: &[u8]) -> Option<Fields<'_>>
    requires short { length row.now < 2 ^ 63 }
    requires text { IsTrue (is_utf8 row.now) }
    ensures { MatchOption result (rule_fields row.now ≡ None) (AreFields row.now) }
{
    let Some(shape) = next_field(0, row) else {
        return None;
    };
    let Some(key) = next_field(shape.next, shape.rest) else {
        return None;
    };
    let Some(value) = next_field(key.next, key.rest) else {
        return None;
    };
    let Some(zoom) = next_field(value.next, value.rest) else {
        return None;
    };
    let Some(class) = next_field(zoom.next, zoom.rest) else {
        return None;
    };
    let None = next_field(class.next, class.rest) else {
        return None;
    };
    Some(Fields {
        shape,
        key,
        value,
        zoom,
        class,
    })
}

// The rule that five fields spell, none of them behind the place `end`.
fn rule(alloc: Global, fields: &Fields<'_>, end: usize) -> Result<Rule, RuleError>
    requires { ArePieces end fields.now }
    ensures rule { IfOk result (λ rule. rule_in (seen fields.now) ≡ Some rule) }
    ensures good { IfOk result IsRule }
    ensures broken { IfErr result (IsFieldsCause (seen fields.now) end) }
{
    let Some(shape) = shape(fields.shape.bytes) else {
        return Err(broken(fields.shape.at, RuleKind::BadShape));
    };
    let key = text(alloc, &fields.key)?;
    let value = admitted(alloc, &fields.value)?;
    let Some(zoom) = read_zoom(fields.zoom.bytes) else {
        return Err(broken(fields.zoom.at, RuleKind::BadZoom));
    };
    let class = class(alloc, shape, &fields.class)?;
    Ok(Rule {
        shape,
        key,
        value,
        zoom,
        class,
    })
}
