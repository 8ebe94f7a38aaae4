//! Rules, and how a text of rules breaks.

ghost use Rattle.std.specs.Prelude.{◌≡◌, Some, IfOk};
ghost use Rattle.live_model.specs.Rules.{rule_kind_name};

use crate::classes::Class;
use crate::shapes::Shape;
use owned_data::{Mem, Text};
use std::alloc::Global;
use std::fmt;

/// A rule: the shape and the tag of the objects that it matches, the first zoom at which they are shown,
/// at most 22, and what it makes of them. A rule without a value matches every value of its key.
#[derive(Debug, Drop)]
pub struct Rule {
    pub shape: Shape,
    pub key: Text,
    pub value: Option<Text>,
    pub zoom: u8,
    pub class: Class,
}

impl Rule {
    /// A second owner of the same rule.
    pub fn copy(&self, alloc: Global) -> Mem<Rule>
        ensures { IfOk result (λ rule. rule ≡ self.now) }
    {
        let key = self.key.copy(alloc)?;
        let value = copy_value(alloc, &self.value)?;
        let class = self.class.copy(alloc)?;
        Ok(Rule {
            shape: self.shape,
            key,
            value,
            zoom: self.zoom,
            class,
        })
    }
}

fn copy_value(alloc: Global, value: &Option<Text>) -> Mem<Option<Text>>
    ensures { IfOk result (λ copied. copied ≡ value.now) }
{
    match value {
        None => Ok(None),
        Some(text) => {
            let copied = text.copy(alloc)?;
            Ok(Some(copied))
        }
    }
}

/// How a text of rules breaks, numbered 1 to 7.
#[derive(Clone, Copy, PartialEq, Eq, Debug)]
pub enum RuleKind {
    /// The line is not UTF-8.
    NotUtf8 = 1,
    /// The line has not five fields.
    FieldCount = 2,
    /// The shape is none of `point`, `line` and `area`.
    BadShape = 3,
    /// The key or the value is no escaped text.
    BadEscape = 4,
    /// The zoom is not one or two digits, or is over 22.
    BadZoom = 5,
    /// The class is none of `map`, `poi.` with a category, `road` and `place`, or is `road` for a shape
    /// that is no line.
    BadClass = 6,
    /// The line is the 100,001st rule.
    OverLimit = 7,
}

impl fmt::Display for RuleKind {
    ghost output = { λ kind. Some (rule_kind_name kind) };

    fn fmt<W: fmt::Write>(&self, f: &mut fmt::Formatter<W>) -> fmt::Result {
        f.write_str(match self {
            RuleKind::NotUtf8 => "NotUtf8",
            RuleKind::FieldCount => "FieldCount",
            RuleKind::BadShape => "BadShape",
            RuleKind::BadEscape => "BadEscape",
            RuleKind::BadZoom => "BadZoom",
            RuleKind::BadClass => "BadClass",
            RuleKind::OverLimit => "OverLimit",
        })
    }
}

/// The first break of a text of rules: its place, counted in bytes from the start of the text, and its
/// kind.
#[derive(Clone, Copy, PartialEq, Eq, Debug)]
pub struct RuleBreak {
    pub at: usize,
    pub kind: RuleKind,
}
