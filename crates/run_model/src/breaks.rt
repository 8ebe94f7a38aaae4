//! Why files are refused.

ghost use Rattle.std.specs.Prelude.{◌≡◌};
ghost use Rattle.script_text.specs.Scripts.{script_kind_name};

use live_model::{OplBreak, RuleBreak};
use obf_wire::FileBreak;
use script_text::{ScriptBreak, ScriptKind};
use std::fmt;

/// The first break of a file, by what it is read as.
#[derive(Clone, Copy, PartialEq, Eq, Debug)]
pub enum Break {
    /// Of a table of rules.
    InRules(RuleBreak),
    /// Of a text of objects.
    InObjects(OplBreak),
    /// Of a map file.
    InFile(FileBreak),
    /// Of a script.
    InScript(ScriptBreak),
}

/// It displays as the name of its kind and its place, as in `BadId at 0`.
impl fmt::Display for Break {
    ghost use Rattle.std.specs.Prelude.{Some};
    ghost use Rattle.run_model.specs.Inputs.{break_text};

    ghost output = { λ first. Some (break_text first) };

    fn fmt<W: fmt::Write>(&self, f: &mut fmt::Formatter<W>) -> fmt::Result {
        match self {
            Break::InRules(first) => {
                let kind = first.kind;
                let at = first.at;
                write!(f, "{kind} at {at}")
            }
            Break::InObjects(first) => {
                let kind = first.kind;
                let at = first.at;
                write!(f, "{kind} at {at}")
            }
            Break::InFile(first) => {
                let kind = first.kind;
                let at = first.at;
                write!(f, "{kind} at {at}")
            }
            Break::InScript(first) => {
                let kind = script_kind_name(first.kind);
                let at = first.at;
                write!(f, "{kind} at {at}")
            }
        }
    }
}

/// The name of a kind of break of scripts.
fn script_kind_name(kind: ScriptKind) -> &'static str
    ensures { result.now ≡ script_kind_name kind }
{
    match kind {
        ScriptKind::NotUtf8 => "NotUtf8",
        ScriptKind::BadLane => "BadLane",
        ScriptKind::BadVerb => "BadVerb",
        ScriptKind::BadStamp => "BadStamp",
        ScriptKind::BadName => "BadName",
        ScriptKind::BadQuery => "BadQuery",
        ScriptKind::OverLimit => "OverLimit",
    }
}
