//! A whole script.

ghost use Rattle.std.specs.Prelude.{IfErr, IfOk};
ghost use Rattle.std.specs.List.{AllByRecursion};
ghost use Rattle.line_texts.specs.Forms.{IsText};
ghost use Rattle.line_texts.specs.Readings.{IsCause};
ghost use Rattle.script_text.specs.Scripts.{IsStep, script_form};

use crate::breaks::ScriptError;
use crate::form::ScriptForm;
use crate::steps::Step;
use line_texts::read_lines;
use std::alloc::Global;

/// The steps that the lines of a script spell, in order: `LANE P STAMP FILE` or `LANE Q QUERY`, parted by blanks. A line of blanks, and one
/// that begins with `#`, is skipped. `Broken` with the first break of the text exactly where it has one, unless memory was refused
/// before.
pub fn read_script(alloc: Global, bytes: &[u8]) -> Result<Vec<Step>, ScriptError>
    ensures steps { IfOk result (λ steps. IsText script_form bytes.now steps.items) }
    ensures good { IfOk result (λ steps. AllByRecursion IsStep steps.items) }
    ensures broken { IfErr result (IsCause script_form bytes.now) }
{
    read_lines::<ScriptForm>(alloc, bytes)
}
