//! A script that one thread plays.

ghost use Rattle.std.specs.Prelude.{◌≡◌, ◌≤◌, IfOk, length, map};
ghost use Rattle.std.specs.Arc.{arc_value};
ghost use Rattle.std.specs.List.{AllByRecursion};
ghost use Rattle.live_model.specs.Objects.{IsGoodLine};
ghost use Rattle.script_text.specs.Scripts.{IsStep};
ghost use Rattle.session_text.specs.Plays.{played_text};
ghost use Rattle.live_session.specs.Scripts.{publications};

use crate::lines::play_lines;
use crate::printing::put_end;
use crate::settling::settle;
use live_core::Machine;
use live_model::{Lines, Mem};
use script_text::Step;
use std::alloc::Global;
use std::sync::Arc;
use tag_rules::Rules;

/// Plays a script in one thread, line by line, over a base and its rules: a machine of one pass and one worker takes each publication with
/// its change, and for each question the pass takes the present set, asks it, and gives it back. In the end all that can be folded is folded.
/// The text is the replies to the lines, then the history, then the files.
///
/// There has to be a change for each publication, in order, of good lines; the base lines have to be good too, and the steps such as lines
/// spell, 100,000 at most. `NoMemory` is the only error.
pub fn play_plain(
    alloc: Global,
    rules: &Rules,
    base: Arc<Lines>,
    steps: &[Step],
    changes: &[Arc<Lines>],
) -> Mem<Vec<u8>>
    requires good { AllByRecursion IsGoodLine (arc_value base) }
    requires good_steps { AllByRecursion IsStep steps.now }
    requires few { length steps.now ≤ 100000 }
    requires count { length changes.now ≡ publications steps.now }
    requires good_changes { AllByRecursion (λ lines. AllByRecursion IsGoodLine lines) (map arc_value changes.now) }
    ensures { IfOk result (λ text. text.items ≡ played_text rules.now (arc_value base) steps.now (map arc_value changes.now)) }
{
    let mut machine = Machine::new(alloc, rules, base, 1, 1)?;
    let mut out = Vec::new(alloc);
    play_lines(alloc, &mut machine, steps, changes, &mut out)?;
    settle(alloc, &mut machine)?;
    put_end(&mut out, machine.set())?;
    Ok(out)
}
