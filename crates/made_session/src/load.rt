//! A whole session made from a number.

ghost use Rattle.std.specs.Prelude.{◌≡◌, ◌+◌, ◌++◌, ◌<◌, ◌≤◌, ◌∷◌, [], IfOk, map};
ghost use Rattle.std.specs.Arc.{arc_value};
ghost use Rattle.std.specs.List.{AllByRecursion};
ghost use Rattle.live_model.specs.Objects.{IsGoodLine};
ghost use Rattle.stamp_core.specs.Hours.{IsNextHour};
ghost use Rattle.script_text.specs.Scripts.{IsStep};
ghost use Rattle.made_session.specs.Draws.{state_after};
ghost use Rattle.made_session.specs.Loads.{AreGood, IsScript, after_base, first, hour_steps, made_base, made_change, made_changes, rule_lines};

use crate::base::base;
use crate::draws::Draws;
use crate::hours::{asking, change, publication, question};
use live_model::{Lines, Mem};
use script_text::Step;
use stamp_core::Stamp;
use std::alloc::Global;
use std::sync::Arc;

/// A session: a rule table, a base, a script, and the changes that it publishes, in order.
#[derive(Drop)]
pub struct Load {
    /// The text of the rule table.
    pub rules: Vec<u8>,
    /// The lines of the base.
    pub base: Lines,
    /// The lines of the script.
    pub steps: Vec<Step>,
    /// The lines of each change.
    pub changes: Vec<Arc<Lines>>,
}

/// The rule table: cafés are points of interest, and streets are lines of the map and roads.
const RULES: &[u8] =
    b"point amenity cafe 15 poi.cafe\nline highway * 12 map\nline highway * 12 road\n";

/// The session of a seed, over this many hours from 2024-01-01-00 on: in each, ten of 2,000 nodes move, and what is drawn in a small
/// rectangle is asked.
pub fn generate(alloc: Global, seed: u64, hours: u32) -> Mem<Load>
    requires hours { hours ≤ 10000 }
    ensures rules { IfOk result (λ load. load.rules.items ≡ rule_lines) }
    ensures base { IfOk result (λ load. load.base ≡ made_base seed) }
    ensures script { IfOk result (λ load. IsScript (after_base seed) hours load.steps.items) }
    ensures changes { IfOk result (λ load. map arc_value load.changes.items ≡ made_changes (after_base seed) hours) }
    ensures good_base { IfOk result (λ load. AllByRecursion IsGoodLine load.base) }
    ensures good_steps { IfOk result (λ load. AllByRecursion IsStep load.steps.items) }
    ensures good_changes { IfOk result (λ load. AreGood (map arc_value load.changes.items)) }
{
    let mut draws = Draws::new(seed);
    let base = base(alloc, &mut draws)?;
    let script = script(alloc, draws, hours)?;
    let rules = RULES.to_vec(alloc)?;
    Ok(Load {
        rules,
        base,
        steps: script.steps,
        changes: script.changes,
    })
}

/// The lines of a script, and the changes that it publishes.
#[derive(Drop)]
struct Publications {
    steps: Vec<Step>,
    changes: Vec<Arc<Lines>>,
}

impl Publications {
    /// Adds the hour with this index, counted from 0: its change is published under the stamp, and its question asked.
    fn add(&mut self, alloc: Global, draws: &mut Draws, index: u32, stamp: Stamp) -> Mem<()>
        requires index { index ≤ 9999 }
        ensures steps { IfOk result (λ _. self.new.steps.items ≡ self.old.steps.items ++ hour_steps draws.old index stamp) }
        ensures changes { IfOk result (λ _. map arc_value self.new.changes.items ≡ map arc_value self.old.changes.items ++ made_change draws.old (index + 1) ∷ []) }
        ensures good_steps { IfOk result (λ _. AllByRecursion IsStep self.old.steps.items → AllByRecursion IsStep self.new.steps.items) }
        ensures good_changes { IfOk result (λ _. AreGood (map arc_value self.old.changes.items) → AreGood (map arc_value self.new.changes.items)) }
        ensures after { IfOk result (λ _. draws.new ≡ state_after draws.old 32) }
    {
        let lines = change(alloc, draws, index + 1)?;
        let published = publication(alloc, index + 1, stamp)?;
        let asked = asking(question(draws));
        let lines = Arc::new(alloc, lines)?;
        self.changes.push(lines)?;
        self.steps.push(published)?;
        self.steps.push(asked)?;
        Ok(())
    }
}

/// The first hour of a session.
fn first_hour() -> Stamp
    ensures { result ≡ first }
{
    Stamp::new(2024, 1, 1, 0).unwrap()
}

/// The hour after this one, of a year below 9999.
fn after(stamp: Stamp) -> Stamp
    requires year { stamp.year < 9999 }
    ensures { IsNextHour stamp result }
{
    stamp.next_hour().unwrap()
}

/// The script of this many hours, and its changes.
fn script(alloc: Global, mut draws: Draws, hours: u32) -> Mem<Publications>
    requires hours { hours ≤ 10000 }
    ensures script { IfOk result (λ script. IsScript draws hours script.steps.items) }
    ensures changes { IfOk result (λ script. map arc_value script.changes.items ≡ made_changes draws hours) }
    ensures good_steps { IfOk result (λ script. AllByRecursion IsStep script.steps.items) }
    ensures good_changes { IfOk result (λ script. AreGood (map arc_value script.changes.items)) }
{
    let mut script = Publications {
        steps: Vec::new(alloc),
        changes: Vec::new(alloc),
    };
    let mut stamp = first_hour();
    for index in 0..hours {
        script.add(alloc, &mut draws, index, stamp)?;
        stamp = after(stamp);
    }
    Ok(script)
}
