//! Groups of points of interest, checked.

ghost use Rattle.std.specs.Prelude.{◌≡◌, None, IfErr, IfOk};
ghost use Rattle.obf_wire.specs.Windows.{range_of};
ghost use Rattle.boxed_exact.specs.Breaks.{Breaks};
ghost use Rattle.boxed_exact.specs.Sides.{AreRising, beside};
ghost use Rattle.poi_section.specs.Groups.{ArePoisKept, pois_break};

use crate::group_rules::check_rules;
use crate::kept::PoisKept;
use crate::one_pass::see_groups;
use boxed_exact::Around;
use file_grammar::{Part, form};
use obf_wire::{FileError, Window};
use std::alloc::Global;

/// Checks the groups in a window, and says what there is of them: in one pass where they are good. `Broken` with the first break
/// of form, or else with the first rule that fails, exactly where there is one, unless memory was refused before.
#[tactic(auto, using(crate::proofs::GroupWalk::kept_good))]
pub fn check(alloc: Global, window: Window<'_>, around: &Around<'_>) -> Result<PoisKept, FileError>
    requires marks { AreRising around.now.marks }
    ensures good { IfOk result (λ _. pois_break (beside around.now) (range_of window.entry) ≡ None) }
    ensures kept { IfOk result (ArePoisKept (beside around.now) (range_of window.entry)) }
    ensures broken { IfErr result (λ error. Breaks error (pois_break (beside around.now) (range_of window.entry))) }
{
    let found = see_groups(alloc, window, around)?;
    if let Some(kept) = found {
        return Ok(kept);
    }
    form(Part::Pois, window)?;
    check_rules(alloc, window, around)
}
