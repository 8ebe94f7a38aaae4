//! A section of a class, checked.

ghost use Rattle.std.specs.Prelude.{◌≡◌, ◌≤◌, None, IfErr, IfOk};
ghost use Rattle.obf_wire.specs.Windows.{range_of};
ghost use Rattle.boxed_exact.specs.Breaks.{Breaks, section_break};
ghost use Rattle.boxed_exact.specs.Sides.{AreRising, beside};
ghost use Rattle.boxed_check.specs.Keeping.{IsKept};

use crate::kept::Kept;
use crate::section::see_section;
use crate::surveying::survey;
use boxed_exact::{Around, CheckClass, check_exactly};
use obf_wire::{FileError, Window};
use std::alloc::Global;

/// Checks the section of a class in a window, and says what there is of it: in one pass where it is good. `Broken` with the first break of form,
/// or else with the first rule that fails, exactly where there is one, unless memory was refused before.
#[tactic(auto, using(crate::proofs::Good::kept_good))]
pub fn check<C: CheckClass>(
    alloc: Global,
    window: Window<'_>,
    around: &Around<'_>,
) -> Result<Kept, FileError>
    requires marks { AreRising around.now.marks }
    ensures good { IfOk result (λ _. section_break C.class C.boxing (beside around.now) (range_of window.entry) ≡ None) }
    ensures kept { IfOk result (IsKept C.class C.boxing (beside around.now) (range_of window.entry)) }
    ensures broken { IfErr result (λ error. Breaks error (section_break C.class C.boxing (beside around.now) (range_of window.entry))) }
{
    let found = see_section::<C>(alloc, window, around)?;
    if let Some(kept) = found {
        return Ok(kept);
    }
    check_exactly::<C>(alloc, window, around)?;
    let kept = survey::<C>(alloc, window)?;
    Ok(kept)
}
