//! Addresses, checked.

ghost use Rattle.std.specs.Prelude.{◌≡◌, None, IfErr, IfOk};
ghost use Rattle.obf_wire.specs.Windows.{range_of};
ghost use Rattle.boxed_exact.specs.Breaks.{Breaks};
ghost use Rattle.boxed_exact.specs.Sides.{AreRising, beside};
ghost use Rattle.addr_section.specs.Breaks.{addresses_break};
ghost use Rattle.addr_section.specs.Kept.{AreAddressesKept};

use crate::exact::check_exactly;
use crate::kept::AddressesKept;
use crate::one_pass::see;
use boxed_exact::Around;
use file_grammar::Version;
use obf_wire::{FileError, Window};
use std::alloc::Global;

/// Checks the addresses of a file of this version in a window, and says what there is of them: in one pass where they are good.
/// `Broken` with the first break of form, or else with the first rule that fails, exactly where there is one, unless memory was
/// refused before.
#[tactic(auto, using(crate::proofs::Good::kept_good))]
pub fn check(
    alloc: Global,
    version: Version,
    window: Window<'_>,
    around: &Around<'_>,
) -> Result<AddressesKept, FileError>
    requires marks { AreRising around.now.marks }
    ensures good { IfOk result (λ _. addresses_break version (beside around.now) (range_of window.entry) ≡ None) }
    ensures kept { IfOk result (AreAddressesKept version (beside around.now) (range_of window.entry)) }
    ensures broken { IfErr result (λ error. Breaks error (addresses_break version (beside around.now) (range_of window.entry))) }
{
    let found = see(alloc, version, window, around)?;
    if let Some(kept) = found {
        return Ok(kept);
    }
    check_exactly(alloc, version, window, around)
}
