//! The section of marks.

ghost use Rattle.std.specs.Prelude.{◌≡◌, ◌++◌, flat_map, map, IfOk, OnOk};
ghost use Rattle.std.specs.List.{AllByRecursion};
ghost use Rattle.live_model.specs.Ids.{IsId, ordinal};
ghost use Rattle.obf_wire.specs.Varint.{varint};
ghost use Rattle.obf_writer.specs.PackedFile.{marks_bytes, steps_from};

use live_model::ObjId;
use obf_wire::Out;
use owned_data::Mem;
use std::alloc::Global;

/// The number of the field of the marks, as steps.
const STEPS: u64 = 1;

/// The bytes of the section of these marks.
pub(crate) fn marks_bytes(alloc: Global, marks: &[ObjId]) -> Mem<Vec<u8>>
    ensures bytes { IfOk result (λ bytes. bytes.items ≡ marks_bytes (map ordinal marks.now)) }
    ensures ids { OnOk result (AllByRecursion IsId marks.now) }
{
    let mut steps = Out::new(alloc);
    put_steps(marks, &mut steps)?;
    let mut out = Out::new(alloc);
    out.put_short(STEPS, &steps.finish())?;
    Ok(out.finish())
}

/// Appends the first ordinal and then the difference to each next.
fn put_steps(marks: &[ObjId], out: &mut Out) -> Mem<()>
    ensures steps { OnOk result (out.new ≡ out.old ++ flat_map varint (steps_from 0 (map ordinal marks.now))) }
    ensures ids { OnOk result (AllByRecursion IsId marks.now) }
{
    let mut before = 0;
    let mut rest = marks;
    while let [mark, after @ ..] = rest {
        let ordinal = mark.ordinal();
        out.put_varint(ordinal.saturating_sub(before))?;
        before = ordinal;
        rest = after;
    }
    Ok(())
}
