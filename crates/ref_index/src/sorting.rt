//! Numbers and ids that rise, each once.

ghost use Rattle.std.specs.Prelude.{◌≡◌, IfOk};
ghost use Rattle.live_model.specs.Closures as Closures;
ghost use Rattle.ref_index.specs.Pairs.{rising_numbers};

use live_model::{Mem, ObjId};
use std::cmp::Ordering;

/// The numbers rising, each once.
pub fn rising(numbers: Vec<u64>) -> Mem<Vec<u64>>
    ensures { IfOk result (λ once. once.items ≡ rising_numbers numbers.items) }
{
    let mut numbers = numbers;
    numbers.reverse();
    numbers.sort_by(|a, b| a.cmp(b))?;
    numbers.dedup_by(|a, b| (*a).cmp(&*b) == Ordering::Equal);
    Ok(numbers)
}

/// The ids rising, each once.
pub fn rising_ids(ids: Vec<ObjId>) -> Mem<Vec<ObjId>>
    ensures { IfOk result (λ once. once.items ≡ Closures.rising_ids ids.items) }
{
    let mut ids = ids;
    ids.reverse();
    ids.sort_by(|a, b| a.ordinal().cmp(&b.ordinal()))?;
    ids.dedup_by(|a, b| a.ordinal().cmp(&b.ordinal()) == Ordering::Equal);
    Ok(ids)
}
