//! A list of numbers.

ghost use Rattle.std.specs.Prelude.{◌≡◌, ◌≤◌, ◌<◌, ℕ, List, [], Ok, IfOk, IfSome, MatchOption};
ghost use Rattle.obf_wire.specs.Fields.{part_of};
ghost use Rattle.obf_wire.specs.Windows.{range_of};
ghost use Rattle.file_grammar.specs.Readings.{numbers_at};
ghost use Rattle.boxed_exact.specs.Numbers.{Continues};

use obf_wire::{Window, read_varint};
use owned_data::Mem;
use std::alloc::Global;

/// The numbers that stand in a window.
pub(crate) fn read_numbers(alloc: Global, window: Window<'_>) -> Mem<Vec<u64>>
    ensures { IfOk result (λ read. (numbers : List ℕ) → numbers_at (range_of window.entry) ≡ Ok numbers → read.items ≡ numbers) }
{
    let mut numbers = Vec::new(alloc);
    let mut at = window.from();
    while let Some((number, next)) = next_number(window, at) {
        numbers.push(number)?;
        at = next;
    }
    Ok(numbers)
}

// The number that is next, and the place behind it; `None` at the end.
fn next_number(window: Window<'_>, at: usize) -> Option<(u64, usize)>
    requires { at ≤ window.to }
    ensures number { (numbers : List ℕ) → numbers_at (part_of window.entry.bytes.now at window.entry.to) ≡ Ok numbers
        → MatchOption result (numbers ≡ []) (λ n. Continues (part_of window.entry.bytes.now at window.entry.to) numbers n.0 n.1) }
    ensures forward { IfSome result (λ n. (at < n.1) × (n.1 ≤ window.entry.to)) }
{
    if at == window.to() {
        return None;
    }
    match read_varint(window.all(), at, window.to()) {
        Ok(number) => Some(number),
        Err(_) => None,
    }
}
