//! The packing order.

ghost use Rattle.std.specs.Prelude.{◌≡◌, ◌+◌, ◌/◌, ◌<◌, ◌^◌, ◌≤◌, length, map, IfOk};
ghost use Rattle.std.specs.List.{range_with_len};
ghost use Rattle.std.specs.List.Sorted.{IsPermutation};
ghost use Rattle.box_tree.specs.Packing.{interleave, code, keys_of, IsPacking};
ghost use Rattle.live_model.specs.Geometry.{middle};

use live_model::Rect;
use owned_data::{Mem, NoMemory};
use std::alloc::Global;

/// The code of a centre, the number given, and the position.
type Key = (u64, u64, usize);

/// The positions of the items in packing order: by the code of the rectangle's centre, then by the number that stands
/// beside it, then by position. The centre is the middle of the edges, each half rounded down; bit 2k of the code is
/// bit k of its x, and bit 2k + 1 is bit k of its y.
///
/// The code of each item is computed once, and the items are sorted in n log n time.
pub fn pack(alloc: Global, items: &[(Rect, u64)]) -> Mem<Vec<usize>>
    ensures order { IfOk result (λ positions. IsPacking items.now positions.items) }
    ensures once { IfOk result (λ positions. IsPermutation (range_with_len 0 (length items.now)) positions.items) }
{
    let mut keys = keys_of(alloc, items)?;
    keys.sort_unstable();
    positions(alloc, &keys)
}

/// The keys of the items in their order.
fn keys_of(alloc: Global, items: &[(Rect, u64)]) -> Mem<Vec<Key>>
    ensures { IfOk result (λ keys. keys.items ≡ keys_of items.now) }
{
    let keys = items
        .iter()
        .enumerate()
        .map(|(position, item)| (code(&item.0), item.1, position))
        .collect(alloc)?;
    Ok(keys)
}

/// The positions in the keys.
fn positions(alloc: Global, keys: &[Key]) -> Mem<Vec<usize>>
    ensures { IfOk result (λ positions. positions.items ≡ map (λ key. key.2) keys.now) }
{
    let positions = keys.iter().map(|key| key.2).collect(alloc)?;
    Ok(positions)
}

/// The code of the rectangle's centre in Morton order: the bits of its x and y interleaved.
#[tactic(auto, unfolding(crate::specs::Packing::code))]
pub fn code(rect: &Rect) -> u64
    ensures { result ≡ code (middle rect.now) }
{
    interleave(half(rect.left, rect.right)) + 2 * interleave(half(rect.top, rect.bottom))
}

/// Half of a sum, rounded down.
fn half(low: u32, high: u32) -> u64
    ensures half { result ≡ (low + high) / 2 }
    ensures small { result < 2 ^ 32 }
{
    (u64::from(low) + u64::from(high)) / 2
}

/// The number whose bit 2k is bit k of this one, which has 32 bits. Each line parts the groups of bits that the one
/// before it left, so that between them there is a gap as wide as they are: 16, 8, 4, 2 and at last 1.
fn interleave(number: u64) -> u64
    requires { number < 2 ^ 32 }
    ensures interleave { result ≡ interleave number }
    ensures gaps { result ≤ 0x5555_5555_5555_5555 }
{
    let groups = (number | number << 16) & 0x0000_ffff_0000_ffff;
    let groups = (groups | groups << 8) & 0x00ff_00ff_00ff_00ff;
    let groups = (groups | groups << 4) & 0x0f0f_0f0f_0f0f_0f0f;
    let groups = (groups | groups << 2) & 0x3333_3333_3333_3333;
    (groups | groups << 1) & 0x5555_5555_5555_5555
}
