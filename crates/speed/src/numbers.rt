//! Numbers of all lengths, most of them short.

use crate::Work;
use crate::state::next;
use obf_wire::{Out, read_varint};
use owned_data::Mem;
use std::alloc::Global;

/// Writes the numbers, and reads them back where that is asked.
pub fn work(alloc: Global, count: u32, again: bool) -> Mem<Work> {
    let bytes = written(alloc, count)?;
    let sum = if again { sum_of(&bytes, count) } else { 0 };
    Ok(Work {
        count: bytes.len() as u64,
        sum,
    })
}

fn written(alloc: Global, count: u32) -> Mem<Vec<u8>> {
    let mut out = Out::new(alloc);
    let mut state = 1u64;
    for _ in 0..count {
        state = next(state);
        out.put_varint(shortened(state))?;
    }
    Ok(out.finish())
}

/// A number of 1 to 64 bits, half of them below 128.
fn shortened(state: u64) -> u64 {
    let bits = (state >> 40) % 64;
    if bits < 32 {
        (state >> 33) % 128
    } else {
        state >> (bits - 32)
    }
}

fn sum_of(bytes: &[u8], count: u32) -> u64 {
    let end = bytes.len();
    let mut at = 0;
    let mut sum = 0u64;
    for _ in 0..count {
        if let Ok((n, behind)) = read_varint(bytes, at, end) {
            sum = sum.wrapping_add(n);
            at = behind;
        }
    }
    sum
}
