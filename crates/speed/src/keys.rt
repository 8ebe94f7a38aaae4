//! Keys of names.

use crate::{NOTHING, Work};
use live_model::Mem;
use name_fold::key;
use std::alloc::Global;

/// Names of ASCII letters.
static PLAIN: [&str; 8] = [
    "Aldorf",
    "Market Street",
    "The Old Town Hall",
    "LONG LANE",
    "Station Road",
    "Church of Saint Mary the Virgin",
    "B 42",
    "Bo Bar",
];

/// Names with other letters.
static OTHERS: [&str; 8] = [
    "Straße des 17. Juni",
    "Köln",
    "Łódź",
    "Παραλία",
    "Улица Мира",
    "서울특별시",
    "İstanbul",
    "Đường Nguyễn Huệ",
];

/// Makes so many keys of plain names or of others, one after another.
pub fn work(alloc: Global, what: &str, count: u32) -> Mem<Work> {
    match what {
        "plain" => keys(alloc, &PLAIN, count),
        "others" => keys(alloc, &OTHERS, count),
        _ => Ok(NOTHING),
    }
}

/// Makes so many keys of names by turns.
fn keys(alloc: Global, names: &[&str], count: u32) -> Mem<Work> {
    let mut sum = 0;
    for number in 0..count {
        if let Some(name) = names.get((number % 8) as usize) {
            let made = key(alloc, name)?;
            sum = added(sum, made.as_bytes());
        }
    }
    Ok(Work {
        count: u64::from(count),
        sum,
    })
}

/// A sum that goes on over bytes.
fn added(sum: u64, bytes: &[u8]) -> u64 {
    let mut sum = sum;
    for byte in bytes {
        sum = sum.wrapping_mul(31).wrapping_add(u64::from(*byte));
    }
    sum
}
