//! Reads that fail while the files of a script are read.

use crate::runs::{check_left, play};
use live_model::Mem;
use std::alloc::Global;
use std::process::Abort;
use std::test::Fail;

// Two changes, of which the first is named twice.
const SCRIPT: &[u8] =
    b"0 P 2024-02-29-23 c1.opl\n0 Q V 13.49 52.59 13.51 52.61 15\n1 P 2024-03-01-00 c2.opl\n1 Q V 13.49 52.59 13.51 52.61 15\n1 P 2024-03-01-00 c1.opl\n";

// Four reads take the rules, seven the base, three the script, and two each change, whenever it is named.
fn said_of_read(number: u64) -> &'static str {
    match number {
        1..=4 => "obf: cannot read town.rules\n",
        5..=11 => "obf: cannot read town.opl\n",
        12..=14 => "obf: cannot read s.txt\n",
        17 | 18 => "obf: cannot read c2.opl\n",
        _ => "obf: cannot read c1.opl\n",
    }
}

// Whether the run meets a fault at this read, and then says so.
fn check_read_fails<A: Abort>(rt: &A, alloc: Global, number: u64) -> Mem<bool> {
    let left = play(rt, alloc, SCRIPT, &[number])?;
    if left.files.read_faults() == 0 {
        return Ok(false);
    }
    check_left(rt, &left, SCRIPT, 4, "", said_of_read(number));
    Ok(true)
}

#[test]
fn each_read_fails(rt: HostRuntime) -> Result<(), Fail> {
    for number in 1..=21 {
        let fails = check_read_fails(&rt, rt.alloc(), number)?;
        assert_eq!(rt; fails, number <= 20, "read {}", number);
    }
    Ok(())
}
