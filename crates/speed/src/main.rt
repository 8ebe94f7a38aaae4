//! Does one kind of work many times, for a script that measures it.
//!
//! The first word is the work: `wire` writes and reads numbers or points in their wire form, `rules` asks a table which rules
//! match an object, `boxes` packs boxes and asks their tree for those in rectangles, `store` builds a store of nodes and commits
//! changes of it, `users` does the same of a store of nodes and ways and the index of their users, `over` goes over a store, and
//! `keys` makes keys of names. The words after it say how, and how much. Without words a little of each is done. Printed are two numbers, so that
//! no work can be left out. Nothing is claimed of it but that it is safe and ends.
#![tactic(auto)]

mod boxes;
mod changes;
mod keys;
mod matching;
mod numbers;
mod points;
mod search;
mod state;
mod users;

use owned_data::{Mem, NoMemory};
use ref_index::RefIndex;
use std::alloc::Global;
use std::process::ExitCode;
use std::time::Instant;
use std::{env, io};

/// What was done: how much was made or found, and a sum of it.
#[derive(Clone, Copy)]
pub struct Work {
    pub count: u64,
    pub sum: u64,
}

/// No work.
const NOTHING: Work = Work { count: 0, sum: 0 };

/// Writes so many numbers or points, and reads them back too where that is asked.
fn wire(alloc: Global, what: &str, count: u32) -> Mem<Work> {
    match what {
        "numbers" => numbers::work(alloc, count, false),
        "numbers-again" => numbers::work(alloc, count, true),
        "points" => points::work(alloc, count, false),
        "points-again" => points::work(alloc, count, true),
        _ => Ok(NOTHING),
    }
}

/// Makes so many boxes, packs them or builds their tree so often, or asks the tree or each box for so many rectangles.
fn in_boxes(alloc: Global, what: &str, count: u32, asked: u32) -> Mem<Work> {
    match what {
        "make" => boxes::make(alloc, count),
        "pack" => boxes::pack(alloc, count, asked),
        "build" => boxes::build(alloc, count, asked),
        "find" => search::find(alloc, count, asked),
        "scan" => search::scan(alloc, count, asked),
        _ => Ok(NOTHING),
    }
}

/// The number that a word spells, or 0.
fn number(word: &Option<String>) -> u32 {
    match word {
        Some(word) => word.as_str().parse::<u32>().unwrap_or(0),
        None => 0,
    }
}

/// The word, or the empty one.
fn text(word: &Option<String>) -> &str {
    match word {
        Some(word) => word.as_str(),
        None => "",
    }
}

/// Prints what was done, and answers whether memory was refused.
fn print(rt: &HostRuntime, done: Mem<Work>) -> io::Result<bool> {
    match done {
        Ok(work) => {
            let count = work.count;
            let sum = work.sum;
            println!(rt; "{count} {sum}")?;
            Ok(false)
        }
        Err(NoMemory) => Ok(true),
    }
}

/// Builds a store, changes it, and prints besides how many nanoseconds the changes took.
fn changed(rt: &HostRuntime, nodes: u32, changes: u32, lines: u32) -> io::Result<bool> {
    let alloc = rt.alloc();
    let Ok(mut store) = changes::built(alloc, nodes) else {
        return Ok(true);
    };
    let began = Instant::now(rt)?;
    let done = changes::change(alloc, &mut store, nodes, changes, lines);
    let took = began.elapsed(rt)?.as_nanos();
    let sum = changes::sum(&store, nodes);
    println!(rt; "{nodes} {sum} {took}")?;
    Ok(done.is_err())
}

/// Builds a store and its index, changes both, and prints besides how many nanoseconds each of the three took.
fn followed(rt: &HostRuntime, objects: u32, changes: u32, lines: u32) -> io::Result<bool> {
    let alloc = rt.alloc();
    let began = Instant::now(rt)?;
    let Ok(mut store) = users::built(alloc, objects) else {
        return Ok(true);
    };
    let built = began.elapsed(rt)?.as_nanos();
    let began = Instant::now(rt)?;
    let Ok(mut index) = RefIndex::build(alloc, &store) else {
        return Ok(true);
    };
    let indexed = began.elapsed(rt)?.as_nanos();
    let began = Instant::now(rt)?;
    let done = users::change(alloc, &mut store, &mut index, objects, changes, lines);
    let took = began.elapsed(rt)?.as_nanos();
    let sum = users::sum(&index, objects);
    println!(rt; "{objects} {sum} {built} {indexed} {took}")?;
    Ok(done.is_err())
}

/// Goes over a store, and over a list of its lines, and prints how many nanoseconds each took.
fn gone_over(rt: &HostRuntime, nodes: u32, times: u32) -> io::Result<bool> {
    let alloc = rt.alloc();
    let (Ok(store), Ok(lines)) = (changes::built(alloc, nodes), changes::all(alloc, nodes)) else {
        return Ok(true);
    };
    let began = Instant::now(rt)?;
    let sum = changes::sum_over(&store, times);
    let store_took = began.elapsed(rt)?.as_nanos();
    let began = Instant::now(rt)?;
    let other = changes::sum_lines(&lines, times);
    let list_took = began.elapsed(rt)?.as_nanos();
    println!(rt; "{sum} {other} {store_took} {list_took}")?;
    Ok(false)
}

fn main(rt: HostRuntime) -> io::Result<ExitCode> {
    let mut words = env::args(&rt)?.skip(1);
    let verb = words.next();
    let one = words.next();
    let two = words.next();
    let three = words.next();
    let alloc = rt.alloc();
    let refused = match text(&verb) {
        "" => {
            print(&rt, wire(alloc, "numbers-again", 1000))?
                || print(&rt, matching::work(alloc, 1000, 200, 3))?
                || print(&rt, in_boxes(alloc, "find", 1000, 3000))?
                || print(&rt, changes::work(alloc, 1000, 40, 10))?
                || print(&rt, changes::over(alloc, 1000, 3))?
                || print(&rt, users::work(alloc, 1000, 40, 10))?
                || print(&rt, keys::work(alloc, "plain", 1000))?
                || print(&rt, keys::work(alloc, "others", 1000))?
        }
        "wire" => print(&rt, wire(alloc, text(&one), number(&two)))?,
        "rules" => print(
            &rt,
            matching::work(alloc, number(&one), number(&two), number(&three)),
        )?,
        "boxes" => print(
            &rt,
            in_boxes(alloc, text(&one), number(&two), number(&three)),
        )?,
        "keys" => print(&rt, keys::work(alloc, text(&one), number(&two)))?,
        "store" => changed(&rt, number(&one), number(&two), number(&three))?,
        "users" => followed(&rt, number(&one), number(&two), number(&three))?,
        "over" => gone_over(&rt, number(&one), number(&two))?,
        _ => return Ok(ExitCode::from(2)),
    };
    Ok(ExitCode::from(if refused { 6 } else { 0 }))
}
