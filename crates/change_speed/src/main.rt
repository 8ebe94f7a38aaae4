//! Makes the image of an hour many times, for a script that measures what its parts cost.
//!
//! The words are the names of a table of rules, of the objects of a base and of a change, and how often the image is made. Printed are the marks
//! and the records of the hour, and the nanoseconds of three things: of the overlay of the change over the base, of all images of it, and of
//! reading the bytes of one of these images again as often. It ends with 3 where a file is not good or cannot be read, also for
//! want of memory, and with 6 where memory or the clock is refused later. Without words it does nothing. Nothing is claimed of it but that it is safe and ends.
#![tactic(auto)]

mod hours;
mod inputs;
mod measured;

use inputs::{objects, rules};
use measured::{Costs, measure};
use std::marker::Brand;
use std::process::ExitCode;
use std::sync::ledger::Blank;
use std::{env, io};

/// The number that a word spells, or 0.
fn number(word: &Option<String>) -> u32 {
    match word {
        Some(word) => word.as_str().parse::<u32>().unwrap_or(0),
        None => 0,
    }
}

fn main(rt: HostRuntime) -> io::Result<ExitCode> {
    let alloc = rt.alloc();
    let mut words = env::args(&rt)?.skip(1);
    let (Some(table), Some(base), Some(change)) = (words.next(), words.next(), words.next()) else {
        return Ok(ExitCode::from(0));
    };
    let times = number(&words.next());
    let (Some(rules), Some(base), Some(lines)) = (
        rules(alloc, &rt, table.as_str()),
        objects(alloc, &rt, base.as_str()),
        objects(alloc, &rt, change.as_str()),
    ) else {
        return Ok(ExitCode::from(3));
    };
    match measure::<Brand>(alloc, &rt, &rules, base, &lines, times, Blank::new(1)) {
        None => Ok(ExitCode::from(6)),
        Some(
            Costs {
                marks,
                records,
                overlay,
                images,
                reading,
            },
        ) => {
            println!(rt; "{marks} {records} {overlay} {images} {reading}")?;
            Ok(ExitCode::from(0))
        }
    }
}
