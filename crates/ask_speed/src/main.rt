//! Asks a question many times over map files that are kept, for a script that measures it.
//!
//! The words are the question, how often it is asked, and the names of the files. Printed are how often it was asked, how many rows were
//! found in all, and how many nanoseconds the answers took. It ends with 3 where a file is not good, the files do not follow one another, the
//! text is no question, or memory is refused as they are read, and with 6 where it is refused later. With fewer than two words it asks nothing. Nothing is claimed of it but that it is safe and ends.
#![tactic(auto)]

mod asking;

use asking::{images, question, rows_found};
use owned_data::{Mem, NoMemory};
use std::alloc::Global;
use std::env::Args;
use std::process::ExitCode;
use std::time::Instant;
use std::{env, io};

/// The number that a word spells, or 0.
fn number(word: &str) -> u32 {
    word.parse::<u32>().unwrap_or(0)
}

/// All words but the first, which is the program's name.
fn words_of(alloc: Global, arguments: Args<Global>) -> Mem<Vec<String>> {
    let mut words = Vec::new(alloc);
    for argument in arguments.skip(1) {
        words.push(argument)?;
    }
    Ok(words)
}

fn main(rt: HostRuntime) -> io::Result<ExitCode> {
    let alloc = rt.alloc();
    let Ok(words) = words_of(alloc, env::args(&rt)?) else {
        return Ok(ExitCode::from(6));
    };
    let [text, times, names @ ..] = words.as_slice() else {
        return Ok(ExitCode::from(0));
    };
    let times = number(times.as_str());
    let (Some(images), Some(query)) = (images(alloc, &rt, names), question(alloc, text.as_str()))
    else {
        return Ok(ExitCode::from(3));
    };
    let began = Instant::now(&rt)?;
    let done = rows_found(alloc, &images, &query, times);
    let took = began.elapsed(&rt)?.as_nanos();
    match done {
        None => Ok(ExitCode::from(3)),
        Some(Err(NoMemory)) => Ok(ExitCode::from(6)),
        Some(Ok(rows)) => {
            println!(rt; "{times} {rows} {took}")?;
            Ok(ExitCode::from(0))
        }
    }
}
