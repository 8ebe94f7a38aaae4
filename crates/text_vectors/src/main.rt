//! Answers rows about texts, objects, hours, rules and records, one line for each.
//!
//! The one idea: what the crates of texts make of a text is only compared, so the texts and the answers are data, in the files
//! `stdin` and `stdout` beside this program. The answers were written down from outside. Nothing is claimed of it but that it is
//! safe and ends.
#![tactic(auto)]

mod drawn;
mod hours;
mod objects;
mod pieces;
mod rules;

use std::alloc::Global;
use std::io;
use std::process::ExitCode;
use vector_rows::{Answer, Fields, RowError, is_remark};

/// Answers a row.
fn answer(alloc: Global, row: &str, out: &mut Answer) -> Result<(), RowError> {
    let mut fields = Fields::new(row);
    let verb = fields.word()?;
    if pieces::answer(alloc, verb, &mut fields, out)?
        || hours::answer(verb, &mut fields, out)?
        || objects::answer(alloc, verb, &mut fields, out)?
        || rules::answer(alloc, verb, &mut fields, out)?
        || drawn::answer(alloc, verb, &mut fields, out)?
    {
        Ok(())
    } else {
        Err(RowError::BadRow)
    }
}

fn main(rt: HostRuntime) -> io::Result<ExitCode> {
    for line in rt.lines(rt.alloc()) {
        let line = line?;
        let row = line.as_str();
        if is_remark(row) {
            println!(rt; "{row}")?;
            continue;
        }
        let mut out = Answer::new(rt.alloc());
        match answer(rt.alloc(), row, &mut out) {
            Ok(()) => {
                let said = out.line();
                println!(rt; "{said}")?;
            }
            Err(RowError::BadRow) => println!(rt; "no row: {row}")?,
            Err(RowError::NoMemory) => return Ok(ExitCode::from(6)),
        }
    }
    Ok(ExitCode::SUCCESS)
}
