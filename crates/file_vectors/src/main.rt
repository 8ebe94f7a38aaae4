//! Answers rows about numbers, points and texts in bytes, boxes, sections and whole map files, one line for each.
//!
//! The one idea: what the crates of files make of bytes is only compared, so the bytes and the answers are data, in the files
//! `stdin` and `stdout` beside this program. The answers were written down from outside; those of the section with each byte
//! changed and cut at each length are what `tools/first_break_of_section` prints. Nothing is claimed of it but that it is safe
//! and ends.
#![tactic(auto)]

mod boxes;
mod files;
mod messages;
mod points;
mod sections;
mod texts;
mod wire;

use std::alloc::Global;
use std::io;
use std::process::ExitCode;
use vector_rows::{Answer, Fields, RowError, is_remark};

/// Answers a row.
fn answer(alloc: Global, row: &str, out: &mut Answer) -> Result<(), RowError> {
    let mut fields = Fields::new(row);
    let verb = fields.word()?;
    if wire::answer(alloc, verb, &mut fields, out)?
        || points::answer(alloc, verb, &mut fields, out)?
        || texts::answer(alloc, verb, &mut fields, out)?
        || boxes::answer(alloc, verb, &mut fields, out)?
        || messages::answer(alloc, verb, &mut fields, out)?
        || sections::answer(alloc, verb, &mut fields, out)?
        || files::answer(alloc, verb, &mut fields, out)?
    {
        Ok(())
    } else {
        Err(RowError::BadRow)
    }
}

fn main(rt: HostRuntime) -> io::Result<ExitCode> {
    for line in rt.lines(rt.alloc()) {
        let line = line?;
        let row = line.as_str();
        if is_remark(row) {
            println!(rt; "{row}")?;
            continue;
        }
        let mut out = Answer::new(rt.alloc());
        match answer(rt.alloc(), row, &mut out) {
            Ok(()) => {
                let said = out.line();
                println!(rt; "{said}")?;
            }
            Err(RowError::BadRow) => println!(rt; "no row: {row}")?,
            Err(RowError::NoMemory) => return Ok(ExitCode::from(6)),
        }
    }
    Ok(ExitCode::SUCCESS)
}
