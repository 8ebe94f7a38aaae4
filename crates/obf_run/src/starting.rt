//! The program over a runtime and two streams.

ghost use Rattle.std.specs.Prelude.{◌≡◌, ◌<◌};
ghost use Rattle.run_model.specs.Runs.{IsCodeOnSomeRun};

use crate::runs::run_arguments;
use live_model::{Mem, NoMemory, Steps, Text};
use outside::{HostFiles, HostSink, OpenGate};
use run_model::Arguments;
use std::alloc::Global;
use std::env;
use std::env::Args;
use std::io::{ErrorKind, Write};
use std::rt::{Env, Files};
use std::sync::Wait;
use std::sync::ledger::{Blank, Ledger};
use std::thread::Threads;

/// Runs the program on these arguments over the files of the runtime and two streams, and answers the exit code. It only
/// makes the real files and sinks: what is done with them is `run_arguments`.
pub fn start<
    L: Ledger,
    R: Files + AllocGlobal + Wait + Threads + Sync,
    O: Write + Drop,
    E: Write + Drop,
>(rt: &R, given: &Arguments, blank: Blank, out: O, err: E) -> u8
    requires name { blank.name ≡ L.name }
    requires parts { blank.parts ≡ L.parts }
    requires some { 0 < blank.parts }
    ensures { IsCodeOnSomeRun result given.now }
{
    let mut out = HostSink::new(out);
    let mut err = HostSink::new(err);
    let mut files = HostFiles::new(rt.alloc(), rt);
    let mut steps = Steps::<L>::new(blank);
    run_arguments(
        rt,
        rt.alloc(),
        given,
        &mut files,
        &mut out,
        &mut err,
        &OpenGate,
        &mut steps,
    )
}

/// The arguments after the program's name.
pub fn read_arguments<R: Env + AllocGlobal>(rt: &R) -> Arguments {
    match env::args(rt) {
        Ok(arguments) => match words_of(rt.alloc(), arguments) {
            Ok(words) => Arguments::Words(words),
            Err(NoMemory) => Arguments::NoMemory,
        },
        Err(e) => match e.kind() {
            ErrorKind::OutOfMemory => Arguments::NoMemory,
            _ => Arguments::NotText,
        },
    }
}

/// A text of each argument but the first, which is the program's name.
fn words_of(alloc: Global, arguments: Args<Global>) -> Mem<Vec<Text>> {
    let mut words = Vec::new(alloc);
    for argument in arguments.skip(1) {
        words.push(Text::from_string(argument))?;
    }
    Ok(words)
}
