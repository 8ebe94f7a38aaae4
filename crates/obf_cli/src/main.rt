//! The program: it answers questions about a map without a network.
//!
//! `main` only reads the arguments and hands them to `start` with the two streams. What a run of the program does is the contract
//! of `obf_run::run`.
#![tactic(auto)]

use obf_run::{read_arguments, start};
use std::marker::Brand;
use std::process::ExitCode;
use std::sync::ledger::Blank;

fn main(rt: HostRuntime) -> ExitCode {
    let given = read_arguments(&rt);
    let code = start::<Brand, _, _, _>(&rt, &given, Blank::new(1), rt.stdout(), rt.stderr());
    ExitCode::from(code)
}
