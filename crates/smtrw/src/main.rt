//! The program `smtrw` on the words, files and streams of the host: it takes the words that it was started with, and ends with the
//! number of the status that `run_with_eight` of `smtrw_run` answers.

#![tactic(auto)]

use smt_io::{HostInputs, HostSink};
use smtrw_answers::Status;
use smtrw_run::run_with_eight;
use std::env;
use std::process::ExitCode;

/// What the program exits with where the runtime refuses to tell its words; no status has this number.
const NO_WORDS: u8 = 9;

fn main(rt: HostRuntime) -> ExitCode {
    let alloc = rt.alloc();
    let Ok(arguments) = env::args(&rt) else {
        return ExitCode::from(NO_WORDS);
    };
    let Ok(words) = arguments.skip(1).collect::<Vec<String>>(alloc) else {
        return ExitCode::from(Status::OutOfMemory.number());
    };
    let mut out = HostSink::new(rt.stdout());
    let mut err = HostSink::new(rt.stderr());
    let mut inputs = HostInputs::new(alloc, rt);
    let status = run_with_eight(alloc, words.as_slice(), &mut inputs, &mut out, &mut err);
    ExitCode::from(status.number())
}
