//! Reads a text, and writes its answer or its first fault; or writes the counts of a sample's
//! answer. The words of the command line, the text and the answer go through devices, over memory
//! or over std, so that `run` is proved against what a device may do.
#![tactic(auto)]

mod answering;
pub mod arguments;
#[cfg(test)]
mod callers;
pub mod command;
pub mod devices;
#[cfg(test)]
mod example_tests;
#[cfg(test)]
mod fault_tests;
pub mod program;
mod reading;
#[cfg(test)]
mod rules_tests;
#[cfg(test)]
mod run_tests;
#[cfg(test)]
mod sample_tests;
mod sampling;
pub mod status;
mod writing;

use crate::arguments::words_of;
use crate::devices::{StdSink, StdSource};
use crate::program::run;
use std::process::ExitCode;
use std::{env, io};

fn main(rt: HostRuntime) -> ExitCode {
    let args = match env::args(&rt) {
        Ok(args) => args,
        Err(error) if error.kind() == io::ErrorKind::OutOfMemory => return ExitCode::from(2),
        Err(_) => return ExitCode::from(11),
    };
    let Ok(words) = words_of(rt.alloc(), args) else {
        return ExitCode::from(2);
    };
    let mut source = StdSource::new(rt.stdin());
    let mut sink = StdSink::new(rt.stdout());
    ExitCode::from(run(rt.alloc(), &words, &mut source, &mut sink).code())
}
