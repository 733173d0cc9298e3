//! The program: the words of the command line, standard input, output and error, and an exit code.
#![tactic(auto)]

use base_core::{HostSink, HostSource};
use dxil_driver::Status;
use dxil_driver::ends::words;
use std::process::ExitCode;
use trace_driver::trace;

/// Runs the tool over the real ends.
fn run(rt: &HostRuntime) -> Status {
    match words(rt) {
        Err(status) => status,
        Ok(words) => {
            let mut input = HostSource::new(rt.stdin());
            let mut output = HostSink::new(rt.stdout());
            let mut notes = HostSink::new(rt.stderr());
            trace(rt.alloc(), &words, &mut input, &mut output, &mut notes)
        }
    }
}

fn main(rt: HostRuntime) -> ExitCode {
    ExitCode::from(run(&rt).code())
}
