//! Runs a layer alone, so that it can be timed: reads a source from standard input, and prints what the layer answers
//! in a line. The words name the layer.
#![tactic(auto)]

mod answer;
mod layer;
mod stop;

use crate::answer::answer_of;
use crate::layer::Layer;
use crate::stop::Stop;
use base_core::{HostSource, read_whole};
use dxil_driver::command::MOST_SOURCE;
use std::env;
use std::process::ExitCode;

/// Runs the layer that the words name over the real ends.
fn run(rt: &HostRuntime) -> Result<(), Stop> {
    let words: Vec<String> = env::args(rt)?.skip(1).collect(rt.alloc())?;
    let Some(layer) = Layer::from_words(&words) else {
        return Err(Stop::Usage);
    };
    let text = read_whole(rt.alloc(), &mut HostSource::new(rt.stdin()), MOST_SOURCE)?;
    let answer = answer_of(rt.alloc(), layer, text.as_slice())?;
    match println!(rt; "{answer}") {
        Ok(()) => Ok(()),
        Err(_) => Err(Stop::WriteFault),
    }
}

/// Says why a run stopped. The status is the same where it can't be said.
fn tell(rt: &HostRuntime, stop: Stop) -> ExitCode {
    let _ = eprintln!(rt; "{stop}");
    ExitCode::from(stop.code())
}

fn main(rt: HostRuntime) -> ExitCode {
    match run(&rt) {
        Ok(()) => ExitCode::SUCCESS,
        Err(stop) => tell(&rt, stop),
    }
}
