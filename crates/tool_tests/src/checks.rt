//! What `check` prints for the container of a kernel, and for parts of it.

use crate::containers::options;
use base_core::{Bytes, Calls, MemorySink, PlainSource};
use dxil_driver::{Status, compile, tool};
use std::process::Abort;
use std::test::Fail;

/// A kernel of one store.
const KERNEL: &[u8] =
    b"RWByteAddressBuffer dst : register(u0); [numthreads(1,1,1)] void main() { dst.Store(0, 7); }";

/// The container of the kernel.
fn container(rt: &HostRuntime) -> Result<Bytes, Fail> {
    let bytes = compile(rt.alloc(), KERNEL, &options(rt)?)
        .ok()
        .ok_or("no container")?;
    Ok(bytes)
}

/// The status of a run, what the output has, and what the notes have.
#[derive(Drop)]
struct Run {
    status: Status,
    output: MemorySink,
    notes: MemorySink,
}

/// Checks bytes.
fn run_check(rt: &HostRuntime, bytes: &[u8]) -> Result<Run, Fail> {
    let mut words = Vec::new(rt.alloc());
    words.push(String::from_str(rt.alloc(), "check")?)?;
    let mut input = PlainSource::new(Bytes::from_slice(rt.alloc(), bytes)?);
    let mut output = MemorySink::new(rt.alloc(), 64, 64, Calls::new(rt.alloc()))?;
    let mut notes = MemorySink::new(rt.alloc(), 64, 64, Calls::new(rt.alloc()))?;
    let status = tool(rt.alloc(), &words, &mut input, &mut output, &mut notes);
    Ok(Run {
        status,
        output,
        notes,
    })
}

fn assert_refused(rt: &impl Abort, run: &Run, line: &[u8]) {
    assert_eq!(rt; run.status, Status::Refused);
    assert_eq!(rt; run.notes.written(), line);
    assert_eq!(rt; run.output.written().len(), 0);
}

#[test]
fn a_compiled_container_passes(rt: HostRuntime) -> Result<(), Fail> {
    let bytes = container(&rt)?;
    let run = run_check(&rt, bytes.as_slice())?;
    assert_eq!(rt; run.status, Status::Done);
    assert_eq!(rt; run.output.written(), b"ok\n".as_slice());
    assert_eq!(rt; run.notes.written().len(), 0);
    Ok(())
}

#[test]
fn parts_of_a_container_are_refused(rt: HostRuntime) -> Result<(), Fail> {
    let whole = container(&rt)?;
    let bytes = whole.as_slice();
    if bytes.len() < 132 {
        return Err(Fail::from("a short container"));
    }
    let ends: [(usize, &[u8]); 3] = [
        (0, b"error: container 1 at 0\n"),
        (31, b"error: container 1 at 31\n"),
        (bytes.len() - 1, b"error: container 4 at 24\n"),
    ];
    for (end, line) in ends {
        let front = bytes.get(..end).ok_or("a short container")?;
        let run = run_check(&rt, front)?;
        assert_refused(&rt, &run, line);
    }
    Ok(())
}

#[test]
fn other_names_are_refused(rt: HostRuntime) -> Result<(), Fail> {
    let whole = container(&rt)?;
    let places: [(usize, &[u8]); 2] = [
        (0, b"error: container 2 at 0\n"),
        (131, b"error: stream 1 at bit 0\n"),
    ];
    for (place, line) in places {
        let mut bytes = Vec::from_slice(rt.alloc(), whole.as_slice())?;
        if place >= bytes.len() {
            return Err(Fail::from("a short container"));
        }
        bytes[place] ^= 1;
        let run = run_check(&rt, &bytes)?;
        assert_refused(&rt, &run, line);
    }
    Ok(())
}
