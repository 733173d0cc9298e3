//! What a lane of a few kernels asks, and one run for each way in which `trace` ends.

use crate::run::owned;
use base_core::{Bytes, Calls, MemorySink, MemorySource, PlainSource, Source};
use dxil_driver::Status;
use std::test::Fail;
use trace_driver::trace;

/// The replies behind the words of the first lane, a source, and the lines of its run.
#[derive(Drop)]
struct Row {
    replies: &'static [&'static str],
    source: &'static [u8],
    lines: &'static [u8],
}

const ROWS: [Row; 6] = [
    Row {
        replies: &["7,1,2,3"],
        source: b"ByteAddressBuffer s; RWByteAddressBuffer d; [numthreads(1,1,1)] void main() { d.Store(0, s.Load(4)); }",
        lines: b"buffer-load 0 0 0 4 0\nbuffer-store 1 0 0 0 0 7\nasks\n",
    },
    Row {
        replies: &["0,0,0,0"],
        source: b"RWByteAddressBuffer d; [numthreads(1,1,1)] void main() { uint x = 0; d.Store(0, 1); d.Store(4, x != 0 ? 10 / x : 0); }",
        lines: b"buffer-store 1 0 0 0 0 1\nfault divide-by-zero\n",
    },
    Row {
        replies: &["40,0,0,0", "0,0,0,0"],
        source: b"groupshared uint g[4]; [numthreads(1,1,1)] void main() { g[1] += 2; }",
        lines: b"shared-load 0 1\nshared-store 0 1 42\nended\n",
    },
    Row {
        replies: &["0,0,0,0", "4294967295,0,0,0"],
        source: b"RWByteAddressBuffer d; [numthreads(1,1,1)] void main() { d.InterlockedMin(0, 5); d.InterlockedMax(16, 7u); }",
        lines: b"buffer-atomic 1 0 0 0 0 imin 5\nbuffer-atomic 1 0 0 16 0 umax 7\nended\n",
    },
    Row {
        replies: &["8,0,0,0", "0,0,0,0", "0,0,0,0"],
        source: b"[numthreads(1,1,1)] void main() { WaveReadLaneAt(5, 3); GroupMemoryBarrierWithGroupSync(); }",
        lines: b"wave read-lane-at 5 3\nbarrier 9\nended\n",
    },
    Row {
        replies: &[],
        source: b"[numthreads(1,1,1)] void main() { while (true) {} }",
        lines: b"goes\n",
    },
];

/// The status of a run, what the output has, and what the notes have.
#[derive(Drop)]
struct Run {
    status: Status,
    output: MemorySink,
    notes: MemorySink,
}

/// Runs `trace` with these words for the first lane, with these replies, and an output that takes so many bytes.
fn run_trace<I: Source>(
    rt: &HostRuntime,
    replies: &[&str],
    input: &mut I,
    room: usize,
) -> Result<Run, Fail> {
    let mut words = owned(rt, &["main", "0", "0", "0", "0", "0", "0", "0", "32", "8"])?;
    for reply in replies {
        words.push(String::from_str(rt.alloc(), reply)?)?;
    }
    let mut output = MemorySink::new(rt.alloc(), room, 64, Calls::new(rt.alloc()))?;
    let mut notes = MemorySink::new(rt.alloc(), 128, 3, Calls::new(rt.alloc()))?;
    let status = trace(rt.alloc(), &words, input, &mut output, &mut notes);
    Ok(Run {
        status,
        output,
        notes,
    })
}

#[test]
fn the_lines_of_a_run_are_written(rt: HostRuntime) -> Result<(), Fail> {
    for row in ROWS {
        let mut input = PlainSource::new(Bytes::from_slice(rt.alloc(), row.source)?);
        let run = run_trace(&rt, row.replies, &mut input, 4096)?;
        assert_eq!(rt; run.status, Status::Done);
        assert_eq!(rt; run.output.written(), row.lines);
        assert_eq!(rt; run.notes.written().len(), 0);
    }
    Ok(())
}

#[test]
fn a_source_without_a_program_is_refused(rt: HostRuntime) -> Result<(), Fail> {
    let source = b"[numthreads(1,1,1)] void main() { x; }";
    let mut input = PlainSource::new(Bytes::from_slice(rt.alloc(), source)?);
    let run = run_trace(&rt, &[], &mut input, 4096)?;
    assert_eq!(rt; run.status, Status::Refused);
    assert_eq!(rt; run.output.written().len(), 0);
    assert_eq!(rt; run.notes.written(), b"1:35: rule 3\n".as_slice());
    Ok(())
}

#[test]
fn other_words_are_answered_with_the_usage_of_trace(rt: HostRuntime) -> Result<(), Fail> {
    let mut input = PlainSource::new(Bytes::new(rt.alloc()));
    let run = run_trace(&rt, &["0,0,0"], &mut input, 4096)?;
    assert_eq!(rt; run.status, Status::Usage);
    assert_eq!(rt; run.output.written().len(), 0);
    let line = b"usage: source_trace ENTRY GX GY GZ X Y Z LANE WAVE TURNS REPLY..\n";
    assert_eq!(rt; run.notes.written(), line.as_slice());
    Ok(())
}

#[test]
fn an_input_or_an_output_that_fails_has_its_line(rt: HostRuntime) -> Result<(), Fail> {
    let source = b"[numthreads(1,1,1)] void main() {}";
    let failing = Calls::from_slice(rt.alloc(), &[1])?;
    let mut input = MemorySource::new(Bytes::from_slice(rt.alloc(), source)?, 4, failing);
    let run = run_trace(&rt, &[], &mut input, 4096)?;
    assert_eq!(rt; run.status, Status::ReadFault);
    assert_eq!(rt; run.output.written().len(), 0);
    assert_eq!(rt; run.notes.written(), b"error: read fault\n".as_slice());
    let mut input = PlainSource::new(Bytes::from_slice(rt.alloc(), source)?);
    let run = run_trace(&rt, &[], &mut input, 3)?;
    assert_eq!(rt; run.status, Status::WriteFault);
    assert_eq!(rt; run.output.written(), b"end".as_slice());
    assert_eq!(rt; run.notes.written(), b"error: write fault\n".as_slice());
    Ok(())
}
