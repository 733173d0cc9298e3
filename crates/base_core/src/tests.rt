//! One run of each end: pieces of one byte, a fault at each call, the limit, and a room that is full.

ghost use Rattle.std.specs.Prelude.{◌≤◌};

use crate::{
    Bytes, Calls, HostSink, HostSource, MemorySink, MemorySource, PlainSource, ReadStop, Sink,
    Source, read_whole, write_whole,
};
use std::test::Fail;

const TEXT: &[u8; 5] = b"store";

fn memory(rt: &HostRuntime, piece: usize, failing: &[u64]) -> Result<MemorySource, Fail>
    requires { 1 ≤ piece }
{
    let bytes = Bytes::from_slice(rt.alloc(), TEXT)?;
    let failing = Calls::from_slice(rt.alloc(), failing)?;
    Ok(MemorySource::new(bytes, piece, failing))
}

#[test]
fn reads_pieces_of_one_byte_up_to_the_limit(rt: HostRuntime) -> Result<(), Fail> {
    let mut source = memory(&rt, 1, &[])?;
    let bytes = read_whole(rt.alloc(), &mut source, 5)?;
    assert_eq!(rt; bytes.as_slice(), TEXT.as_slice());

    let mut long = memory(&rt, 1, &[])?;
    let stop = read_whole(rt.alloc(), &mut long, 4).err();
    assert!(rt; matches!(stop, Some(ReadStop::TooLong)));
    Ok(())
}

#[test]
fn a_source_that_fails_at_any_call_is_a_fault(rt: HostRuntime) -> Result<(), Fail> {
    for call in 0..4u64 {
        let mut source = memory(&rt, 2, &[call])?;
        let stop = read_whole(rt.alloc(), &mut source, 5).err();
        assert!(rt; matches!(stop, Some(ReadStop::Fault)), "at {call}");
    }
    let mut source = memory(&rt, 2, &[4])?;
    let bytes = read_whole(rt.alloc(), &mut source, 5)?;
    assert_eq!(rt; bytes.len(), 5);
    Ok(())
}

#[test]
fn a_plain_source_gives_all(rt: HostRuntime) -> Result<(), Fail> {
    let mut source = PlainSource::new(Bytes::from_slice(rt.alloc(), TEXT)?);
    let bytes = read_whole(rt.alloc(), &mut source, 5)?;
    assert_eq!(rt; bytes.as_slice(), TEXT.as_slice());
    let mut into = [7u8; 2];
    assert!(rt; matches!(source.take(&mut into), Ok(0)));
    assert_eq!(rt; into, [7, 7]);
    Ok(())
}

#[test]
fn a_sink_that_fails_keeps_a_front(rt: HostRuntime) -> Result<(), Fail> {
    let mut sink = MemorySink::new(rt.alloc(), 8, 3, Calls::from_slice(rt.alloc(), &[1])?)?;
    assert!(rt; write_whole(&mut sink, TEXT).is_err());
    assert_eq!(rt; sink.written(), b"sto".as_slice());
    assert!(rt; write_whole(&mut sink, b"wn").is_ok());
    assert_eq!(rt; sink.written(), b"stown".as_slice());

    let mut full = MemorySink::new(rt.alloc(), 4, 1, Calls::new(rt.alloc()))?;
    assert!(rt; write_whole(&mut full, TEXT).is_err());
    assert_eq!(rt; full.written(), b"stor".as_slice());
    Ok(())
}

#[test]
fn the_real_ends_pass_bytes_on(rt: HostRuntime) -> Result<(), Fail> {
    let text: &[u8] = TEXT;
    let bytes = read_whole(rt.alloc(), &mut HostSource::new(text), 5)?;
    let mut sink = HostSink::new(Vec::new(rt.alloc()));
    assert!(rt; matches!(sink.give(bytes.as_slice()), Ok(5)));
    Ok(())
}
