//! One run for each way to end.

use base_core::{Bytes, Calls, MemorySink, MemorySource, PlainSource, Source};
use dxil_driver::{Status, tool};
use std::process::Abort;
use std::test::Fail;

/// The status of a run, what the output has, and what the notes have.
#[derive(Drop)]
pub(crate) struct Run {
    pub(crate) status: Status,
    output: MemorySink,
    pub(crate) notes: MemorySink,
}

fn sink(rt: &HostRuntime, failing: &[u64]) -> Result<MemorySink, Fail> {
    let failing = Calls::from_slice(rt.alloc(), failing)?;
    Ok(MemorySink::new(rt.alloc(), 128, 3, failing)?)
}

/// The words of a command line.
pub(crate) fn owned(rt: &HostRuntime, words: &[&str]) -> Result<Vec<String>, Fail> {
    let mut owned = Vec::new(rt.alloc());
    for word in words {
        owned.push(String::from_str(rt.alloc(), word)?)?;
    }
    Ok(owned)
}

fn run_tool<I: Source>(
    rt: &HostRuntime,
    words: &[&str],
    input: &mut I,
    failing_notes: &[u64],
) -> Result<Run, Fail> {
    let words = owned(rt, words)?;
    let mut output = MemorySink::new(rt.alloc(), 4096, 4096, Calls::new(rt.alloc()))?;
    let mut notes = sink(rt, failing_notes)?;
    let status = tool(rt.alloc(), &words, input, &mut output, &mut notes);
    Ok(Run {
        status,
        output,
        notes,
    })
}

pub(crate) fn assert_refused(rt: &impl Abort, run: &Run, status: Status, line: &[u8]) {
    assert_eq!(rt; run.status, status);
    assert_eq!(rt; run.notes.written(), line);
    assert_eq!(rt; run.output.written().len(), 0);
}

#[test]
fn other_words_are_answered_with_the_usage(rt: HostRuntime) -> Result<(), Fail> {
    let lists: [&[&str]; 17] = [
        &[],
        &["compil"],
        &["compile", "compile"],
        &["compile", "--entry"],
        &["compile", "--entry", ""],
        &["compile", "--entry", "if"],
        &["compile", "--entry", "1a"],
        &["compile", "--entry", "a-b"],
        &["compile", "--target", "cs_6_2"],
        &["compile", "--target", "cs_6_0", "--entry"],
        &["compile", "--entry", "a", "--entry", "b"],
        &["compile", "--target", "cs_6_0", "--target", "cs_6_0"],
        &["compile", "--entry", "a", "--target", "cs_6_0", "x"],
        &["--entry", "a", "compile"],
        &["check", "check"],
        &["check", "--entry", "a"],
        &["check", "--target", "cs_6_0"],
    ];
    for words in lists {
        let mut input = PlainSource::new(Bytes::new(rt.alloc()));
        let run = run_tool(&rt, words, &mut input, &[])?;
        assert_refused(
            &rt,
            &run,
            Status::Usage,
            b"usage: dxil_cli compile [--target cs_6_0] [--entry NAME] | check\n",
        );
    }
    Ok(())
}

#[test]
fn an_input_that_fails_is_a_read_fault(rt: HostRuntime) -> Result<(), Fail> {
    for call in 0..2u64 {
        let text = Bytes::from_slice(rt.alloc(), b"void f() {}")?;
        let failing = Calls::from_slice(rt.alloc(), &[call])?;
        let mut input = MemorySource::new(text, 4, failing);
        let run = run_tool(&rt, &["compile"], &mut input, &[])?;
        assert_refused(&rt, &run, Status::ReadFault, b"error: read fault\n");
    }
    Ok(())
}

/// Pieces one after the other, each so many times.
fn repeated(rt: &HostRuntime, pieces: &[(&[u8], usize)]) -> Result<Bytes, Fail> {
    let mut text = Bytes::new(rt.alloc());
    for (piece, times) in pieces {
        for _ in 0..*times {
            text.extend_from_slice(piece)?;
        }
    }
    Ok(text)
}

/// How a source is refused.
pub(crate) fn compile_run(rt: &HostRuntime, text: Bytes) -> Result<Run, Fail> {
    run_tool(rt, &["compile"], &mut PlainSource::new(text), &[])
}

#[test]
fn texts_are_refused(rt: HostRuntime) -> Result<(), Fail> {
    let texts: [(&[u8], &[u8]); 10] = [
        (b"", b"1:1: syntax\n"),
        (
            b"[numthreads(1,1,1)] void main() { a b c }",
            b"1:39: syntax\n",
        ),
        (b"void f( { }", b"1:9: syntax\n"),
        (b"void f() {", b"1:11: syntax\n"),
        (b"void f() { else", b"1:12: syntax\n"),
        (b"4294967296", b"1:1: number too large\n"),
        (b"void f() { /* }", b"1:12: bad byte\n"),
        (b"void f() {\n\tint if;\n}", b"2:6: syntax\n"),
        (b"void f() {}", b"1:12: rule 13\n"),
        (
            b"[numthreads(1,1,1)] void main() { ; }",
            b"error: not built\n",
        ),
    ];
    for (text, line) in texts {
        let run = compile_run(&rt, Bytes::from_slice(rt.alloc(), text)?)?;
        assert_refused(&rt, &run, Status::Refused, line);
    }
    Ok(())
}

#[test]
fn texts_about_a_limit_are_refused(rt: HostRuntime) -> Result<(), Fail> {
    let texts: [(&[u8], usize, &[u8]); 3] = [
        (b" ", 1048577, b"error: too long\n"),
        (b" ", 1048576, b"1:1048577: syntax\n"),
        (b";", 262145, b"error: too many tokens\n"),
    ];
    for (piece, times, line) in texts {
        let run = compile_run(&rt, repeated(&rt, &[(piece, times)])?)?;
        assert_refused(&rt, &run, Status::Refused, line);
    }
    Ok(())
}

#[test]
fn texts_that_are_nested_too_deep_are_refused(rt: HostRuntime) -> Result<(), Fail> {
    let parentheses: [(&[u8], &[u8]); 2] = [
        (b"; }", b"error: too deep\n"),
        (b"; ", b"1:219: syntax\n"),
    ];
    for (end, line) in parentheses {
        let text = repeated(
            &rt,
            &[
                (b"void f() { x = ", 1),
                (b"(", 100),
                (b"1", 1),
                (b")", 100),
                (end, 1),
            ],
        )?;
        let run = compile_run(&rt, text)?;
        assert_refused(&rt, &run, Status::Refused, line);
    }
    let sum = repeated(&rt, &[(b"void f() { x = 1", 1), (b" + 1", 99), (b"; }", 1)])?;
    let run = compile_run(&rt, sum)?;
    assert_refused(&rt, &run, Status::Refused, b"error: too deep\n");
    Ok(())
}

#[test]
fn notes_that_fail_have_a_front_of_the_line(rt: HostRuntime) -> Result<(), Fail> {
    let mut input = PlainSource::new(Bytes::new(rt.alloc()));
    let run = run_tool(&rt, &[], &mut input, &[1])?;
    assert_refused(&rt, &run, Status::WriteFault, b"usa");
    Ok(())
}

/// The text of an empty kernel.
const EMPTY_KERNEL: &[u8] = b"[numthreads(1,1,1)] void main() {}";

#[test]
fn an_output_that_fails_has_a_front_of_the_container(rt: HostRuntime) -> Result<(), Fail> {
    let words = owned(&rt, &["compile"])?;
    let mut input = PlainSource::new(Bytes::from_slice(rt.alloc(), EMPTY_KERNEL)?);
    let mut output = sink(&rt, &[1])?;
    let mut notes = sink(&rt, &[])?;
    let status = tool(rt.alloc(), &words, &mut input, &mut output, &mut notes);
    assert_eq!(rt; status, Status::WriteFault);
    assert_eq!(rt; output.written(), b"DXB".as_slice());
    assert_eq!(rt; notes.written(), b"error: write fault\n".as_slice());
    Ok(())
}

#[test]
fn a_kernel_is_compiled_by_each_form_of_the_words(rt: HostRuntime) -> Result<(), Fail> {
    let lists: [&[&str]; 5] = [
        &["compile"],
        &["compile", "--target", "cs_6_0"],
        &["compile", "--entry", "main"],
        &["compile", "--target", "cs_6_0", "--entry", "main"],
        &["compile", "--entry", "main", "--target", "cs_6_0"],
    ];
    for words in lists {
        let words = owned(&rt, words)?;
        let mut input = PlainSource::new(Bytes::from_slice(rt.alloc(), EMPTY_KERNEL)?);
        let mut output = MemorySink::new(rt.alloc(), 4096, 4096, Calls::new(rt.alloc()))?;
        let mut notes = sink(&rt, &[])?;
        let status = tool(rt.alloc(), &words, &mut input, &mut output, &mut notes);
        assert_eq!(rt; status, Status::Done);
        assert!(rt; output.written().len() > 128);
        assert_eq!(rt; notes.written().len(), 0);
    }
    Ok(())
}

#[test]
fn a_kernel_without_the_entry_breaks_a_rule(rt: HostRuntime) -> Result<(), Fail> {
    let mut input = PlainSource::new(Bytes::from_slice(rt.alloc(), EMPTY_KERNEL)?);
    let run = run_tool(&rt, &["compile", "--entry", "mainly"], &mut input, &[])?;
    assert_refused(&rt, &run, Status::Refused, b"1:35: rule 13\n");
    Ok(())
}

#[test]
fn the_entry_may_have_another_name(rt: HostRuntime) -> Result<(), Fail> {
    let text = Bytes::from_slice(rt.alloc(), b"[numthreads(1,1,1)] void CSMain() {}")?;
    let words = ["compile", "--entry", "CSMain"];
    let run = run_tool(&rt, &words, &mut PlainSource::new(text), &[])?;
    assert_eq!(rt; run.status, Status::Done);
    assert_eq!(rt; run.notes.written().len(), 0);
    Ok(())
}
