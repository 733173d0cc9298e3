//! The tool: the words say which lane is asked for, the input has the source, and the output gets the lines.

ghost use Rattle.std.specs.Prelude.{◌≡◌, ◌≢◌, ◌≤◌, ◌⊎◌, length, map, string_bytes, IfOk, IfErr, IfSome, OnOk};
ghost use Rattle.base_core.specs.Counts.{HasRisen};
ghost use Rattle.dxil_driver.specs.Compiled.{most_source};
ghost use Rattle.dxil_driver.specs.Tool.{IsDoneOrMemory, IsStop};
ghost use Rattle.dxil_driver.specs.declared.refusal.Refusal.{Refusal};
ghost use Rattle.trace_driver.specs.Requests.{Asks, IsUsage};
ghost use Rattle.trace_driver.specs.Traces.{FailsNotes, FailsOutput, IsDone, IsRefusedText, IsTold, IsTraced, StandsFor, TellsOf, TracesAll, refusal_line};
ghost use Rattle.trace_driver.specs.declared.request.Request.{Request};

use crate::request::Request;
use crate::source::source_lines;
use base_core::{Bytes, Sink, Source, read_whole};
use dxil_driver::command::MOST_SOURCE;
use dxil_driver::ends::{deliver, out_of_memory, tell};
use dxil_driver::{Refusal, Status};
use std::alloc::{AllocError, Global};

/// The line of a refusal: the one of `compile`, but for words that ask for no lane.
fn refusal_line(alloc: Global, refusal: Refusal) -> Result<String, AllocError>
    ensures { IfOk result (λ line. string_bytes line ≡ refusal_line refusal) }
{
    match refusal {
        Refusal::Usage => format!(in alloc;
            "usage: source_trace ENTRY GX GY GZ X Y Z LANE WAVE TURNS REPLY..\n"
        ),
        _ => refusal.line(alloc),
    }
}

/// Writes the line of a refusal to the notes, or that of want of memory where the line can't be made.
fn refuse<N: Sink>(alloc: Global, notes: &mut N, refusal: Refusal) -> Status
    ensures told { TellsOf N.written N.faults notes.old notes.new refusal result }
    ensures lasting { N.faults notes.old ≤ N.faults notes.new }
{
    match refusal_line(alloc, refusal) {
        Ok(line) => tell(notes, refusal.status(), line.as_bytes()),
        Err(_) => tell(notes, Status::Memory, out_of_memory()),
    }
}

/// The lines of the lane that is asked for, of the whole input.
fn run<I: Source>(alloc: Global, request: &Request, input: &mut I) -> Result<Bytes, Refusal>
    ensures gives { IfOk result (TracesAll I.left I.taken input.old input.new request.now) }
    ensures cause { IfErr result (StandsFor I.left I.taken input.old input.new I.faults request.now) }
    ensures accepted { OnOk result (IfSome (I.left input.old) (λ all. ¬ IsRefusedText request.now all)) }
    ensures complete { ¬ HasRisen (I.faults input.old) (I.faults input.new)
        → IfSome (I.left input.old) (λ all. length all ≤ most_source → IsTraced request.now all → IfErr result (λ refusal. refusal ≡ Refusal.Memory)) }
{
    let text = read_whole(alloc, input, MOST_SOURCE)?;
    let lines = source_lines(alloc, text.as_slice(), request)?;
    Ok(lines)
}

/// Runs the tool.
///
/// The words ask for a lane of the source that the input gives. The output gets the lines of its run. Each other end
/// writes nothing to the output and one line to the notes, but for an output that fails: it has a front of the lines
/// then. `WriteFault` says that the output failed, or the notes as the line of another end was written to them.
pub fn trace<I: Source, O: Sink, N: Sink>(
    alloc: Global,
    words: &[String],
    input: &mut I,
    output: &mut O,
    notes: &mut N,
) -> Status
    // The output has the lines for all that was left, and the notes have nothing.
    ensures done { result ≡ Status.Done → IsDone I.left I.taken I.faults O.written N.written
        (map string_bytes words.now) input.old input.new output.old output.new notes.old notes.new }

    // One whole line was told, that of a refusal that stands and has this status, and nothing was written to the output.
    ensures told { result ≢ Status.Done → result ≢ Status.WriteFault →
        IsTold I.left I.taken I.faults O.written N.written (map string_bytes words.now)
        input.old input.new output.old output.new notes.old notes.new result }

    // The output failed in the lines, or the notes in the line of a refusal that stands.
    ensures write_fault { result ≡ Status.WriteFault →
        FailsOutput I.left I.taken I.faults O.written N.written (map string_bytes words.now)
        input.old input.new output.old output.new notes.old notes.new O.faults N.faults
        ⊎ FailsNotes I.left I.taken I.faults O.written N.written (map string_bytes words.now)
        input.old input.new output.old output.new notes.old notes.new N.faults }

    // Where a refusal stands, no other end comes.
    ensures other_words { IsUsage (map string_bytes words.now)
        → (result ≡ Status.Usage) ⊎ ((result ≡ Status.Memory) ⊎ (result ≡ Status.WriteFault)) }
    ensures refusals { (request : Request) → Asks (map string_bytes words.now) request
        → IfSome (I.left input.old) (λ all. IsRefusedText request all → IsStop result) }

    // A source with a program has its lines written, unless memory is refused.
    ensures complete { (request : Request) → Asks (map string_bytes words.now) request
        → ¬ HasRisen (I.faults input.old) (I.faults input.new) → ¬ HasRisen (O.faults output.old) (O.faults output.new)
        → IfSome (I.left input.old) (λ all. length all ≤ most_source → IsTraced request all
        → IsDoneOrMemory result (HasRisen (N.faults notes.old) (N.faults notes.new))) }
{
    match Request::from_words(alloc, words) {
        Err(_refused) => refuse(alloc, notes, Refusal::Memory),
        Ok(None) => refuse(alloc, notes, Refusal::Usage),
        Ok(Some(request)) => match run(alloc, &request, input) {
            Ok(lines) => deliver(output, notes, lines.as_slice()),
            Err(refusal) => refuse(alloc, notes, refusal),
        },
    }
}
