//! The tool: the words say what is done with the input, the output has the result, and the notes have one
//! line where there is none.

ghost use Rattle.std.specs.Prelude.{◌≡◌, ◌≢◌, ◌≤◌, ◌⊎◌, length, map, string_bytes, IfOk, IfErr, IfSome, OnOk};
ghost use Rattle.base_core.specs.Counts.{HasRisen};
ghost use Rattle.dxil_driver.specs.Commands.{Accepts, Asks, Gives, IsRefusedText, IsUsage, Refuses, limit_of, most_container, ok_line};
ghost use Rattle.dxil_driver.specs.Compiled.{most_source};
ghost use Rattle.dxil_driver.specs.Tool.{FailsNotes, FailsOutput, GivesAll, IsBadInput, IsDone, IsDoneOrMemory, IsStop, IsTold, IsTooLong, StandsFor, TellsOf};
ghost use Rattle.dxil_driver.specs.declared.command.Command.{Command};
ghost use Rattle.dxil_driver.specs.declared.refusal.Refusal.{Refusal};

use crate::checker::check_keeping;
use crate::command::Command;
use crate::compiler::compile;
use crate::ends::{deliver, out_of_memory, tell};
use crate::options::Options;
use crate::refusal::Refusal;
use crate::status::Status;
use base_core::{Bytes, Sink, Source, read_whole};
use bc_stream::no_blocks;
use std::alloc::Global;
use std::mem;

/// What is printed for a container that passes.
fn ok() -> &'static [u8]
    ensures { result.now ≡ ok_line }
{
    b"ok\n"
}

/// The container of a source.
fn compile_input(alloc: Global, text: &[u8], options: &Options) -> Result<Bytes, Refusal>
    requires { length text.now ≤ most_source }
    ensures gives { IfOk result (λ bytes. Gives (Command.Compile options.now) text.now bytes) }
    ensures cause { IfErr result (λ refusal. (refusal ≡ Refusal.Memory) ⊎ Refuses (Command.Compile options.now) text.now refusal) }
    ensures accepted { OnOk result (¬ IsRefusedText (Command.Compile options.now) text.now) }
    ensures complete { Accepts (Command.Compile options.now) text.now → IfErr result (λ refusal. refusal ≡ Refusal.Memory) }
{
    let bytes = compile(alloc, text, options)?;
    Ok(bytes)
}

/// What is printed for a container.
///
/// What was read stays in memory: the tool ends next, and to free it piece by piece takes long.
fn check_input(alloc: Global, bytes: &[u8]) -> Result<Bytes, Refusal>
    requires { length bytes.now ≤ most_container }
    ensures gives { IfOk result (λ text. Gives Command.Check bytes.now text) }
    ensures cause { IfErr result (λ refusal. (refusal ≡ Refusal.Memory) ⊎ Refuses Command.Check bytes.now refusal) }
    ensures accepted { OnOk result (¬ IsRefusedText Command.Check bytes.now) }
    ensures complete { Accepts Command.Check bytes.now → IfErr result (λ refusal. refusal ≡ Refusal.Memory) }
{
    let mut blocks = no_blocks(alloc);
    let checked = check_keeping(alloc, bytes, &mut blocks)?;
    let text = Bytes::from_slice(alloc, ok())?;
    mem::forget(checked);
    mem::forget(blocks);
    Ok(text)
}

/// What a command writes for its whole input.
fn answer(alloc: Global, command: &Command, input: &[u8]) -> Result<Bytes, Refusal>
    requires { length input.now ≤ limit_of command.now }
    ensures gives { IfOk result (λ bytes. Gives command.now input.now bytes) }
    ensures cause { IfErr result (λ refusal. (refusal ≡ Refusal.Memory) ⊎ Refuses command.now input.now refusal) }
    ensures accepted { OnOk result (¬ IsRefusedText command.now input.now) }
    ensures complete { Accepts command.now input.now → IfErr result (λ refusal. refusal ≡ Refusal.Memory) }
{
    match command {
        Command::Compile(options) => compile_input(alloc, input, options),
        Command::Check => check_input(alloc, input),
    }
}

/// What a command writes for what the input gives.
fn run<I: Source>(alloc: Global, command: &Command, input: &mut I) -> Result<Bytes, Refusal>
    ensures gives { IfOk result (GivesAll I.left I.taken input.old input.new command.now) }
    ensures cause { IfErr result (StandsFor I.left I.taken input.old input.new I.faults command.now) }
    ensures accepted { OnOk result (IfSome (I.left input.old) (λ all. ¬ IsRefusedText command.now all)) }
    ensures complete { ¬ HasRisen (I.faults input.old) (I.faults input.new)
        → IfSome (I.left input.old) (λ all. length all ≤ limit_of command.now → Accepts command.now all → IfErr result (λ refusal. refusal ≡ Refusal.Memory)) }
{
    let all = read_whole(alloc, input, command.limit())?;
    answer(alloc, command, all.as_slice())
}

/// Writes the line of a refusal to the notes, or that of want of memory where the line can't be made.
fn refuse<N: Sink>(alloc: Global, notes: &mut N, refusal: Refusal) -> Status
    ensures told { TellsOf N.written N.faults notes.old notes.new refusal result }
    ensures lasting { N.faults notes.old ≤ N.faults notes.new }
{
    match refusal.line(alloc) {
        Ok(line) => tell(notes, refusal.status(), line.as_bytes()),
        Err(_) => tell(notes, Status::Memory, out_of_memory()),
    }
}

/// Runs the tool.
///
/// The words are `compile`, which writes the container of the source that the input gives, or `check`, which prints
/// `ok` where the input is a container that passes. Each other end writes nothing to the output and one line to the
/// notes, but for an output that fails: it has a front of the result then. `WriteFault` says that the output failed,
/// or the notes as the line of another end was written to them.
pub fn tool<I: Source, O: Sink, N: Sink>(
    alloc: Global,
    words: &[String],
    input: &mut I,
    output: &mut O,
    notes: &mut N,
) -> Status
    // The output has what the command gives for all that was left, and the notes have nothing.
    ensures done { result ≡ Status.Done → IsDone I.left I.taken I.faults O.written N.written
        (map string_bytes words.now) input.old input.new output.old output.new notes.old notes.new }

    // Each other answer has its cause.
    ensures usage { result ≡ Status.Usage → IsUsage (map string_bytes words.now) }
    ensures read_fault { result ≡ Status.ReadFault → HasRisen (I.faults input.old) (I.faults input.new) }
    ensures refused { result ≡ Status.Refused → (command : Command) × Asks (map string_bytes words.now) command
        × (IsTooLong I.left I.taken input.old input.new command
        ⊎ ((refusal : Refusal) × IsBadInput I.left I.taken input.old input.new command refusal)) }
    ensures write_fault { result ≡ Status.WriteFault →
        FailsOutput I.left I.taken I.faults O.written N.written (map string_bytes words.now)
        input.old input.new output.old output.new notes.old notes.new O.faults N.faults
        ⊎ FailsNotes I.left I.taken I.faults O.written N.written (map string_bytes words.now)
        input.old input.new output.old output.new notes.old notes.new N.faults }

    // One whole line was told, that of a refusal that stands, and nothing was written to the output.
    ensures told { result ≢ Status.Done → result ≢ Status.WriteFault →
        IsTold I.left I.taken I.faults O.written N.written (map string_bytes words.now)
        input.old input.new output.old output.new notes.old notes.new result }

    // Where a refusal stands, no other end comes.
    ensures other_words { IsUsage (map string_bytes words.now)
        → (result ≡ Status.Usage) ⊎ ((result ≡ Status.Memory) ⊎ (result ≡ Status.WriteFault)) }
    ensures refusals { (command : Command) → Asks (map string_bytes words.now) command
        → IfSome (I.left input.old) (λ all. IsRefusedText command all → IsStop result) }

    // An input that is accepted has its result written, unless memory is refused.
    ensures complete { (command : Command) → Asks (map string_bytes words.now) command
        → ¬ HasRisen (I.faults input.old) (I.faults input.new) → ¬ HasRisen (O.faults output.old) (O.faults output.new)
        → IfSome (I.left input.old) (λ all. length all ≤ limit_of command → Accepts command all
        → IsDoneOrMemory result (HasRisen (N.faults notes.old) (N.faults notes.new))) }
{
    match Command::from_words(alloc, words) {
        Err(_refused) => refuse(alloc, notes, Refusal::Memory),
        Ok(None) => refuse(alloc, notes, Refusal::Usage),
        Ok(Some(command)) => match run(alloc, &command, input) {
            Ok(bytes) => deliver(output, notes, bytes.as_slice()),
            Err(refusal) => refuse(alloc, notes, refusal),
        },
    }
}
