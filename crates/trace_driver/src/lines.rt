//! The lines of events and outcomes.

ghost use Rattle.std.specs.Prelude.{◌≡◌, IfOk, string_bytes};
ghost use Rattle.hl_interpreter.specs.Runs.{run_of};
ghost use Rattle.trace_driver.specs.Lines.{atomic_name, buffer_place, event_line, event_name, event_operands, event_place, fault_line, numbers, outcome_lines, run_lines, shared_place, wave_name};

use base_core::{Bytes, NoMemory};
use hl_interpreter::LaneRun;
use lane_core::{Asked, AtomicKind, Cell, Event, LaneFault, Slot, WaveKind};
use std::alloc::{AllocError, Global};

/// The name of an atomic operation.
fn atomic_name(kind: AtomicKind) -> &'static str
    ensures { result.now ≡ atomic_name kind }
{
    match kind {
        AtomicKind::Add => "add",
        AtomicKind::And => "and",
        AtomicKind::Or => "or",
        AtomicKind::Xor => "xor",
        AtomicKind::IMin => "imin",
        AtomicKind::IMax => "imax",
        AtomicKind::UMin => "umin",
        AtomicKind::UMax => "umax",
        AtomicKind::Exchange => "exchange",
    }
}

/// The name of a wave operation.
fn wave_name(kind: WaveKind) -> &'static str
    ensures { result.now ≡ wave_name kind }
{
    match kind {
        WaveKind::AnyTrue => "any-true",
        WaveKind::AllTrue => "all-true",
        WaveKind::AllEqual => "all-equal",
        WaveKind::Ballot => "ballot",
        WaveKind::ReadLaneAt => "read-lane-at",
        WaveKind::ReadLaneFirst => "read-lane-first",
        WaveKind::IsFirst => "is-first",
        WaveKind::Sum => "sum",
        WaveKind::Product => "product",
        WaveKind::SignedMin => "signed-min",
        WaveKind::SignedMax => "signed-max",
        WaveKind::UnsignedMin => "unsigned-min",
        WaveKind::UnsignedMax => "unsigned-max",
        WaveKind::BitAnd => "bit-and",
        WaveKind::BitOr => "bit-or",
        WaveKind::BitXor => "bit-xor",
        WaveKind::PrefixSum => "prefix-sum",
        WaveKind::PrefixProduct => "prefix-product",
    }
}

/// Where an event of a buffer is: five numbers, each behind a space.
fn buffer_place(alloc: Global, slot: Slot, index: u32, offset: u32) -> Result<String, AllocError>
    ensures { IfOk result (λ text. string_bytes text ≡ buffer_place slot index offset) }
{
    let Slot {
        class,
        space,
        register,
    } = slot;
    format!(in alloc; " {class} {space} {register} {index} {offset}")
}

/// Where an event of a groupshared variable is: two numbers, each behind a space.
fn shared_place(alloc: Global, cell: Cell) -> Result<String, AllocError>
    ensures { IfOk result (λ text. string_bytes text ≡ shared_place cell) }
{
    let Cell { variable, word } = cell;
    format!(in alloc; " {variable} {word}")
}

/// Words as numbers, each behind a space.
fn numbers(alloc: Global, words: &[u32]) -> Result<String, AllocError>
    ensures { IfOk result (λ text. string_bytes text ≡ numbers words.now) }
{
    let mut text = String::new(alloc);
    for word in words {
        let more = format!(in alloc; " {word}")?;
        text.push_str(more.as_str())?;
    }
    Ok(text)
}

/// The name of an event.
fn event_name(event: Event) -> &'static str
    ensures { result.now ≡ event_name event }
{
    match event {
        Event::BufferLoad { .. } => "buffer-load",
        Event::BufferStore { .. } => "buffer-store",
        Event::BufferAtomic { .. } => "buffer-atomic",
        Event::BufferCompareExchange { .. } => "buffer-compare-exchange",
        Event::SharedLoad { .. } => "shared-load",
        Event::SharedStore { .. } => "shared-store",
        Event::SharedAtomic { .. } => "shared-atomic",
        Event::SharedCompareExchange { .. } => "shared-compare-exchange",
        Event::Barrier { .. } => "barrier",
        Event::Wave { .. } => "wave",
    }
}

/// Where an event is, if it is one of a buffer or of a groupshared variable.
fn event_place(alloc: Global, event: Event) -> Result<String, AllocError>
    ensures { IfOk result (λ text. string_bytes text ≡ event_place event) }
{
    match event {
        Event::BufferLoad {
            slot,
            index,
            offset,
        }
        | Event::BufferStore {
            slot,
            index,
            offset,
            ..
        }
        | Event::BufferAtomic {
            slot,
            index,
            offset,
            ..
        }
        | Event::BufferCompareExchange {
            slot,
            index,
            offset,
            ..
        } => buffer_place(alloc, slot, index, offset),
        Event::SharedLoad { cell }
        | Event::SharedStore { cell, .. }
        | Event::SharedAtomic { cell, .. }
        | Event::SharedCompareExchange { cell, .. } => shared_place(alloc, cell),
        Event::Barrier { .. } | Event::Wave { .. } => Ok(String::new(alloc)),
    }
}

/// What else an event says, each part behind a space.
fn event_operands(alloc: Global, event: Event) -> Result<String, AllocError>
    ensures { IfOk result (λ text. string_bytes text ≡ event_operands event) }
{
    match event {
        Event::BufferLoad { .. } | Event::SharedLoad { .. } => Ok(String::new(alloc)),
        Event::BufferStore { count, words, .. } => {
            let count = (count as usize).min(4);
            numbers(alloc, &words[..count])
        }
        Event::SharedStore { word, .. } => format!(in alloc; " {word}"),
        Event::BufferAtomic { kind, word, .. } | Event::SharedAtomic { kind, word, .. } => {
            let name = atomic_name(kind);
            format!(in alloc; " {name} {word}")
        }
        Event::BufferCompareExchange { compare, word, .. }
        | Event::SharedCompareExchange { compare, word, .. } => {
            format!(in alloc; " {compare} {word}")
        }
        Event::Barrier { mode } => format!(in alloc; " {mode}"),
        Event::Wave {
            kind,
            operand,
            lane,
        } => {
            let name = wave_name(kind);
            format!(in alloc; " {name} {operand} {lane}")
        }
    }
}

/// The line of an event: its name, where it is, and what else it says.
fn event_line(alloc: Global, event: Event) -> Result<String, AllocError>
    ensures { IfOk result (λ line. string_bytes line ≡ event_line event) }
{
    let name = event_name(event);
    let place = event_place(alloc, event)?;
    let operands = event_operands(alloc, event)?;
    format!(in alloc; "{name}{place}{operands}\n")
}

/// The line of an outcome, with that of the event that is asked before it.
fn outcome_lines(alloc: Global, outcome: Asked) -> Result<String, AllocError>
    ensures { IfOk result (λ lines. string_bytes lines ≡ outcome_lines outcome) }
{
    match outcome {
        Asked::Asks(event) => {
            let mut lines = event_line(alloc, event)?;
            lines.push_str("asks\n")?;
            Ok(lines)
        }
        Asked::Ended => format!(in alloc; "ended\n"),
        Asked::Goes => format!(in alloc; "goes\n"),
        Asked::Fault(fault) => fault_line(alloc, fault),
    }
}

/// The line of a fault.
fn fault_line(alloc: Global, fault: LaneFault) -> Result<String, AllocError>
    ensures { IfOk result (λ line. string_bytes line ≡ fault_line fault) }
{
    match fault {
        LaneFault::DivideByZero => format!(in alloc; "fault divide-by-zero\n"),
        LaneFault::DivideOverflow => format!(in alloc; "fault divide-overflow\n"),
        LaneFault::OutOfBounds => format!(in alloc; "fault out-of-bounds\n"),
        LaneFault::ShiftTooFar => format!(in alloc; "fault shift-too-far\n"),
    }
}

/// The lines of a run: one for each event that was asked, in order, and then the outcome.
///
/// # Errors
/// `NoMemory` where memory is refused.
pub(crate) fn run_lines(alloc: Global, run: &LaneRun) -> Result<Bytes, NoMemory>
    ensures { IfOk result (λ lines. lines ≡ run_lines (run_of run.now)) }
{
    let mut lines = Bytes::new(alloc);
    for event in run.events.as_slice() {
        let line = event_line(alloc, *event)?;
        lines.extend_from_slice(line.as_bytes())?;
    }
    let last = outcome_lines(alloc, run.outcome)?;
    lines.extend_from_slice(last.as_bytes())?;
    Ok(lines)
}
