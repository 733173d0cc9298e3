//! Block lists as bytes, in unabbreviated records.
//!
//! A block's body is written apart, so its length is known before its head is written.

ghost use Rattle.std.specs.Prelude.{◌≡◌, [], ◌∷◌, ◌+◌, ◌/◌, ◌%◌, ◌^◌, ◌<◌, ◌≤◌, length, IfOk, OnOk};
ghost use Rattle.std.specs.List.{All};
ghost use Rattle.bc_stream.specs.Bits.{Vbrs};
ghost use Rattle.bc_stream.specs.Blocks.{HasNoBlockZero, a_block, a_record, contents_of, levels, no_more, parts_contents};
ghost use Rattle.bc_stream.specs.Spelling.{Spelled, most_levels, raw_enter, raw_leave, raw_record, reads};
ghost use Rattle.bc_stream.specs.Writing.{Wrote, WroteAll};

use crate::block::{BlockList, BlockTree, Entry, Part};
use crate::writer::BitWriter;
use base_core::{Bytes, NoMemory, Sequence};
use std::alloc::Global;

/// "BC" and 0xC0DE, with which a stream of blocks begins.
const MAGIC: [u8; 4] = [0x42, 0x43, 0xC0, 0xDE];

/// The width of abbreviation ids outside all blocks.
const OUTER_WIDTH: u32 = 2;

/// The width of abbreviation ids in the blocks that are written.
const INNER_WIDTH: u32 = 3;

/// The abbreviation id of the end of a block.
const END_BLOCK: u64 = 0;

/// The abbreviation id of the head of a block.
const ENTER_SUBBLOCK: u64 = 1;

/// The abbreviation id of a record without an abbreviation.
const UNABBREV_RECORD: u64 = 3;

/// The bits in a chunk of a number of a record, less its flag.
const RECORD_UNIT: u32 = 5;

/// The bits in a chunk of a block's id, less its flag.
const ID_UNIT: u32 = 7;

/// The bits in a chunk of a width, less its flag.
const WIDTH_UNIT: u32 = 3;

/// Writes the values of a record.
fn put_values(writer: &mut BitWriter, values: &[u64]) -> Result<(), NoMemory>
    ensures wrote { OnOk result (Wrote (Vbrs 6 values.now) writer.old writer.new) }
    ensures fit { OnOk result (All (λ value. value < 2 ^ 64) values.now) }
{
    for value in values {
        writer.put_chunks(RECORD_UNIT, *value)?;
    }
    Ok(())
}

/// Writes a record.
fn put_record(writer: &mut BitWriter, entry: &Entry) -> Result<(), NoMemory>
    ensures { OnOk result (WroteAll 3 (a_record entry.now.code entry.now.values no_more) writer.old writer.new) }
{
    writer.put(INNER_WIDTH, UNABBREV_RECORD)?;
    writer.put_chunks(RECORD_UNIT, u64::from(entry.code))?;
    writer.put_chunks(RECORD_UNIT, entry.values.len() as u64)?;
    put_values(writer, entry.values.as_slice())?;
    Ok(())
}

/// Writes the head of a block whose body has so many words, where ids have this width.
fn put_enter(writer: &mut BitWriter, width: u32, id: u32, words: usize) -> Result<(), NoMemory>
    requires width { (0 < width) × (width ≤ 32) }
    requires words { words < 2 ^ 32 }
    ensures wrote { OnOk result (Wrote (reads width (raw_enter id 3 words)) writer.old writer.new) }
    ensures fits { id < 2 ^ 32 }
    ensures whole { OnOk result (length writer.new % 32 ≡ 0) }
{
    writer.put(width, ENTER_SUBBLOCK)?;
    writer.put_chunks(ID_UNIT, u64::from(id))?;
    writer.put_chunks(WIDTH_UNIT, u64::from(INNER_WIDTH))?;
    writer.align()?;
    writer.put(u32::BITS, words as u64)?;
    Ok(())
}

/// Writes the end of a block.
fn put_leave(writer: &mut BitWriter) -> Result<(), NoMemory>
    ensures wrote { OnOk result (Wrote (reads 3 raw_leave) writer.old writer.new) }
    ensures whole { OnOk result (length writer.new % 32 ≡ 0) }
{
    writer.put(INNER_WIDTH, END_BLOCK)?;
    writer.align()?;
    Ok(())
}

/// Writes a block where ids have this width.
fn write_block(
    alloc: Global,
    writer: &mut BitWriter,
    width: u32,
    block: &BlockTree,
) -> Result<(), NoMemory>
    requires { (0 < width) × (width ≤ 32) }
    ensures wrote { OnOk result (WroteAll width (a_block block.now.id (parts_contents block.now.parts) no_more) writer.old writer.new) }
    ensures whole { OnOk result (length writer.new % 32 ≡ 0) }
{
    let mut body = BitWriter::new(alloc);
    for part in block.parts.as_slice() {
        match part {
            Part::Block(inner) => write_block(alloc, &mut body, INNER_WIDTH, inner)?,
            Part::Entry(entry) => put_record(&mut body, entry)?,
        }
    }
    put_leave(&mut body)?;
    let body = body.into_bytes();
    put_enter(writer, width, block.id, body.len() / 4)?;
    writer.put_words(&body)?;
    Ok(())
}

/// The bytes of a list of blocks, a multiple of 4 bytes.
///
/// Every record is unabbreviated, and in every block abbreviation ids have 3 bits.
///
/// # Errors
/// `NoMemory` where memory is refused, or for more than 2147483647 bytes.
pub fn write_blocks(alloc: Global, blocks: &BlockList) -> Result<Bytes, NoMemory>
    requires no_block_zero { HasNoBlockZero (contents_of blocks.now) }
    requires nesting { levels (contents_of blocks.now) ≤ most_levels }
    ensures spells { IfOk result (λ bytes. Spelled bytes (contents_of blocks.now)) }
    ensures whole { IfOk result (λ bytes. length bytes % 4 ≡ 0) }
{
    let mut writer = BitWriter::new(alloc);
    for block in blocks.as_slice() {
        write_block(alloc, &mut writer, OUTER_WIDTH, block)?;
    }
    let body = writer.into_bytes();
    let mut bytes = Sequence::from_slice(alloc, &MAGIC)?;
    bytes.extend_from_slice(body.as_slice())?;
    Ok(bytes)
}
