//! The pieces of a stream, each read whole and then judged.

ghost use Rattle.std.specs.Prelude.{◌≡◌, ◌+◌, ◌*◌, ◌^◌, ◌<◌, ◌≤◌, length, MatchOption, MatchResult};
ghost use Rattle.bc_stream.specs.Spelling.{most_levels};
ghost use Rattle.bc_stream.specs.Reading.{FixedAt};
ghost use Rattle.bc_stream.specs.Pieces.{FaultAt, HasFault, HeadAt, IsBelow, NoHead, PieceAt};

use crate::fault::{
    END_OF_BYTES, NOT_BUILT, OUTSIDE_BLOCKS, StreamFault, TOO_DEEP, TOO_LARGE, UNDEFINED_ID,
    WRONG_LENGTH, fault,
};
use crate::reader::{align, read_fixed, read_number};
use crate::record::{RecordRead, read_record};
use crate::values::Values;
use std::alloc::Global;

/// The abbreviation id of the end of a block.
const END_BLOCK: u64 = 0;

/// The abbreviation id of the head of a block.
const ENTER_SUBBLOCK: u64 = 1;

/// The abbreviation id of the definition of an abbreviation.
const DEFINE_ABBREV: u64 = 2;

/// The abbreviation id of a record without an abbreviation.
const UNABBREV_RECORD: u64 = 3;

/// The bits in a chunk of a block's id, less its flag.
const ID_UNIT: u32 = 7;

/// The bits in a chunk of a width, less its flag.
const WIDTH_UNIT: u32 = 3;

/// The greatest width of abbreviation ids.
const MOST_WIDTH: u64 = 64;

/// The greatest number of blocks in one another.
const MOST_LEVELS: u32 = 16;

/// What is known of the innermost open block, or of what stands outside all blocks.
#[derive(Clone, Copy, Drop)]
pub(crate) struct Scope {
    /// How many blocks are open.
    pub(crate) levels: u32,
    /// The width of abbreviation ids.
    pub(crate) width: u32,
    /// The place where the block is to end.
    pub(crate) ends: usize,
}

/// A piece that has nothing against it, with the place behind it.
#[derive(Drop)]
pub(crate) enum Piece {
    /// The end of a block.
    Leave {
        to: usize,
    },
    /// The head of a block, with what is known inside it.
    Enter {
        id: u32,
        inner: Scope,
        to: usize,
    },
    /// A record without an abbreviation.
    Record {
        code: u32,
        values: Values,
        to: usize,
    },
}

/// The head of a block that was read.
#[derive(Clone, Copy, Drop)]
struct HeadRead {
    /// The block's id, or none where it is above 64 bits.
    id: Option<u64>,
    /// The width of abbreviation ids, or none where it is above 64 bits.
    width: Option<u64>,
    /// How many words of 32 bits the block has.
    words: u64,
    /// The place behind the head.
    to: usize,
}

/// A number, if it fits 32 bits.
fn in_word(value: Option<u64>) -> Option<u32>
    ensures { IsBelow (2 ^ 32) value result }
{
    match value {
        Some(value) if value <= u32::MAX as u64 => Some(value as u32),
        _ => None,
    }
}

/// A width of abbreviation ids, if it isn't above 64.
fn in_limit(width: Option<u64>) -> Option<u32>
    ensures { IsBelow 65 width result }
{
    match width {
        Some(width) if width <= MOST_WIDTH => Some(width as u32),
        _ => None,
    }
}

/// Reads the head of a block behind its abbreviation id, or none where the bytes end before its end.
#[inline(always)]
fn read_head(bytes: &[u8], at: usize) -> Option<HeadRead>
    requires short { length bytes.now < 2 ^ 32 }
    requires within { at ≤ 8 * length bytes.now }
    ensures { MatchOption result (NoHead bytes.now at) (HeadAt bytes.now at) }
{
    let Some(id) = read_number(bytes, ID_UNIT, at) else {
        return None;
    };
    let Some(width) = read_number(bytes, WIDTH_UNIT, id.to) else {
        return None;
    };
    let Some(start) = align(bytes, width.to) else {
        return None;
    };
    let Some(words) = read_fixed(bytes, u32::BITS, start) else {
        return None;
    };
    Some(HeadRead {
        id: id.value,
        width: width.value,
        words,
        to: start + 32,
    })
}

/// The end of a block that begins at `at`, and is read from `behind` on.
#[inline(always)]
fn leave(bytes: &[u8], scope: Scope, at: usize, behind: usize) -> Result<Piece, StreamFault>
    requires short { length bytes.now < 2 ^ 32 }
    requires levels { scope.levels ≤ most_levels }
    requires behind { behind ≡ at + scope.width }
    requires id { FixedAt bytes.now scope.width at 0 }
    ensures { MatchResult result (PieceAt bytes.now scope at) (FaultAt bytes.now scope at) }
{
    let Some(to) = align(bytes, behind) else {
        return Err(fault(END_OF_BYTES, at));
    };
    if scope.levels == 0 {
        return Err(fault(OUTSIDE_BLOCKS, at));
    }
    if to != scope.ends {
        return Err(fault(WRONG_LENGTH, at));
    }
    Ok(Piece::Leave { to })
}

/// The head of a block that begins at `at`, and is read from `behind` on.
#[inline(always)]
fn enter(bytes: &[u8], scope: Scope, at: usize, behind: usize) -> Result<Piece, StreamFault>
    requires short { length bytes.now < 2 ^ 32 }
    requires levels { scope.levels ≤ most_levels }
    requires behind { behind ≡ at + scope.width }
    requires id { FixedAt bytes.now scope.width at 1 }
    ensures { MatchResult result (PieceAt bytes.now scope at) (FaultAt bytes.now scope at) }
{
    let Some(head) = read_head(bytes, behind) else {
        return Err(fault(END_OF_BYTES, at));
    };
    let Some(id) = in_word(head.id) else {
        return Err(fault(TOO_LARGE, at));
    };
    let Some(width) = in_limit(head.width) else {
        return Err(fault(TOO_LARGE, at));
    };
    if scope.levels >= MOST_LEVELS {
        return Err(fault(TOO_DEEP, at));
    }
    if id == 0 {
        return Err(fault(NOT_BUILT, at));
    }
    let inner = Scope {
        levels: scope.levels + 1,
        width,
        ends: head.to + 32 * head.words as usize,
    };
    Ok(Piece::Enter {
        id,
        inner,
        to: head.to,
    })
}

/// The record that begins at `at`, and is read from `behind` on.
fn record(
    alloc: Global,
    bytes: &[u8],
    scope: Scope,
    at: usize,
    behind: usize,
) -> Result<Piece, StreamFault>
    requires short { length bytes.now < 2 ^ 32 }
    requires levels { scope.levels ≤ most_levels }
    requires behind { behind ≡ at + scope.width }
    requires id { FixedAt bytes.now scope.width at 3 }
    ensures { MatchResult result (PieceAt bytes.now scope at) (FaultAt bytes.now scope at) }
{
    let Some(found) = read_record(alloc, bytes, behind)? else {
        return Err(fault(END_OF_BYTES, at));
    };
    let RecordRead { code, values, to } = found;
    let Some(code) = in_word(code) else {
        return Err(fault(TOO_LARGE, at));
    };
    let Some(values) = values else {
        return Err(fault(TOO_LARGE, at));
    };
    if scope.levels == 0 {
        return Err(fault(OUTSIDE_BLOCKS, at));
    }
    Ok(Piece::Record { code, values, to })
}

/// The fault of a definition of an abbreviation.
fn define(bytes: &[u8], scope: Scope, at: usize) -> StreamFault
    requires id { FixedAt bytes.now scope.width at 2 }
    ensures { FaultAt bytes.now scope at result }
{
    if scope.levels == 0 {
        fault(OUTSIDE_BLOCKS, at)
    } else {
        fault(NOT_BUILT, at)
    }
}

/// The piece at a place, if it has nothing against it.
///
/// # Errors
/// The least fault of the piece, or `Memory` where memory is refused.
#[inline(always)]
pub(crate) fn next_piece(
    alloc: Global,
    bytes: &[u8],
    scope: Scope,
    at: usize,
) -> Result<Piece, StreamFault>
    requires short { length bytes.now < 2 ^ 32 }
    requires levels { scope.levels ≤ most_levels }
    requires limit { scope.width ≤ 64 }
    requires within { at ≤ 8 * length bytes.now }
    ensures { MatchResult result (PieceAt bytes.now scope at) (FaultAt bytes.now scope at) }
{
    let Some(id) = read_fixed(bytes, scope.width, at) else {
        return Err(fault(END_OF_BYTES, at));
    };
    let behind = at + scope.width as usize;
    match id {
        END_BLOCK => leave(bytes, scope, at, behind),
        ENTER_SUBBLOCK => enter(bytes, scope, at, behind),
        DEFINE_ABBREV => Err(define(bytes, scope, at)),
        UNABBREV_RECORD => record(alloc, bytes, scope, at, behind),
        _ => Err(fault(UNDEFINED_ID, at)),
    }
}
