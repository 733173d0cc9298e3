//! Records of few values, read at once.
//!
//! Most records are short. Where one isn't read here, it is read as any other piece.

ghost use Rattle.std.specs.Prelude.{◌≡◌, ◌*◌, ◌^◌, ◌<◌, ◌≤◌, length, take, IfSome};
ghost use Rattle.bc_stream.specs.Pieces.{EntryAt, HeadOfFew};

use crate::piece::Scope;
use crate::reader::{lowest, read_number, read_two, whole_window};
use crate::values::MOST_IN_PLACE;

/// The abbreviation id of a record without an abbreviation.
const UNABBREV_RECORD: u64 = 3;

/// The bits in a chunk of a number of a record, less its flag.
const RECORD_UNIT: u32 = 5;

/// The bits of a number of one chunk.
const CHUNK_BITS: u32 = 6;

/// The greatest width of abbreviation ids with which a window has a code and a number of values behind the id.
const MOST_SHORT_WIDTH: u32 = 39;

/// The head of a record that was read: all before its values.
#[derive(Clone, Copy, Drop)]
struct Head {
    code: u32,
    /// How many values follow.
    count: usize,
    /// The place of the values.
    to: usize,
}

/// A record of few values that was read.
#[derive(Clone, Copy, Drop)]
pub(crate) struct FewRead {
    pub(crate) code: u32,
    /// How many values there are.
    pub(crate) count: usize,
    /// The values, and then zeros.
    pub(crate) places: [u64; MOST_IN_PLACE],
    /// The place behind the record.
    pub(crate) to: usize,
}

/// The head of the record of few values that begins at a place, if a window has it whole.
#[inline(always)]
fn read_head(bytes: &[u8], width: u32, at: usize) -> Option<Head>
    requires short { length bytes.now < 2 ^ 32 }
    requires within { at ≤ 8 * length bytes.now }
    ensures { IfSome result (HeadOfFew bytes.now width at) }
{
    let Some(bits) = whole_window(bytes, at) else {
        return None;
    };
    if width > MOST_SHORT_WIDTH || lowest(width, bits) != UNABBREV_RECORD {
        return None;
    }
    let Some(code) = read_two(bytes, RECORD_UNIT, at, bits, width) else {
        return None;
    };
    let count = lowest(CHUNK_BITS, bits >> code.used);
    if count > MOST_IN_PLACE as u64 {
        return None;
    }
    Some(Head {
        code: code.value as u32,
        count: count as usize,
        to: at + (code.used + CHUNK_BITS) as usize,
    })
}

/// The record of few values that begins at a place, if there is one whose numbers are short.
#[inline(always)]
pub(crate) fn read_few(bytes: &[u8], scope: Scope, at: usize) -> Option<FewRead>
    requires short { length bytes.now < 2 ^ 32 }
    requires inside { 0 < scope.levels }
    requires within { at ≤ 8 * length bytes.now }
    ensures count { IfSome result (λ found. found.count ≤ 4) }
    ensures entry { IfSome result (λ found. EntryAt bytes.now scope at found.code (take found.count found.places) found.to) }
{
    let Some(head) = read_head(bytes, scope.width, at) else {
        return None;
    };
    let mut to = head.to;
    let mut places = [0; MOST_IN_PLACE];
    for index in 0..head.count {
        let Some(number) = read_number(bytes, RECORD_UNIT, to) else {
            return None;
        };
        let Some(value) = number.value else {
            return None;
        };
        places[index] = value;
        to = number.to;
    }
    Some(FewRead {
        code: head.code,
        count: head.count,
        places,
        to,
    })
}
