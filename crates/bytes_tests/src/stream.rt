//! Streams that are known by hand.

ghost use Rattle.std.specs.Prelude.{◌≡◌, ◌^◌, ◌<◌, [], ◌∷◌, length, IfOk};
ghost use Rattle.bc_stream.specs.Blocks.{a_block, a_record, contents_of, no_more};

use base_core::{NoMemory, Sequence};
use bc_stream::{
    BlockList, Part, StreamFault, Values, no_blocks, no_parts, push_entry, push_outermost,
    read_back, read_blocks, write_blocks,
};
use std::alloc::Global;
use std::test::Fail;

/// A block 8 with the record VERSION, as `llvm-bcanalyzer` reads it.
const VERSION_ALONE: [u8; 16] = [
    0x42, 0x43, 0xC0, 0xDE, 0x21, 0x0C, 0, 0, 1, 0, 0, 0, 0x0B, 0x82, 0, 0,
];

/// The head of a block 8 inside another, which says that it has no word.
const INNER_HEAD: [u8; 8] = [0x41, 0x18, 0, 0, 0, 0, 0, 0];

fn version_alone(alloc: Global) -> Result<BlockList, NoMemory>
    ensures { IfOk result (λ blocks. contents_of blocks ≡ a_block 8 (a_record 1 (1 ∷ []) no_more) no_more) }
{
    let mut parts = no_parts(alloc);
    let values = Values::from_slice(alloc, &[1])?;
    push_entry(&mut parts, 1, values)?;
    let mut blocks = no_blocks(alloc);
    push_outermost(&mut blocks, 8, parts)?;
    Ok(blocks)
}

/// Whether a list is the block 8 with the record VERSION.
fn is_version_alone(blocks: &BlockList) -> bool {
    match blocks.as_slice() {
        [block] => match block.parts.as_slice() {
            [Part::Entry(entry)] => {
                block.id == 8 && entry.code == 1 && entry.values.as_slice() == [1].as_slice()
            }
            _ => false,
        },
        _ => false,
    }
}

/// The kind and the bit of the fault of some bytes.
fn fault(rt: &HostRuntime, bytes: &[u8]) -> Option<(u8, u64)>
    requires { length bytes.now < 2 ^ 32 }
{
    match read_blocks(rt.alloc(), bytes) {
        Err(StreamFault::Bad { kind, bit }) => Some((kind, bit)),
        _ => None,
    }
}

#[test]
fn writes_and_reads_a_record(rt: HostRuntime) -> Result<(), Fail> {
    let blocks = version_alone(rt.alloc())?;
    let bytes = write_blocks(rt.alloc(), &blocks)?;
    assert_eq!(rt; bytes.as_slice(), VERSION_ALONE.as_slice());
    assert!(rt; is_version_alone(&read_blocks(rt.alloc(), &VERSION_ALONE)?));
    assert!(rt; is_version_alone(&read_back(rt.alloc(), &blocks)?));
    Ok(())
}

#[test]
fn skips_zero_bytes(rt: HostRuntime) -> Result<(), Fail> {
    let none = read_blocks(rt.alloc(), &VERSION_ALONE[..4])?;
    assert_eq!(rt; none.len(), 0);
    let again = read_blocks(rt.alloc(), &[0x42, 0x43, 0xC0, 0xDE, 0, 0])?;
    assert_eq!(rt; again.len(), 0);
    Ok(())
}

#[test]
fn names_the_fault(rt: HostRuntime) {
    assert_eq!(rt; fault(&rt, &[0x42, 0x43, 0xC0, 0xDF]), Some((1, 0)));
    assert_eq!(rt; fault(&rt, &[0x42, 0x43, 0xC0, 0xDE, 0xFF]), Some((2, 32)));
    assert_eq!(rt; fault(&rt, &VERSION_ALONE[..12]), Some((2, 96)));
    for (at, value, kind, bit) in [
        (12, 7, 3, 96),
        (8, 2, 5, 117),
        (4, 0x24, 7, 32),
        (4, 1, 10, 32),
    ] {
        let mut bytes = VERSION_ALONE;
        bytes[at] = value;
        assert_eq!(rt; fault(&rt, &bytes), Some((kind, bit)));
    }
    // a block of abbreviations, and a block with ids of 65 bits
    let mut bytes = VERSION_ALONE;
    bytes[4..8].copy_from_slice(&[0x01, 0x08, 0, 0]);
    bytes[12..].copy_from_slice(&[0x86, 0, 0, 0]);
    assert_eq!(rt; fault(&rt, &bytes), Some((10, 32)));
    bytes[4..8].copy_from_slice(&[0x21, 0x24, 0x06, 0]);
    assert_eq!(rt; fault(&rt, &bytes), Some((4, 32)));
}

#[test]
fn holds_sixteen_levels(rt: HostRuntime) -> Result<(), Fail> {
    let mut bytes = Sequence::from_slice(rt.alloc(), &VERSION_ALONE[..12])?;
    for _ in 0..16 {
        bytes.extend_from_slice(&INNER_HEAD)?;
    }
    assert_eq!(rt; fault(&rt, bytes.as_slice()), Some((9, 1056)));
    Ok(())
}
