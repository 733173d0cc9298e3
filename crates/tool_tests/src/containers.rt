//! Containers of small kernels, by their bytes as the formats give them.

use base_core::Text;
use dx_validate::Checked;
use dxil_driver::{CompileFault, Options, Target, check, compile};
use ir_core::{ConstValue, Inst};
use std::test::Fail;

/// Options with the entry `main`.
pub(crate) fn options(rt: &HostRuntime) -> Result<Options, Fail> {
    let entry = Text::from_slice(rt.alloc(), b"main")?;
    Ok(Options {
        entry,
        target: Target::Cs60,
    })
}

/// A kernel of two stores.
const TWO_STORES: &[u8] =
    b"RWByteAddressBuffer o : register(u0); [numthreads(1,1,1)] void main() { o.Store(0, 7); o.Store(4, 4294967295); }";

/// The same kernel, with a comment and other spellings of its numbers.
const SPELLED_OTHERWISE: &[u8] =
    b"RWByteAddressBuffer o : register(u0, space0); [numthreads(01,0x1,2-1u)] void main() { o.Store(false, /* seven */ (0x7)); o.Store((uint)04, 0xFFFFFFFFu); }";

#[test]
fn an_empty_kernel_has_its_container(rt: HostRuntime) -> Result<(), Fail> {
    let container = compile(
        rt.alloc(),
        b"[numthreads(1,1,1)] void main() {}",
        &options(&rt)?,
    )
    .ok()
    .ok_or("no container")?;
    let bytes = container.as_slice();
    assert!(rt; bytes.len() > 140);
    assert_eq!(rt; &bytes[..4], b"DXBC".as_slice());
    assert_eq!(rt; &bytes[4..20], [0; 16].as_slice());
    assert_eq!(rt; &bytes[20..24], [1, 0, 0, 0].as_slice());
    assert_eq!(rt;
        &bytes[24..28],
        (bytes.len() as u32).to_le_bytes().as_slice()
    );
    assert_eq!(rt; &bytes[28..32], [4, 0, 0, 0].as_slice());
    assert_eq!(rt;
        &bytes[32..48],
        [0x30, 0, 0, 0, 0x40, 0, 0, 0, 0x50, 0, 0, 0, 0x60, 0, 0, 0].as_slice()
    );
    assert_eq!(rt; &bytes[104..108], [0x60, 0, 5, 0].as_slice());
    assert_eq!(rt; &bytes[112..116], b"DXIL".as_slice());
    assert_eq!(rt; &bytes[116..124], [0, 1, 0, 0, 0x10, 0, 0, 0].as_slice());
    assert_eq!(rt;
        &bytes[124..128],
        (bytes.len() as u32 - 128).to_le_bytes().as_slice()
    );
    assert_eq!(rt;
        &bytes[128..136],
        [0x42, 0x43, 0xC0, 0xDE, 0x21, 0x0C, 0, 0].as_slice()
    );
    Ok(())
}

#[test]
fn literal_stores_compile(rt: HostRuntime) -> Result<(), Fail> {
    assert!(rt; compile(rt.alloc(), TWO_STORES, &options(&rt)?).is_ok());
    Ok(())
}

#[test]
fn spellings_and_comments_say_the_same(rt: HostRuntime) -> Result<(), Fail> {
    let options = options(&rt)?;
    let one = compile(rt.alloc(), TWO_STORES, &options)
        .ok()
        .ok_or("no container")?;
    let other = compile(rt.alloc(), SPELLED_OTHERWISE, &options)
        .ok()
        .ok_or("no container")?;
    assert!(rt; one.as_slice() == other.as_slice());
    Ok(())
}

#[test]
fn other_texts_are_not_built(rt: HostRuntime) -> Result<(), Fail> {
    let texts: [&[u8]; 8] = [
        b"[numthreads(1,1,1)] void main() { ; }",
        b"void f() {} [numthreads(1,1,1)] void main() {}",
        b"groupshared uint g; [numthreads(1,1,1)] void main() {}",
        b"[numthreads(1,1,1)] void main(uint t : SV_GroupIndex) {}",
        b"RWByteAddressBuffer o : register(u1); [numthreads(1,1,1)] void main() {}",
        b"RWByteAddressBuffer o : register(u0, space1); [numthreads(1,1,1)] void main() {}",
        b"RWByteAddressBuffer o : register(u0); [numthreads(1,1,1)] void main() { o.Store2(0, 7); }",
        b"RWByteAddressBuffer o : register(u0); [numthreads(1,1,1)] void main() { o.Store(0, 3 + 4); }",
    ];
    let options = options(&rt)?;
    for text in texts {
        assert_eq!(rt;
            compile(rt.alloc(), text, &options).err(),
            Some(CompileFault::Unbuilt)
        );
    }
    Ok(())
}

/// A kernel whose first store stores the word that is the address of the second.
const WORD_AND_ADDRESS: &[u8] =
    b"RWByteAddressBuffer o : register(u0); [numthreads(8,4,2)] void main() { o.Store(0, 4); o.Store(4, 4294967295); }";

/// The module in the container of a kernel.
fn checked(rt: &HostRuntime, text: &[u8]) -> Result<Checked, Fail> {
    let container = compile(rt.alloc(), text, &options(rt)?)
        .ok()
        .ok_or("no container")?;
    let checked = check(rt.alloc(), container.as_slice())
        .ok()
        .ok_or("no module")?;
    Ok(checked)
}

#[test]
fn two_stores_share_a_word(rt: HostRuntime) -> Result<(), Fail> {
    let checked = checked(&rt, WORD_AND_ADDRESS)?;
    let module = checked.module();
    assert_eq!(rt; module.types.len(), 14);
    assert_eq!(rt; module.metas.len(), 23);
    let entry = module.functions.get(0).ok_or("the entry is there")?;
    let body = entry.body.as_ref().ok_or("the entry has a body")?;
    assert_eq!(rt; body.consts.len(), 7);
    let word = body.consts.get(6).copied().ok_or("there are three words")?;
    assert_eq!(rt; word.value, ConstValue::Int(-1));
    let block = body.blocks.get(0).ok_or("the body has a block")?;
    let inst = block.insts.get(2).ok_or("the second store is there")?;
    match inst {
        Inst::Call { function, args } => {
            assert_eq!(rt; *function, 2);
            assert_eq!(rt;
                args.as_slice(),
                [16, 21, 19, 17, 20, 17, 17, 17, 14].as_slice()
            );
        }
        _ => return Err(Fail::from("a store is a call")),
    }
    Ok(())
}

#[test]
fn an_entry_without_a_buffer_ends(rt: HostRuntime) -> Result<(), Fail> {
    let checked = checked(&rt, b"[numthreads(8,4,2)] void main() {}")?;
    let module = checked.module();
    assert_eq!(rt; module.functions.len(), 1);
    assert_eq!(rt; module.metas.len(), 16);
    let entry = module.functions.get(0).ok_or("the entry is there")?;
    assert_eq!(rt; entry.name.as_slice(), b"main".as_slice());
    let body = entry.body.as_ref().ok_or("the entry has a body")?;
    let block = body.blocks.get(0).ok_or("the body has a block")?;
    assert_eq!(rt; block.insts.len(), 1);
    Ok(())
}
