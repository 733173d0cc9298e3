//! Modules as LLVM numbers their values and writes their constants.

use crate::blocks::{module_list, read_again};
use base_core::Sequence;
use bc_records::{from_blocks, to_blocks};
use ir_core::{Body, ConstValue, Inst, Meta, Module, Ty};
use std::test::Fail;

/// `declare void @f(i32)` is value 0, `define void @g()` value 1, and the constants -1 and 7 are values 2 and 3.
fn module_of_two_functions(rt: &HostRuntime) -> Result<Module, Fail> {
    let blocks = module_list(
        rt,
        // VERSION, TRIPLE, DATALAYOUT, and two FUNCTIONs
        &[
            (1, &[1]),
            (2, &[100, 120]),
            (3, &[]),
            (8, &[2, 0, 1, 0]),
            (8, &[3, 0, 0, 0]),
        ],
        &[
            // TYPE_NEW: NUMENTRY, INTEGER, VOID, two FUNCTIONs, two POINTERs, STRUCT_NAME and STRUCT_NAMED
            (
                17,
                &[
                    (1, &[7]),
                    (7, &[32]),
                    (2, &[]),
                    (21, &[0, 1, 0]),
                    (21, &[0, 1]),
                    (8, &[2, 0]),
                    (8, &[3, 0]),
                    (19, &[115]),
                    (20, &[0, 0, 0]),
                ],
            ),
            // CONSTANTS: SETTYPE, and two INTEGERs
            (11, &[(1, &[0]), (4, &[3]), (4, &[14])]),
            // METADATA: VALUE, NODE, NAME and NAMED_NODE
            (15, &[(2, &[0, 3]), (3, &[1, 0]), (4, &[120]), (10, &[1])]),
            // VALUE_SYMTAB: two ENTRYs
            (14, &[(1, &[1, 103]), (1, &[0, 102])]),
            // FUNCTION: DECLAREBLOCKS, CALL and RET
            (12, &[(1, &[2]), (34, &[0, 32768, 2, 4, 1]), (10, &[])]),
        ],
    )?;
    let again = read_again(rt, &blocks)?;
    Ok(from_blocks(rt.alloc(), &again)?)
}

fn is_call_of_f(body: &Body) -> bool {
    let Some(block) = body.blocks.get(0) else {
        return false;
    };
    match block.insts.as_slice() {
        [Inst::Call { function: 0, args }, Inst::Ret] => args.as_slice() == [3].as_slice(),
        _ => false,
    }
}

#[test]
fn reads_functions_and_their_values(rt: HostRuntime) -> Result<(), Fail> {
    let module = module_of_two_functions(&rt)?;
    assert_eq!(rt; module.triple.as_slice(), b"dx".as_slice());
    assert_eq!(rt; module.layout.len(), 0);
    match module.functions.as_slice() {
        [f, g] => {
            assert_eq!(rt; f.name.as_slice(), b"f".as_slice());
            assert_eq!(rt; g.name.as_slice(), b"g".as_slice());
            assert!(rt; f.body.is_none());
            let body = g.body.as_ref().ok_or("no body")?;
            assert_eq!(rt; body.blocks.len(), 2);
            assert!(rt; is_call_of_f(body));
        }
        _ => return Err(Fail::from("not two functions")),
    }
    Ok(())
}

#[test]
fn reads_tables(rt: HostRuntime) -> Result<(), Fail> {
    let module = module_of_two_functions(&rt)?;
    assert_eq!(rt; module.types.len(), 7);
    match module.types.get(6) {
        Some(
            Ty::Struct {
                name: Some(name),
                of,
            },
        ) => {
            assert_eq!(rt; name.as_slice(), b"s".as_slice());
            assert_eq!(rt; of.as_slice(), [0, 0].as_slice());
        }
        _ => return Err(Fail::from("no struct")),
    }
    match module.consts.as_slice() {
        [first, second] => {
            assert_eq!(rt; first.value, ConstValue::Int(-1));
            assert_eq!(rt; second.value, ConstValue::Int(7));
        }
        _ => return Err(Fail::from("not two constants")),
    }
    match module.metas.as_slice() {
        [Meta::Value { ty: 0, value: 3 }, Meta::Node(ids)] => {
            assert_eq!(rt; ids.as_slice(), [Some(0), None].as_slice());
        }
        _ => return Err(Fail::from("not a value and a node")),
    }
    match module.named.as_slice() {
        [named] => assert_eq!(rt; named.ids.as_slice(), [1].as_slice()),
        _ => return Err(Fail::from("not one name")),
    }
    Ok(())
}

// as LLVM writes i64 constants
#[test]
fn reads_signed_values(rt: HostRuntime) -> Result<(), Fail> {
    for (written, value) in [
        (0, 0),
        (10, 5),
        (3, -1),
        (18446744073709551614, i64::MAX),
        (1, i64::MIN),
    ] {
        let blocks = module_list(
            &rt,
            &[(1, &[1]), (2, &[]), (3, &[])],
            &[
                (17, &[(1, &[1]), (7, &[64])]),
                (11, &[(1, &[0]), (4, &[written])]),
            ],
        )?;
        let again = read_again(&rt, &blocks)?;
        let module = from_blocks(rt.alloc(), &again)?;
        match module.consts.as_slice() {
            [constant] => assert_eq!(rt; constant.value, ConstValue::Int(value)),
            _ => return Err(Fail::from("not one constant")),
        }
    }
    Ok(())
}

#[test]
fn writes_the_empty_module(rt: HostRuntime) -> Result<(), Fail> {
    let alloc = rt.alloc();
    let module = Module {
        triple: Sequence::new(alloc),
        layout: Sequence::new(alloc),
        types: Sequence::new(alloc),
        globals: Sequence::new(alloc),
        functions: Sequence::new(alloc),
        consts: Sequence::new(alloc),
        metas: Sequence::new(alloc),
        named: Sequence::new(alloc),
    };
    let blocks = to_blocks(alloc, &module)?;
    assert_eq!(rt; blocks.len(), 1);
    Ok(())
}
