//! Sizes that are known by hand.

use base_core::{NoMemory, Sequence};
use hl_meaning::{FunctionDef, HlType, Program, sizes};
use sqlite_items::Items;
use std::alloc::Global;
use std::test::Fail;

/// A program of one thread in each group, whose entry does nothing.
fn empty_program(alloc: Global) -> Result<Program, NoMemory> {
    let mut functions = Sequence::new(alloc);
    functions.push(FunctionDef {
        name: Sequence::new(alloc),
        result: HlType::Void,
        parameters: Sequence::new(alloc),
        variables: Sequence::new(alloc),
        body: Items::new(alloc),
    })?;
    Ok(Program {
        structs: Sequence::new(alloc),
        resources: Sequence::new(alloc),
        shared: Sequence::new(alloc),
        constants: Sequence::new(alloc),
        functions,
        entry: 0,
        threads: [1, 1, 1],
    })
}

#[test]
fn an_entry_that_does_nothing_holds_nothing(rt: HostRuntime) -> Result<(), Fail> {
    let program = empty_program(rt.alloc())?;
    let sizes = sizes(rt.alloc(), &program)?;
    assert_eq!(rt; sizes.size, 0);
    assert_eq!(rt; sizes.branches, 0);
    assert_eq!(rt; sizes.depth, 0);
    assert_eq!(rt; sizes.shared_bytes, 0);
    assert_eq!(rt; sizes.private_words, 0);
    Ok(())
}
