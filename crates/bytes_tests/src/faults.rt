//! Block lists whose faults are known.

ghost use Rattle.bc_stream.specs.Blocks.{contents_of};
ghost use Rattle.bytes_tests.specs.Writable.{IsWritable};

use crate::blocks::{Record, module_list, read_again};
use bc_records::{RecordFault, from_blocks};
use bc_stream::{BlockList, no_blocks};
use std::test::Fail;

/// The records that each module has: VERSION, TRIPLE and DATALAYOUT.
const HEADER: [Record<'static>; 3] = [(1, &[1]), (2, &[]), (3, &[])];

/// The fault of a list.
fn fault(rt: &HostRuntime, blocks: &BlockList) -> Result<Option<RecordFault>, Fail>
    requires { IsWritable 2 (contents_of blocks.now) }
{
    let again = read_again(rt, blocks)?;
    Ok(from_blocks(rt.alloc(), &again).err())
}

#[test]
fn a_module_is_missing(rt: HostRuntime) -> Result<(), Fail> {
    let missing = RecordFault::Bad {
        kind: 1,
        block: 0,
        at: 0,
    };
    assert_eq!(rt; fault(&rt, &no_blocks(rt.alloc()))?, Some(missing));
    Ok(())
}

#[test]
fn a_type_table_says_its_number_of_entries(rt: HostRuntime) -> Result<(), Fail> {
    let wrong_number = RecordFault::Bad {
        kind: 3,
        block: 1,
        at: 0,
    };
    for (entries, found) in [(0, None), (2, Some(wrong_number))] {
        // TYPE_NEW with NUMENTRY alone
        let blocks = module_list(&rt, &HEADER, &[(17, &[(1, &[entries])])])?;
        assert_eq!(rt; fault(&rt, &blocks)?, found);
    }
    Ok(())
}

#[test]
fn the_first_of_three_faults_is_found(rt: HostRuntime) -> Result<(), Fail> {
    // METADATA with a NAME that stands alone and a NODE of metadata that isn't there, and no type table
    let blocks = module_list(&rt, &HEADER, &[(15, &[(4, &[]), (3, &[9])])])?;
    let name_alone = RecordFault::Bad {
        kind: 6,
        block: 1,
        at: 0,
    };
    assert_eq!(rt; fault(&rt, &blocks)?, Some(name_alone));
    Ok(())
}
