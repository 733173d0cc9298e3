//! Laws of the records, each the clause of a function that does nothing, and what is recorded read again.

ghost use Rattle.ir_core.specs.Soundness.{IsWhole};
ghost use Rattle.bc_records.specs.FirstList.{IsListed};
ghost use Rattle.bc_records.specs.RecordAnswers.{GivesModule};
ghost use Rattle.bc_records.specs.RecordFaults.{NoRecordFault, OneRecordFault};
ghost use Rattle.bc_records.specs.Records.{OneModule};

use crate::fault::RecordFault;
use crate::reader::from_blocks;
use crate::write::to_blocks;
use ir_core::Module;
use std::alloc::Global;

/// A block list records at most one module.
pub fn one_module()
    ensures { OneModule }
{}

/// A block list has at most one fault.
pub fn one_record_fault()
    ensures { OneRecordFault }
{}

/// A block list that records a module has no fault.
pub fn no_record_fault()
    ensures { NoRecordFault }
{}

/// Records a module and reads it again.
///
/// # Errors
/// `Memory` where memory is refused, and no other.
pub fn read_back(alloc: Global, module: &Module) -> Result<Module, RecordFault>
    requires whole { IsWhole «module».now }
    requires listed { IsListed «module».now }
    ensures { GivesModule «module».now result }
{
    let blocks = to_blocks(alloc, module)?;
    from_blocks(alloc, &blocks)
}
