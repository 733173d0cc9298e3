//! The container of a kernel, layer by layer: its module, the records of that, their bits, and the
//! container around them.

ghost use Rattle.std.specs.Prelude.{◌≡◌, ◌%◌, ◌≤◌, ◌<◌, length, IfOk};
ghost use Rattle.ir_core.specs.declared.module.Module.{Module};
ghost use Rattle.bc_stream.specs.Blocks.{HasNoBlockZero, contents_of, levels};
ghost use Rattle.bc_stream.specs.Spelling.{most_levels};
ghost use Rattle.dxil_driver.specs.Compiled.{IsContainerOf};
ghost use Rattle.dxil_driver.specs.FirstForm.{HasBuffer};
ghost use Rattle.dxil_driver.specs.Kernel.{RecordsKernel, SpellsKernel};

use crate::emit::emit;
use crate::stores::FirstForm;
use base_core::{Bytes, NoMemory};
use bc_records::to_blocks;
use bc_stream::{BlockList, write_blocks};
use dx_container::{PackInfo, laws, pack};
use std::alloc::Global;

/// The minor version of the shader model.
const MINOR_VERSION: u8 = 0;

/// The blocks and records of a kernel's module.
fn kernel_blocks(alloc: Global, form: &FirstForm) -> Result<BlockList, NoMemory>
    requires { HasBuffer form.now.buffer form.now.stores }
    ensures records { IfOk result (λ blocks. RecordsKernel form.now (contents_of blocks)) }
    ensures no_block_zero { IfOk result (λ blocks. HasNoBlockZero (contents_of blocks)) }
    ensures nesting { IfOk result (λ blocks. levels (contents_of blocks) ≤ most_levels) }
{
    let module = emit(alloc, form)?;
    to_blocks(alloc, &module)
}

/// The bitcode of a kernel's module.
fn kernel_bitcode(alloc: Global, form: &FirstForm) -> Result<Bytes, NoMemory>
    requires { HasBuffer form.now.buffer form.now.stores }
    ensures spells { IfOk result (λ bitcode. SpellsKernel form.now bitcode) }
    ensures words { IfOk result (λ bitcode. length bitcode % 4 ≡ 0) }
{
    let blocks = kernel_blocks(alloc, form)?;
    write_blocks(alloc, &blocks)
}

/// The container of a kernel's module.
///
/// # Errors
/// `NoMemory` where memory is refused.
pub fn kernel_container(alloc: Global, form: &FirstForm) -> Result<Bytes, NoMemory>
    requires { HasBuffer form.now.buffer form.now.stores }
    ensures { IfOk result (λ bytes. (m : Module) × IsContainerOf form.now m bytes) }
{
    laws::at_most_one_content();
    laws::written_is_contained();
    bc_stream::laws::one_list();
    bc_records::laws::one_module();
    let bitcode = kernel_bitcode(alloc, form)?;
    let info = PackInfo {
        minor: MINOR_VERSION,
        waves: false,
    };
    pack(alloc, bitcode.as_slice(), &info)
}
