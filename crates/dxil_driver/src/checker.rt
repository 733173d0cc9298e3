//! From a container to its module.

ghost use Rattle.std.specs.Prelude.{◌≡◌, ◌^◌, ◌<◌, length, MatchResult};
ghost use Rattle.ir_core.specs.declared.module.Module.{Module};
ghost use Rattle.dxil_driver.specs.Check.{Fails, GivesModule, HasOneAnswer, IsChecked, IsRefused, NamesFault, Passes};
ghost use Rattle.dxil_driver.specs.Compiled.{Spells};
ghost use Rattle.dxil_driver.specs.declared.checker.CheckFault.{CheckFault};

use bc_records::{RecordFault, from_blocks};
use bc_stream::{BlockList, StreamFault, no_blocks, read_blocks};
use dx_container::{ContainerFault, unpack};
use dx_validate::{Checked, Invalid, validate};
use ir_core::{Module, Spot};
use std::alloc::Global;

/// Why a container isn't accepted: the fault of the first layer that has one.
#[derive(Clone, Copy, Debug, PartialEq, Eq)]
pub enum CheckFault {
    /// The bytes are no container.
    Container(ContainerFault),
    /// The bitcode spells no blocks.
    Stream(StreamFault),
    /// The blocks record no module.
    Records(RecordFault),
    /// The module breaks this rule of the validator and none of a lesser number, first at this spot.
    Rules { rule: u8, spot: Spot },
    /// Memory was refused.
    Memory,
}

impl From<ContainerFault> for CheckFault {
    ghost use Rattle.dxil_driver.specs.declared.checker.CheckFault.TheVariants.{Container};

    ghost from_gives = { λ fault answer. answer ≡ Container fault };

    fn from(fault: ContainerFault) -> CheckFault {
        CheckFault::Container(fault)
    }
}

impl From<StreamFault> for CheckFault {
    ghost use Rattle.dxil_driver.specs.Check.{of_stream};

    ghost from_gives = { λ fault answer. answer ≡ of_stream fault };

    fn from(fault: StreamFault) -> CheckFault {
        match fault {
            StreamFault::Bad { .. } => CheckFault::Stream(fault),
            StreamFault::Memory => CheckFault::Memory,
        }
    }
}

impl From<RecordFault> for CheckFault {
    ghost use Rattle.dxil_driver.specs.Check.{of_records};

    ghost from_gives = { λ fault answer. answer ≡ of_records fault };

    fn from(fault: RecordFault) -> CheckFault {
        match fault {
            RecordFault::Bad { .. } => CheckFault::Records(fault),
            RecordFault::Memory => CheckFault::Memory,
        }
    }
}

impl From<Invalid> for CheckFault {
    ghost use Rattle.dxil_driver.specs.Check.{of_verdict};

    ghost from_gives = { λ invalid answer. answer ≡ of_verdict invalid };

    fn from(invalid: Invalid) -> CheckFault {
        match invalid {
            Invalid::Broken { rule, spot, .. } => CheckFault::Rules { rule, spot },
            Invalid::Memory { .. } => CheckFault::Memory,
        }
    }
}

/// Bytes have at most one answer, by the laws of the layers.
fn one_answer()
    ensures { HasOneAnswer }
{
    dx_container::laws::at_most_one_content();
    dx_container::laws::at_most_one_fault();
    dx_container::laws::contained_has_no_fault();
    bc_stream::one_list();
    bc_stream::one_fault();
    bc_stream::no_fault_in_a_spelling();
    bc_records::laws::one_module();
    bc_records::laws::one_record_fault();
    bc_records::laws::no_record_fault();
}

/// The module of a container, by its layers one after the other. The blocks that it was read from are left in `kept`.
fn read_container(alloc: Global, bytes: &[u8], kept: &mut BlockList) -> Result<Module, CheckFault>
    requires { length bytes.now < 2 ^ 32 }
    ensures { MatchResult result (Spells bytes.now) (IsRefused bytes.now) }
{
    let content = unpack(bytes)?;
    let blocks = read_blocks(alloc, content.bitcode)?;
    let module = from_blocks(alloc, &blocks)?;
    *kept = blocks;
    Ok(module)
}

/// The module of a container, which breaks none of the validator's rules, or the fault of the first layer.
#[tactic(auto, unfolding(crate::specs::Check::Passes))]
fn judge(alloc: Global, bytes: &[u8], kept: &mut BlockList) -> Result<Checked, CheckFault>
    requires { length bytes.now < 2 ^ 32 }
    ensures { IsChecked bytes.now result }
{
    let module = read_container(alloc, bytes, kept)?;
    let checked = validate(module)?;
    Ok(checked)
}

/// `check`, which leaves the blocks that the module was read from in `kept`.
pub(crate) fn check_keeping(
    alloc: Global,
    bytes: &[u8],
    kept: &mut BlockList,
) -> Result<Checked, CheckFault>
    requires { length bytes.now < 2 ^ 32 }
    ensures answer { IsChecked bytes.now result }
    ensures passes { (m : Module) → Passes bytes.now m → GivesModule m result }
    ensures fails { (fault : CheckFault) → Fails bytes.now fault → NamesFault fault result }
{
    one_answer();
    judge(alloc, bytes, kept)
}

/// The module of a container, which breaks none of the validator's rules.
///
/// The bytes are fewer than 2^32.
///
/// # Errors
/// The fault of the first layer that has one: `Container` exactly where the bytes are no container, `Stream` exactly
/// where their bitcode spells no blocks, `Records` exactly where these record no module, and `Rules` exactly where the
/// module breaks a rule. `Memory` where memory is refused, to which all others yield.
pub fn check(alloc: Global, bytes: &[u8]) -> Result<Checked, CheckFault>
    requires { length bytes.now < 2 ^ 32 }
    ensures answer { IsChecked bytes.now result }
    ensures passes { (m : Module) → Passes bytes.now m → GivesModule m result }
    ensures fails { (fault : CheckFault) → Fails bytes.now fault → NamesFault fault result }
{
    let mut blocks = no_blocks(alloc);
    check_keeping(alloc, bytes, &mut blocks)
}
