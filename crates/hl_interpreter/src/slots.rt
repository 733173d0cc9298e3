//! The slot of each buffer: its class, its register space and its register.
//!
//! The registers that are taken stand in a set, and the search for a free one starts for each class where the one before
//! it ended. So the time grows little faster than the number of buffers.

ghost use Rattle.std.specs.Prelude.{◌≡◌, [], IfOk, OnOk, map};
ghost use Rattle.hl_meaning.specs.Slots.{given_register, slot_register, slots_of};
ghost use Rattle.hl_meaning.specs.Views.{plain_resource};
ghost use Rattle.hl_interpreter.specs.Registers.{Adds, HasAllBelow, HasAllBelowStarts, IsLeastFree, IsNextSlot, IsTaken};

use base_core::{NoMemory, Sequence};
use hl_meaning::Resource;
use lane_core::Slot;
use std::alloc::Global;
use std::collections::BTreeSet;

/// The slots of all buffers, in order.
pub(crate) type Slots = Sequence<Slot>;

/// The registers that are taken in space 0, each beside its class.
type Taken = BTreeSet<(u8, u32)>;

/// The number of classes that a byte can name.
const CLASSES: usize = 256;

/// Where the search for a free register starts, for each class: all registers below are taken.
type Starts = [u32; CLASSES];

/// The slot of each buffer of a program, in order.
///
/// # Errors
/// `NoMemory` where memory is refused, or a buffer without a register finds none free.
pub(crate) fn slots_of(alloc: Global, resources: &[Resource]) -> Result<Slots, NoMemory>
    ensures { IfOk result (λ slots. slots ≡ slots_of (map plain_resource resources.now)) }
{
    let mut taken = given_registers(alloc, resources)?;
    let mut starts = [0; CLASSES];
    let mut slots = Slots::new(alloc);
    for resource in resources {
        let slot = next_slot(resource, &taken, &mut starts)?;
        add_slot(slot, &mut taken)?;
        slots.push(slot)?;
    }
    Ok(slots)
}

/// The registers that buffers give in space 0.
///
/// # Errors
/// `NoMemory` where memory is refused.
fn given_registers(alloc: Global, resources: &[Resource]) -> Result<Taken, NoMemory>
    ensures { IfOk result (IsTaken (map plain_resource resources.now) []) }
{
    let mut taken = Taken::new(alloc);
    for resource in resources {
        add_given(resource, &mut taken)?;
    }
    Ok(taken)
}

/// Adds the register that a buffer gives, where it stands in space 0.
///
/// # Errors
/// `NoMemory` where memory is refused.
fn add_given(resource: &Resource, taken: &mut Taken) -> Result<(), NoMemory>
    ensures { OnOk result (Adds (λ class. given_register class (plain_resource resource.now)) taken.old taken.new) }
{
    match resource.register {
        Some(register) => add_slot(
            Slot {
                class: resource.class,
                space: resource.space,
                register,
            },
            taken,
        ),
        None => Ok(()),
    }
}

/// Adds the register of a slot, where it stands in space 0.
///
/// # Errors
/// `NoMemory` where memory is refused.
fn add_slot(slot: Slot, taken: &mut Taken) -> Result<(), NoMemory>
    ensures { OnOk result (Adds (λ class. slot_register class slot) taken.old taken.new) }
{
    if slot.space == 0 {
        taken.insert((slot.class, slot.register))?;
    }
    Ok(())
}

/// The slot of a buffer behind those whose registers are taken: where it gives no register, the least one of its class
/// in space 0 that is free. The next search for its class starts there.
///
/// # Errors
/// `NoMemory` where no register of the class below `u32::MAX` is free.
fn next_slot(resource: &Resource, taken: &Taken, starts: &mut Starts) -> Result<Slot, NoMemory>
    requires { HasAllBelowStarts taken.now starts.old }
    ensures slot { IfOk result (IsNextSlot taken.now resource.now.class resource.now.space resource.now.register) }
    ensures starts { OnOk result (HasAllBelowStarts taken.now starts.new) }
{
    match resource.register {
        Some(register) => Ok(Slot {
            class: resource.class,
            space: resource.space,
            register,
        }),
        None => {
            let start = &mut starts[usize::from(resource.class)];
            let register = free_register(taken, resource.class, *start)?;
            *start = register;
            Ok(Slot {
                class: resource.class,
                space: 0,
                register,
            })
        }
    }
}

/// The least register of a class that is free, where all registers below `start` are taken.
///
/// # Errors
/// `NoMemory` where no register of the class below `u32::MAX` is free.
fn free_register(taken: &Taken, class: u8, start: u32) -> Result<u32, NoMemory>
    requires { HasAllBelow taken.now class start }
    ensures { IfOk result (IsLeastFree taken.now class) }
{
    for register in start..u32::MAX {
        if !taken.contains(&(class, register)) {
            return Ok(register);
        }
    }
    Err(NoMemory)
}
