//! The variables and the names of a program without calls, as far as they are used.

ghost use Rattle.std.specs.Prelude.{◌≡◌, suc, ◌∷◌, [], IfOk, OnOk, map};
ghost use Rattle.hl_meaning.specs.Views.{plain_ty, plain_variable};
ghost use Rattle.hl_inline.specs.Building.{plain_fresh};
ghost use Rattle.hl_inline.specs.Fresh.{nameless, next_of, unnamed, with_variables};

use base_core::{NoMemory, Text};
use hl_meaning::{HlType, Variable, Variables};
use std::alloc::Global;

/// The variables that there are so far, whose count is the number of the next one, and the next name.
#[derive(Debug, Drop)]
pub(crate) struct Fresh {
    pub variables: Variables,
    pub names: u32,
}

impl Fresh {
    /// The number of the next variable.
    pub fn next(&self) -> u32
        ensures { result ≡ next_of (plain_fresh self.now) }
    {
        self.variables.len() as u32
    }

    /// Takes the next name.
    ///
    /// # Errors
    /// `NoMemory` where no name is left.
    pub fn take_name(&mut self) -> Result<u32, NoMemory>
        ensures name { IfOk result (λ name. name ≡ self.old.names) }
        ensures fresh { OnOk result (plain_fresh self.new ≡ record (plain_fresh self.old) { names = suc self.old.names }) }
    {
        let name = self.names;
        if name == u32::MAX {
            return Err(NoMemory);
        }
        self.names = name + 1;
        Ok(name)
    }

    /// Adds a variable that no source names.
    ///
    /// # Errors
    /// `NoMemory` where memory is refused.
    pub fn add_unnamed(&mut self, alloc: Global, ty: &HlType, at: usize) -> Result<(), NoMemory>
        ensures { OnOk result (plain_fresh self.new ≡ with_variables (unnamed (plain_ty ty.now) at ∷ []) (plain_fresh self.old)) }
    {
        let ty = ty.copied(alloc)?;
        self.variables.push(Variable {
            name: Text::new(alloc),
            ty,
            at,
        })
    }

    /// Adds variables of the types of some, in order, without their names.
    ///
    /// # Errors
    /// `NoMemory` where memory is refused.
    pub fn add_nameless(&mut self, alloc: Global, variables: &[Variable]) -> Result<(), NoMemory>
        ensures { OnOk result (plain_fresh self.new ≡ with_variables (map nameless (map plain_variable variables.now)) (plain_fresh self.old)) }
    {
        for variable in variables {
            self.add_unnamed(alloc, &variable.ty, variable.at)?;
        }
        Ok(())
    }
}

/// A copy of a variable.
pub(crate) fn copied_variable(alloc: Global, variable: &Variable) -> Result<Variable, NoMemory>
    ensures { IfOk result (λ copy. plain_variable copy ≡ plain_variable variable.now) }
{
    let name = Text::from_slice(alloc, variable.name.as_slice())?;
    let ty = variable.ty.copied(alloc)?;
    Ok(Variable {
        name,
        ty,
        at: variable.at,
    })
}
