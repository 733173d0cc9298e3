//! The verdict on a module, and the type of those without one.

ghost use Rattle.std.specs.Prelude.{◌≡◌};
ghost use Rattle.ir_core.specs.Soundness.{IsSound};
ghost use Rattle.dx_validate.specs.Verdict.{IsSpotless};
ghost use Rattle.dx_validate.specs.Answer.{IsAnswerOf, IsValidated};

use crate::rules::{
    BodyFault, first_body_fault, first_odd_width, first_unknown_name, is_shader_triple,
};
use ir_core::{Module, Spot};
use std::marker::Model;

/// A sound module that breaks none of the rules.
#[derive(Debug, Drop)]
pub struct Checked {
    inner: Module,
}

impl Model for Checked {
    ghost use Rattle.ir_core.specs.declared.module.Module.{Module};
    ghost use Rattle.ir_core.specs.Soundness.{IsSound};
    ghost use Rattle.dx_validate.specs.Verdict.{IsSpotless};

    ghost Value = { Module };

    ghost view = { λ c. c.inner };

    ghost invariant = { λ c. IsSound c.inner × IsSpotless c.inner };
}

impl Checked {
    /// The module. It takes no memory.
    pub fn module(&self) -> &Module
        ensures value { result.now ≡ self.now }
        ensures sound { IsSound result.now }
        ensures spotless { IsSpotless result.now }
    {
        &self.inner
    }
}

/// Why a module isn't `Checked`; the module is handed back.
#[derive(Debug, Drop)]
pub enum Invalid {
    /// The least rule that is broken, at its first spot.
    Broken {
        rule: u8,
        spot: Spot,
        module: Module,
    },
    /// Memory was refused.
    Memory {
        module: Module,
    },
}

/// The first spot where the least broken rule is broken.
fn verdict(module: &Module) -> Option<(u8, Spot)>
    ensures { IsAnswerOf «module».now result }
{
    if !is_shader_triple(module.triple.as_slice()) {
        return Some((1, Spot::MODULE));
    }
    if let Some(place) = first_unknown_name(module.named.as_slice()) {
        return Some((3, Spot::of_named(place as u32)));
    }
    if let Some(number) = first_odd_width(module.types.as_slice()) {
        return Some((8, Spot::of_type(number as u32)));
    }
    match first_body_fault(module.types.as_slice(), module.functions.as_slice()) {
        None => None,
        Some(BodyFault::Missing) => Some((9, Spot::MODULE)),
        Some(BodyFault::At(place)) => Some((9, Spot::of_function(place as u32))),
    }
}

/// The validator: the module itself where it breaks no rule, and else the least broken rule at its
/// first spot, with the module handed back.
pub fn validate(module: Module) -> Result<Checked, Invalid>
    requires { IsSound «module» }
    ensures { IsValidated «module» result }
{
    match verdict(&module) {
        None => Ok(Checked { inner: module }),
        Some((rule, spot)) => Err(Invalid::Broken { rule, spot, module }),
    }
}
