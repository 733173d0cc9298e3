//! Which values a module's numbers name, as far as the records of a body need it.

ghost use Rattle.std.specs.Prelude.{◌≡◌, ◌^◌, ◌<◌, false, not, length, IfSome, is_some, slice_get, option_copied, option_map};
ghost use Rattle.std.specs.Option.{option_map_or};
ghost use Rattle.ir_core.specs.Values.{call_result, function_at, has_value, is_void, parameters, signature};
ghost use Rattle.bc_records.specs.BodyRecords.{first_value, next_value};
ghost use Rattle.bc_records.specs.Written.{type_number};

use ir_core::{Body, Function, Inst, Module, Ty, Types};

/// The function that has a value number.
fn callee(module: &Module, value: u32) -> Option<&Function>
    ensures { option_copied result ≡ function_at «module».now value }
{
    let place = value as usize;
    let globals = module.globals.len();
    if place < globals {
        return None;
    }
    module.functions.get(place - globals)
}

/// The number of the result's type, and of how many parameters, of a function type.
fn shape(types: &Types, ty: u32) -> Option<(u32, usize)>
    ensures value { result ≡ option_map (λ s. (s.0, length s.1)) (signature types.now ty) }
    ensures limit { IfSome result (λ s. s.1 < 2 ^ 31) }
{
    match types.get(ty as usize) {
        Some(Ty::Function { result, params }) => Some((*result, params.len())),
        _ => None,
    }
}

/// Whether a type number names a type of values.
fn is_value_type(types: &Types, ty: u32) -> bool
    ensures { result ≡ option_map_or (λ t. not (is_void t)) (slice_get types.now ty) false }
{
    match types.get(ty as usize) {
        None => false,
        Some(Ty::Void) => false,
        Some(_) => true,
    }
}

/// Whether a call of the function that has a value number has a value.
fn call_has_value(module: &Module, function: u32) -> bool
    ensures { result ≡ is_some (call_result «module».now function) }
{
    match callee(module, function) {
        None => false,
        Some(called) => match shape(&module.types, called.ty) {
            None => false,
            Some((result, _)) => is_value_type(&module.types, result),
        },
    }
}

/// Whether an instruction has a value.
fn inst_has_value(module: &Module, inst: &Inst) -> bool
    ensures { result ≡ has_value «module».now inst.now }
{
    match inst {
        Inst::Call { function, args: _ } => call_has_value(module, *function),
        Inst::Store { .. } => false,
        Inst::Jump { .. } => false,
        Inst::Branch { .. } => false,
        Inst::Ret => false,
        Inst::Bin { .. } => true,
        Inst::Cast { .. } => true,
        Inst::Cmp { .. } => true,
        Inst::Select { .. } => true,
        Inst::Phi { .. } => true,
        Inst::Alloca { .. } => true,
        Inst::Gep { .. } => true,
        Inst::Load { .. } => true,
        Inst::Extract { .. } => true,
        Inst::Rmw { .. } => true,
        Inst::CmpXchg { .. } => true,
    }
}

/// The number of the next value after an instruction.
pub fn after_inst(module: &Module, next: u64, inst: &Inst) -> u64
    requires { next < 2 ^ 63 }
    ensures { result ≡ next_value «module».now next inst.now }
{
    if inst_has_value(module, inst) {
        next + 1
    } else {
        next
    }
}

/// The number of the type of the function that has a value number, and 0 where no function has it.
pub fn function_type(module: &Module, function: u32) -> u32
    ensures { result ≡ type_number «module».now function }
{
    match callee(module, function) {
        None => 0,
        Some(called) => called.ty,
    }
}

/// How many parameters a function has.
fn parameter_count(module: &Module, function: &Function) -> usize
    ensures value { result ≡ length (parameters «module».now function.now) }
    ensures limit { result < 2 ^ 31 }
{
    match shape(&module.types, function.ty) {
        None => 0,
        Some((_, params)) => params,
    }
}

/// The number of the first value that an instruction of a body defines.
pub fn first_of_body(module: &Module, function: &Function, body: &Body) -> u64
    ensures value { result ≡ first_value «module».now function.now body.now }
    ensures limit { result < 2 ^ 34 }
{
    let globals = module.globals.len() as u64;
    let functions = module.functions.len() as u64;
    let constants = module.consts.len() as u64;
    let parameters = parameter_count(module, function) as u64;
    let own = body.consts.len() as u64;
    globals + functions + constants + parameters + own
}
