//! The nodes of typed programs.

ghost use Rattle.std.specs.Prelude.{◌≡◌, List, IfOk, map, option_map};
ghost use Rattle.hl_meaning.specs.Trees.{a_location, an_expr};
ghost use Rattle.hl_meaning.specs.Types.{with_kind};
ghost use Rattle.hl_meaning.specs.Views.{plain_expr, plain_exprs, plain_form, plain_location, plain_part, plain_parts, plain_root, plain_ty};
ghost use Rattle.hl_rules.specs.Nodes.{a_value_code, converted, converted_code, converted_each, in_kind, place_of_code, type_of_code, value_of_code};
ghost use Rattle.hl_values.specs.Views.{plain_code};

use crate::basic::with_kind;
use crate::typed::Code;
use base_core::NoMemory;
use hl_meaning::{Expr, Exprs, Form, HlType, Kind, Location, PathParts, Root};
use hl_overload::cost;
use sqlite_items::{Boxed, Items};
use std::alloc::Global;

/// An expression of a type, with the index of its first token.
pub fn node(ty: HlType, at: usize, form: Form) -> Expr
    ensures { plain_expr result ≡ an_expr (plain_ty ty) at (plain_form form) }
{
    Expr { ty, at, form }
}

/// A place of a type: where it begins, and the steps into it.
pub fn location(ty: HlType, root: Root, parts: PathParts) -> Location
    ensures { plain_location result ≡ a_location (plain_ty ty) (plain_root root) (plain_parts parts) }
{
    Location { ty, root, parts }
}

/// An expression of a type, with the index of its first token, as what something becomes.
///
/// # Errors
/// `NoMemory` where memory is refused.
pub fn value_node(ty: HlType, at: usize, form: Form, alloc: Global) -> Result<Code, NoMemory>
    ensures { IfOk result (λ code. plain_code code ≡ a_value_code (an_expr (plain_ty ty) at (plain_form form))) }
{
    Ok(Code::Value(Boxed::new(alloc, node(ty, at, form))?))
}

impl Code {
    /// Its type.
    pub fn ty(&self) -> &HlType
        ensures { plain_ty result.now ≡ type_of_code (plain_code self.now) }
    {
        match self {
            Code::Place { place, .. } => &place.get().ty,
            Code::Value(value) => &value.get().ty,
        }
    }

    /// The place, and none for a value.
    pub fn place(self) -> Option<Boxed<Location>>
        ensures { option_map plain_location result ≡ place_of_code (plain_code self) }
    {
        match self {
            Code::Place { place, .. } => Some(place),
            Code::Value(_) => None,
        }
    }

    /// The value: a place is read.
    ///
    /// # Errors
    /// `NoMemory` where memory is refused.
    pub fn value(self, alloc: Global) -> Result<Boxed<Expr>, NoMemory>
        ensures { IfOk result (λ value. plain_expr value ≡ value_of_code (plain_code self)) }
    {
        match self {
            Code::Place { at, place } => {
                let ty = place.get().ty.copied(alloc)?;
                let read = node(ty, at, Form::Read(place.into_inner()));
                Ok(Boxed::new(alloc, read)?)
            }
            Code::Value(value) => Ok(value),
        }
    }
}

/// A value as one of a type, where it converts to it: another type is a node.
///
/// # Errors
/// `NoMemory` where memory is refused.
pub fn converted(
    ty: &HlType,
    value: Boxed<Expr>,
    alloc: Global,
) -> Result<Option<Boxed<Expr>>, NoMemory>
    ensures { IfOk result (λ made. option_map plain_expr made ≡ converted (plain_ty ty.now) (plain_expr value)) }
{
    if value.get().ty.is_same(ty) {
        return Ok(Some(value));
    }
    if cost(&value.get().ty, ty).is_none() {
        return Ok(None);
    }
    let at = value.get().at;
    let ty = ty.copied(alloc)?;
    let made = node(ty, at, Form::Convert(value));
    Ok(Some(Boxed::new(alloc, made)?))
}

/// What something becomes, as a value of a type, where it converts to it.
///
/// # Errors
/// `NoMemory` where memory is refused.
pub fn converted_code(
    ty: &HlType,
    code: Code,
    alloc: Global,
) -> Result<Option<Boxed<Expr>>, NoMemory>
    ensures { IfOk result (λ made. option_map plain_expr made ≡ converted_code (plain_ty ty.now) (plain_code code)) }
{
    converted(ty, code.value(alloc)?, alloc)
}

/// Each one as a value of its own type, where there are as many types and all convert.
///
/// # Errors
/// `NoMemory` where memory is refused.
pub fn converted_each(
    types: &[HlType],
    codes: Vec<Code>,
    alloc: Global,
) -> Result<Option<Exprs>, NoMemory>
    ensures { IfOk result (λ made. option_map plain_exprs made ≡ converted_each (map plain_ty types.now) (map plain_code codes.items)) }
{
    let mut exprs = Items::new(alloc);
    let mut rest = codes.into_iter();
    for ty in types {
        let Some(code) = rest.next() else {
            return Ok(None);
        };
        let Some(expr) = converted_code(ty, code, alloc)? else {
            return Ok(None);
        };
        exprs.push(expr.into_inner())?;
    }
    match rest.next() {
        Some(_) => Ok(None),
        None => Ok(Some(exprs)),
    }
}

/// The parts of a constructor, each in the kind of the whole.
///
/// # Errors
/// `NoMemory` where memory is refused.
pub fn in_kind(kind: Kind, codes: Vec<Code>, alloc: Global) -> Result<Option<Exprs>, NoMemory>
    ensures { IfOk result (λ made. option_map plain_exprs made ≡ in_kind kind (map plain_code codes.items)) }
{
    let mut exprs = Items::new(alloc);
    for code in codes {
        let Some(expr) = code_in_kind(kind, code, alloc)? else {
            return Ok(None);
        };
        exprs.push(expr.into_inner())?;
    }
    Ok(Some(exprs))
}

/// What something becomes, as a value of its size in a kind, where it is a scalar or a vector, or has no value.
fn code_in_kind(kind: Kind, code: Code, alloc: Global) -> Result<Option<Boxed<Expr>>, NoMemory>
    ensures { IfOk result (λ made. option_map plain_expr made ≡ converted_code (with_kind kind (type_of_code (plain_code code))) (plain_code code)) }
{
    let own = with_kind(kind, code.ty(), alloc)?;
    converted_code(&own, code, alloc)
}
