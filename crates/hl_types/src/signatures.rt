//! Whether functions have the same parameters (HLSL, "Overloading").

ghost use Rattle.std.specs.Prelude.{◌≡◌, ◌&&◌, map, bytes_eq};
ghost use Rattle.std.specs.List.{list_any};
ghost use Rattle.hl_rules.specs.DeclarationRules as rules;
ghost use Rattle.hl_rules.specs.Scopes.{spelled};
ghost use Rattle.hl_types.specs.Signatures.{any_same, is_same_at};
ghost use Rattle.hl_values.specs.NameTables.{positions_from};
ghost use Rattle.hl_values.specs.ScopeViews.{plain_param, scope_of};
ghost use Rattle.hl_values.specs.Views.{plain_type_if};

use hl_meaning::HlType;
use hl_values::{FunctionInfo, NameTable, ParamInfo, Scope};

/// Whether types are known to be the same.
fn is_same_type(a: &Option<HlType>, b: &Option<HlType>) -> bool
    ensures { result ≡ rules.is_same_type (plain_type_if a.now) (plain_type_if b.now) }
{
    let Some(a) = a else {
        return false;
    };
    let Some(b) = b else {
        return false;
    };
    a.is_same(b)
}

/// Whether parameters are known to have the same types.
fn have_same_types(params: &[ParamInfo], others: &[ParamInfo]) -> bool
    ensures { result ≡ rules.have_same_types (map plain_param params.now) (map plain_param others.now) }
{
    if params.len() != others.len() {
        return false;
    }
    for at in 0..params.len() {
        if !is_same_type(&params[at].ty, &others[at].ty) {
            return false;
        }
    }
    true
}

/// Whether the function at a position has parameters of the same types.
fn is_same_at(functions: &NameTable<FunctionInfo>, at: usize, params: &[ParamInfo]) -> bool
    ensures { result ≡ is_same_at functions.now (map plain_param params.now) at }
{
    match functions.value_at(at) {
        Some(info) => have_same_types(info.params.as_slice(), params),
        None => false,
    }
}

/// Whether one of the functions of a name has parameters of the same types.
fn any_same(functions: &NameTable<FunctionInfo>, name: &[u8], params: &[ParamInfo]) -> bool
    ensures { result ≡ any_same functions.now (map plain_param params.now) (positions_from 0 name.now functions.now) }
{
    for at in functions.positions(name) {
        if is_same_at(functions, *at, params) {
            return true;
        }
    }
    false
}

/// Whether an earlier function has a name, the token of an index, and parameters of the same types.
pub(crate) fn is_declared_again(scope: &Scope, name: usize, params: &[ParamInfo]) -> bool
    ensures { result ≡ list_any (λ f. bytes_eq f.name (spelled (scope_of scope.now) name) && rules.have_same_types f.params (map plain_param params.now)) (scope_of scope.now).functions }
{
    any_same(&scope.functions, scope.text_at(name), params)
}
