//! What is known of structs, buffers, functions and declared names.
#![tactic(auto, unfolding(crate::specs::ScopeViews::scope_of))]

ghost use Rattle.std.specs.Prelude.{◌≡◌, true, not, is_some, option_map, slice_get, map};
ghost use Rattle.std.specs.Option.{option_copied};
ghost use Rattle.hl_meaning.specs.Views.{plain_ty};
ghost use Rattle.hl_rules.specs.DeclarationRules as rules;
ghost use Rattle.hl_rules.specs.Scopes as scopes;
ghost use Rattle.hl_rules.specs.Values as values;
ghost use Rattle.hl_values.specs.GlobalNames.{any_other, is_other_at};
ghost use Rattle.hl_values.specs.NameTables.{positions_from};
ghost use Rattle.hl_values.specs.ScopeViews.{plain_buffer, plain_param, scope_of};
ghost use Rattle.hl_values.specs.Views.{plain_type_if};
ghost use Rattle.hl_values.specs.WordCounts.{counted};

use crate::scope::{BufferInfo, FunctionInfo, Names, Scope, Sort};
use crate::words::WordCount;
use hl_meaning::HlType;

/// Whether a name at a position is another one than a function's.
fn is_other_at(names: &Names, at: usize) -> bool
    ensures { result ≡ is_other_at names.now at }
{
    match names.value_at(at) {
        Some(sort) => !sort.is_function(),
        None => false,
    }
}

/// Whether one of the entries of a name is another one than a function's.
fn any_other(names: &Names, name: &[u8]) -> bool
    ensures { result ≡ any_other names.now (positions_from 0 name.now names.now) }
{
    for at in names.positions(name) {
        if is_other_at(names, *at) {
            return true;
        }
    }
    false
}

impl Sort {
    ghost use Rattle.hl_rules.specs.DeclarationRules.{is_function_sort};
    ghost use Rattle.hl_values.specs.ScopeViews.{plain_sort};

    /// Whether it is a function's.
    pub fn is_function(&self) -> bool
        ensures { result ≡ is_function_sort (plain_sort self.now) }
    {
        match self {
            Sort::Function => true,
            Sort::Struct(_) => false,
            Sort::Buffer(_) => false,
            Sort::Variable(_) => false,
        }
    }
}

impl<'a> Scope<'a> {
    /// The words of a type, where all that it is made of has types.
    pub fn type_words(&self, ty: &HlType) -> Option<WordCount>
        ensures { result ≡ option_map counted (scopes.type_words (scope_of self.now).structs (plain_ty ty.now)) }
    {
        self.structs.type_words(ty)
    }

    /// The words of a type that may not be known.
    pub fn words_if(&self, ty: &Option<HlType>) -> Option<WordCount>
        ensures { result ≡ option_map counted (scopes.words_if (scope_of self.now).structs (plain_type_if ty.now)) }
    {
        self.structs.words_if(ty)
    }

    /// The number of the member of a name, in the struct of a number.
    pub fn member_number(&self, number: usize, name: &[u8]) -> Option<u32>
        ensures { result ≡ values.member_number (values.members_of (scope_of self.now) number) name.now }
    {
        self.structs.members(number)?.number(name)
    }

    /// The type of the member of a name, in the struct of a number.
    pub fn member_type(&self, number: usize, name: &[u8]) -> Option<&HlType>
        ensures { option_map plain_ty (option_copied result) ≡ values.member_type (scope_of self.now) number name.now }
    {
        self.structs.members(number)?.get(name)?.as_ref()
    }

    /// The buffer of a number.
    pub fn buffer(&self, number: usize) -> Option<&BufferInfo>
        ensures { option_map plain_buffer (option_copied result) ≡ slice_get (scope_of self.now).buffers number }
    {
        self.buffers.get(number)
    }

    /// The function of a number.
    pub fn function(&self, number: usize) -> Option<&FunctionInfo>
        ensures params { option_map (λ f. map plain_param f.params) (option_copied result) ≡ option_map (λ f. f.params) (slice_get (scope_of self.now).functions number) }
        ensures gives { option_map (λ f. plain_type_if f.result) (option_copied result) ≡ option_map (λ f. f.result) (slice_get (scope_of self.now).functions number) }
    {
        self.functions.value_at(number)
    }

    /// Whether a name is declared in the innermost block.
    pub fn is_declared_here(&self, name: &[u8]) -> bool
        ensures { result ≡ is_some (scopes.declared_in (scopes.innermost (scope_of self.now)) name.now) }
    {
        match self.blocks.last() {
            Some(names) => names.get(name).is_some(),
            None => false,
        }
    }

    /// Whether a token is a global name that is declared so far.
    pub fn is_global(&self, index: usize) -> bool
        ensures { result ≡ rules.is_global (λ sort. true) (scope_of self.now) index }
    {
        self.globals.position(self.text_at(index)).is_some()
    }

    /// Whether a token is a global name that is declared so far as another one than a function's.
    pub fn is_other_global(&self, index: usize) -> bool
        ensures { result ≡ rules.is_global (λ sort. not (rules.is_function_sort sort)) (scope_of self.now) index }
    {
        any_other(&self.globals, self.text_at(index))
    }
}
