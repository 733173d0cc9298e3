//! What declarations, blocks and functions change of what is known.
#![tactic(auto, unfolding(crate::specs::ScopeChanges::held_of, crate::specs::ScopeViews::scope_of))]

ghost use Rattle.std.specs.Prelude.{◌≡◌, ◌∷◌, ◌++◌, [], None, Some, IfOk, OnOk, map, unwrap_or};
ghost use Rattle.hl_meaning.specs.Types.{void_type};
ghost use Rattle.hl_meaning.specs.Views.{plain_constant as program_constant, plain_ty, plain_variable as program_variable};
ghost use Rattle.hl_rules.specs.Declarations.{with_variable};
ghost use Rattle.hl_lexer.specs.Tokens.{lexeme_of};
ghost use Rattle.hl_rules.specs.Scopes.{first_scope, looped, named, opened, spelled, with_global, with_local};
ghost use Rattle.hl_values.specs.ScopeChanges.{closed, held_of, held_variable, in_function, inside_of, nothing_held, one_block, outside, with_buffer_named, with_constant_named, with_function_named, with_shared_named, with_struct_named};
ghost use Rattle.hl_values.specs.ScopeViews.{plain_blocks, plain_buffer, plain_param, plain_sort, scope_of};
ghost use Rattle.hl_values.specs.StructTables.{plain_member};
ghost use Rattle.hl_values.specs.Views.{plain_type_if};

use crate::name_table::NameTable;
use crate::scope::{
    BufferInfo, FunctionInfo, Names, ParamInfo, Scope, Sort, VariableInfo, VariableRoot,
};
use crate::structs::{MemberTable, Structs};
use base_core::{NoMemory, Sequence, Text, Words};
use hl_lexer::Token;
use hl_meaning::{Constant, HlType, Variable, Variables};
use std::alloc::Global;
use std::mem;

/// A copy of a type, and `Void` for none.
fn type_or_void(alloc: Global, ty: &Option<HlType>) -> Result<HlType, NoMemory>
    ensures { IfOk result (λ held. plain_ty held ≡ unwrap_or (plain_type_if ty.now) void_type) }
{
    match ty {
        Some(ty) => ty.copied(alloc),
        None => Ok(HlType::Void),
    }
}

/// The variable of a declared name, as the program has it.
fn variable_of(
    alloc: Global,
    name: &[u8],
    ty: &Option<HlType>,
    at: usize,
) -> Result<Variable, NoMemory>
    ensures { IfOk result (λ v. program_variable v ≡ held_variable name.now (plain_type_if ty.now) at) }
{
    Ok(Variable {
        name: Text::from_slice(alloc, name)?,
        ty: type_or_void(alloc, ty)?,
        at,
    })
}

/// Takes the names of the innermost block out, or none where there is no block.
fn take_innermost<'a>(alloc: Global, blocks: &mut Vec<Names<'a>>) -> Names<'a>
    ensures { plain_blocks (blocks.new.items ++ result ∷ []) ≡ one_block (plain_blocks blocks.old.items) }
{
    match blocks.pop() {
        Some(names) => names,
        None => NameTable::new(alloc),
    }
}

impl<'a> Scope<'a> {
    /// What is known before the first declaration, of these tokens and the entry of this name.
    pub fn new(alloc: Global, tokens: &'a [Token<'a>], entry: &'a [u8]) -> Scope<'a>
        ensures scope { scope_of result ≡ first_scope (map lexeme_of tokens.now) entry.now }
        ensures held { held_of result ≡ nothing_held }
    {
        Scope {
            tokens,
            entry,
            structs: Structs::new(alloc),
            buffers: Sequence::new(alloc),
            functions: NameTable::new(alloc),
            shared: Sequence::new(alloc),
            constants: Sequence::new(alloc),
            globals: NameTable::new(alloc),
            blocks: Vec::new(alloc),
            variables: Sequence::new(alloc),
            in_loop: false,
            inside: None,
            result: None,
        }
    }

    /// Goes into a block.
    ///
    /// # Errors
    /// `NoMemory` where memory is refused, as in each call below.
    pub fn open_block(&mut self, alloc: Global) -> Result<(), NoMemory>
        ensures scope { OnOk result (scope_of self.new ≡ opened (scope_of self.old)) }
        ensures held { held_of self.new ≡ held_of self.old }
    {
        self.blocks.push(NameTable::new(alloc))?;
        Ok(())
    }

    /// Goes into the body of a loop.
    pub fn open_loop(&mut self, alloc: Global) -> Result<(), NoMemory>
        ensures scope { OnOk result (scope_of self.new ≡ looped (scope_of self.old)) }
        ensures held { held_of self.new ≡ held_of self.old }
    {
        self.open_block(alloc)?;
        self.in_loop = true;
        Ok(())
    }

    /// Goes out of a block, where a loop stands around it or not.
    pub fn close_block(&mut self, in_loop: bool)
        ensures scope { scope_of self.new ≡ closed in_loop (scope_of self.old) }
        ensures held { held_of self.new ≡ held_of self.old }
    {
        self.blocks.pop();
        self.in_loop = in_loop;
    }

    /// Declares a name in the innermost block.
    pub fn declare_local(
        &mut self,
        alloc: Global,
        name: &'a [u8],
        sort: Sort,
    ) -> Result<(), NoMemory>
        ensures scope { OnOk result (scope_of self.new ≡ with_local (named name.now (plain_sort sort)) (scope_of self.old)) }
        ensures held { held_of self.new ≡ held_of self.old }
    {
        let mut names = take_innermost(alloc, &mut self.blocks);
        names.push(name, sort)?;
        self.blocks.push(names)?;
        Ok(())
    }

    /// Declares a global name.
    pub fn declare_global(&mut self, name: &'a [u8], sort: Sort) -> Result<(), NoMemory>
        ensures scope { OnOk result (scope_of self.new ≡ with_global (named name.now (plain_sort sort)) (scope_of self.old)) }
        ensures held { held_of self.new ≡ held_of self.old }
    {
        self.globals.push(name, sort)
    }

    /// Declares the next variable of the function, whose name is the token of an index.
    pub fn declare_variable(
        &mut self,
        alloc: Global,
        index: usize,
        ty: Option<HlType>,
        is_const: bool,
    ) -> Result<(), NoMemory>
        ensures scope { OnOk result (scope_of self.new ≡ with_variable index (plain_type_if ty) is_const (scope_of self.old)) }
        ensures held { OnOk result (held_of self.new ≡ record (held_of self.old) { variables = (held_of self.old).variables ++ held_variable (spelled (scope_of self.old) index) (plain_type_if ty) index ∷ [] }) }
    {
        let name = self.text_at(index);
        let number = self.variables.len() as u32;
        let variable = variable_of(alloc, name, &ty, index)?;
        let info = VariableInfo {
            root: VariableRoot::Variable(number),
            ty,
            is_const,
            number: None,
        };
        self.declare_local(alloc, name, Sort::Variable(info))?;
        self.variables.push(variable)
    }

    /// Declares a groupshared variable, whose name is the token of an index.
    pub fn declare_shared(
        &mut self,
        alloc: Global,
        index: usize,
        ty: Option<HlType>,
    ) -> Result<(), NoMemory>
        ensures scope { OnOk result (scope_of self.new ≡ with_shared_named index (plain_type_if ty) (scope_of self.old)) }
        ensures held { OnOk result (held_of self.new ≡ record (held_of self.old) { shared = (held_of self.old).shared ++ held_variable (spelled (scope_of self.old) index) (plain_type_if ty) index ∷ [] }) }
    {
        let name = self.text_at(index);
        let number = self.shared.len() as u32;
        let variable = variable_of(alloc, name, &ty, index)?;
        let info = VariableInfo {
            root: VariableRoot::Shared(number),
            ty,
            is_const: false,
            number: None,
        };
        self.declare_global(name, Sort::Variable(info))?;
        self.shared.push(variable)
    }

    /// Declares a constant with its words, whose name is the token of an index, and a constant number or none.
    pub fn declare_constant(
        &mut self,
        alloc: Global,
        index: usize,
        ty: Option<HlType>,
        number: Option<u32>,
        words: Words,
    ) -> Result<(), NoMemory>
        ensures scope { OnOk result (scope_of self.new ≡ with_constant_named index (plain_type_if ty) number (scope_of self.old)) }
        ensures held { OnOk result (held_of self.new ≡ record (held_of self.old) { constants = (held_of self.old).constants ++ record { variable = held_variable (spelled (scope_of self.old) index) (plain_type_if ty) index; words = words } ∷ [] }) }
    {
        let name = self.text_at(index);
        let root = VariableRoot::Constant(self.constants.len() as u32);
        let variable = variable_of(alloc, name, &ty, index)?;
        let info = VariableInfo {
            root,
            ty,
            is_const: true,
            number,
        };
        self.declare_global(name, Sort::Variable(info))?;
        self.constants.push(Constant { variable, words })
    }

    /// Declares a function, whose name is the token of an index.
    pub fn declare_function(
        &mut self,
        index: usize,
        params: Sequence<ParamInfo>,
        gives: Option<HlType>,
    ) -> Result<(), NoMemory>
        ensures scope { OnOk result (scope_of self.new ≡ with_function_named index (map plain_param params) (plain_type_if gives) (scope_of self.old)) }
        ensures held { held_of self.new ≡ held_of self.old }
    {
        let name = self.text_at(index);
        let info = FunctionInfo {
            params,
            result: gives,
        };
        self.functions.push(name, info)?;
        self.declare_global(name, Sort::Function)
    }

    /// Declares a struct of these members, whose name is the token of an index.
    pub fn declare_struct(&mut self, index: usize, members: MemberTable<'a>) -> Result<(), NoMemory>
        ensures scope { OnOk result (scope_of self.new ≡ with_struct_named index (map plain_member members.entry) (scope_of self.old)) }
        ensures held { held_of self.new ≡ held_of self.old }
    {
        let name = self.text_at(index);
        let number = self.structs.len() as u32;
        self.structs.push(name, members)?;
        self.declare_global(name, Sort::Struct(number))
    }

    /// Declares a buffer, whose name is the token of an index.
    pub fn declare_buffer(&mut self, index: usize, buffer: BufferInfo) -> Result<(), NoMemory>
        ensures scope { OnOk result (scope_of self.new ≡ with_buffer_named index (plain_buffer buffer) (scope_of self.old)) }
        ensures held { held_of self.new ≡ held_of self.old }
    {
        let name = self.text_at(index);
        let number = self.buffers.len() as u32;
        self.buffers.push(buffer)?;
        self.declare_global(name, Sort::Buffer(number))
    }

    /// Goes into a function, before its parameters, which gives what it gives.
    pub fn open_function(&mut self, alloc: Global, gives: Option<HlType>) -> Result<(), NoMemory>
        ensures scope { OnOk result (scope_of self.new ≡ in_function (plain_type_if gives) (scope_of self.old)) }
        ensures held { OnOk result (held_of self.new ≡ record (held_of self.old) { variables = [] }) }
    {
        self.blocks.clear();
        self.blocks.push(NameTable::new(alloc))?;
        self.variables = Sequence::new(alloc);
        self.in_loop = false;
        self.result = gives;
        Ok(())
    }

    /// Goes into the body of the function of a number.
    pub fn enter_body(&mut self, number: u32)
        ensures scope { scope_of self.new ≡ inside_of number (scope_of self.old) }
        ensures held { held_of self.new ≡ held_of self.old }
    {
        self.inside = Some(number);
    }

    /// Goes out of a function, and answers the variables that it declared.
    pub fn close_function(&mut self, alloc: Global) -> Variables
        ensures scope { scope_of self.new ≡ outside (scope_of self.old) }
        ensures held { held_of self.new ≡ record (held_of self.old) { variables = [] } }
        ensures variables { map program_variable result ≡ (held_of self.old).variables }
    {
        self.blocks.clear();
        self.in_loop = false;
        self.inside = None;
        self.result = None;
        mem::replace(&mut self.variables, Sequence::new(alloc))
    }
}
