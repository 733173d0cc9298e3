//! Constant numbers, and the types that declarations give (HLSL, "Expressions", "Declarations").

ghost use Rattle.std.specs.Prelude.{◌≡◌, ◌^◌, ◌<◌, ℕ, Option, Some, None, SomeIff, IfOk, map, drop, option_map};
ghost use Rattle.std.specs.Option.{option_copied};
ghost use Rattle.hl_meaning.specs.Views.{plain_ty};
ghost use Rattle.hl_parser.specs.Views.{plain_of, plain_trees};
ghost use Rattle.hl_rules.specs.Constants as constants;
ghost use Rattle.hl_rules.specs.Source.{terminal_at};
ghost use Rattle.hl_values.specs.Arrays.{array_if};
ghost use Rattle.hl_values.specs.ScopeViews.{plain_sort, plain_sort_if, scope_of};
ghost use Rattle.hl_values.specs.Views.{plain_type_if};

use crate::scope::{Scope, Sort};
use crate::typed::copied_if;
use base_core::NoMemory;
use hl_lexer::Terminal;
use hl_meaning::{HlType, Kind};
use hl_parser::Tree;
use sqlite_items::Boxed;
use std::alloc::Global;

/// A sum, a difference or a product, by its mark, of two numbers.
fn sum_of(mark: Terminal, a: u32, b: u32) -> Option<u32>
    ensures { result ≡ constants.sum_of mark a b }
{
    match mark {
        Terminal::Plus => a.checked_add(b),
        Terminal::Minus => a.checked_sub(b),
        Terminal::Star => a.checked_mul(b),
        _ => None,
    }
}

/// A sum, a difference or a product, by its mark, where both sides are constant numbers.
pub(crate) fn combined(mark: Terminal, a: Option<u32>, b: Option<u32>) -> Option<u32>
    ensures { result ≡ constants.combined mark a b }
{
    sum_of(mark, a?, b?)
}

/// The constant number that a name of a sort is.
fn number_of(sort: &Sort) -> Option<u32>
    ensures { result ≡ constants.number_of_sort (Some (plain_sort sort.now)) }
{
    match sort {
        Sort::Variable(variable) => variable.number,
        Sort::Struct(_) => None,
        Sort::Buffer(_) => None,
        Sort::Function => None,
    }
}

/// The constant number that a name is.
fn number_of_sort(sort: Option<&Sort>) -> Option<u32>
    ensures { result ≡ constants.number_of_sort (plain_sort_if (option_copied sort.entry)) }
{
    number_of(sort?)
}

/// The constant number that a token alone is.
fn word_number(scope: &Scope, index: usize) -> Option<u32>
    ensures { result ≡ constants.word_number (scope_of scope.now) (terminal_at (scope_of scope.now).tokens index) index }
{
    match scope.terminal_at(index) {
        Terminal::Number => Some(scope.number_at(index)),
        Terminal::Name => number_of_sort(scope.sort_at(index)),
        _ => None,
    }
}

/// The type that a word says, and no value for any other token.
fn word_type(word: Terminal) -> HlType
    ensures { plain_ty result ≡ constants.word_type word }
{
    match word {
        Terminal::Bool => HlType::Scalar(Kind::Bool),
        Terminal::Int => HlType::Scalar(Kind::Int),
        Terminal::Uint => HlType::Scalar(Kind::Uint),
        Terminal::Bool2 => HlType::Vector(Kind::Bool, 2),
        Terminal::Bool3 => HlType::Vector(Kind::Bool, 3),
        Terminal::Bool4 => HlType::Vector(Kind::Bool, 4),
        Terminal::Int2 => HlType::Vector(Kind::Int, 2),
        Terminal::Int3 => HlType::Vector(Kind::Int, 3),
        Terminal::Int4 => HlType::Vector(Kind::Int, 4),
        Terminal::Uint2 => HlType::Vector(Kind::Uint, 2),
        Terminal::Uint3 => HlType::Vector(Kind::Uint, 3),
        Terminal::Uint4 => HlType::Vector(Kind::Uint, 4),
        _ => HlType::Void,
    }
}

/// The struct that a name of a sort is.
fn struct_of(sort: &Sort) -> Option<HlType>
    ensures { plain_type_if result ≡ constants.struct_of_sort (Some (plain_sort sort.now)) }
{
    match sort {
        Sort::Struct(number) => Some(HlType::Struct(*number)),
        Sort::Buffer(_) => None,
        Sort::Variable(_) => None,
        Sort::Function => None,
    }
}

/// The struct that a name is.
fn struct_of_sort(sort: Option<&Sort>) -> Option<HlType>
    ensures { plain_type_if result ≡ constants.struct_of_sort (plain_sort_if (option_copied sort.entry)) }
{
    struct_of(sort?)
}

/// A number from 1 to the greatest length of an array.
fn length_if(number: Option<u32>) -> Option<u32>
    ensures { result ≡ constants.length_if number }
{
    let number = number?;
    if 1 <= number && number <= 65536 {
        Some(number)
    } else {
        None
    }
}

/// An array of a type with a length, where the type is known.
fn array_if(alloc: Global, length: u32, element: Option<HlType>) -> Result<Option<HlType>, NoMemory>
    ensures { IfOk result (λ ty. plain_type_if ty ≡ array_if (Some length) (plain_type_if element)) }
{
    match element {
        Some(element) => Ok(Some(HlType::Array(Boxed::new(alloc, element)?, length))),
        None => Ok(None),
    }
}

impl<'a> Scope<'a> {
    /// The type of a tree of the production `basic`.
    pub fn basic_type(&self, basic: &Tree) -> HlType
        ensures { plain_ty result ≡ constants.basic_type (scope_of self.now) (plain_of basic.now) }
    {
        word_type(self.terminal_at(basic.at()))
    }

    /// The constant number that an expression is.
    pub fn constant_number(&self, tree: &Tree) -> Option<u32>
        ensures { result ≡ constants.constant_number (scope_of self.now) (plain_of tree.now) }
    {
        match tree {
            Tree::Primary {
                at,
                part,
                arguments,
            } => match arguments {
                Some(_) => None,
                None => match part {
                    Some(inner) => self.constant_number(inner.get()),
                    None => word_number(self, *at),
                },
            },
            Tree::Or {
                left,
                mark,
                right,
                ..
            } => {
                let left = self.constant_number(left.get());
                let right = self.constant_number(right.get());
                combined(self.terminal_at(*mark), left, right)
            }
            Tree::And {
                left,
                mark,
                right,
                ..
            } => {
                let left = self.constant_number(left.get());
                let right = self.constant_number(right.get());
                combined(self.terminal_at(*mark), left, right)
            }
            Tree::Bitor {
                left,
                mark,
                right,
                ..
            } => {
                let left = self.constant_number(left.get());
                let right = self.constant_number(right.get());
                combined(self.terminal_at(*mark), left, right)
            }
            Tree::Bitxor {
                left,
                mark,
                right,
                ..
            } => {
                let left = self.constant_number(left.get());
                let right = self.constant_number(right.get());
                combined(self.terminal_at(*mark), left, right)
            }
            Tree::Bitand {
                left,
                mark,
                right,
                ..
            } => {
                let left = self.constant_number(left.get());
                let right = self.constant_number(right.get());
                combined(self.terminal_at(*mark), left, right)
            }
            Tree::Equal {
                left,
                mark,
                right,
                ..
            } => {
                let left = self.constant_number(left.get());
                let right = self.constant_number(right.get());
                combined(self.terminal_at(*mark), left, right)
            }
            Tree::Less {
                left,
                mark,
                right,
                ..
            } => {
                let left = self.constant_number(left.get());
                let right = self.constant_number(right.get());
                combined(self.terminal_at(*mark), left, right)
            }
            Tree::Shift {
                left,
                mark,
                right,
                ..
            } => {
                let left = self.constant_number(left.get());
                let right = self.constant_number(right.get());
                combined(self.terminal_at(*mark), left, right)
            }
            Tree::Sum {
                left,
                mark,
                right,
                ..
            } => {
                let left = self.constant_number(left.get());
                let right = self.constant_number(right.get());
                combined(self.terminal_at(*mark), left, right)
            }
            Tree::Product {
                left,
                mark,
                right,
                ..
            } => {
                let left = self.constant_number(left.get());
                let right = self.constant_number(right.get());
                combined(self.terminal_at(*mark), left, right)
            }
            _ => None,
        }
    }

    /// The type that a tree of the production `type` says.
    pub fn named_type(&self, tree: &Tree) -> Option<HlType>
        ensures { plain_type_if result ≡ constants.named_type (scope_of self.now) (plain_of tree.now) }
    {
        match tree {
            Tree::Type { at, basic } => match basic {
                Some(basic) => Some(self.basic_type(basic.get())),
                None => struct_of_sort(self.sort_at(*at)),
            },
            _ => None,
        }
    }

    /// What a function of a result gives.
    pub fn result_type(&self, tree: &Tree) -> Option<HlType>
        ensures { plain_type_if result ≡ constants.result_type (scope_of self.now) (plain_of tree.now) }
    {
        match tree {
            Tree::Result { ty, .. } => match ty {
                Some(ty) => self.named_type(ty.get()),
                None => Some(HlType::Void),
            },
            _ => None,
        }
    }

    /// The length of an array: a constant number from 1 to 65536.
    pub fn array_length(&self, length: &Tree) -> Option<u32>
        ensures { result ≡ constants.array_length (scope_of self.now) (plain_of length.now) }
    {
        length_if(self.constant_number(length))
    }

    /// An array of a type with a length, where it has both.
    fn array_at(
        &self,
        alloc: Global,
        length: &Tree,
        element: Option<HlType>,
    ) -> Result<Option<HlType>, NoMemory>
        ensures { IfOk result (λ ty. plain_type_if ty ≡ array_if (constants.array_length (scope_of self.now) (plain_of length.now)) (plain_type_if element)) }
    {
        match self.array_length(length) {
            Some(length) => array_if(alloc, length, element),
            None => Ok(None),
        }
    }

    /// Arrays of a type, the outermost first.
    fn array_of(
        &self,
        alloc: Global,
        lengths: &[Tree],
        element: Option<HlType>,
    ) -> Result<Option<HlType>, NoMemory>
        ensures { IfOk result (λ ty. plain_type_if ty ≡ constants.array_of (scope_of self.now) (plain_trees lengths.now) (plain_type_if element)) }
    {
        let mut ty = element;
        for at in (0..lengths.len()).rev() {
            ty = self.array_at(alloc, &lengths[at], ty)?;
        }
        Ok(ty)
    }

    /// The type that a declarator gives its name, where its lengths are lengths and not too many.
    ///
    /// # Errors
    /// `NoMemory` where memory is refused.
    pub fn declarator_type(
        &self,
        alloc: Global,
        ty: &Option<HlType>,
        tree: &Tree,
    ) -> Result<Option<HlType>, NoMemory>
        ensures { IfOk result (λ own. plain_type_if own ≡ constants.declarator_type (scope_of self.now) (plain_type_if ty.now) (plain_of tree.now)) }
    {
        match tree {
            Tree::Declarator { lengths, .. } => {
                if lengths.len() > 16 {
                    return Ok(None);
                }
                let element = copied_if(ty, alloc)?;
                self.array_of(alloc, lengths.as_slice(), element)
            }
            _ => Ok(None),
        }
    }
}
