//! Finds the first form of a program: an entry of literal stores to one byte-address buffer.

ghost use Rattle.std.specs.Prelude.{◌≡◌, ◌&&◌, IfOk, map};
ghost use Rattle.std.specs.Option.{option_map};
ghost use Rattle.hl_meaning.specs.Held.{plain_program};
ghost use Rattle.hl_meaning.specs.Views.{plain_expr, plain_form, plain_function, plain_resource, plain_stmt, plain_stmts};
ghost use Rattle.dxil_driver.specs.FirstForm.{a_store, buffer_of, entry_of, form_of, form_store, form_with, is_alone, is_output, is_zero, literal_word, one_word, store_of, stores_of, stores_with, word_of};
ghost use Rattle.dxil_driver.specs.Reading.{Reads};

use crate::stores::{FirstForm, LiteralStore, LiteralStores};
use base_core::{NoMemory, Sequence, Text};
use hl_meaning::{Expr, Form, FunctionDef, Program, Resource, Stmt, Stmts};
use std::alloc::Global;

/// The word of a literal.
fn literal_word(form: &Form) -> Option<u32>
    ensures { result ≡ literal_word (plain_form form.now) }
{
    match form {
        Form::Literal(word) => Some(*word),
        _ => None,
    }
}

/// The word of an address or of what is stored, where it is a literal. One that is converted keeps its word.
fn word(value: &Expr) -> Option<u32>
    ensures { result ≡ word_of (plain_expr value.now) }
{
    match &value.form {
        Form::Convert(inner) => literal_word(&inner.get().form),
        _ => literal_word(&value.form),
    }
}

/// The store of a word at an address, where both are literals.
fn a_store(address: Option<u32>, word: Option<u32>) -> Option<LiteralStore>
    ensures { result ≡ a_store address word }
{
    let address = address?;
    let word = word?;
    Some(LiteralStore { address, word })
}

/// The store of one literal word to the buffer of number 0.
fn one_word(resource: u32, count: u8, address: &Expr, value: &Expr) -> Option<LiteralStore>
    ensures { result ≡ one_word resource count (plain_expr address.now) (plain_expr value.now) }
{
    if resource == 0 && count == 1 {
        a_store(word(address), word(value))
    } else {
        None
    }
}

/// The store that the form of an expression is.
fn form_store(form: &Form) -> Option<LiteralStore>
    ensures { result ≡ form_store (plain_form form.now) }
{
    match form {
        Form::Method {
            resource,
            count,
            address,
            value,
        } => match value {
            Some(value) => one_word(*resource, *count, address.get(), value.get()),
            None => None,
        },
        _ => None,
    }
}

/// The store that a statement is.
fn store(statement: &Stmt) -> Option<LiteralStore>
    ensures { result ≡ store_of (plain_stmt statement.now) }
{
    match statement {
        Stmt::Run(value) => form_store(&value.form),
        _ => None,
    }
}

/// The stores that statements are, or none where one is no store.
///
/// # Errors
/// `NoMemory` where memory is refused.
fn stores_in(alloc: Global, statements: &[Stmt]) -> Result<Option<LiteralStores>, NoMemory>
    ensures { IfOk result (λ found. found ≡ stores_of (plain_stmts statements.now)) }
{
    let mut stores = Sequence::new(alloc);
    for statement in statements {
        match store(statement) {
            None => return Ok(None),
            Some(store) => stores.push(store)?,
        }
    }
    Ok(Some(stores))
}

/// The stores of the entry. Without a buffer there is no statement.
///
/// # Errors
/// `NoMemory` where memory is refused.
fn stores_with(
    alloc: Global,
    buffer: Option<&[u8]>,
    statements: &[Stmt],
) -> Result<Option<LiteralStores>, NoMemory>
    ensures { IfOk result (λ found. found ≡ stores_with (option_map (λ name. name.now) buffer.entry) (plain_stmts statements.now)) }
{
    match buffer {
        Some(_) => stores_in(alloc, statements),
        None if statements.is_empty() => Ok(Some(Sequence::new(alloc))),
        None => Ok(None),
    }
}

/// Whether a number is there and is 0.
fn is_zero(number: Option<u32>) -> bool
    ensures { result ≡ is_zero number }
{
    match number {
        None => false,
        Some(number) => number == 0,
    }
}

/// Whether a buffer is the one that is written: a byte-address buffer at register 0 of space 0.
fn is_output(buffer: &Resource) -> bool
    ensures { result ≡ is_output (plain_resource buffer.now) }
{
    buffer.raw && buffer.class == 1 && buffer.space == 0 && is_zero(buffer.register)
}

/// The name of the buffer, where there is one.
fn buffer_in(buffers: &[Resource]) -> Option<Option<&[u8]>>
    ensures { Reads (λ found. option_map (λ name. name.now) found) result (buffer_of (map plain_resource buffers.now)) }
{
    match buffers {
        [] => Some(None),
        [buffer] => {
            if is_output(buffer) {
                Some(Some(buffer.name.as_slice()))
            } else {
                None
            }
        }
        _ => None,
    }
}

/// The only function, where it has no parameters.
fn entry_in(functions: &[FunctionDef]) -> Option<&FunctionDef>
    ensures { Reads (λ found. plain_function found.now) result (entry_of (map plain_function functions.now)) }
{
    match functions {
        [function] => {
            if function.parameters.is_empty() {
                Some(function)
            } else {
                None
            }
        }
        _ => None,
    }
}

/// A copy of a name, where there is one.
///
/// # Errors
/// `NoMemory` where memory is refused.
fn owned(alloc: Global, name: Option<&[u8]>) -> Result<Option<Text>, NoMemory>
    ensures { IfOk result (λ copy. copy ≡ option_map (λ y. y.now) name.entry) }
{
    match name {
        None => Ok(None),
        Some(name) => {
            let copy = Sequence::from_slice(alloc, name)?;
            Ok(Some(copy))
        }
    }
}

/// The form of a buffer, an entry and the threads of a group.
///
/// # Errors
/// `NoMemory` where memory is refused.
fn form_with(
    alloc: Global,
    buffer: Option<&[u8]>,
    entry: &FunctionDef,
    threads: [u32; 3],
) -> Result<Option<FirstForm>, NoMemory>
    ensures { IfOk result (λ found. found ≡ form_with (option_map (λ name. name.now) buffer.entry) (plain_function entry.now) threads) }
{
    match stores_with(alloc, buffer, entry.body.as_slice())? {
        None => Ok(None),
        Some(stores) => {
            let buffer = owned(alloc, buffer)?;
            let entry = Sequence::from_slice(alloc, entry.name.as_slice())?;
            Ok(Some(FirstForm {
                entry,
                buffer,
                threads,
                stores,
            }))
        }
    }
}

/// Whether all of three things hold.
fn all_three(one: bool, two: bool, three: bool) -> bool
    ensures { result ≡ (one && (two && three)) }
{
    one && two && three
}

/// Whether a program has no struct, groupshared variable or constant.
fn is_alone(program: &Program) -> bool
    ensures { result ≡ is_alone (plain_program program.now) }
{
    let structs = program.structs.is_empty();
    let shared = program.shared.is_empty();
    let constants = program.constants.is_empty();
    all_three(structs, shared, constants)
}

/// The first form of a program, or none where it has none.
///
/// # Errors
/// `NoMemory` where memory is refused.
#[tactic(auto, unfolding(crate::specs::FirstForm::form_of))]
pub fn first_form(alloc: Global, program: &Program) -> Result<Option<FirstForm>, NoMemory>
    ensures { IfOk result (λ found. found ≡ form_of (plain_program program.now)) }
{
    if !is_alone(program) {
        return Ok(None);
    }
    let buffer = match buffer_in(program.resources.as_slice()) {
        None => return Ok(None),
        Some(buffer) => buffer,
    };
    match entry_in(program.functions.as_slice()) {
        None => Ok(None),
        Some(entry) => form_with(alloc, buffer, entry, program.threads),
    }
}
