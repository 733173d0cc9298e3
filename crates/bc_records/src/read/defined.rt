//! Which functions have bodies, and these.

ghost use Rattle.std.specs.Prelude.{◌≡◌, ◌∷◌, ◌++◌, List, IfOk, Some, map, option_map};
ghost use Rattle.bc_stream.specs.Blocks.{parts_contents};
ghost use Rattle.bc_records.specs.Codes.{function_block};
ghost use Rattle.bc_records.specs.Entries.{Entry as AnEntry, blocks_in, entries_in, entry as an_entry};
ghost use Rattle.bc_records.specs.Read.{read_body};
ghost use Rattle.bc_records.specs.ReadBodies.{bodies_of, body_blocks, with_bodies, with_body_at};
ghost use Rattle.bc_records.specs.RecordKinds.{function_entries, has_body};

use super::blocks::next_block;
use super::bodies::body_of;
use crate::codes::{FUNCTION, FUNCTION_BLOCK};
use base_core::NoMemory;
use bc_stream::{Entry, Part, Parts};
use ir_core::{Body, Function, Module};
use std::alloc::Global;

/// The place of the operand that says whether a function is a declaration.
const PROTOTYPE: usize = 2;

/// Whether the function of a record FUNCTION has a body.
fn is_defined(operands: &[u64]) -> bool
    ensures { result ≡ has_body operands.now }
{
    match operands.get(PROTOTYPE) {
        None => false,
        Some(prototype) => *prototype == 0,
    }
}

/// Adds the block of the body of a function, where the record is a record FUNCTION, and says where the next is looked for.
fn push_body_block<'a>(
    found: &mut Vec<Option<&'a Parts>>,
    rest: &'a [Part],
    entry: &Entry,
) -> Result<&'a [Part], NoMemory>
    ensures { IfOk result (λ left. (es : List AnEntry) → map (option_map (λ p. parts_contents p.now)) found.new.items ++ body_blocks (function_entries es) (blocks_in function_block (parts_contents left.now)) ≡ map (option_map (λ p. parts_contents p.now)) found.old.items ++ body_blocks (function_entries (an_entry entry.now.code entry.now.values ∷ es)) (blocks_in function_block (parts_contents rest.now))) }
{
    if entry.code != FUNCTION {
        return Ok(rest);
    }
    if !is_defined(entry.values.as_slice()) {
        found.push(None)?;
        return Ok(rest);
    }
    match next_block(rest, FUNCTION_BLOCK) {
        None => {
            found.push(None)?;
            Ok(&rest[rest.len()..])
        }
        Some((inner, left)) => {
            found.push(Some(inner))?;
            Ok(left)
        }
    }
}

/// The blocks of the bodies of the functions of the records FUNCTION: those that aren't declarations have the blocks
/// FUNCTION in order.
///
/// # Errors
/// `NoMemory` where memory is refused.
pub fn blocks_of_bodies(alloc: Global, inner: &Parts) -> Result<Vec<Option<&Parts>>, NoMemory>
    ensures { IfOk result (λ blocks. map (option_map (λ p. parts_contents p.now)) blocks.items ≡ body_blocks (function_entries (entries_in (parts_contents inner.now))) (blocks_in function_block (parts_contents inner.now))) }
{
    let mut found = Vec::new(alloc);
    let mut rest = inner.as_slice();
    for part in inner.as_slice() {
        match part {
            Part::Entry(entry) => rest = push_body_block(&mut found, rest, entry)?,
            Part::Block(_) => {}
        }
    }
    Ok(found)
}

/// The body of a function, where it has a block.
fn optional_body(
    alloc: Global,
    module: &Module,
    function: &Function,
    block: Option<&Parts>,
) -> Result<Option<Body>, NoMemory>
    ensures { IfOk result (λ body. body ≡ option_map (read_body «module».now function.now) (option_map (λ p. parts_contents p.now) block.entry)) }
{
    match block {
        None => Ok(None),
        Some(parts) => Ok(Some(body_of(alloc, module, function, parts)?)),
    }
}

/// The bodies of the functions of a module, each of its block.
///
/// # Errors
/// `NoMemory` where memory is refused.
pub fn read_bodies(
    alloc: Global,
    module: &Module,
    blocks: &[Option<&Parts>],
) -> Result<Vec<Option<Body>>, NoMemory>
    ensures { IfOk result (λ bodies. bodies.items ≡ bodies_of «module».now (map (option_map (λ p. parts_contents p.now)) blocks.now) «module».now.functions) }
{
    let mut bodies = Vec::with_capacity(alloc, blocks.len())?;
    for (place, block) in blocks.iter().enumerate() {
        match module.functions.get(place) {
            None => return Ok(bodies),
            Some(function) => bodies.push(optional_body(alloc, module, function, *block)?)?,
        }
    }
    Ok(bodies)
}

/// Gives the function at a place a body, where there is one.
fn set_body(functions: &mut Vec<Function>, place: usize, body: Body)
    ensures { functions.new.items ≡ with_body_at functions.old.items place (Some body) }
{
    if place < functions.len() {
        functions[place].body = Some(body);
    }
}

/// Gives the functions their bodies, from the last on.
pub fn set_bodies(functions: &mut Vec<Function>, bodies: Vec<Option<Body>>)
    ensures { functions.new.items ≡ with_bodies functions.old.items bodies.items }
{
    let mut left = bodies;
    while let Some(last) = left.pop() {
        if let Some(body) = last {
            set_body(functions, left.len(), body);
        }
    }
}
