//! Buffers (DirectX HLSL, "Resource Binding").

ghost use Rattle.std.specs.Prelude.{◌≡◌, ◌++◌, ◌∷◌, [], None, map, if◌then◌else◌, OnOk, IfOk};
ghost use Rattle.hl_meaning.specs.Views.{plain_resource, plain_ty};
ghost use Rattle.hl_parser.specs.Views.{plain_maybe, plain_of};
ghost use Rattle.hl_rules.specs.Declarations as declarations;
ghost use Rattle.hl_rules.specs.Elaboration as elaboration;
ghost use Rattle.hl_rules.specs.Rules.{noted};
ghost use Rattle.hl_rules.specs.Sites.{element_sites, register_sites};
ghost use Rattle.hl_types.specs.Items.{buffer_sites};
ghost use Rattle.hl_values.specs.ScopeChanges.{with_buffer_named};
ghost use Rattle.hl_values.specs.ScopeViews.{plain_buffer, scope_of};
ghost use Rattle.hl_values.specs.Views.{plain_type_if};

use crate::declarators::note_type;
use crate::layout::type_or_void;
use crate::registers::{register_number, space_number};
use crate::shared::note_global;
use crate::sizes::{MOST_ELEMENT_WORDS, few_words, is_more};
use base_core::{NoMemory, Text};
use hl_lexer::Terminal;
use hl_meaning::{HlType, Resource, Resources};
use hl_parser::Tree;
use hl_rules::{Broken, note_if};
use hl_values::{BufferInfo, Scope};
use sqlite_items::Boxed;
use std::alloc::Global;

/// Whether a kind of buffers may be written.
fn is_writable_kind(word: Terminal) -> bool
    ensures { result ≡ declarations.is_writable_kind word }
{
    match word {
        Terminal::RwByteAddressBuffer => true,
        Terminal::RwStructuredBuffer => true,
        _ => false,
    }
}

/// The type of the elements of a kind of buffers, if it has any.
fn element_of(scope: &Scope, element: &Option<Boxed<Tree>>) -> Option<HlType>
    ensures { plain_type_if result ≡ declarations.element_of (scope_of scope.now) (plain_maybe element.now) }
{
    match element {
        Some(ty) => scope.named_type(ty.get()),
        None => None,
    }
}

/// What is known of a buffer of a kind.
pub(crate) fn buffer_info(scope: &Scope, kind: &Tree) -> BufferInfo
    ensures { plain_buffer result ≡ declarations.buffer_info (scope_of scope.now) (plain_of kind.now) }
{
    match kind {
        Tree::Kind { at, element } => BufferInfo {
            writable: is_writable_kind(scope.terminal_at(*at)),
            raw: element.is_none(),
            element: element_of(scope, element),
        },
        _ => BufferInfo {
            writable: false,
            raw: true,
            element: None,
        },
    }
}

/// The type of the elements of a kind of buffers.
pub(crate) fn note_element(scope: &Scope, kind: &Tree, found: &mut Option<Broken>)
    ensures { found.new ≡ noted found.old (element_sites (scope_of scope.now) (plain_of kind.now)) }
{
    match kind {
        Tree::Kind { element, .. } => match element {
            Some(ty) => {
                let ty = ty.get();
                note_type(scope, ty, found);
                let words = scope.words_if(&scope.named_type(ty));
                note_if(found, is_more(MOST_ELEMENT_WORDS, words), ty.at(), 7);
            }
            None => {}
        },
        _ => {}
    }
}

/// The register of a buffer, if it is given.
fn note_register(scope: &Scope, writable: bool, register: Option<usize>, found: &mut Option<Broken>)
    ensures { found.new ≡ noted found.old (register_sites (scope_of scope.now) writable register None) }
{
    match register {
        Some(name) => note_if(
            found,
            register_number(scope, writable, name).is_none(),
            name,
            8,
        ),
        None => {}
    }
}

/// The space of a buffer, if it is given.
fn note_space(scope: &Scope, writable: bool, space: Option<usize>, found: &mut Option<Broken>)
    ensures { found.new ≡ noted found.old (register_sites (scope_of scope.now) writable None space) }
{
    match space {
        Some(name) => note_if(found, space_number(scope, name).is_none(), name, 8),
        None => {}
    }
}

/// The register and the space of a buffer.
pub(crate) fn note_registers(
    scope: &Scope,
    writable: bool,
    register: Option<usize>,
    space: Option<usize>,
    found: &mut Option<Broken>,
)
    ensures { found.new ≡ noted found.old (register_sites (scope_of scope.now) writable register space) }
{
    note_register(scope, writable, register, found);
    note_space(scope, writable, space, found);
}

/// The number of a register, if it is given.
pub(crate) fn register_if(scope: &Scope, writable: bool, register: Option<usize>) -> Option<u32>
    ensures { result ≡ elaboration.register_if (scope_of scope.now) writable register }
{
    register_number(scope, writable, register?)
}

/// The number of a space, which is 0 where it isn't given.
pub(crate) fn space_if(scope: &Scope, space: Option<usize>) -> u32
    ensures { result ≡ elaboration.space_if (scope_of scope.now) space }
{
    match space {
        Some(name) => match space_number(scope, name) {
            Some(number) => number,
            None => 0,
        },
        None => 0,
    }
}

/// The type of the elements of a buffer, which is `Void` where it has none.
fn element_if(buffer: &BufferInfo, alloc: Global) -> Result<HlType, NoMemory>
    ensures { IfOk result (λ element. plain_ty element ≡ elaboration.element_if (plain_buffer buffer.now)) }
{
    if buffer.raw {
        Ok(HlType::Void)
    } else {
        let element = type_or_void(&buffer.element, alloc)?;
        Ok(element)
    }
}

/// The class of a buffer: 0 for one that is read only, and 1 for one that may be written.
fn class_of(writable: bool) -> u8
    ensures { result ≡ (if writable then 1 else 0) }
{
    if writable { 1 } else { 0 }
}

/// What a buffer becomes.
///
/// # Errors
/// `NoMemory` where memory is refused, or an element has 4294967296 words or more: such a one breaks a rule.
fn resource(
    scope: &Scope,
    buffer: &BufferInfo,
    name: usize,
    register: Option<usize>,
    space: Option<usize>,
    alloc: Global,
) -> Result<Resource, NoMemory>
    ensures { IfOk result (λ made. plain_resource made ≡ elaboration.resource (scope_of scope.now) (plain_buffer buffer.now) name register space) }
{
    let element = element_if(buffer, alloc)?;
    let words = few_words(scope.type_words(&element))?;
    let text = Text::from_slice(alloc, scope.text_at(name))?;
    Ok(Resource {
        name: text,
        class: class_of(buffer.writable),
        raw: buffer.raw,
        element,
        words,
        register: register_if(scope, buffer.writable, register),
        space: space_if(scope, space),
        at: name,
    })
}

/// Adds what a buffer becomes to what others become, where no rule is broken so far.
fn add_resource(
    scope: &Scope,
    buffer: &BufferInfo,
    name: usize,
    register: Option<usize>,
    space: Option<usize>,
    made: &mut Resources,
    found: &Option<Broken>,
    alloc: Global,
) -> Result<(), NoMemory>
    ensures { OnOk result (found.now ≡ None → map plain_resource made.new ≡ map plain_resource made.old ++ elaboration.resource (scope_of scope.now) (plain_buffer buffer.now) name register space ∷ []) }
{
    match found {
        Some(_) => Ok(()),
        None => {
            let more = resource(scope, buffer, name, register, space, alloc)?;
            made.push(more)?;
            Ok(())
        }
    }
}

/// A buffer, behind which the scope is then. What it becomes is added to what others become, where no rule is broken.
pub(crate) fn buffer<'a>(
    scope: &mut Scope<'a>,
    kind: &Tree,
    name: usize,
    register: Option<usize>,
    space: Option<usize>,
    made: &mut Resources,
    found: &mut Option<Broken>,
    alloc: Global,
) -> Result<(), NoMemory>
    ensures made { OnOk result (found.new ≡ None → map plain_resource made.new ≡ map plain_resource made.old ++ elaboration.resource (scope_of scope.old) (declarations.buffer_info (scope_of scope.old) (plain_of kind.now)) name register space ∷ []) }
    ensures scope { OnOk result (scope_of scope.new ≡ with_buffer_named name (declarations.buffer_info (scope_of scope.old) (plain_of kind.now)) (scope_of scope.old)) }
    ensures found { OnOk result (found.new ≡ noted found.old (buffer_sites (scope_of scope.old) (plain_of kind.now) name register space)) }
{
    let info = buffer_info(scope, kind);
    note_element(scope, kind, found);
    note_global(scope, name, found);
    note_registers(scope, info.writable, register, space, found);
    add_resource(scope, &info, name, register, space, made, found, alloc)?;
    scope.declare_buffer(name, info)?;
    Ok(())
}
