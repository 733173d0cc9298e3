//! Arguments that were walked, and what a form with arguments is.

ghost use Rattle.std.specs.Prelude.{◌≡◌, IfOk, None, map, option_map, true};
ghost use Rattle.hl_parser.specs.Views.{plain_of, plain_trees};
ghost use Rattle.hl_rules.specs.ExpressionRules.{argument_trees};
ghost use Rattle.hl_types.specs.Arguments.{behind_arguments, first_constant};
ghost use Rattle.hl_values.specs.Arguments.{plain_codes};
ghost use Rattle.hl_values.specs.Known.{known, known_value, plain_known};
ghost use Rattle.hl_values.specs.Noted.{noted_if};
ghost use Rattle.hl_values.specs.Views.{plain_code, plain_value};

use base_core::{NoMemory, Sequence};
use hl_parser::Tree;
use hl_rules::{Broken, note_if};
use hl_values::{Code, Typed, value};
use std::alloc::Global;

/// The trees of arguments.
pub(crate) fn trees_in(arguments: &Tree) -> &[Tree]
    ensures { plain_trees result.now ≡ argument_trees (plain_of arguments.now) }
{
    match arguments {
        Tree::Args { arguments, .. } => arguments.as_slice(),
        _ => &[],
    }
}

/// What a form is with a tree in the place of its arguments.
pub(crate) fn behind(arguments: &Tree, typed: Typed) -> Typed
    ensures { plain_known result ≡ behind_arguments (plain_of arguments.now) (plain_known typed) }
{
    match arguments {
        Tree::Args { .. } => typed,
        _ => without_code(typed),
    }
}

/// What becomes nothing.
fn without_code(typed: Typed) -> Typed
    ensures { plain_known result ≡ known (plain_value typed) typed.number None }
{
    let Typed {
        ty,
        standing,
        number,
        ..
    } = typed;
    Typed {
        ty,
        standing,
        number,
        code: None,
    }
}

/// What arguments become, where all become something.
///
/// # Errors
/// `NoMemory` where memory is refused.
pub(crate) fn codes_of(args: Sequence<Typed>, alloc: Global) -> Result<Option<Vec<Code>>, NoMemory>
    ensures { IfOk result (λ codes. option_map (λ l. map plain_code l.items) codes ≡ plain_codes args) }
{
    let mut codes = Vec::new(alloc);
    for arg in args.into_vec() {
        let Typed { code, .. } = arg;
        let Some(code) = code else {
            return Ok(None);
        };
        codes.push(code)?;
    }
    Ok(Some(codes))
}

/// The constant number that the first argument is, if it is one.
pub(crate) fn first_constant(args: &[Typed]) -> Option<u32>
    ensures { result ≡ first_constant args.now }
{
    match args.first() {
        Some(arg) => arg.number,
        None => None,
    }
}

/// What can't be called, by a rule that it breaks at a token.
pub(crate) fn refused(at: usize, rule: u8, found: &mut Option<Broken>) -> Typed
    ensures typed { plain_known result ≡ known_value None None }
    ensures found { found.new ≡ noted_if found.old rule true at }
{
    note_if(found, true, at, rule);
    value(None, None)
}
