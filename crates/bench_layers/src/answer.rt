//! What a layer answers.

ghost use Rattle.std.specs.Prelude.{◌≤◌, ℕ, List, length};
ghost use Rattle.hl_lexer.specs.Tokens.{IsTokenList, lexemes_of};
ghost use Rattle.hl_parser.specs.Views.{plain_of};
ghost use Rattle.hl_types.specs.Elaborating.{AreSpelling};

use crate::layer::Layer;
use base_core::NoMemory;
use hl_inline::inline;
use hl_lexer::{LexFault, Tokens, lex};
use hl_meaning::{Program, sizes};
use hl_parser::{ParseFault, Tree, parse};
use hl_types::{RuleFault, elaborate};
use std::alloc::Global;
use std::fmt;

/// What a layer answers: a fault of the text is an answer too.
#[derive(Clone, Copy, Debug)]
pub(crate) enum Answer {
    /// So many tokens.
    Tokens(usize),
    /// A text that has no tokens.
    NoTokens(LexFault),
    /// A tree.
    Tree,
    /// Tokens that have no tree.
    NoTree(ParseFault),
    /// A typed program.
    Program,
    /// A tree that breaks a typing rule.
    NoProgram(RuleFault),
    /// A program that holds so much, with all calls replaced.
    Holds(u64),
    /// A program without calls, with so many variables.
    Flat(usize),
    /// A program whose groupshared variables have too many bytes.
    TooLarge,
}

impl fmt::Display for Answer {
    fn fmt<W: fmt::Write>(&self, f: &mut fmt::Formatter<W>) -> fmt::Result {
        match self {
            Answer::Tokens(count) => write!(f, "{count} tokens"),
            Answer::NoTokens(fault) => write!(f, "{fault}"),
            Answer::Tree => write!(f, "tree"),
            Answer::NoTree(fault) => write!(f, "{fault}"),
            Answer::Program => write!(f, "program"),
            Answer::NoProgram(fault) => write!(f, "{fault}"),
            Answer::Holds(size) => write!(f, "size {size}"),
            Answer::Flat(variables) => write!(f, "{variables} variables"),
            Answer::TooLarge => write!(f, "too large"),
        }
    }
}

/// The entry's name.
const ENTRY: &[u8] = b"main";

/// What a layer answers for a text.
///
/// # Errors
/// `NoMemory` where memory is refused.
pub(crate) fn answer_of(alloc: Global, layer: Layer, text: &[u8]) -> Result<Answer, NoMemory>
    requires { length text.now ≤ 1048576 }
{
    match lex(alloc, text) {
        Ok(tokens) => match layer {
            Layer::Lex => Ok(Answer::Tokens(tokens.list.len())),
            Layer::Parse => parsed(alloc, &tokens),
            Layer::Elaborate | Layer::Sizes | Layer::Inline => elaborated(alloc, layer, &tokens),
        },
        Err(LexFault::Memory) => Err(NoMemory),
        Err(fault) => Ok(Answer::NoTokens(fault)),
    }
}

/// What the parser answers for tokens.
fn parsed(alloc: Global, tokens: &Tokens) -> Result<Answer, NoMemory> {
    match parse(alloc, tokens) {
        Ok(_tree) => Ok(Answer::Tree),
        Err(ParseFault::Memory) => Err(NoMemory),
        Err(fault) => Ok(Answer::NoTree(fault)),
    }
}

/// What the layers behind the parser answer for the tokens of a text.
fn elaborated(alloc: Global, layer: Layer, tokens: &Tokens) -> Result<Answer, NoMemory>
    requires { (text : List ℕ) × IsTokenList text (lexemes_of tokens.now) tokens.now.end }
{
    match parse(alloc, tokens) {
        Ok(tree) => judged(alloc, layer, &tree, tokens),
        Err(ParseFault::Memory) => Err(NoMemory),
        Err(fault) => Ok(Answer::NoTree(fault)),
    }
}

/// What they answer for a tree of the tokens of a text.
fn judged(alloc: Global, layer: Layer, tree: &Tree, tokens: &Tokens) -> Result<Answer, NoMemory>
    requires { AreSpelling (lexemes_of tokens.now) tokens.now.end (plain_of tree.now) }
{
    match elaborate(alloc, tree, tokens, ENTRY) {
        Ok(program) => of_program(alloc, layer, &program),
        Err(RuleFault::Memory) => Err(NoMemory),
        Err(fault) => Ok(Answer::NoProgram(fault)),
    }
}

/// The greatest number of bytes of groupshared variables.
const MOST_SHARED_BYTES: u64 = 32768;

/// What they answer for a program.
fn of_program(alloc: Global, layer: Layer, program: &Program) -> Result<Answer, NoMemory> {
    match layer {
        Layer::Sizes => {
            let sizes = sizes(alloc, program)?;
            Ok(Answer::Holds(sizes.size))
        }
        Layer::Inline => without_calls(alloc, program),
        Layer::Lex | Layer::Parse | Layer::Elaborate => Ok(Answer::Program),
    }
}

/// What the pass that removes calls answers for a program.
fn without_calls(alloc: Global, program: &Program) -> Result<Answer, NoMemory> {
    let sizes = sizes(alloc, program)?;
    if sizes.shared_bytes > MOST_SHARED_BYTES {
        return Ok(Answer::TooLarge);
    }
    let flat = inline(alloc, program)?;
    Ok(Answer::Flat(flat.variables.len()))
}
