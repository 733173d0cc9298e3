//! The tree that tokens spell.

ghost use Rattle.std.specs.Prelude.{◌≡◌, ◌≤◌, ◌<◌, ℕ, drop, IfOk, IfErr};
ghost use Rattle.hl_parser.specs.Grammar.{IsSyntaxFault, SpellsProgram};
ghost use Rattle.hl_parser.specs.Parsing.{GivesFault, GivesTree, IsAnswer, IsFault, SpellsTooDeep, first_terminal, most_depth, terminals_of};
ghost use Rattle.hl_parser.specs.declared.fault.ParseFault.TheVariants.{Syntax, TooDeep};
ghost use Rattle.hl_parser.specs.Trees.{depth};
ghost use Rattle.hl_parser.specs.Trees as plain;
ghost use Rattle.hl_parser.specs.Views.{plain_of};

use crate::fault::ParseFault;
use crate::parser::{Look, Parser};
use crate::step::Fed;
use crate::tree::Tree;
use hl_lexer::{Terminal, Token, Tokens};
use std::alloc::Global;

/// The tree that tokens spell.
///
/// # Errors
/// - `Syntax` exactly where the tokens spell no program: the least index such that the tokens through it begin none, or
///   their number where all of them begin one.
/// - `TooDeep` exactly where the tree that they spell is deeper than 64.
/// - `Memory` where memory was refused.
pub fn parse(alloc: Global, tokens: &Tokens) -> Result<Tree, ParseFault>
    // What is answered is the tree that the tokens spell, and it isn't too deep.
    ensures tree { IfOk result (λ tree. IsAnswer (terminals_of tokens.now.list) (plain_of tree)) }

    // A tree that the tokens spell and that isn't too deep is answered, unless memory runs out.
    ensures every_tree { (tree : plain.Tree) → SpellsProgram (terminals_of tokens.now.list) tree → depth tree ≤ most_depth → GivesTree result tree }

    // A fault that is answered is there, and one that is there is answered, unless memory runs out.
    ensures fault { IfErr result (λ fault. IsFault (terminals_of tokens.now.list) fault) }
    ensures every_syntax { (at : ℕ) → IsSyntaxFault (terminals_of tokens.now.list) at → GivesFault result (Syntax at) }
    ensures every_depth { SpellsTooDeep (terminals_of tokens.now.list) → GivesFault result TooDeep }
{
    read(alloc, tokens.list.as_slice())
}

/// What follows the tokens.
const END: Look = Look {
    at: 0,
    terminal: Terminal::Unlisted,
    next: Terminal::Unlisted,
};

/// Reads tokens to their end.
fn read(alloc: Global, tokens: &[Token]) -> Result<Tree, ParseFault>
    ensures tree { IfOk result (λ tree. IsAnswer (terminals_of tokens.now) (plain_of tree)) }
    ensures fault { IfErr result (λ fault. IsFault (terminals_of tokens.now) fault) }
{
    let mut parser = Parser::new(alloc)?;
    let mut next = terminal_at(tokens, 0);
    for at in 0..tokens.len() {
        let terminal = next;
        next = terminal_at(tokens, at + 1);
        match parser.feed(Look { at, terminal, next })? {
            Fed::Read => {}
            _ => return Err(ParseFault::Syntax { at }),
        }
    }
    match parser.feed(END)? {
        Fed::Spent => parser.values.finish().ok_or(ParseFault::TooDeep),
        _ => Err(ParseFault::Syntax { at: tokens.len() }),
    }
}

/// What a token is, or what stands behind the last one.
fn terminal_at(tokens: &[Token], at: usize) -> Terminal
    ensures { result ≡ first_terminal (drop at (terminals_of tokens.now)) }
{
    if at < tokens.len() {
        tokens[at].kind.terminal()
    } else {
        Terminal::Unlisted
    }
}
