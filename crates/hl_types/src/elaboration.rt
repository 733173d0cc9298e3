//! The typed program of a tree.

ghost use Rattle.std.specs.Prelude.{◌≡◌, ℕ, None, option_map, IfOk, IfErr, OnOk};
ghost use Rattle.hl_lexer.specs.Tokens.{lexemes_of};
ghost use Rattle.hl_parser.specs.Views.{plain_of};
ghost use Rattle.hl_meaning.specs.Held.{plain_program};
ghost use Rattle.hl_meaning.specs.Programs as plain;
ghost use Rattle.hl_meaning.specs.WellFormed.{IsWellFormed};
ghost use Rattle.hl_rules.specs.Elaboration.{Elaborates, program_of};
ghost use Rattle.hl_rules.specs.Rules.{BreaksFirst, noted};
ghost use Rattle.hl_rules.specs.Sites.{program_sites};
ghost use Rattle.hl_types.specs.Elaborating.{AreSpelling, GivesFault, GivesProgram, IsFault};
ghost use Rattle.hl_types.specs.Items.{plain_parts};
ghost use Rattle.hl_types.specs.declared.fault.RuleFault.{RuleFault};

use crate::fault::RuleFault;
use crate::items::{ProgramParts, items};
use base_core::NoMemory;
use hl_lexer::Tokens;
use hl_meaning::Program;
use hl_parser::Tree;
use hl_rules::{Broken, laws};
use std::alloc::Global;

/// What the program of a tree is made of, where no rule is broken.
///
/// # Errors
/// `NoMemory` where memory is refused.
fn parts_of<'a>(
    alloc: Global,
    tree: &Tree,
    tokens: &Tokens<'a>,
    entry: &[u8],
    found: &mut Option<Broken>,
) -> Result<Option<ProgramParts>, NoMemory>
    ensures made { IfOk result (λ made. found.new ≡ None → option_map plain_parts made ≡ program_of (lexemes_of tokens.now) entry.now (plain_of tree.now)) }
    ensures found { OnOk result (found.new ≡ noted found.old (program_sites (lexemes_of tokens.now) entry.now (plain_of tree.now))) }
{
    match tree {
        Tree::Program { items: trees, .. } => {
            items(tokens.list.as_slice(), entry, trees, found, alloc)
        }
        _ => Ok(None),
    }
}

/// The program of parts that are well formed.
fn whole(parts: ProgramParts) -> Program
    requires { IsWellFormed (plain_parts parts) }
    ensures { plain_program result ≡ plain_parts parts }
{
    let ProgramParts {
        structs,
        resources,
        shared,
        constants,
        functions,
        entry,
        threads,
    } = parts;
    Program {
        structs,
        resources,
        shared,
        constants,
        functions,
        entry,
        threads,
    }
}

/// The typed program of a tree that the tokens of a text spell, with an entry of this name.
///
/// # Errors
/// - `Broken` exactly where the tree breaks a typing rule: the first that it breaks, by the index of the token and then
///   by the number of the rule.
/// - `Memory` where memory was refused.
pub fn elaborate<'a>(
    alloc: Global,
    tree: &Tree,
    tokens: &Tokens<'a>,
    entry: &[u8],
) -> Result<Program, RuleFault>
    requires { AreSpelling (lexemes_of tokens.now) tokens.now.end (plain_of tree.now) }

    // What is answered is the program that the tree becomes, and the tree breaks no rule.
    ensures program { IfOk result (λ program. Elaborates (plain_of tree.now) (lexemes_of tokens.now) entry.now (plain_program program)) }

    // A tree that breaks no rule has its program answered, unless memory runs out.
    ensures every_program { (program : plain.Program) → Elaborates (plain_of tree.now) (lexemes_of tokens.now) entry.now program → GivesProgram result program }

    // A fault that is answered is there, and one that is there is answered, unless memory runs out.
    ensures fault { IfErr result (λ fault. IsFault (plain_of tree.now) (lexemes_of tokens.now) entry.now fault) }
    ensures every_fault { (at rule : ℕ) → BreaksFirst (plain_of tree.now) (lexemes_of tokens.now) entry.now at rule → GivesFault result (RuleFault.Broken rule at) }
{
    laws::one_first();
    laws::at_most_one_first();
    laws::at_most_one_program();
    laws::free_is_well_formed();
    let mut found = None;
    let parts = parts_of(alloc, tree, tokens, entry, &mut found)?;
    match found {
        Some(Broken { at, rule }) => Err(RuleFault::Broken { rule, at }),
        None => match parts {
            Some(parts) => Ok(whole(parts)),
            None => unreachable!(),
        },
    }
}
