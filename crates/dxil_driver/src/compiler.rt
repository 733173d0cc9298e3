//! From a text to a container.

ghost use Rattle.std.specs.Prelude.{◌≡◌, ◌≤◌, ◌⊎◌, length, IfOk, IfErr, OnOk, IsErrOf};
ghost use Rattle.hl_lexer.specs.Tokens.{lexemes_of};
ghost use Rattle.base_core.specs.declared.place.Place.{Place};
ghost use Rattle.hl_parser.specs.Trees as plain;
ghost use Rattle.hl_parser.specs.Views.{plain_of};
ghost use Rattle.hl_parser.specs.declared.fault.ParseFault.{ParseFault};
ghost use Rattle.hl_meaning.specs.Held.{plain_program};
ghost use Rattle.hl_meaning.specs.Programs as plain_programs;
ghost use Rattle.hl_rules.specs.Elaboration.{Elaborates};
ghost use Rattle.hl_types.specs.Elaborating.{AreSpelling};
ghost use Rattle.hl_types.specs.declared.fault.RuleFault.{RuleFault};
ghost use Rattle.dxil_driver.specs.Compiled.{HasFirstForm, Compiled, most_source};
ghost use Rattle.dxil_driver.specs.CompileFaults.{AreTokens, GivesProgram, GivesTree, HasFault, HasProgram, HasProgramFault, HasTreeFault, HaveFault, HaveProgramFault, IsContainerOfProgram, IsContainerOfTokens, NamesRuleFault, NamesTreeFault, SpellForm, SpellProgram, TreeBreaks};
ghost use Rattle.dxil_driver.specs.FirstForm.{form_of};
ghost use Rattle.dxil_driver.specs.SourceText.{SpellTree, place_at};
ghost use Rattle.dxil_driver.specs.declared.compiler.CompileFault.{CompileFault};

use crate::command::MOST_SOURCE;
use crate::container::kernel_container;
use crate::kernel_form::first_form;
use crate::options::Options;
use base_core::{Bytes, NoMemory, Place};
use hl_lexer::{LexFault, Tokens, lex};
use hl_meaning::Program;
use hl_parser::{ParseFault, Tree, parse};
use hl_types::{RuleFault, elaborate};
use std::alloc::Global;

/// Why a text isn't compiled.
#[derive(Clone, Copy, Debug, PartialEq, Eq)]
pub enum CompileFault {
    /// The text has more than 1048576 bytes.
    TooLong,
    /// The text has no tokens. The fault isn't `Memory`.
    Lex(LexFault),
    /// The tokens spell no tree, or one that is too deep. The fault isn't `Memory`. The place is that of the token at
    /// the index of the fault, or of the end of the text, and the start of the text where the tree is too deep.
    Parse { fault: ParseFault, place: Place },
    /// The tree breaks a typing rule. The fault isn't `Memory`. The place is that of the token at its index, or of the
    /// end of the text.
    Rule { fault: RuleFault, place: Place },
    /// The program isn't of the form that is compiled so far.
    Unbuilt,
    /// Memory was refused.
    Memory,
}

impl From<NoMemory> for CompileFault {
    ghost use Rattle.std.specs.Prelude.{◌≡◌};
    ghost use Rattle.dxil_driver.specs.declared.compiler.CompileFault.TheVariants.{Memory};

    ghost from_gives = { λ _ fault. fault ≡ Memory };

    fn from(_refused: NoMemory) -> CompileFault {
        CompileFault::Memory
    }
}

impl From<LexFault> for CompileFault {
    ghost use Rattle.std.specs.Prelude.{◌≡◌};
    ghost use Rattle.dxil_driver.specs.CompileFaults.{of_tokens};

    ghost from_gives = { λ fault answer. answer ≡ of_tokens fault };

    fn from(fault: LexFault) -> CompileFault {
        match fault {
            LexFault::Memory => CompileFault::Memory,
            _ => CompileFault::Lex(fault),
        }
    }
}

/// Where every text begins.
const START: Place = Place { line: 1, column: 1 };

/// The place of the token of an index, or of the end where there is none.
fn place_of<'a>(tokens: &Tokens<'a>, at: usize) -> Place
    ensures { result ≡ place_at (lexemes_of tokens.now) tokens.now.end at }
{
    match tokens.list.get(at) {
        Some(token) => token.place,
        None => tokens.end,
    }
}

/// The tree of tokens.
///
/// # Errors
/// `Parse` exactly where the tokens have that fault at that place, and `Memory`, to which it yields.
fn read_tree<'a>(alloc: Global, tokens: &Tokens<'a>) -> Result<Tree, CompileFault>
    ensures tree { IfOk result (λ tree. SpellTree (lexemes_of tokens.now) (plain_of tree)) }
    ensures every_tree { (tree : plain.Tree) → SpellTree (lexemes_of tokens.now) tree → GivesTree result tree }
    ensures fault { IfErr result (NamesTreeFault (lexemes_of tokens.now) tokens.now.end) }
    ensures every_fault { (fault : ParseFault) (place : Place) → HasTreeFault (lexemes_of tokens.now) tokens.now.end fault place
        → IsErrOf result (CompileFault.Parse fault place) ⊎ IsErrOf result CompileFault.Memory }
{
    match parse(alloc, tokens) {
        Ok(tree) => Ok(tree),
        Err(ParseFault::Syntax { at }) => Err(CompileFault::Parse {
            fault: ParseFault::Syntax { at },
            place: place_of(tokens, at),
        }),
        Err(ParseFault::TooDeep) => Err(CompileFault::Parse {
            fault: ParseFault::TooDeep,
            place: START,
        }),
        Err(ParseFault::Memory) => Err(CompileFault::Memory),
    }
}

/// The program of a tree of tokens.
///
/// # Errors
/// `Rule` exactly where the tree breaks a typing rule, the first one at its place, and `Memory`, to which it yields.
fn read_rules<'a>(
    alloc: Global,
    tokens: &Tokens<'a>,
    tree: &Tree,
    entry: &[u8],
) -> Result<Program, CompileFault>
    requires { AreSpelling (lexemes_of tokens.now) tokens.now.end (plain_of tree.now) }
    ensures program { IfOk result (λ program. Elaborates (plain_of tree.now) (lexemes_of tokens.now) entry.now (plain_program program)) }
    ensures every_program { (program : plain_programs.Program) → Elaborates (plain_of tree.now) (lexemes_of tokens.now) entry.now program → GivesProgram result program }
    ensures fault { IfErr result (NamesRuleFault (plain_of tree.now) (lexemes_of tokens.now) tokens.now.end entry.now) }
    ensures every_fault { (fault : RuleFault) (place : Place) → TreeBreaks (plain_of tree.now) (lexemes_of tokens.now) tokens.now.end entry.now fault place
        → IsErrOf result (CompileFault.Rule fault place) ⊎ IsErrOf result CompileFault.Memory }
{
    match elaborate(alloc, tree, tokens, entry) {
        Ok(program) => Ok(program),
        Err(RuleFault::Broken { rule, at }) => Err(CompileFault::Rule {
            fault: RuleFault::Broken { rule, at },
            place: place_of(tokens, at),
        }),
        Err(RuleFault::Memory) => Err(CompileFault::Memory),
    }
}

/// The program that tokens spell.
///
/// # Errors
/// `Parse` and `Rule` exactly where the tokens have that fault, and `Memory`, to which these yield.
fn read_program<'a>(
    alloc: Global,
    tokens: &Tokens<'a>,
    entry: &[u8],
) -> Result<Program, CompileFault>
    requires { AreTokens (lexemes_of tokens.now) tokens.now.end }
    ensures program { IfOk result (λ program. SpellProgram (lexemes_of tokens.now) entry.now (plain_program program)) }
    ensures every_program { (program : plain_programs.Program) → SpellProgram (lexemes_of tokens.now) entry.now program → GivesProgram result program }
    ensures fault { IfErr result (λ fault. (fault ≡ CompileFault.Memory) ⊎ HaveProgramFault (lexemes_of tokens.now) tokens.now.end entry.now fault) }
    ensures every_fault { (fault : CompileFault) → HaveProgramFault (lexemes_of tokens.now) tokens.now.end entry.now fault
        → IsErrOf result fault ⊎ IsErrOf result CompileFault.Memory }
{
    let tree = read_tree(alloc, tokens)?;
    read_rules(alloc, tokens, &tree, entry)
}

/// The container of a program.
///
/// # Errors
/// `Unbuilt` exactly where the program has no first form, and `Memory`, to which it yields.
fn compile_program(alloc: Global, program: &Program) -> Result<Bytes, CompileFault>
    ensures made { IfOk result (IsContainerOfProgram (plain_program program.now)) }
    ensures fault { IfErr result (λ fault. (fault ≡ CompileFault.Memory)
        ⊎ ((fault ≡ CompileFault.Unbuilt) × (form_of (plain_program program.now) ≡ None))) }
{
    match first_form(alloc, program)? {
        None => Err(CompileFault::Unbuilt),
        Some(form) => {
            let bytes = kernel_container(alloc, &form)?;
            Ok(bytes)
        }
    }
}

/// The container of what tokens spell.
///
/// # Errors
/// `Parse`, `Rule` and `Unbuilt` exactly where the tokens have that fault, and `Memory`, to which these yield.
fn compile_tokens<'a>(
    alloc: Global,
    tokens: &Tokens<'a>,
    entry: &[u8],
) -> Result<Bytes, CompileFault>
    requires { AreTokens (lexemes_of tokens.now) tokens.now.end }
    ensures made { IfOk result (IsContainerOfTokens (lexemes_of tokens.now) entry.now) }
    ensures complete { SpellForm (lexemes_of tokens.now) entry.now → IfErr result (λ fault. fault ≡ CompileFault.Memory) }
    ensures fault { IfErr result (λ fault. (fault ≡ CompileFault.Memory) ⊎ HaveFault (lexemes_of tokens.now) tokens.now.end entry.now fault) }
    ensures every_fault { (fault : CompileFault) → HaveFault (lexemes_of tokens.now) tokens.now.end entry.now fault
        → IsErrOf result fault ⊎ IsErrOf result CompileFault.Memory }
{
    let program = read_program(alloc, tokens, entry)?;
    compile_program(alloc, &program)
}

/// The typed program of a text, with the entry of this name.
///
/// # Errors
/// Each fault exactly where the text has it in place of a program, and `Memory`, to which all others yield: those of
/// `compile` without `Unbuilt`. So a program within the length gives `Ok` or `Memory`.
pub fn program_of(alloc: Global, text: &[u8], entry: &[u8]) -> Result<Program, CompileFault>
    // What is answered is the program of a text within the length.
    ensures program { IfOk result (λ program. HasProgram text.now entry.now (plain_program program)) }
    ensures within { OnOk result (length text.now ≤ most_source) }

    // A program of such a text is answered, unless memory runs out.
    ensures every_program { (program : plain_programs.Program) → length text.now ≤ most_source → HasProgram text.now entry.now program → GivesProgram result program }

    // A fault that is answered is there, and one that is there is answered, unless memory runs out.
    ensures fault { IfErr result (λ fault. (fault ≡ CompileFault.Memory) ⊎ HasProgramFault text.now entry.now fault) }
    ensures every_fault { (fault : CompileFault) → HasProgramFault text.now entry.now fault
        → IsErrOf result fault ⊎ IsErrOf result CompileFault.Memory }
{
    if text.len() > MOST_SOURCE {
        return Err(CompileFault::TooLong);
    }
    let tokens = lex(alloc, text)?;
    read_program(alloc, &tokens, entry)
}

/// The container of the text.
///
/// # Errors
/// Each fault exactly where the text has it, and `Memory`, to which all others yield. A text has `TooLong` above
/// 1048576 bytes; within that length `Lex` where it has no tokens, `Parse` where its tokens spell no tree or one that
/// is too deep, `Rule` where its tree breaks a typing rule for an entry of the name in the options, and `Unbuilt` where
/// its program isn't of the first form. So a first form within that length gives `Ok` or `Memory`.
#[tactic(auto, unfolding(crate::specs::Compiled::HasFirstForm, crate::specs::Compiled::Compiled))]
pub fn compile(alloc: Global, text: &[u8], options: &Options) -> Result<Bytes, CompileFault>
    // What is answered is a container of a text that is accepted.
    ensures compiled { IfOk result (λ bytes. Compiled text.now options.now.entry bytes) }
    ensures accepted { OnOk result ((length text.now ≤ most_source) × HasFirstForm text.now options.now.entry) }

    // A text that is accepted has its container answered, unless memory runs out.
    ensures complete { length text.now ≤ most_source → HasFirstForm text.now options.now.entry → IfErr result (λ fault. fault ≡ CompileFault.Memory) }

    // A fault that is answered is there, and one that is there is answered, unless memory runs out.
    ensures fault { IfErr result (λ fault. (fault ≡ CompileFault.Memory) ⊎ HasFault text.now options.now.entry fault) }
    ensures every_fault { (fault : CompileFault) → HasFault text.now options.now.entry fault
        → IsErrOf result fault ⊎ IsErrOf result CompileFault.Memory }
{
    if text.len() > MOST_SOURCE {
        return Err(CompileFault::TooLong);
    }
    let tokens = lex(alloc, text)?;
    compile_tokens(alloc, &tokens, options.entry.as_slice())
}
