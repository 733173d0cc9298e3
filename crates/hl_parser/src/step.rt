//! What a symbol does at a token, and what comes of a token.

ghost use Rattle.std.specs.Prelude.{IfOk};
ghost use Rattle.hl_parser.specs.declared.symbol.Symbol.TheVariants.{Name, Skip};
ghost use Rattle.hl_parser.specs.Held.{Did, FedIs, Holds};
ghost use Rattle.hl_parser.specs.Machine.{Kept, feed, move_of};

use crate::act::Act;
use crate::parser::{Look, Outcome, Parser};
use crate::symbol::Symbol;
use base_core::NoMemory;
use hl_lexer::Terminal;

/// What comes of a token.
#[derive(Clone, Copy)]
pub(crate) enum Fed {
    /// It is read.
    Read,
    /// All symbols are done with before it is read.
    Spent,
    /// It can't stand there.
    Refused,
}

impl Parser {
    /// What a symbol does at a token.
    pub(crate) fn step(&mut self, symbol: Symbol, look: Look) -> Result<Outcome, NoMemory>
        ensures { IfOk result (λ outcome. Did (move_of symbol look.terminal look.next) look.at self.old self.new outcome) }
    {
        match symbol {
            Symbol::Make(act) => self.yields(look, &[act]),
            Symbol::Skip(terminal) => self.skip(look, terminal),
            Symbol::Name => self.on_name(look),
            Symbol::Item => self.on_item(look),
            Symbol::Items => self.on_items(look),
            Symbol::Members => self.on_members(look),
            Symbol::Member => self.on_member(look),
            Symbol::Type => self.on_type(look),
            Symbol::Declarator => self.on_declarator(look),
            Symbol::Declarators => self.on_declarators(look),
            Symbol::Lengths => self.on_lengths(look),
            Symbol::Register => self.on_register(look),
            Symbol::Space => self.on_space(look),
            Symbol::Init => self.on_init(look),
            Symbol::Inits => self.on_inits(look),
            Symbol::Result => self.on_result(look),
            Symbol::Params => self.on_params(look),
            Symbol::Param => self.on_param(look),
            Symbol::MoreParams => self.on_more_params(look),
            Symbol::Direction => self.on_direction(look),
            Symbol::Semantic => self.on_semantic(look),
            Symbol::AttributeArguments => self.on_attribute_arguments(look),
            Symbol::Attributes => self.on_attributes(look),
            Symbol::Attributed => self.on_attributed(look),
            Symbol::Block => self.on_block(look),
            Symbol::Statement => self.on_statement(look),
            Symbol::Statements => self.on_statements(look),
            Symbol::Local => self.on_local(look),
            Symbol::Start => self.on_start(look),
            Symbol::Starts => self.on_starts(look),
            Symbol::StartInit => self.on_start_init(look),
            Symbol::Else => self.on_else(look),
            Symbol::First => self.on_first(look),
            Symbol::Optional => self.on_optional(look),
            Symbol::Operand(least) => self.on_operand(look, least),
            Symbol::Parenthesis(least) => self.on_parenthesis(look, least),
            Symbol::Tail(production, least) => self.on_tail(look, production, least),
            Symbol::MethodArguments => self.on_method_arguments(look),
            Symbol::Args => self.on_args(look),
            Symbol::ArgList => self.on_arg_list(look),
            Symbol::Expressions => self.on_expressions(look),
        }
    }

    /// A token that is no part of a tree.
    fn skip(&mut self, look: Look, terminal: Terminal) -> Result<Outcome, NoMemory>
        ensures { IfOk result (λ outcome. Did (move_of (Skip terminal) look.terminal look.next) look.at self.old self.new outcome) }
    {
        if look.terminal == terminal {
            self.reads(look, &[], &[])
        } else {
            Ok(Outcome::Refuses)
        }
    }

    /// A name.
    fn on_name(&mut self, look: Look) -> Result<Outcome, NoMemory>
        ensures { IfOk result (λ outcome. Did (move_of Name look.terminal look.next) look.at self.old self.new outcome) }
    {
        match look.terminal {
            Terminal::Name => self.reads(look, &[Act::Here], &[]),
            _ => Ok(Outcome::Refuses),
        }
    }

    /// Reads a token, if it can stand there.
    ///
    /// # Errors
    /// `NoMemory` where memory is refused.
    pub(crate) fn feed(&mut self, look: Look) -> Result<Fed, NoMemory>
        ensures { IfOk result (λ fed. (values : Kept) → Holds self.old.values values → FedIs (feed self.old.pending values look.at look.terminal look.next) self.new fed) }
    {
        while let Some(symbol) = self.pending.pop() {
            match self.step(symbol, look)? {
                Outcome::Reads => return Ok(Fed::Read),
                Outcome::Yields => {}
                Outcome::Refuses => return Ok(Fed::Refused),
            }
        }
        Ok(Fed::Spent)
    }
}
