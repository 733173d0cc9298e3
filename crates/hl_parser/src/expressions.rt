//! What is read of expressions.

ghost use Rattle.std.specs.Prelude.{IfOk};
ghost use Rattle.hl_parser.specs.Held.{Did};
ghost use Rattle.hl_parser.specs.Machine.{on_arg_list, on_args, on_expressions, on_method_arguments, on_operand, on_operator, on_parenthesis, on_repeating, on_tail, other_operand};

use crate::act::Act;
use crate::class::{
    begins_expression, is_assign, is_basic, is_prefix, is_word, joins_to, level_of, operator_of,
};
use crate::parser::{Look, Outcome, Parser};
use crate::symbol::Symbol;
use base_core::NoMemory;
use hl_lexer::Terminal;

impl Parser {
    /// An expression of at least a level.
    pub(crate) fn on_operand(&mut self, look: Look, least: u8) -> Result<Outcome, NoMemory>
        ensures { IfOk result (λ outcome. Did (on_operand least look.terminal look.next) look.at self.old self.new outcome) }
    {
        match look.terminal {
            Terminal::Name if look.next == Terminal::OpenParenthesis => self.reads(
                look,
                &[Act::Here],
                &[
                    Symbol::Args,
                    Symbol::Make(Act::Call),
                    Symbol::Tail(42, least),
                ],
            ),
            _ => self.other_operand(look, least),
        }
    }

    /// An expression of at least a level that begins with no call.
    pub(crate) fn other_operand(&mut self, look: Look, least: u8) -> Result<Outcome, NoMemory>
        ensures { IfOk result (λ outcome. Did (other_operand least look.terminal) look.at self.old self.new outcome) }
    {
        match look.terminal {
            Terminal::OpenParenthesis => self.reads(
                look,
                &[Act::Here],
                &[Symbol::Parenthesis(least)],
            ),
            terminal if is_word(terminal) => self.reads(
                look,
                &[Act::Here],
                &[Symbol::Make(Act::Word), Symbol::Tail(42, least)],
            ),
            terminal if is_basic(terminal) => self.reads(
                look,
                &[Act::Here],
                &[
                    Symbol::Make(Act::Basic),
                    Symbol::Args,
                    Symbol::Make(Act::Constructor),
                    Symbol::Tail(42, least),
                ],
            ),
            terminal if is_prefix(terminal) => self.reads(
                look,
                &[Act::Here],
                &[
                    Symbol::Operand(40),
                    Symbol::Make(Act::Unary),
                    Symbol::Tail(40, least),
                ],
            ),
            _ => Ok(Outcome::Refuses),
        }
    }

    /// What stands behind an opening parenthesis.
    pub(crate) fn on_parenthesis(&mut self, look: Look, least: u8) -> Result<Outcome, NoMemory>
        ensures { IfOk result (λ outcome. Did (on_parenthesis least look.terminal look.next) look.at self.old self.new outcome) }
    {
        if is_basic(look.terminal) && look.next == Terminal::CloseParenthesis {
            self.reads(
                look,
                &[Act::Here],
                &[
                    Symbol::Make(Act::Basic),
                    Symbol::Skip(Terminal::CloseParenthesis),
                    Symbol::Operand(40),
                    Symbol::Make(Act::Cast),
                    Symbol::Tail(40, least),
                ],
            )
        } else {
            self.lead(
                look,
                &[],
                &[
                    Symbol::Skip(Terminal::CloseParenthesis),
                    Symbol::Make(Act::Parentheses),
                    Symbol::Tail(42, least),
                ],
            )?;
            self.on_operand(look, 27)
        }
    }

    /// The operators behind an operand.
    pub(crate) fn on_tail(
        &mut self,
        look: Look,
        production: u8,
        least: u8,
    ) -> Result<Outcome, NoMemory>
        ensures { IfOk result (λ outcome. Did (on_tail production least look.terminal) look.at self.old self.new outcome) }
    {
        let level = level_of(look.terminal);
        if least <= level && level <= joins_to(production) {
            self.on_operator(look, least)
        } else {
            self.yields(look, &[])
        }
    }

    /// An operator behind an operand.
    pub(crate) fn on_operator(&mut self, look: Look, least: u8) -> Result<Outcome, NoMemory>
        ensures { IfOk result (λ outcome. Did (on_operator least look.terminal) look.at self.old self.new outcome) }
    {
        match look.terminal {
            Terminal::Dot => self.reads(
                look,
                &[Act::Here],
                &[
                    Symbol::Name,
                    Symbol::MethodArguments,
                    Symbol::Make(Act::Field),
                    Symbol::Tail(41, least),
                ],
            ),
            Terminal::OpenBracket => self.reads(
                look,
                &[Act::Here],
                &[
                    Symbol::Operand(27),
                    Symbol::Skip(Terminal::CloseBracket),
                    Symbol::Make(Act::Index),
                    Symbol::Tail(41, least),
                ],
            ),
            Terminal::PlusPlus | Terminal::MinusMinus => self.reads(
                look,
                &[Act::Here],
                &[Symbol::Make(Act::Step), Symbol::Tail(41, least)],
            ),
            Terminal::Question => self.reads(
                look,
                &[],
                &[
                    Symbol::Operand(27),
                    Symbol::Skip(Terminal::Colon),
                    Symbol::Operand(29),
                    Symbol::Make(Act::Choice),
                    Symbol::Tail(29, least),
                ],
            ),
            terminal if is_assign(terminal) => self.reads(
                look,
                &[Act::Here],
                &[
                    Symbol::Operand(27),
                    Symbol::Make(Act::Assignment),
                    Symbol::Tail(27, least),
                ],
            ),
            _ => self.on_repeating(look, least),
        }
    }

    /// An operator that repeats.
    fn on_repeating(&mut self, look: Look, least: u8) -> Result<Outcome, NoMemory>
        ensures { IfOk result (λ outcome. Did (on_repeating least look.terminal) look.at self.old self.new outcome) }
    {
        let level = operator_of(look.terminal);
        if level == 0 {
            return Ok(Outcome::Refuses);
        }
        self.reads(
            look,
            &[Act::Here],
            &[
                Symbol::Operand(level + 1),
                Symbol::Make(Act::Binary(level)),
                Symbol::Tail(level, least),
            ],
        )
    }

    /// Arguments.
    pub(crate) fn on_args(&mut self, look: Look) -> Result<Outcome, NoMemory>
        ensures { IfOk result (λ outcome. Did (on_args look.terminal) look.at self.old self.new outcome) }
    {
        match look.terminal {
            Terminal::OpenParenthesis => self.reads(
                look,
                &[Act::Here],
                &[
                    Symbol::Make(Act::Empty),
                    Symbol::ArgList,
                    Symbol::Make(Act::Args),
                ],
            ),
            _ => Ok(Outcome::Refuses),
        }
    }

    /// The arguments of a method, or none.
    pub(crate) fn on_method_arguments(&mut self, look: Look) -> Result<Outcome, NoMemory>
        ensures { IfOk result (λ outcome. Did (on_method_arguments look.terminal) look.at self.old self.new outcome) }
    {
        match look.terminal {
            Terminal::OpenParenthesis => self.on_args(look),
            _ => self.yields(look, &[Act::Absent]),
        }
    }

    /// The arguments behind a parenthesis.
    pub(crate) fn on_arg_list(&mut self, look: Look) -> Result<Outcome, NoMemory>
        ensures { IfOk result (λ outcome. Did (on_arg_list look.terminal look.next) look.at self.old self.new outcome) }
    {
        match look.terminal {
            Terminal::CloseParenthesis => self.reads(look, &[], &[]),
            terminal if begins_expression(terminal) => {
                self.lead(
                    look,
                    &[],
                    &[
                        Symbol::Make(Act::Append),
                        Symbol::Expressions,
                        Symbol::Skip(Terminal::CloseParenthesis),
                    ],
                )?;
                self.on_operand(look, 27)
            },
            _ => Ok(Outcome::Refuses),
        }
    }

    /// Any number of expressions, each behind a comma.
    pub(crate) fn on_expressions(&mut self, look: Look) -> Result<Outcome, NoMemory>
        ensures { IfOk result (λ outcome. Did (on_expressions look.terminal) look.at self.old self.new outcome) }
    {
        match look.terminal {
            Terminal::Comma => self.reads(
                look,
                &[],
                &[
                    Symbol::Operand(27),
                    Symbol::Make(Act::Append),
                    Symbol::Expressions,
                ],
            ),
            _ => self.yields(look, &[]),
        }
    }
}
