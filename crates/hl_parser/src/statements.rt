//! What is read of statements.

ghost use Rattle.std.specs.Prelude.{IfOk};
ghost use Rattle.hl_parser.specs.Held.{Did};
ghost use Rattle.hl_parser.specs.Machine.{on_attributed, on_block, on_else, on_first, on_local, on_optional, on_start, on_start_init, on_starts, on_statement, on_statements, other_statement};

use crate::act::Act;
use crate::class::{begins_expression, begins_local, begins_statement, begins_type};
use crate::parser::{Look, Outcome, Parser};
use crate::symbol::Symbol;
use base_core::NoMemory;
use hl_lexer::Terminal;

impl Parser {
    /// A block.
    pub(crate) fn on_block(&mut self, look: Look) -> Result<Outcome, NoMemory>
        ensures { IfOk result (λ outcome. Did (on_block look.terminal) look.at self.old self.new outcome) }
    {
        match look.terminal {
            Terminal::OpenBrace => self.reads(
                look,
                &[Act::Here],
                &[
                    Symbol::Make(Act::Empty),
                    Symbol::Statements,
                    Symbol::Skip(Terminal::CloseBrace),
                    Symbol::Make(Act::Block),
                ],
            ),
            _ => Ok(Outcome::Refuses),
        }
    }

    /// An `if` or a loop, behind its attributes.
    pub(crate) fn on_attributed(&mut self, look: Look) -> Result<Outcome, NoMemory>
        ensures { IfOk result (λ outcome. Did (on_attributed look.terminal) look.at self.old self.new outcome) }
    {
        match look.terminal {
            Terminal::If => self.reads(
                look,
                &[Act::Here],
                &[
                    Symbol::Skip(Terminal::OpenParenthesis),
                    Symbol::Operand(27),
                    Symbol::Skip(Terminal::CloseParenthesis),
                    Symbol::Statement,
                    Symbol::Else,
                    Symbol::Make(Act::If),
                ],
            ),
            Terminal::For => self.reads(
                look,
                &[Act::Here],
                &[
                    Symbol::Skip(Terminal::OpenParenthesis),
                    Symbol::First,
                    Symbol::Skip(Terminal::Semicolon),
                    Symbol::Optional,
                    Symbol::Skip(Terminal::Semicolon),
                    Symbol::Optional,
                    Symbol::Skip(Terminal::CloseParenthesis),
                    Symbol::Statement,
                    Symbol::Make(Act::For),
                ],
            ),
            Terminal::While => self.reads(
                look,
                &[Act::Here],
                &[
                    Symbol::Skip(Terminal::OpenParenthesis),
                    Symbol::Operand(27),
                    Symbol::Skip(Terminal::CloseParenthesis),
                    Symbol::Statement,
                    Symbol::Make(Act::While),
                ],
            ),
            Terminal::Do => self.reads(
                look,
                &[Act::Here],
                &[
                    Symbol::Statement,
                    Symbol::Skip(Terminal::While),
                    Symbol::Skip(Terminal::OpenParenthesis),
                    Symbol::Operand(27),
                    Symbol::Skip(Terminal::CloseParenthesis),
                    Symbol::Skip(Terminal::Semicolon),
                    Symbol::Make(Act::Do),
                ],
            ),
            _ => Ok(Outcome::Refuses),
        }
    }

    /// A local.
    pub(crate) fn on_local(&mut self, look: Look) -> Result<Outcome, NoMemory>
        ensures { IfOk result (λ outcome. Did (on_local look.terminal) look.at self.old self.new outcome) }
    {
        match look.terminal {
            Terminal::Const => self.reads(
                look,
                &[Act::Here],
                &[
                    Symbol::Type,
                    Symbol::Make(Act::Empty),
                    Symbol::Start,
                    Symbol::Make(Act::Append),
                    Symbol::Starts,
                    Symbol::Make(Act::Local),
                ],
            ),
            terminal if begins_type(terminal) => {
                self.lead(
                    look,
                    &[Act::Absent],
                    &[
                        Symbol::Make(Act::Empty),
                        Symbol::Start,
                        Symbol::Make(Act::Append),
                        Symbol::Starts,
                        Symbol::Make(Act::Local),
                    ],
                )?;
                self.on_type(look)
            },
            _ => Ok(Outcome::Refuses),
        }
    }

    /// A statement that is no local and no expression.
    pub(crate) fn other_statement(&mut self, look: Look) -> Result<Outcome, NoMemory>
        ensures { IfOk result (λ outcome. Did (other_statement look.terminal) look.at self.old self.new outcome) }
    {
        match look.terminal {
            Terminal::If | Terminal::For | Terminal::While | Terminal::Do => {
                self.lead(look, &[Act::Empty], &[Symbol::Make(Act::Part)])?;
                self.on_attributed(look)
            },
            Terminal::Return => self.reads(
                look,
                &[Act::Here],
                &[
                    Symbol::Optional,
                    Symbol::Make(Act::Jump),
                    Symbol::Skip(Terminal::Semicolon),
                    Symbol::Make(Act::Part),
                ],
            ),
            Terminal::Break | Terminal::Continue => self.reads(
                look,
                &[Act::Here],
                &[
                    Symbol::Make(Act::Absent),
                    Symbol::Make(Act::Jump),
                    Symbol::Skip(Terminal::Semicolon),
                    Symbol::Make(Act::Part),
                ],
            ),
            Terminal::OpenBracket => self.reads(
                look,
                &[Act::Empty, Act::Here],
                &[
                    Symbol::Name,
                    Symbol::AttributeArguments,
                    Symbol::Skip(Terminal::CloseBracket),
                    Symbol::Make(Act::Attribute),
                    Symbol::Make(Act::Append),
                    Symbol::Attributes,
                    Symbol::Attributed,
                    Symbol::Make(Act::Part),
                ],
            ),
            Terminal::Semicolon => self.reads(look, &[Act::Here], &[Symbol::Make(Act::Nothing)]),
            _ => {
                self.lead(look, &[], &[Symbol::Make(Act::Part)])?;
                self.on_block(look)
            },
        }
    }

    /// A statement.
    pub(crate) fn on_statement(&mut self, look: Look) -> Result<Outcome, NoMemory>
        ensures { IfOk result (λ outcome. Did (on_statement look.terminal look.next) look.at self.old self.new outcome) }
    {
        if begins_local(look.terminal, look.next) {
            self.lead(
                look,
                &[],
                &[Symbol::Skip(Terminal::Semicolon), Symbol::Make(Act::Part)],
            )?;
            self.on_local(look)
        } else if begins_expression(look.terminal) {
            self.lead(
                look,
                &[],
                &[Symbol::Skip(Terminal::Semicolon), Symbol::Make(Act::Part)],
            )?;
            self.on_operand(look, 27)
        } else {
            self.other_statement(look)
        }
    }

    /// Any number of statements.
    pub(crate) fn on_statements(&mut self, look: Look) -> Result<Outcome, NoMemory>
        ensures { IfOk result (λ outcome. Did (on_statements look.terminal look.next) look.at self.old self.new outcome) }
    {
        match look.terminal {
            terminal if begins_statement(terminal) => {
                self.lead(look, &[], &[Symbol::Make(Act::Append), Symbol::Statements])?;
                self.on_statement(look)
            },
            _ => self.yields(look, &[]),
        }
    }

    /// A start of a local.
    pub(crate) fn on_start(&mut self, look: Look) -> Result<Outcome, NoMemory>
        ensures { IfOk result (λ outcome. Did (on_start look.terminal) look.at self.old self.new outcome) }
    {
        self.lead(look, &[], &[Symbol::StartInit, Symbol::Make(Act::Start)])?;
        self.on_declarator(look)
    }

    /// Any number of starts, each behind a comma.
    pub(crate) fn on_starts(&mut self, look: Look) -> Result<Outcome, NoMemory>
        ensures { IfOk result (λ outcome. Did (on_starts look.terminal) look.at self.old self.new outcome) }
    {
        match look.terminal {
            Terminal::Comma => self.reads(
                look,
                &[],
                &[Symbol::Start, Symbol::Make(Act::Append), Symbol::Starts],
            ),
            _ => self.yields(look, &[]),
        }
    }

    /// The initialiser of a start, or none.
    pub(crate) fn on_start_init(&mut self, look: Look) -> Result<Outcome, NoMemory>
        ensures { IfOk result (λ outcome. Did (on_start_init look.terminal) look.at self.old self.new outcome) }
    {
        match look.terminal {
            Terminal::Equals => self.reads(look, &[], &[Symbol::Init]),
            _ => self.yields(look, &[Act::Absent]),
        }
    }

    /// An `else` with its statement, or none.
    pub(crate) fn on_else(&mut self, look: Look) -> Result<Outcome, NoMemory>
        ensures { IfOk result (λ outcome. Did (on_else look.terminal) look.at self.old self.new outcome) }
    {
        match look.terminal {
            Terminal::Else => self.reads(look, &[], &[Symbol::Statement]),
            _ => self.yields(look, &[Act::Absent]),
        }
    }

    /// The first part of the head of a `for`, or none.
    pub(crate) fn on_first(&mut self, look: Look) -> Result<Outcome, NoMemory>
        ensures { IfOk result (λ outcome. Did (on_first look.terminal look.next) look.at self.old self.new outcome) }
    {
        if begins_local(look.terminal, look.next) {
            self.on_local(look)
        } else if begins_expression(look.terminal) {
            self.on_operand(look, 27)
        } else {
            self.yields(look, &[Act::Absent])
        }
    }

    /// An expression, or none.
    pub(crate) fn on_optional(&mut self, look: Look) -> Result<Outcome, NoMemory>
        ensures { IfOk result (λ outcome. Did (on_optional look.terminal look.next) look.at self.old self.new outcome) }
    {
        if begins_expression(look.terminal) {
            self.on_operand(look, 27)
        } else {
            self.yields(look, &[Act::Absent])
        }
    }
}
