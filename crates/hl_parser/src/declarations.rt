//! What is read of declarations.

ghost use Rattle.std.specs.Prelude.{IfOk};
ghost use Rattle.hl_parser.specs.Held.{Did};
ghost use Rattle.hl_parser.specs.Machine.{on_attribute_arguments, on_attributes, on_declarator, on_declarators, on_direction, on_init, on_inits, on_item, on_items, on_lengths, on_member, on_members, on_more_params, on_param, on_params, on_register, on_result, on_semantic, on_space, on_type};

use crate::act::Act;
use crate::class::{
    begins_expression, begins_init, begins_item, begins_param, begins_result, begins_type,
    is_basic, is_direction,
};
use crate::parser::{Look, Outcome, Parser};
use crate::symbol::Symbol;
use base_core::NoMemory;
use hl_lexer::Terminal;

impl Parser {
    /// A type.
    pub(crate) fn on_type(&mut self, look: Look) -> Result<Outcome, NoMemory>
        ensures { IfOk result (λ outcome. Did (on_type look.terminal) look.at self.old self.new outcome) }
    {
        match look.terminal {
            Terminal::Name => self.reads(look, &[Act::Here], &[Symbol::Make(Act::NameType)]),
            terminal if is_basic(terminal) => self.reads(
                look,
                &[Act::Here],
                &[Symbol::Make(Act::Basic), Symbol::Make(Act::BasicType)],
            ),
            _ => Ok(Outcome::Refuses),
        }
    }

    /// A member.
    pub(crate) fn on_member(&mut self, look: Look) -> Result<Outcome, NoMemory>
        ensures { IfOk result (λ outcome. Did (on_member look.terminal) look.at self.old self.new outcome) }
    {
        self.lead(
            look,
            &[],
            &[
                Symbol::Make(Act::Empty),
                Symbol::Declarator,
                Symbol::Make(Act::Append),
                Symbol::Declarators,
                Symbol::Skip(Terminal::Semicolon),
                Symbol::Make(Act::Member),
            ],
        )?;
        self.on_type(look)
    }

    /// Any number of members.
    pub(crate) fn on_members(&mut self, look: Look) -> Result<Outcome, NoMemory>
        ensures { IfOk result (λ outcome. Did (on_members look.terminal) look.at self.old self.new outcome) }
    {
        match look.terminal {
            terminal if begins_type(terminal) => {
                self.lead(look, &[], &[Symbol::Make(Act::Append), Symbol::Members])?;
                self.on_member(look)
            },
            _ => self.yields(look, &[]),
        }
    }

    /// A declarator.
    pub(crate) fn on_declarator(&mut self, look: Look) -> Result<Outcome, NoMemory>
        ensures { IfOk result (λ outcome. Did (on_declarator look.terminal) look.at self.old self.new outcome) }
    {
        match look.terminal {
            Terminal::Name => self.reads(
                look,
                &[Act::Here],
                &[
                    Symbol::Make(Act::Empty),
                    Symbol::Lengths,
                    Symbol::Make(Act::Declarator),
                ],
            ),
            _ => Ok(Outcome::Refuses),
        }
    }

    /// Any number of declarators, each behind a comma.
    pub(crate) fn on_declarators(&mut self, look: Look) -> Result<Outcome, NoMemory>
        ensures { IfOk result (λ outcome. Did (on_declarators look.terminal) look.at self.old self.new outcome) }
    {
        match look.terminal {
            Terminal::Comma => self.reads(
                look,
                &[],
                &[
                    Symbol::Declarator,
                    Symbol::Make(Act::Append),
                    Symbol::Declarators,
                ],
            ),
            _ => self.yields(look, &[]),
        }
    }

    /// Any number of lengths in brackets.
    pub(crate) fn on_lengths(&mut self, look: Look) -> Result<Outcome, NoMemory>
        ensures { IfOk result (λ outcome. Did (on_lengths look.terminal) look.at self.old self.new outcome) }
    {
        match look.terminal {
            Terminal::OpenBracket => self.reads(
                look,
                &[],
                &[
                    Symbol::Operand(27),
                    Symbol::Skip(Terminal::CloseBracket),
                    Symbol::Make(Act::Append),
                    Symbol::Lengths,
                ],
            ),
            _ => self.yields(look, &[]),
        }
    }

    /// A register, or none.
    pub(crate) fn on_register(&mut self, look: Look) -> Result<Outcome, NoMemory>
        ensures { IfOk result (λ outcome. Did (on_register look.terminal) look.at self.old self.new outcome) }
    {
        match look.terminal {
            Terminal::Colon => self.reads(
                look,
                &[],
                &[
                    Symbol::Skip(Terminal::Register),
                    Symbol::Skip(Terminal::OpenParenthesis),
                    Symbol::Name,
                    Symbol::Space,
                    Symbol::Skip(Terminal::CloseParenthesis),
                ],
            ),
            _ => self.yields(look, &[Act::Absent, Act::Absent]),
        }
    }

    /// The space of a register, or none.
    pub(crate) fn on_space(&mut self, look: Look) -> Result<Outcome, NoMemory>
        ensures { IfOk result (λ outcome. Did (on_space look.terminal) look.at self.old self.new outcome) }
    {
        match look.terminal {
            Terminal::Comma => self.reads(look, &[], &[Symbol::Name]),
            _ => self.yields(look, &[Act::Absent]),
        }
    }

    /// The result of a function.
    pub(crate) fn on_result(&mut self, look: Look) -> Result<Outcome, NoMemory>
        ensures { IfOk result (λ outcome. Did (on_result look.terminal) look.at self.old self.new outcome) }
    {
        match look.terminal {
            Terminal::Void => self.reads(look, &[Act::Here], &[Symbol::Make(Act::VoidResult)]),
            terminal if begins_type(terminal) => {
                self.lead(look, &[], &[Symbol::Make(Act::TypeResult)])?;
                self.on_type(look)
            },
            _ => Ok(Outcome::Refuses),
        }
    }

    /// An item.
    pub(crate) fn on_item(&mut self, look: Look) -> Result<Outcome, NoMemory>
        ensures { IfOk result (λ outcome. Did (on_item look.terminal) look.at self.old self.new outcome) }
    {
        match look.terminal {
            Terminal::Struct => self.reads(
                look,
                &[Act::Here],
                &[
                    Symbol::Name,
                    Symbol::Skip(Terminal::OpenBrace),
                    Symbol::Make(Act::Empty),
                    Symbol::Member,
                    Symbol::Make(Act::Append),
                    Symbol::Members,
                    Symbol::Skip(Terminal::CloseBrace),
                    Symbol::Skip(Terminal::Semicolon),
                    Symbol::Make(Act::Struct),
                    Symbol::Make(Act::Item),
                ],
            ),
            Terminal::ByteAddressBuffer | Terminal::RwByteAddressBuffer => self.reads(
                look,
                &[Act::Here],
                &[
                    Symbol::Make(Act::Absent),
                    Symbol::Make(Act::Kind),
                    Symbol::Name,
                    Symbol::Register,
                    Symbol::Skip(Terminal::Semicolon),
                    Symbol::Make(Act::Buffer),
                    Symbol::Make(Act::Item),
                ],
            ),
            Terminal::StructuredBuffer | Terminal::RwStructuredBuffer => self.reads(
                look,
                &[Act::Here],
                &[
                    Symbol::Skip(Terminal::Less),
                    Symbol::Type,
                    Symbol::Skip(Terminal::Greater),
                    Symbol::Make(Act::Kind),
                    Symbol::Name,
                    Symbol::Register,
                    Symbol::Skip(Terminal::Semicolon),
                    Symbol::Make(Act::Buffer),
                    Symbol::Make(Act::Item),
                ],
            ),
            Terminal::Groupshared => self.reads(
                look,
                &[Act::Here],
                &[
                    Symbol::Type,
                    Symbol::Make(Act::Empty),
                    Symbol::Declarator,
                    Symbol::Make(Act::Append),
                    Symbol::Declarators,
                    Symbol::Skip(Terminal::Semicolon),
                    Symbol::Make(Act::Shared),
                    Symbol::Make(Act::Item),
                ],
            ),
            Terminal::Static => self.reads(
                look,
                &[Act::Here],
                &[
                    Symbol::Skip(Terminal::Const),
                    Symbol::Type,
                    Symbol::Declarator,
                    Symbol::Skip(Terminal::Equals),
                    Symbol::Init,
                    Symbol::Skip(Terminal::Semicolon),
                    Symbol::Make(Act::Constant),
                    Symbol::Make(Act::Item),
                ],
            ),
            Terminal::OpenBracket => self.reads(
                look,
                &[Act::Empty, Act::Here],
                &[
                    Symbol::Name,
                    Symbol::AttributeArguments,
                    Symbol::Skip(Terminal::CloseBracket),
                    Symbol::Make(Act::Attribute),
                    Symbol::Make(Act::Append),
                    Symbol::Attributes,
                    Symbol::Result,
                    Symbol::Name,
                    Symbol::Skip(Terminal::OpenParenthesis),
                    Symbol::Make(Act::Empty),
                    Symbol::Params,
                    Symbol::Block,
                    Symbol::Make(Act::Function),
                    Symbol::Make(Act::Item),
                ],
            ),
            terminal if begins_result(terminal) => {
                self.lead(
                    look,
                    &[Act::Empty],
                    &[
                        Symbol::Name,
                        Symbol::Skip(Terminal::OpenParenthesis),
                        Symbol::Make(Act::Empty),
                        Symbol::Params,
                        Symbol::Block,
                        Symbol::Make(Act::Function),
                        Symbol::Make(Act::Item),
                    ],
                )?;
                self.on_result(look)
            },
            _ => Ok(Outcome::Refuses),
        }
    }

    /// Any number of items.
    pub(crate) fn on_items(&mut self, look: Look) -> Result<Outcome, NoMemory>
        ensures { IfOk result (λ outcome. Did (on_items look.terminal) look.at self.old self.new outcome) }
    {
        match look.terminal {
            terminal if begins_item(terminal) => {
                self.lead(look, &[], &[Symbol::Make(Act::Append), Symbol::Items])?;
                self.on_item(look)
            },
            _ => self.yields(look, &[]),
        }
    }

    /// An initialiser.
    pub(crate) fn on_init(&mut self, look: Look) -> Result<Outcome, NoMemory>
        ensures { IfOk result (λ outcome. Did (on_init look.terminal look.next) look.at self.old self.new outcome) }
    {
        match look.terminal {
            Terminal::OpenBrace => self.reads(
                look,
                &[Act::Here],
                &[
                    Symbol::Make(Act::Empty),
                    Symbol::Init,
                    Symbol::Make(Act::Append),
                    Symbol::Inits,
                    Symbol::Make(Act::Braces),
                ],
            ),
            terminal if begins_expression(terminal) => {
                self.lead(look, &[], &[Symbol::Make(Act::Value)])?;
                self.on_operand(look, 27)
            },
            _ => Ok(Outcome::Refuses),
        }
    }

    /// The rest of an initialiser in braces.
    pub(crate) fn on_inits(&mut self, look: Look) -> Result<Outcome, NoMemory>
        ensures { IfOk result (λ outcome. Did (on_inits look.terminal look.next) look.at self.old self.new outcome) }
    {
        match look.terminal {
            Terminal::CloseBrace => self.reads(look, &[], &[]),
            Terminal::Comma if begins_init(look.next) => self.reads(
                look,
                &[],
                &[Symbol::Init, Symbol::Make(Act::Append), Symbol::Inits],
            ),
            Terminal::Comma => self.reads(look, &[], &[Symbol::Skip(Terminal::CloseBrace)]),
            _ => Ok(Outcome::Refuses),
        }
    }

    /// A parameter.
    pub(crate) fn on_param(&mut self, look: Look) -> Result<Outcome, NoMemory>
        ensures { IfOk result (λ outcome. Did (on_param look.terminal) look.at self.old self.new outcome) }
    {
        match look.terminal {
            Terminal::Const => self.reads(
                look,
                &[Act::Here],
                &[
                    Symbol::Direction,
                    Symbol::Type,
                    Symbol::Declarator,
                    Symbol::Semantic,
                    Symbol::Make(Act::Param),
                ],
            ),
            terminal if is_direction(terminal) => self.reads(
                look,
                &[Act::Absent, Act::Here],
                &[
                    Symbol::Make(Act::Direction),
                    Symbol::Type,
                    Symbol::Declarator,
                    Symbol::Semantic,
                    Symbol::Make(Act::Param),
                ],
            ),
            terminal if begins_type(terminal) => {
                self.lead(
                    look,
                    &[Act::Absent, Act::Absent],
                    &[
                        Symbol::Declarator,
                        Symbol::Semantic,
                        Symbol::Make(Act::Param),
                    ],
                )?;
                self.on_type(look)
            },
            _ => Ok(Outcome::Refuses),
        }
    }

    /// The parameters of a function.
    pub(crate) fn on_params(&mut self, look: Look) -> Result<Outcome, NoMemory>
        ensures { IfOk result (λ outcome. Did (on_params look.terminal) look.at self.old self.new outcome) }
    {
        match look.terminal {
            Terminal::CloseParenthesis => self.reads(look, &[], &[]),
            terminal if begins_param(terminal) => {
                self.lead(
                    look,
                    &[],
                    &[
                        Symbol::Make(Act::Append),
                        Symbol::MoreParams,
                        Symbol::Skip(Terminal::CloseParenthesis),
                    ],
                )?;
                self.on_param(look)
            },
            _ => Ok(Outcome::Refuses),
        }
    }

    /// Any number of parameters, each behind a comma.
    pub(crate) fn on_more_params(&mut self, look: Look) -> Result<Outcome, NoMemory>
        ensures { IfOk result (λ outcome. Did (on_more_params look.terminal) look.at self.old self.new outcome) }
    {
        match look.terminal {
            Terminal::Comma => self.reads(
                look,
                &[],
                &[Symbol::Param, Symbol::Make(Act::Append), Symbol::MoreParams],
            ),
            _ => self.yields(look, &[]),
        }
    }

    /// A direction, or none.
    pub(crate) fn on_direction(&mut self, look: Look) -> Result<Outcome, NoMemory>
        ensures { IfOk result (λ outcome. Did (on_direction look.terminal) look.at self.old self.new outcome) }
    {
        match look.terminal {
            terminal if is_direction(terminal) => self.reads(
                look,
                &[Act::Here],
                &[Symbol::Make(Act::Direction)],
            ),
            _ => self.yields(look, &[Act::Absent]),
        }
    }

    /// A semantic, or none.
    pub(crate) fn on_semantic(&mut self, look: Look) -> Result<Outcome, NoMemory>
        ensures { IfOk result (λ outcome. Did (on_semantic look.terminal) look.at self.old self.new outcome) }
    {
        match look.terminal {
            Terminal::Colon => self.reads(look, &[], &[Symbol::Name]),
            _ => self.yields(look, &[Act::Absent]),
        }
    }

    /// The arguments of an attribute, or none.
    pub(crate) fn on_attribute_arguments(&mut self, look: Look) -> Result<Outcome, NoMemory>
        ensures { IfOk result (λ outcome. Did (on_attribute_arguments look.terminal) look.at self.old self.new outcome) }
    {
        match look.terminal {
            Terminal::OpenParenthesis => self.reads(
                look,
                &[Act::Empty],
                &[
                    Symbol::Operand(27),
                    Symbol::Make(Act::Append),
                    Symbol::Expressions,
                    Symbol::Skip(Terminal::CloseParenthesis),
                ],
            ),
            _ => self.yields(look, &[Act::Empty]),
        }
    }

    /// Any number of attributes.
    pub(crate) fn on_attributes(&mut self, look: Look) -> Result<Outcome, NoMemory>
        ensures { IfOk result (λ outcome. Did (on_attributes look.terminal) look.at self.old self.new outcome) }
    {
        match look.terminal {
            Terminal::OpenBracket => self.reads(
                look,
                &[Act::Here],
                &[
                    Symbol::Name,
                    Symbol::AttributeArguments,
                    Symbol::Skip(Terminal::CloseBracket),
                    Symbol::Make(Act::Attribute),
                    Symbol::Make(Act::Append),
                    Symbol::Attributes,
                ],
            ),
            _ => self.yields(look, &[]),
        }
    }
}
