//! Classes of tokens.

ghost use Rattle.std.specs.Prelude.{◌≡◌, ◌≤◌, ◌||◌};
ghost use Rattle.hl_parser.specs.Codes.{is};
ghost use Rattle.hl_parser.specs.Grammar.{is_assign, is_basic, is_direction, is_jump, is_prefix, is_word, operator_of};
ghost use Rattle.hl_parser.specs.Machine.{begins_expression, begins_init, begins_item, begins_local, begins_param, begins_statement, begins_type, is_control, is_statement_mark, joins_to, level_of};
ghost use Rattle.hl_lexer.specs.declared.terminal.Terminal.TheVariants.{Void};

use hl_lexer::Terminal;

/// Whether a token is the word of a basic type.
pub(crate) fn is_basic(terminal: Terminal) -> bool
    ensures { result ≡ is_basic terminal }
{
    matches!(
        terminal,
        Terminal::Bool
            | Terminal::Int
            | Terminal::Uint
            | Terminal::Bool2
            | Terminal::Bool3
            | Terminal::Bool4
            | Terminal::Int2
            | Terminal::Int3
            | Terminal::Int4
            | Terminal::Uint2
            | Terminal::Uint3
            | Terminal::Uint4
    )
}

/// Whether a token alone is an expression.
pub(crate) fn is_word(terminal: Terminal) -> bool
    ensures { result ≡ is_word terminal }
{
    matches!(
        terminal,
        Terminal::Number | Terminal::True | Terminal::False | Terminal::Name
    )
}

/// Whether a token is a mark in front of an operand.
pub(crate) fn is_prefix(terminal: Terminal) -> bool
    ensures { result ≡ is_prefix terminal }
{
    matches!(
        terminal,
        Terminal::Plus
            | Terminal::Minus
            | Terminal::Exclamation
            | Terminal::Tilde
            | Terminal::PlusPlus
            | Terminal::MinusMinus
    )
}

/// Whether a token is a direction.
pub(crate) fn is_direction(terminal: Terminal) -> bool
    ensures { result ≡ is_direction terminal }
{
    matches!(terminal, Terminal::In | Terminal::Out | Terminal::Inout)
}

/// Whether a token is a mark of an assignment.
pub(crate) fn is_assign(terminal: Terminal) -> bool
    ensures { result ≡ is_assign terminal }
{
    matches!(
        terminal,
        Terminal::Equals
            | Terminal::PlusEquals
            | Terminal::MinusEquals
            | Terminal::StarEquals
            | Terminal::SlashEquals
            | Terminal::PercentEquals
            | Terminal::AmpersandEquals
            | Terminal::BarEquals
            | Terminal::CaretEquals
            | Terminal::LessLessEquals
            | Terminal::GreaterGreaterEquals
    )
}

/// Whether a type begins with a token.
pub(crate) fn begins_type(terminal: Terminal) -> bool
    ensures { result ≡ begins_type terminal }
{
    matches!(
        terminal,
        Terminal::Bool
            | Terminal::Int
            | Terminal::Uint
            | Terminal::Bool2
            | Terminal::Bool3
            | Terminal::Bool4
            | Terminal::Int2
            | Terminal::Int3
            | Terminal::Int4
            | Terminal::Uint2
            | Terminal::Uint3
            | Terminal::Uint4
            | Terminal::Name
    )
}

/// Whether the result of a function begins with a token.
pub(crate) fn begins_result(terminal: Terminal) -> bool
    ensures { result ≡ (begins_type terminal || is terminal Void) }
{
    matches!(
        terminal,
        Terminal::Bool
            | Terminal::Int
            | Terminal::Uint
            | Terminal::Bool2
            | Terminal::Bool3
            | Terminal::Bool4
            | Terminal::Int2
            | Terminal::Int3
            | Terminal::Int4
            | Terminal::Uint2
            | Terminal::Uint3
            | Terminal::Uint4
            | Terminal::Name
            | Terminal::Void
    )
}

/// Whether an expression begins with a token.
pub(crate) fn begins_expression(terminal: Terminal) -> bool
    ensures { result ≡ begins_expression terminal }
{
    matches!(
        terminal,
        Terminal::Number
            | Terminal::True
            | Terminal::False
            | Terminal::Name
            | Terminal::Bool
            | Terminal::Int
            | Terminal::Uint
            | Terminal::Bool2
            | Terminal::Bool3
            | Terminal::Bool4
            | Terminal::Int2
            | Terminal::Int3
            | Terminal::Int4
            | Terminal::Uint2
            | Terminal::Uint3
            | Terminal::Uint4
            | Terminal::Plus
            | Terminal::Minus
            | Terminal::Exclamation
            | Terminal::Tilde
            | Terminal::PlusPlus
            | Terminal::MinusMinus
            | Terminal::OpenParenthesis
    )
}

/// Whether an initialiser begins with a token.
pub(crate) fn begins_init(terminal: Terminal) -> bool
    ensures { result ≡ begins_init terminal }
{
    matches!(
        terminal,
        Terminal::Number
            | Terminal::True
            | Terminal::False
            | Terminal::Name
            | Terminal::Bool
            | Terminal::Int
            | Terminal::Uint
            | Terminal::Bool2
            | Terminal::Bool3
            | Terminal::Bool4
            | Terminal::Int2
            | Terminal::Int3
            | Terminal::Int4
            | Terminal::Uint2
            | Terminal::Uint3
            | Terminal::Uint4
            | Terminal::Plus
            | Terminal::Minus
            | Terminal::Exclamation
            | Terminal::Tilde
            | Terminal::PlusPlus
            | Terminal::MinusMinus
            | Terminal::OpenParenthesis
            | Terminal::OpenBrace
    )
}

/// Whether a parameter begins with a token.
pub(crate) fn begins_param(terminal: Terminal) -> bool
    ensures { result ≡ begins_param terminal }
{
    matches!(
        terminal,
        Terminal::Bool
            | Terminal::Int
            | Terminal::Uint
            | Terminal::Bool2
            | Terminal::Bool3
            | Terminal::Bool4
            | Terminal::Int2
            | Terminal::Int3
            | Terminal::Int4
            | Terminal::Uint2
            | Terminal::Uint3
            | Terminal::Uint4
            | Terminal::Name
            | Terminal::In
            | Terminal::Out
            | Terminal::Inout
            | Terminal::Const
    )
}

/// Whether an item begins with a token.
pub(crate) fn begins_item(terminal: Terminal) -> bool
    ensures { result ≡ begins_item terminal }
{
    matches!(
        terminal,
        Terminal::Bool
            | Terminal::Int
            | Terminal::Uint
            | Terminal::Bool2
            | Terminal::Bool3
            | Terminal::Bool4
            | Terminal::Int2
            | Terminal::Int3
            | Terminal::Int4
            | Terminal::Uint2
            | Terminal::Uint3
            | Terminal::Uint4
            | Terminal::Name
            | Terminal::ByteAddressBuffer
            | Terminal::RwByteAddressBuffer
            | Terminal::StructuredBuffer
            | Terminal::RwStructuredBuffer
            | Terminal::Struct
            | Terminal::Groupshared
            | Terminal::Static
            | Terminal::Void
            | Terminal::OpenBracket
    )
}

/// Whether a statement begins with a token.
pub(crate) fn begins_statement(terminal: Terminal) -> bool
    ensures { result ≡ begins_statement terminal }
{
    begins_expression(terminal) || is_statement_word(terminal)
}

/// Whether a statement that is no expression begins with a token.
fn is_statement_word(terminal: Terminal) -> bool
    ensures { result ≡ (is_control terminal || (is_jump terminal || is_statement_mark terminal)) }
{
    matches!(
        terminal,
        Terminal::If
            | Terminal::For
            | Terminal::While
            | Terminal::Do
            | Terminal::Break
            | Terminal::Continue
            | Terminal::Return
            | Terminal::OpenBrace
            | Terminal::Semicolon
            | Terminal::OpenBracket
            | Terminal::Const
    )
}

/// Whether a local begins with a token that is followed by another.
pub(crate) fn begins_local(terminal: Terminal, next: Terminal) -> bool
    ensures { result ≡ begins_local terminal next }
{
    match terminal {
        Terminal::Const => true,
        Terminal::Name => next == Terminal::Name,
        terminal if is_basic(terminal) => next != Terminal::OpenParenthesis,
        _ => false,
    }
}

/// The production of an operator that repeats, or 0.
pub(crate) fn operator_of(terminal: Terminal) -> u8
    ensures value { result ≡ operator_of terminal }
    ensures limit { result ≤ 39 }
{
    match terminal {
        Terminal::BarBar => 30,
        Terminal::AmpersandAmpersand => 31,
        Terminal::Bar => 32,
        Terminal::Caret => 33,
        Terminal::Ampersand => 34,
        Terminal::EqualsEquals | Terminal::ExclamationEquals => 35,
        Terminal::Less | Terminal::Greater | Terminal::LessEquals | Terminal::GreaterEquals => 36,
        Terminal::LessLess | Terminal::GreaterGreater => 37,
        Terminal::Plus | Terminal::Minus => 38,
        Terminal::Star | Terminal::Slash | Terminal::Percent => 39,
        _ => 0,
    }
}

/// The level of an operator behind an operand, by the number of its production, or 0.
pub(crate) fn level_of(terminal: Terminal) -> u8
    ensures { result ≡ level_of terminal }
{
    match terminal {
        Terminal::Question => 29,
        Terminal::Dot | Terminal::OpenBracket | Terminal::PlusPlus | Terminal::MinusMinus => 41,
        terminal if is_assign(terminal) => 27,
        terminal => operator_of(terminal),
    }
}

/// The greatest level of an operator that an expression of a production may stand to the left of.
pub(crate) fn joins_to(production: u8) -> u8
    ensures { result ≡ joins_to production }
{
    match production {
        0..=28 => 0,
        29 => 28,
        production => production,
    }
}
