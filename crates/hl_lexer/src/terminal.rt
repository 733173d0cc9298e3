//! The sorts of tokens, as a grammar tells them apart.

ghost use Rattle.std.specs.Prelude.{◌≡◌, slice_index_or};
ghost use Rattle.hl_lexer.specs.Terminals.{mark_terminals, terminal_of, word_terminals};

use crate::token::TokenKind;

/// What a token is for the grammar: each word and each mark by itself, and names and numbers without what they name.
#[derive(Clone, Copy, Debug, PartialEq, Eq)]
pub enum Terminal {
    /// Any name.
    Name,
    /// Any number.
    Number,
    /// `void`
    Void,
    /// `bool`
    Bool,
    /// `int`
    Int,
    /// `uint`
    Uint,
    /// `bool2`
    Bool2,
    /// `bool3`
    Bool3,
    /// `bool4`
    Bool4,
    /// `int2`
    Int2,
    /// `int3`
    Int3,
    /// `int4`
    Int4,
    /// `uint2`
    Uint2,
    /// `uint3`
    Uint3,
    /// `uint4`
    Uint4,
    /// `struct`
    Struct,
    /// `static`
    Static,
    /// `const`
    Const,
    /// `groupshared`
    Groupshared,
    /// `in`
    In,
    /// `out`
    Out,
    /// `inout`
    Inout,
    /// `if`
    If,
    /// `else`
    Else,
    /// `for`
    For,
    /// `while`
    While,
    /// `do`
    Do,
    /// `break`
    Break,
    /// `continue`
    Continue,
    /// `return`
    Return,
    /// `true`
    True,
    /// `false`
    False,
    /// `register`
    Register,
    /// `ByteAddressBuffer`
    ByteAddressBuffer,
    /// `RWByteAddressBuffer`
    RwByteAddressBuffer,
    /// `StructuredBuffer`
    StructuredBuffer,
    /// `RWStructuredBuffer`
    RwStructuredBuffer,
    /// `(`
    OpenParenthesis,
    /// `)`
    CloseParenthesis,
    /// `{`
    OpenBrace,
    /// `}`
    CloseBrace,
    /// `[`
    OpenBracket,
    /// `]`
    CloseBracket,
    /// `;`
    Semicolon,
    /// `,`
    Comma,
    /// `.`
    Dot,
    /// `:`
    Colon,
    /// `?`
    Question,
    /// `=`
    Equals,
    /// `+`
    Plus,
    /// `-`
    Minus,
    /// `*`
    Star,
    /// `/`
    Slash,
    /// `%`
    Percent,
    /// `<`
    Less,
    /// `>`
    Greater,
    /// `!`
    Exclamation,
    /// `~`
    Tilde,
    /// `&`
    Ampersand,
    /// `|`
    Bar,
    /// `^`
    Caret,
    /// `&&`
    AmpersandAmpersand,
    /// `||`
    BarBar,
    /// `==`
    EqualsEquals,
    /// `!=`
    ExclamationEquals,
    /// `<=`
    LessEquals,
    /// `>=`
    GreaterEquals,
    /// `<<`
    LessLess,
    /// `>>`
    GreaterGreater,
    /// `+=`
    PlusEquals,
    /// `-=`
    MinusEquals,
    /// `*=`
    StarEquals,
    /// `/=`
    SlashEquals,
    /// `%=`
    PercentEquals,
    /// `&=`
    AmpersandEquals,
    /// `|=`
    BarEquals,
    /// `^=`
    CaretEquals,
    /// `<<=`
    LessLessEquals,
    /// `>>=`
    GreaterGreaterEquals,
    /// `++`
    PlusPlus,
    /// `--`
    MinusMinus,
    /// A word or a mark with a number that no table has. No text has such a token, so a parser takes it for what stands
    /// behind the last token.
    Unlisted,
}

impl TokenKind {
    /// What a token of this kind is for the grammar.
    pub fn terminal(self) -> Terminal
        ensures { result ≡ terminal_of self }
    {
        match self {
            TokenKind::Name => Terminal::Name,
            TokenKind::Number { .. } => Terminal::Number,
            TokenKind::Word(number) => word_terminal(number),
            TokenKind::Mark(number) => mark_terminal(number),
        }
    }
}

/// The terminal of a word.
fn word_terminal(number: u8) -> Terminal
    ensures { result ≡ slice_index_or word_terminals number Terminal.Unlisted }
{
    match number {
        0 => Terminal::Void,
        1 => Terminal::Bool,
        2 => Terminal::Int,
        3 => Terminal::Uint,
        4 => Terminal::Bool2,
        5 => Terminal::Bool3,
        6 => Terminal::Bool4,
        7 => Terminal::Int2,
        8 => Terminal::Int3,
        9 => Terminal::Int4,
        10 => Terminal::Uint2,
        11 => Terminal::Uint3,
        12 => Terminal::Uint4,
        13 => Terminal::Struct,
        14 => Terminal::Static,
        15 => Terminal::Const,
        16 => Terminal::Groupshared,
        17 => Terminal::In,
        18 => Terminal::Out,
        19 => Terminal::Inout,
        20 => Terminal::If,
        21 => Terminal::Else,
        22 => Terminal::For,
        23 => Terminal::While,
        24 => Terminal::Do,
        25 => Terminal::Break,
        26 => Terminal::Continue,
        27 => Terminal::Return,
        28 => Terminal::True,
        29 => Terminal::False,
        30 => Terminal::Register,
        31 => Terminal::ByteAddressBuffer,
        32 => Terminal::RwByteAddressBuffer,
        33 => Terminal::StructuredBuffer,
        34 => Terminal::RwStructuredBuffer,
        _ => Terminal::Unlisted,
    }
}

/// The terminal of a mark.
fn mark_terminal(number: u8) -> Terminal
    ensures { result ≡ slice_index_or mark_terminals number Terminal.Unlisted }
{
    match number {
        0 => Terminal::OpenParenthesis,
        1 => Terminal::CloseParenthesis,
        2 => Terminal::OpenBrace,
        3 => Terminal::CloseBrace,
        4 => Terminal::OpenBracket,
        5 => Terminal::CloseBracket,
        6 => Terminal::Semicolon,
        7 => Terminal::Comma,
        8 => Terminal::Dot,
        9 => Terminal::Colon,
        10 => Terminal::Question,
        11 => Terminal::Equals,
        12 => Terminal::Plus,
        13 => Terminal::Minus,
        14 => Terminal::Star,
        15 => Terminal::Slash,
        16 => Terminal::Percent,
        17 => Terminal::Less,
        18 => Terminal::Greater,
        19 => Terminal::Exclamation,
        20 => Terminal::Tilde,
        21 => Terminal::Ampersand,
        22 => Terminal::Bar,
        23 => Terminal::Caret,
        24 => Terminal::AmpersandAmpersand,
        25 => Terminal::BarBar,
        26 => Terminal::EqualsEquals,
        27 => Terminal::ExclamationEquals,
        28 => Terminal::LessEquals,
        29 => Terminal::GreaterEquals,
        30 => Terminal::LessLess,
        31 => Terminal::GreaterGreater,
        32 => Terminal::PlusEquals,
        33 => Terminal::MinusEquals,
        34 => Terminal::StarEquals,
        35 => Terminal::SlashEquals,
        36 => Terminal::PercentEquals,
        37 => Terminal::AmpersandEquals,
        38 => Terminal::BarEquals,
        39 => Terminal::CaretEquals,
        40 => Terminal::LessLessEquals,
        41 => Terminal::GreaterGreaterEquals,
        42 => Terminal::PlusPlus,
        43 => Terminal::MinusMinus,
        _ => Terminal::Unlisted,
    }
}
