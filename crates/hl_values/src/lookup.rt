//! What tokens say, and what names stand for at a place.
#![tactic(auto, using(crate::proofs::ScopeLemmas::lexeme_at), unfolding(crate::specs::ScopeViews::scope_of))]

ghost use Rattle.std.specs.Prelude.{◌≡◌, Option, option_map, is_some};
ghost use Rattle.std.specs.Option.{option_copied, option_or};
ghost use Rattle.hl_rules.specs.Scopes as scopes;
ghost use Rattle.hl_rules.specs.Source as source;
ghost use Rattle.hl_values.specs.ScopeViews.{plain_blocks, plain_sort_if, scope_of};

use crate::scope::{Names, Scope, Sort};
use hl_lexer::{Terminal, TokenKind};

/// The number that a token is, and 0 for any other token.
fn number_of(kind: TokenKind) -> u32
    ensures { result ≡ source.number_of kind }
{
    match kind {
        TokenKind::Number { value, .. } => value,
        _ => 0,
    }
}

/// Whether a token is a number without a sign by its suffix.
fn is_unsigned(kind: TokenKind) -> bool
    ensures { result ≡ source.is_unsigned kind }
{
    match kind {
        TokenKind::Number { unsigned, .. } => unsigned,
        _ => false,
    }
}

/// The number of a mark, and 0 for any other token.
fn mark_of(kind: TokenKind) -> u8
    ensures { result ≡ source.mark_of kind }
{
    match kind {
        TokenKind::Mark(number) => number,
        _ => 0,
    }
}

/// What a name stands for in the innermost of the blocks that declare it.
fn in_blocks<'s>(blocks: &'s [Names], name: &[u8]) -> Option<&'s Sort>
    ensures { (other : Option scopes.Sort) → scopes.declared_among (plain_blocks blocks.now) name.now other ≡ option_or (plain_sort_if (option_copied result)) other }
{
    for at in (0..blocks.len()).rev() {
        if let Some(sort) = blocks[at].get(name) {
            return Some(sort);
        }
    }
    None
}

impl<'a> Scope<'a> {
    /// The bytes of a token, and none where no token has the index.
    pub fn text_at(&self, index: usize) -> &'a [u8]
        ensures { result.now ≡ scopes.spelled (scope_of self.now) index }
    {
        match self.tokens.get(index) {
            Some(token) => token.text,
            None => &[],
        }
    }

    /// What a token is for the grammar, and `Unlisted` where no token has the index.
    pub fn terminal_at(&self, index: usize) -> Terminal
        ensures { result ≡ source.terminal_at (scope_of self.now).tokens index }
    {
        match self.tokens.get(index) {
            Some(token) => token.kind.terminal(),
            None => Terminal::Unlisted,
        }
    }

    /// The number that a token is, and 0 for any other token.
    pub fn number_at(&self, index: usize) -> u32
        ensures { result ≡ source.number_at (scope_of self.now).tokens index }
    {
        match self.tokens.get(index) {
            Some(token) => number_of(token.kind),
            None => 0,
        }
    }

    /// Whether a token is a number without a sign by its suffix.
    pub fn is_unsigned_at(&self, index: usize) -> bool
        ensures { result ≡ source.is_unsigned_at (scope_of self.now).tokens index }
    {
        match self.tokens.get(index) {
            Some(token) => is_unsigned(token.kind),
            None => false,
        }
    }

    /// The number of a mark, and 0 for any other token.
    pub fn mark_at(&self, index: usize) -> u8
        ensures { result ≡ source.mark_at (scope_of self.now).tokens index }
    {
        match self.tokens.get(index) {
            Some(token) => mark_of(token.kind),
            None => 0,
        }
    }

    /// What a name stands for, if it is declared.
    pub fn sort_of(&self, name: &[u8]) -> Option<&Sort>
        ensures { plain_sort_if (option_copied result) ≡ scopes.sort_of (scope_of self.now) name.now }
    {
        match in_blocks(self.blocks.as_slice(), name) {
            Some(sort) => Some(sort),
            None => self.globals.get(name),
        }
    }

    /// What a token, a name, stands for, if it is declared.
    pub fn sort_at(&self, index: usize) -> Option<&Sort>
        ensures { plain_sort_if (option_copied result) ≡ scopes.sort_at (scope_of self.now) index }
    {
        self.sort_of(self.text_at(index))
    }

    /// Whether a function of this name is declared so far.
    pub fn is_function(&self, name: &[u8]) -> bool
        ensures { result ≡ scopes.is_function (scope_of self.now) name.now }
    {
        self.functions.position(name).is_some()
    }
}
