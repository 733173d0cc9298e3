//! Which statements always return (HLSL, "Return Statement").

ghost use Rattle.std.specs.Prelude.{◌≡◌};
ghost use Rattle.hl_parser.specs.Views.{plain_maybe, plain_of, plain_trees};
ghost use Rattle.hl_rules.specs.DeclarationRules as rules;
ghost use Rattle.hl_values.specs.ScopeViews.{scope_of};

use hl_lexer::Terminal;
use hl_parser::{Tree, Trees};
use hl_values::Scope;
use sqlite_items::Boxed;

/// Whether a word is `return`.
fn is_return_word(word: Terminal) -> bool
    ensures { result ≡ rules.is_return_word word }
{
    match word {
        Terminal::Return => true,
        _ => false,
    }
}

/// Whether a statement always returns.
#[cycle(returning)]
pub(crate) fn always_returns(scope: &Scope, tree: &Tree) -> bool
    ensures { result ≡ rules.always_returns (scope_of scope.now).tokens (plain_of tree.now) }
{
    match tree {
        Tree::Stmt { part, .. } => returns_if(scope, part),
        Tree::Block { statements, .. } => one_returns(scope, statements),
        Tree::If {
            consequent,
            alternative,
            ..
        } => {
            let first = always_returns(scope, consequent.get());
            let second = returns_if(scope, alternative);
            first && second
        }
        Tree::Jump { at, .. } => is_return_word(scope.terminal_at(*at)),
        _ => false,
    }
}

/// Whether a statement that may be there always returns.
#[cycle(returning)]
fn returns_if(scope: &Scope, part: &Option<Boxed<Tree>>) -> bool
    ensures { result ≡ rules.returns_if (scope_of scope.now).tokens (plain_maybe part.now) }
{
    match part {
        Some(part) => always_returns(scope, part.get()),
        None => false,
    }
}

/// Whether one of several statements always returns.
#[cycle(returning)]
fn one_returns(scope: &Scope, trees: &Trees) -> bool
    ensures { result ≡ rules.one_returns (scope_of scope.now).tokens (plain_trees trees.now) }
{
    for tree in trees.as_slice() {
        if always_returns(scope, tree) {
            return true;
        }
    }
    false
}
