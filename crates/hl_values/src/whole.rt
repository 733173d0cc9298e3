//! Whole expressions, of what is known of their operands: what is known of them, and the typing rules that they break.

ghost use Rattle.std.specs.Prelude.{◌≡◌, IfOk, None, OnOk, Option};
ghost use Rattle.hl_parser.specs.Trees.{a_binary, a_choice, a_postfix, a_primary, a_unary, absent, an_expr, at_of, present};
ghost use Rattle.hl_parser.specs.Views.{plain_maybe, plain_of};
ghost use Rattle.hl_rules.specs.declared.found.Broken.{Broken as BrokenRule};
ghost use Rattle.hl_rules.specs.Rules.{noted};
ghost use Rattle.hl_rules.specs.Sites.{expression_sites, word_sites};
ghost use Rattle.hl_rules.specs.Source as source;
ghost use Rattle.hl_rules.specs.Values.{value_of};
ghost use Rattle.hl_values.specs.Basics.{production_of};
ghost use Rattle.hl_values.specs.Noted.{noted_operand, noted_side};
ghost use Rattle.hl_values.specs.ScopeViews.{scope_of};
ghost use Rattle.hl_values.specs.TypedViews.{IsTyped};

use crate::noting::{
    note_assigned, note_cast, note_operand, note_prefix, note_side, note_use, note_variable,
    note_written,
};
use crate::operators::Operator;
use crate::parts::{assignment, binary, cast, choice, prefix, step};
use crate::scope::Scope;
use crate::typed::Typed;
use crate::word::word;
use base_core::NoMemory;
use hl_lexer::Terminal;
use hl_parser::Tree;
use hl_rules::Broken;
use sqlite_items::Boxed;
use std::alloc::Global;

/// Notes a token alone, which breaks rules where it is a name and no variable.
fn note_word(scope: &Scope, at: usize, found: &mut Option<Broken>)
    ensures { found.new ≡ noted found.old (word_sites (scope_of scope.now) (source.terminal_at (scope_of scope.now).tokens at) at) }
{
    match scope.terminal_at(at) {
        Terminal::Name => note_variable(scope, at, found),
        _ => {}
    }
}

/// A token alone: a number, a truth value or a name.
///
/// # Errors
/// `NoMemory` where memory is refused, as in each function below.
pub fn whole_word(
    scope: &Scope,
    at: usize,
    found: &mut Option<Broken>,
    alloc: Global,
) -> Result<Typed, NoMemory>
    ensures typed { IfOk result (λ t. IsTyped (scope_of scope.now) (a_primary at absent absent) t) }
    ensures found { OnOk result (found.new ≡ noted found.old (expression_sites (scope_of scope.now) (a_primary at absent absent))) }
{
    note_word(scope, at, found);
    word(scope, at, alloc)
}

/// An operator between two operands, behind the sites of both and what its left one breaks.
pub fn whole_binary(
    scope: &Scope,
    operator: Operator,
    at: usize,
    mark: usize,
    left: &Tree,
    right: &Tree,
    first: Typed,
    second: Typed,
    found: &mut Option<Broken>,
    alloc: Global,
) -> Result<Typed, NoMemory>
    requires first { IsTyped (scope_of scope.now) (plain_of left.now) first }
    requires second { IsTyped (scope_of scope.now) (plain_of right.now) second }
    ensures typed { IfOk result (λ t. IsTyped (scope_of scope.now) (a_binary (production_of operator) at (plain_of left.now) mark (plain_of right.now)) t) }
    ensures found { OnOk result ((f : Option BrokenRule) → found.old ≡ noted (noted_operand (noted f (expression_sites (scope_of scope.now) (plain_of left.now))) (value_of (scope_of scope.now) (plain_of left.now)) (at_of (plain_of left.now))) (expression_sites (scope_of scope.now) (plain_of right.now)) → found.new ≡ noted f (expression_sites (scope_of scope.now) (a_binary (production_of operator) at (plain_of left.now) mark (plain_of right.now)))) }
{
    note_operand(&second, right.at(), found);
    binary(scope, operator, at, mark, first, second, alloc)
}

/// `?:`, behind the sites of the three operands and what the condition and the first branch break.
pub fn whole_choice(
    scope: &Scope,
    at: usize,
    condition: &Tree,
    consequent: &Tree,
    alternative: &Tree,
    first: Typed,
    second: Typed,
    third: Typed,
    found: &mut Option<Broken>,
    alloc: Global,
) -> Result<Typed, NoMemory>
    requires first { IsTyped (scope_of scope.now) (plain_of condition.now) first }
    requires second { IsTyped (scope_of scope.now) (plain_of consequent.now) second }
    requires third { IsTyped (scope_of scope.now) (plain_of alternative.now) third }
    ensures typed { IfOk result (λ t. IsTyped (scope_of scope.now) (a_choice at (plain_of condition.now) (plain_of consequent.now) (plain_of alternative.now)) t) }
    ensures found { OnOk result ((f : Option BrokenRule) → found.old ≡ noted (noted_operand (noted (noted_operand (noted f (expression_sites (scope_of scope.now) (plain_of condition.now))) (value_of (scope_of scope.now) (plain_of condition.now)) (at_of (plain_of condition.now))) (expression_sites (scope_of scope.now) (plain_of consequent.now))) (value_of (scope_of scope.now) (plain_of consequent.now)) (at_of (plain_of consequent.now))) (expression_sites (scope_of scope.now) (plain_of alternative.now)) → found.new ≡ noted f (expression_sites (scope_of scope.now) (a_choice at (plain_of condition.now) (plain_of consequent.now) (plain_of alternative.now)))) }
{
    note_operand(&third, alternative.at(), found);
    choice(at, first, second, third, alloc)
}

/// A cast, or an operator before an operand, behind the sites of the operand.
pub fn whole_unary(
    scope: &Scope,
    at: usize,
    basic: &Option<Boxed<Tree>>,
    operand: &Tree,
    value: Typed,
    found: &mut Option<Broken>,
    alloc: Global,
) -> Result<Typed, NoMemory>
    requires { IsTyped (scope_of scope.now) (plain_of operand.now) value }
    ensures typed { IfOk result (λ t. IsTyped (scope_of scope.now) (a_unary at (plain_maybe basic.now) (plain_of operand.now)) t) }
    ensures found { OnOk result ((f : Option BrokenRule) → found.old ≡ noted f (expression_sites (scope_of scope.now) (plain_of operand.now)) → found.new ≡ noted f (expression_sites (scope_of scope.now) (a_unary at (plain_maybe basic.now) (plain_of operand.now)))) }
{
    match basic {
        Some(basic) => {
            let ty = scope.basic_type(basic.get());
            note_use(&value, operand.at(), found);
            note_cast(&value, &ty, at, found);
            cast(ty, value, alloc)
        }
        None => {
            note_prefix(scope.terminal_at(at), &value, operand.at(), found);
            prefix(scope, at, value, alloc)
        }
    }
}

/// `++` or `--` behind an operand, behind the sites of the operand.
pub fn whole_step(
    scope: &Scope,
    at: usize,
    mark: usize,
    operand: &Tree,
    value: Typed,
    found: &mut Option<Broken>,
    alloc: Global,
) -> Result<Typed, NoMemory>
    requires { IsTyped (scope_of scope.now) (plain_of operand.now) value }
    ensures typed { IfOk result (λ t. IsTyped (scope_of scope.now) (a_postfix at (plain_of operand.now) mark None absent) t) }
    ensures found { OnOk result ((f : Option BrokenRule) → found.old ≡ noted f (expression_sites (scope_of scope.now) (plain_of operand.now)) → found.new ≡ noted f (expression_sites (scope_of scope.now) (a_postfix at (plain_of operand.now) mark None absent))) }
{
    note_operand(&value, operand.at(), found);
    note_written(&value, operand.at(), found);
    step(scope, at, mark, value, alloc)
}

/// An assignment, behind the sites of both sides and what the left one breaks.
pub fn whole_assignment(
    scope: &Scope,
    at: usize,
    mark: usize,
    left: &Tree,
    right: &Tree,
    first: Typed,
    second: Typed,
    found: &mut Option<Broken>,
    alloc: Global,
) -> Result<Typed, NoMemory>
    requires first { IsTyped (scope_of scope.now) (plain_of left.now) first }
    requires second { IsTyped (scope_of scope.now) (plain_of right.now) second }
    ensures typed { IfOk result (λ t. IsTyped (scope_of scope.now) (an_expr at (plain_of left.now) mark (plain_of right.now)) t) }
    ensures found { OnOk result ((f : Option BrokenRule) → found.old ≡ noted (noted_side (noted f (expression_sites (scope_of scope.now) (plain_of left.now))) (source.terminal_at (scope_of scope.now).tokens mark) (value_of (scope_of scope.now) (plain_of left.now)) (at_of (plain_of left.now))) (expression_sites (scope_of scope.now) (plain_of right.now)) → found.new ≡ noted f (expression_sites (scope_of scope.now) (an_expr at (plain_of left.now) mark (plain_of right.now)))) }
{
    let terminal = scope.terminal_at(mark);
    note_side(terminal, &second, right.at(), found);
    note_assigned(terminal, &first, &second, left.at(), right.at(), found);
    assignment(scope, at, mark, first, second, alloc)
}
