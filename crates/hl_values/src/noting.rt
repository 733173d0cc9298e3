//! The typing rules that parts of expressions break, by what is known of them.

ghost use Rattle.std.specs.Prelude.{◌≡◌, ◌&&◌, Bool, None, Option, Some, not, option_map, slice_get};
ghost use Rattle.std.specs.Option.{is_none, option_copied};
ghost use Rattle.hl_meaning.specs.Types.{is_scalar};
ghost use Rattle.hl_meaning.specs.Views.{plain_ty};
ghost use Rattle.hl_meaning.specs.Conversions.{converts};
ghost use Rattle.hl_rules.specs.DeclarationRules.{is_other_sort, is_variable_sort};
ghost use Rattle.hl_rules.specs.ExpressionRules.{is_no_conversion};
ghost use Rattle.hl_rules.specs.Values.{is_known, is_nothing, valued};
ghost use Rattle.hl_values.specs.Noted.{noted_assigned, noted_cast, noted_conversion, noted_operand, noted_prefix, noted_side, noted_use, noted_variable, noted_written};
ghost use Rattle.hl_values.specs.ScopeViews.{plain_sort_if, scope_of};
ghost use Rattle.hl_values.specs.Views.{plain_standing, plain_type_if, plain_value};

use crate::basic::is_void;
use crate::operators::{Operator, is_no_operand, valued};
use crate::parts::type_of_two;
use crate::scope::{Scope, Sort};
use crate::typed::{Standing, Typed};
use hl_lexer::Terminal;
use hl_meaning::HlType;
use hl_overload::cost;
use hl_rules::{Broken, note_if};

/// Whether something is known to give no value.
fn is_nothing(ty: &Option<HlType>) -> bool
    ensures { result ≡ is_nothing (plain_type_if ty.now) }
{
    match ty {
        Some(ty) => is_void(ty),
        None => false,
    }
}

/// Notes a value that is used where it is none.
pub fn note_use(used: &Typed, at: usize, found: &mut Option<Broken>)
    ensures { found.new ≡ noted_use found.old (plain_value used.now) at }
{
    note_if(found, is_nothing(&used.ty), at, 39);
}

/// Notes an operand of an operator, which is used, where it isn't a scalar or a vector.
pub fn note_operand(operand: &Typed, at: usize, found: &mut Option<Broken>)
    ensures { found.new ≡ noted_operand found.old (plain_value operand.now) at }
{
    note_use(operand, at, found);
    note_if(found, is_no_operand(&operand.ty), at, 32);
}

/// Notes what is written where it can't be.
pub fn note_written(written: &Typed, at: usize, found: &mut Option<Broken>)
    ensures { found.new ≡ noted_written found.old (plain_value written.now) at }
{
    note_if(found, written.standing.is_unwritable(), at, 25);
}

/// Whether a type doesn't convert to another.
fn is_no_cost(from: &HlType, to: &HlType) -> bool
    ensures { result ≡ not (converts (plain_ty from.now) (plain_ty to.now)) }
{
    cost(from, to).is_none()
}

/// Whether two types are known, and the one doesn't convert to the other.
fn is_no_conversion(from: &Option<HlType>, to: &Option<HlType>) -> bool
    ensures { result ≡ is_no_conversion (plain_type_if from.now) (plain_type_if to.now) }
{
    match valued(from) {
        Some(from) => match valued(to) {
            Some(to) => is_no_cost(from, to),
            None => false,
        },
        None => false,
    }
}

/// Notes a value that doesn't convert to the type of what it becomes.
pub fn note_conversion(
    from: &Option<HlType>,
    to: &Option<HlType>,
    at: usize,
    found: &mut Option<Broken>,
)
    ensures { found.new ≡ noted_conversion found.old (plain_type_if from.now) (plain_type_if to.now) at }
{
    note_if(found, is_no_conversion(from, to), at, 24);
}

/// Whether a type is known that doesn't convert to another.
fn is_no_cast(from: &Option<HlType>, to: &HlType) -> bool
    ensures { result ≡ is_known (λ ty. not (converts ty (plain_ty to.now))) (valued (plain_type_if from.now)) }
{
    match valued(from) {
        Some(from) => is_no_cost(from, to),
        None => false,
    }
}

/// Notes a cast that is no conversion.
pub fn note_cast(operand: &Typed, to: &HlType, at: usize, found: &mut Option<Broken>)
    ensures { found.new ≡ noted_cast found.old (plain_value operand.now) (plain_ty to.now) at }
{
    note_if(found, is_no_cast(&operand.ty, to), at, 34);
}

/// Notes the operand of an operator before it, by its mark: `++` and `--` write it.
pub fn note_prefix(mark: Terminal, operand: &Typed, at: usize, found: &mut Option<Broken>)
    ensures { found.new ≡ noted_prefix found.old mark (plain_value operand.now) at }
{
    note_operand(operand, at, found);
    match mark {
        Terminal::PlusPlus => note_written(operand, at, found),
        Terminal::MinusMinus => note_written(operand, at, found),
        _ => {}
    }
}

/// Notes a side of an assignment by its mark: those of a compound one are operands.
pub fn note_side(mark: Terminal, side: &Typed, at: usize, found: &mut Option<Broken>)
    ensures { found.new ≡ noted_side found.old mark (plain_value side.now) at }
{
    match mark {
        Terminal::Equals => note_use(side, at, found),
        _ => note_operand(side, at, found),
    }
}

/// Notes what an assignment by a mark writes and converts.
pub fn note_assigned(
    mark: Terminal,
    left: &Typed,
    right: &Typed,
    left_at: usize,
    right_at: usize,
    found: &mut Option<Broken>,
)
    ensures { found.new ≡ noted_assigned found.old mark (plain_value left.now) (plain_value right.now) left_at right_at }
{
    note_written(left, left_at, found);
    match mark {
        Terminal::Equals => note_conversion(&right.ty, &left.ty, right_at, found),
        _ => {
            let gives = type_of_two(Operator::compound(mark), &left.ty, &right.ty);
            note_conversion(&gives, &left.ty, right_at, found);
        }
    }
}

/// Whether a name is declared, and is no variable.
fn is_no_variable(sort: Option<&Sort>) -> bool
    ensures { result ≡ is_other_sort is_variable_sort (plain_sort_if (option_copied sort.entry)) }
{
    match sort {
        Some(Sort::Variable(_)) => false,
        Some(_) => true,
        None => false,
    }
}

/// Notes the name of a variable that isn't declared, or is something else.
pub fn note_variable(scope: &Scope, at: usize, found: &mut Option<Broken>)
    ensures { found.new ≡ noted_variable found.old (scope_of scope.now) at }
{
    let sort = scope.sort_at(at);
    note_if(found, sort.is_none(), at, 3);
    note_if(found, is_no_variable(sort), at, 4);
}
