//! The types that operators give (HLSL, "Operators").

ghost use Rattle.std.specs.Prelude.{◌≡◌, Some, map, option_and_then, option_map};
ghost use Rattle.std.specs.Option.{option_copied};
ghost use Rattle.hl_meaning.specs.Types.{Ty, is_basic, is_numeric};
ghost use Rattle.hl_meaning.specs.Views.{plain_ty};
ghost use Rattle.hl_rules.specs.Operands.{choice_type, common_of, common_type, negated_type, operand_type, operator_type, signed_type};
ghost use Rattle.hl_rules.specs.Sites.{compound_production};
ghost use Rattle.hl_rules.specs.Values.{is_no_operand, operand_of, valued};
ghost use Rattle.hl_values.specs.Basics.{basic_ty, production_of};
ghost use Rattle.hl_values.specs.Views.{plain_type_if};

use crate::basic::{Basic, branch_kind, common_kind, computing_kind, is_of, is_void};
use hl_lexer::Terminal;
use hl_meaning::{HlType, Kind};

/// The productions of operators between two operands.
#[derive(Clone, Copy, Debug, PartialEq, Eq)]
pub enum Operator {
    /// `||`
    Or,
    /// `&&`
    And,
    /// `|`
    Bitor,
    /// `^`
    Bitxor,
    /// `&`
    Bitand,
    /// `==` and `!=`
    Equal,
    /// `<`, `>`, `<=` and `>=`
    Less,
    /// `<<` and `>>`
    Shift,
    /// `+` and `-`
    Sum,
    /// `*`, `/` and `%`
    Product,
}

impl Operator {
    /// In what two operands are computed: truth values are joined as bools, a shift has the kind of its left operand,
    /// where a bool is an int, and the others have the common kind.
    fn operand(self, a: Basic, b: Basic) -> Basic
        ensures { option_map basic_ty (Some result) ≡ operand_type (production_of self) (basic_ty a) (basic_ty b) }
    {
        match self {
            Operator::Or | Operator::And => Basic::sized(Kind::Bool, a, b),
            Operator::Shift => Basic::sized(computing_kind(a.kind()), a, b),
            Operator::Bitor
            | Operator::Bitxor
            | Operator::Bitand
            | Operator::Equal
            | Operator::Less
            | Operator::Sum
            | Operator::Product => Basic::sized(common_kind(a.kind(), b.kind()), a, b),
        }
    }

    /// What two operands give: comparisons give bools.
    fn result(self, a: Basic, b: Basic) -> Basic
        ensures { option_map basic_ty (Some result) ≡ operator_type (production_of self) (basic_ty a) (basic_ty b) }
    {
        let operand = self.operand(a, b);
        match self {
            Operator::Equal | Operator::Less => operand.with_kind(Kind::Bool),
            Operator::Or
            | Operator::And
            | Operator::Bitor
            | Operator::Bitxor
            | Operator::Bitand
            | Operator::Shift
            | Operator::Sum
            | Operator::Product => operand,
        }
    }

    /// The type in which two operands are computed, where both are scalars or vectors.
    pub fn operand_type(self, a: &HlType, b: &HlType) -> Option<HlType>
        ensures { plain_type_if result ≡ operand_type (production_of self) (plain_ty a.now) (plain_ty b.now) }
    {
        let a = Basic::of(a);
        let b = Basic::of(b);
        Some(self.operand(a?, b?).ty())
    }

    /// The type of what two operands give, where both are scalars or vectors.
    pub fn operator_type(self, a: &HlType, b: &HlType) -> Option<HlType>
        ensures { plain_type_if result ≡ operator_type (production_of self) (plain_ty a.now) (plain_ty b.now) }
    {
        let a = Basic::of(a);
        let b = Basic::of(b);
        Some(self.result(a?, b?).ty())
    }

    /// The operator of a compound assignment, by its mark. That of any other mark joins truth values.
    pub fn compound(mark: Terminal) -> Operator
        ensures operand { (a b : Ty) → operand_type (production_of result) a b ≡ operand_type (compound_production mark) a b }
        ensures operator { (a b : Ty) → operator_type (production_of result) a b ≡ operator_type (compound_production mark) a b }
    {
        match mark {
            Terminal::PlusEquals | Terminal::MinusEquals => Operator::Sum,
            Terminal::StarEquals | Terminal::SlashEquals | Terminal::PercentEquals => {
                Operator::Product
            }
            Terminal::AmpersandEquals => Operator::Bitand,
            Terminal::BarEquals => Operator::Bitor,
            Terminal::CaretEquals => Operator::Bitxor,
            Terminal::LessLessEquals | Terminal::GreaterGreaterEquals => Operator::Shift,
            _ => Operator::Or,
        }
    }
}

/// The common type of two scalars or vectors.
pub fn common_type(a: &HlType, b: &HlType) -> Option<HlType>
    ensures { plain_type_if result ≡ common_type (plain_ty a.now) (plain_ty b.now) }
{
    Operator::Sum.operand_type(a, b)
}

/// The type of `?:` with a condition and two branches, where all are scalars or vectors: the kind of the branches, and
/// the size of all three.
pub fn choice_type(condition: &HlType, yes: &HlType, no: &HlType) -> Option<HlType>
    ensures { plain_type_if result ≡ choice_type (plain_ty condition.now) (plain_ty yes.now) (plain_ty no.now) }
{
    let condition = Basic::of(condition);
    let yes = Basic::of(yes);
    let no = Basic::of(no);
    Some(choice(condition?, yes?, no?).ty())
}

/// What `?:` gives for a condition and two branches.
fn choice(condition: Basic, yes: Basic, no: Basic) -> Basic
    ensures { option_map basic_ty (Some result) ≡ choice_type (basic_ty condition) (basic_ty yes) (basic_ty no) }
{
    let kind = branch_kind(yes.kind(), no.kind());
    Basic::sized(kind, condition, Basic::sized(Kind::Bool, yes, no))
}

/// The type of `+`, `-` and `~` before a scalar or a vector.
pub fn signed_type(ty: &HlType) -> Option<HlType>
    ensures { plain_type_if result ≡ signed_type (plain_ty ty.now) }
{
    let basic = Basic::of(ty);
    let basic = basic?;
    Some(basic.with_kind(computing_kind(basic.kind())).ty())
}

/// The type of `!` before a scalar or a vector.
pub fn negated_type(ty: &HlType) -> Option<HlType>
    ensures { plain_type_if result ≡ negated_type (plain_ty ty.now) }
{
    let basic = Basic::of(ty);
    Some(basic?.with_kind(Kind::Bool).ty())
}

/// The common type of several scalars or vectors, where a bool is an int.
pub fn common_of(types: &[HlType]) -> Option<HlType>
    ensures { plain_type_if result ≡ common_of (map plain_ty types.now) }
{
    let (first, rest) = types.split_first()?;
    let mut common = signed_type(first);
    for ty in rest {
        common = common_behind(common, ty);
    }
    common
}

/// The common type of what stands before, if there is one, and one more.
fn common_behind(before: Option<HlType>, ty: &HlType) -> Option<HlType>
    ensures { plain_type_if result ≡ option_and_then (λ x. common_type x (plain_ty ty.now)) (plain_type_if before) }
{
    let before = before?;
    common_type(&before, ty)
}

/// A type that isn't no value.
pub fn valued(ty: &Option<HlType>) -> Option<&HlType>
    ensures { plain_type_if (option_copied result) ≡ valued (plain_type_if ty.now) }
{
    match ty {
        Some(ty) => value_type(ty),
        None => None,
    }
}

/// A type, where it isn't no value.
fn value_type(ty: &HlType) -> Option<&HlType>
    ensures { plain_type_if (option_copied result) ≡ valued (Some (plain_ty ty.now)) }
{
    if is_void(ty) { None } else { Some(ty) }
}

/// The type of an operand, where it is a scalar or a vector.
pub fn operand_of(ty: &Option<HlType>) -> Option<HlType>
    ensures { plain_type_if result ≡ operand_of (plain_type_if ty.now) }
{
    match ty {
        Some(ty) => {
            let basic = Basic::of(ty);
            Some(basic?.ty())
        }
        None => None,
    }
}

/// Whether a type is known, and is a value that isn't a scalar or a vector.
pub fn is_no_operand(ty: &Option<HlType>) -> bool
    ensures { result ≡ is_no_operand (plain_type_if ty.now) }
{
    match ty {
        Some(ty) => !is_basic(ty) && !is_void(ty),
        None => false,
    }
}

/// Whether a type is a scalar or a vector.
pub fn is_basic(ty: &HlType) -> bool
    ensures { result ≡ is_basic (plain_ty ty.now) }
{
    Basic::of(ty).is_some()
}

/// Whether a type is a scalar or a vector of int or uint.
pub fn is_numeric(ty: &HlType) -> bool
    ensures { result ≡ is_numeric (plain_ty ty.now) }
{
    is_of(Kind::Int, ty) || is_of(Kind::Uint, ty)
}
