//! Expressions: which names are known, what an expression becomes, and the typing rules that it breaks.
#![tactic(auto)]

mod basic;
mod calls;
mod constants;
mod declare;
mod few;
mod forms;
mod interlocked;
mod intrinsic_calls;
mod intrinsics;
mod known;
mod lookup;
mod methods;
mod name_table;
mod nodes;
mod noting;
mod operators;
mod parts;
mod passing;
mod scope;
mod standing;
mod steps;
mod structs;
mod typed;
mod whole;
mod word;
mod words;

pub use basic::{Basic, components_type, is_of, is_scalar, is_void, kind_of, with_kind};
pub use calls::{Callee, Choice, choice_of_call, function_code, function_result};
pub use forms::{
    assignment_code, binary_code, choice_code, compound_code, constructor_code, element_type,
    index_expr, indexed_code, literal, member_code, signed_code, step_code, swizzled_code,
};
pub use interlocked::is_word;
pub use intrinsic_calls::{intrinsic_code, intrinsic_type};
pub use intrinsics::{atomic_named, interlocked_form, intrinsic_named, signature_of};
pub use methods::{
    MethodCall, element_in, have_types, method_code, method_fits, method_of, method_type,
};
pub use name_table::NameTable;
pub use nodes::{converted, converted_code, converted_each, in_kind, location, node, value_node};
pub use noting::{note_conversion, note_operand, note_side, note_use};
pub use operators::{
    Operator, choice_type, common_of, common_type, is_basic, is_no_operand, is_numeric,
    negated_type, operand_of, signed_type, valued,
};
pub use parts::value;
pub use passing::{Passing, passed};
pub use scope::{
    BufferInfo, FunctionInfo, Names, ParamInfo, Scope, Sort, VariableInfo, VariableRoot,
};
pub use standing::letters_within;
pub use steps::{is_longer, letter_at, merged_letters, one_letter, with_part};
pub use structs::{MemberTable, StructInfo, Structs};
pub use typed::{Code, Standing, Typed, copied_if};
pub use whole::{
    whole_assignment, whole_binary, whole_choice, whole_step, whole_unary, whole_word,
};
pub use words::WordCount;
