//! What parameters of the entry are set to, and how parameters are passed (DirectX HLSL, "Semantics").

ghost use Rattle.std.specs.Prelude.{◌≡◌, ◌&&◌, ◌||◌, not, nat_le};
ghost use Rattle.std.specs.Str.{str_eq_ignore_ascii_case};
ghost use Rattle.hl_meaning.specs.Views.{plain_ty};
ghost use Rattle.hl_meaning.specs.declared.program.Semantic.{Semantic as SemanticSort};
ghost use Rattle.hl_meaning.specs.declared.ty.Kind.TheVariants.{Int, Uint};
ghost use Rattle.hl_meaning.specs.Types.{component_count, is_numeric, kind_eq};
ghost use Rattle.hl_parser.specs.Views.{plain_maybe};
ghost use Rattle.hl_rules.specs.Declarations as declarations;
ghost use Rattle.hl_rules.specs.DeclarationRules as rules;
ghost use Rattle.hl_types.specs.Semantics.{holds, is_input_behind};
ghost use Rattle.hl_rules.specs.Values.{is_known, is_word};
ghost use Rattle.hl_values.specs.ScopeViews.{scope_of};
ghost use Rattle.hl_values.specs.Views.{plain_type_if};

use hl_lexer::Terminal;
use hl_meaning::{Copying, HlType, Kind, Semantic};
use hl_parser::Tree;
use hl_values::Scope;
use sqlite_items::Boxed;

/// Whether a name is a word, letters of either case alike.
fn is_spelled(name: &[u8], word: &[u8]) -> bool
    ensures { result ≡ str_eq_ignore_ascii_case name.now word.now }
{
    name.eq_ignore_ascii_case(word)
}

/// The semantic of a name, letters of either case alike.
fn semantic_named(name: &[u8]) -> Option<Semantic>
    ensures { result ≡ rules.semantic_named name.now }
{
    if is_spelled(name, b"SV_DispatchThreadID") {
        Some(Semantic::DispatchThreadId)
    } else if is_spelled(name, b"SV_GroupID") {
        Some(Semantic::GroupId)
    } else if is_spelled(name, b"SV_GroupThreadID") {
        Some(Semantic::GroupThreadId)
    } else if is_spelled(name, b"SV_GroupIndex") {
        Some(Semantic::GroupIndex)
    } else {
        None
    }
}

/// The semantic of a parameter whose semantic has this name, if it has one.
pub(crate) fn semantic_if(scope: &Scope, name: Option<usize>) -> Option<Semantic>
    ensures { result ≡ rules.semantic_if (scope_of scope.now) name }
{
    match name {
        Some(name) => semantic_named(scope.text_at(name)),
        None => None,
    }
}

/// Whether a kind is int or uint.
fn is_number(kind: Kind) -> bool
    ensures { result ≡ (kind_eq Int kind || kind_eq Uint kind) }
{
    match kind {
        Kind::Bool => false,
        Kind::Int => true,
        Kind::Uint => true,
    }
}

/// Whether a kind is int or uint, and a size at most 3.
fn is_short_vector(kind: Kind, size: u8) -> bool
    ensures { result ≡ ((kind_eq Int kind || kind_eq Uint kind) && nat_le size 3) }
{
    is_number(kind) && size <= 3
}

/// Whether a type is a scalar of int or uint.
fn is_word(ty: &HlType) -> bool
    ensures { result ≡ is_word (plain_ty ty.now) }
{
    match ty {
        HlType::Scalar(kind) => is_number(*kind),
        HlType::Vector(..) => false,
        HlType::Void => false,
        HlType::Array(..) => false,
        HlType::Struct(_) => false,
    }
}

/// Whether a type is a scalar or a vector of 2 or 3 of int or uint.
fn is_short(ty: &HlType) -> bool
    ensures { result ≡ (is_numeric (plain_ty ty.now) && nat_le (component_count (plain_ty ty.now)) 3) }
{
    match ty {
        HlType::Scalar(kind) => is_short_vector(*kind, 1),
        HlType::Vector(kind, size) => is_short_vector(*kind, *size),
        HlType::Void => false,
        HlType::Array(..) => false,
        HlType::Struct(_) => false,
    }
}

/// Whether a semantic may have a type.
fn is_semantic_type(semantic: Semantic, ty: &HlType) -> bool
    ensures { result ≡ rules.is_semantic_type semantic (plain_ty ty.now) }
{
    match semantic {
        Semantic::GroupIndex => is_word(ty),
        Semantic::DispatchThreadId => is_short(ty),
        Semantic::GroupId => is_short(ty),
        Semantic::GroupThreadId => is_short(ty),
    }
}

/// Whether a type is known that a semantic may not have.
fn is_refused(semantic: Semantic, ty: &Option<HlType>) -> bool
    ensures { result ≡ is_known (λ own. not (rules.is_semantic_type semantic own)) (plain_type_if ty.now) }
{
    match ty {
        Some(ty) => !is_semantic_type(semantic, ty),
        None => false,
    }
}

/// The semantics that parameters have.
#[derive(Clone, Copy, Debug)]
pub(crate) struct Semantics {
    dispatch_thread_id: bool,
    group_id: bool,
    group_thread_id: bool,
    group_index: bool,
}

impl Semantics {
    /// No semantic.
    pub(crate) const NONE: Semantics = Semantics {
        dispatch_thread_id: false,
        group_id: false,
        group_thread_id: false,
        group_index: false,
    };

    /// Whether a semantic is among them.
    fn contains(self, semantic: Semantic) -> bool
        ensures { result ≡ holds self semantic }
    {
        match semantic {
            Semantic::DispatchThreadId => self.dispatch_thread_id,
            Semantic::GroupId => self.group_id,
            Semantic::GroupThreadId => self.group_thread_id,
            Semantic::GroupIndex => self.group_index,
        }
    }

    /// These and that of a further parameter.
    pub(crate) fn with(self, semantic: Option<Semantic>) -> Semantics
        ensures { (other : SemanticSort) → holds result other ≡ (holds self other || rules.has_semantic other semantic) }
    {
        match semantic {
            None => self,
            Some(Semantic::DispatchThreadId) => Semantics {
                dispatch_thread_id: true,
                ..self
            },
            Some(Semantic::GroupId) => Semantics {
                group_id: true,
                ..self
            },
            Some(Semantic::GroupThreadId) => Semantics {
                group_thread_id: true,
                ..self
            },
            Some(Semantic::GroupIndex) => Semantics {
                group_index: true,
                ..self
            },
        }
    }
}

/// Whether a parameter of the entry may have a semantic, behind parameters that have these.
pub(crate) fn is_input(before: Semantics, ty: &Option<HlType>, semantic: Option<Semantic>) -> bool
    ensures { result ≡ is_input_behind before (plain_type_if ty.now) semantic }
{
    match semantic {
        Some(semantic) => !is_refused(semantic, ty) && !before.contains(semantic),
        None => false,
    }
}

/// How an argument is passed by its direction.
pub(crate) fn copying_of(scope: &Scope, direction: &Option<Boxed<Tree>>) -> Copying
    ensures { result ≡ declarations.copying_of (scope_of scope.now) (plain_maybe direction.now) }
{
    match direction {
        None => Copying::CopyIn,
        Some(direction) => copying_by(scope.terminal_at(direction.get().at())),
    }
}

/// How an argument is passed by the word of its direction.
fn copying_by(word: Terminal) -> Copying
    ensures { result ≡ declarations.direction_copying word }
{
    match word {
        Terminal::Out => Copying::CopyOut,
        Terminal::Inout => Copying::CopyBoth,
        _ => Copying::CopyIn,
    }
}

/// Whether an argument is copied in alone.
pub(crate) fn is_copied_in(copying: Copying) -> bool
    ensures { result ≡ rules.is_copied_in copying }
{
    match copying {
        Copying::CopyIn => true,
        Copying::CopyOut => false,
        Copying::CopyBoth => false,
    }
}
