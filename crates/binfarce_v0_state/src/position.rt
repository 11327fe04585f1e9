//! Where a tree is shown, which decides how the arguments of a path are marked.

ghost use Rattle.std.specs.Prelude.{◌≡◌};
ghost use Rattle.binfarce_v0_state.specs.TreeTexts.{parent_position, value_mark, closing, is_open_trait};
ghost use Rattle.binfarce_v0_state.specs.machine.View.{position_view};

/// The position of a tree: a path as a value, a path as a type, or a trait whose `<` stays open for associated type
/// bindings.
#[derive(Clone, Copy, PartialEq, Eq, PartialOrd, Ord)]
pub enum Position {
    InValue,
    InType,
    OpenTrait,
}

/// The position of a path's parent.
#[inline(always)]
pub fn parent(position: Position) -> Position
    ensures { position_view result ≡ parent_position (position_view position) }
{
    match position {
        Position::InValue => Position::InValue,
        Position::InType | Position::OpenTrait => Position::InType,
    }
}

/// The text before the arguments of a path.
#[inline(always)]
pub fn value_mark(position: Position) -> &'static str
    ensures { result.now ≡ value_mark (position_view position) }
{
    match position {
        Position::InValue => "::",
        Position::InType | Position::OpenTrait => "",
    }
}

/// The text after the arguments of a path.
#[inline(always)]
pub fn closing(position: Position) -> &'static str
    ensures { result.now ≡ closing (position_view position) }
{
    match position {
        Position::InValue | Position::InType => ">",
        Position::OpenTrait => "",
    }
}

/// A position that leaves arguments open.
#[inline(always)]
pub fn is_open_trait(position: Position) -> bool
    ensures { result ≡ is_open_trait (position_view position) }
{
    matches!(position, Position::OpenTrait)
}
