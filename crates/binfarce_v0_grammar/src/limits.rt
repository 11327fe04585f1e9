//! The limits of v0 names.

ghost use Rattle.std.specs.Prelude.{◌≡◌};

/// The most levels of nested paths, types and consts in a v0 name, both as it is read and as it is printed. The target
/// of a back reference is one level below it. A name with more is `Kind::Unknown`.
pub const MAX_LEVELS: usize = 500;

/// The most steps in the printing of a v0 name: one for each path, type, const and lifetime that it reaches, each time,
/// and one for each lifetime that a binder announces. A name with more is `Kind::Unknown`.
pub const MAX_STEPS: usize = 65_536;

// The limits, which definitions cite by name, are these numbers.
fn limits_are()
    ensures levels { MAX_LEVELS ≡ 500 }
    ensures steps { MAX_STEPS ≡ 65536 }
{}
