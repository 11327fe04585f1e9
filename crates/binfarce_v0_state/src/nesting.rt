//! Where a path, a type or a const is printed.

ghost use Rattle.std.specs.Prelude.{◌≡◌, ◌+◌, ◌≤◌};
ghost use Rattle.binfarce_v0_grammar.specs.declared.limits.TheConstants.{MAX_STEPS};
ghost use Rattle.binfarce_v0_state.specs.machine.Printing.{WithinLevels};

/// The levels that are left, and the depth of binders around.
#[derive(Clone, Copy)]
pub struct Nesting {
    pub levels_left: usize,
    pub binder_depth: usize,
    ghost within: { WithinLevels levels_left binder_depth },
}

impl Nesting {
    /// This nesting under a binder of this many lifetimes, or of none.
    #[inline(always)]
    pub fn under(mut self, binder: usize) -> Nesting
        requires entered { WithinLevels (self.levels_left + 1) self.binder_depth }
        requires few { binder ≤ MAX_STEPS }
        ensures levels { result.levels_left ≡ self.levels_left }
        ensures depth { result.binder_depth ≡ self.binder_depth + binder }
    {
        self.binder_depth += binder;
        self
    }

    /// This nesting outside all binders.
    #[inline(always)]
    pub fn outside(mut self) -> Nesting
        ensures levels { result.levels_left ≡ self.levels_left }
        ensures depth { result.binder_depth ≡ 0 }
    {
        self.binder_depth = 0;
        self
    }
}
