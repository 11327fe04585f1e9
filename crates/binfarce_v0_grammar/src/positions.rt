//! Positions of a v0 name after a byte, a list and a lifetime.

ghost use Rattle.std.specs.Prelude.{◌≡◌, ◌<◌, Some, true, false, MatchOption};
ghost use Rattle.binfarce_v0_grammar.specs.Forms.{has_byte, after_byte};
ghost use Rattle.binfarce_v0_grammar.specs.Tree.{lifetime_steps};
ghost use Rattle.binfarce_v0_grammar.specs.Unfolding.{list_goes_on, bound_end, required_end};
ghost use Rattle.binfarce_v0_grammar.specs.machine.View.{lifetime_view};

use crate::forms::Lifetime;
use crate::numbers::byte_at;

/// The position after a byte. `None` if that byte isn't there.
#[inline(always)]
pub fn eat(part: &[u8], byte: u8, at: Option<usize>) -> Option<usize>
    requires { 0 < byte }
    ensures { MatchOption result (has_byte part.now byte at ≡ false)
        (λ after. (has_byte part.now byte at ≡ true) × (after_byte at ≡ Some after)) }
{
    let at = at?;
    if byte_at(part, at) == byte {
        Some(at + 1)
    } else {
        None
    }
}

/// The position after a list, where the list ends there: at an `E`, and after invalid syntax.
#[inline(always)]
pub fn list_end(part: &[u8], at: Option<usize>) -> Option<Option<usize>>
    ensures { MatchOption result (list_goes_on part.now at ≡ true)
        (λ after. (list_goes_on part.now at ≡ false) × (after_byte at ≡ after)) }
{
    let Some(at) = at else {
        return Some(None);
    };
    if byte_at(part, at) == b'E' {
        Some(Some(at + 1))
    } else {
        None
    }
}

/// The steps of an optional lifetime: 1 if there is an `L`.
#[inline(always)]
pub fn lifetime_steps(life: Lifetime) -> u64
    ensures { result ≡ lifetime_steps (lifetime_view life) }
{
    match life {
        Lifetime::Nothing => 0,
        Lifetime::Invalid | Lifetime::Indexed(_) => 1,
    }
}

/// The position after an optional lifetime: `None` for one that is invalid, or that the binders around it don't
/// announce.
#[inline(always)]
#[tactic(auto, unfolding(crate::specs::Unfolding::bound_end))]
pub fn bound_end(binder_depth: usize, life: Lifetime, after: Option<usize>) -> Option<usize>
    ensures { result ≡ bound_end binder_depth (lifetime_view life) after }
{
    match life {
        Lifetime::Nothing => after,
        Lifetime::Invalid => None,
        Lifetime::Indexed(index) => {
            if index > binder_depth as u64 {
                None
            } else {
                after
            }
        }
    }
}

/// The position after a required lifetime: `None` also if there is no lifetime.
#[inline(always)]
pub fn required_end(binder_depth: usize, life: Lifetime, after: Option<usize>) -> Option<usize>
    ensures { result ≡ required_end binder_depth (lifetime_view life) after }
{
    match life {
        Lifetime::Nothing | Lifetime::Invalid => None,
        Lifetime::Indexed(_) => bound_end(binder_depth, life, after),
    }
}
