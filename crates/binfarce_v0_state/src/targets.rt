//! The possible targets of a name's back references.

ghost use Rattle.std.specs.Prelude.{◌≡◌, ◌<◌, ◌≤◌, ◌+◌, ◌-◌, ◌*◌, ◌^◌, length, min, vec_capacity};

use binfarce_v0_grammar::numbers::back_reference;
use std::alloc::{AllocError, Global};
use std::simd::prelude::*;

// How many bytes of a name are compared at a time.
const STRIDE: usize = 16;

/// The possible targets of a name's back references: that of each `B` with a number after it, whether or not a back
/// reference is read there. A printing keeps fragments at these positions alone. This changes no text, since what isn't
/// kept is printed again; so no clause says which positions they are.
#[derive(Drop)]
pub struct Targets {
    // A bit for the positions of each remainder modulo 64: they rule out most positions that aren't targets.
    any: u64,
    // A bit for each of the first 256 positions.
    near: [u64; 4],
    // A bit for each of the others. Empty where none of them is a target.
    far: Vec<u64>,
}

impl Targets {
    /// No target.
    pub fn none(alloc: Global) -> Targets {
        Targets {
            any: 0,
            near: [0; 4],
            far: Vec::new(alloc),
        }
    }

    /// Forgets all targets.
    #[inline(always)]
    pub fn clear(&mut self) {
        self.any = 0;
        self.near = [0; 4];
        self.far.clear();
    }

    // How many bytes their memory has for positions from 256 on.
    pub(crate) fn bytes(&self) -> usize
        ensures { result ≡ min (vec_capacity self.now.far * 8) (2 ^ 64 - 1) }
    {
        self.far.capacity().saturating_mul(8)
    }

    /// Looks for the targets of a name, if none was added yet. Nothing is allocated but for those from position 256
    /// on.
    #[inline(never)]
    pub fn look_for(&mut self, part: &[u8]) -> Result<(), AllocError> {
        let strides = part.len() / STRIDE;
        for stride in 0..strides {
            let start = STRIDE * stride;
            self.add_flagged(part, start, b_flags(&part[start..start + STRIDE]))?;
        }
        self.look_at_the_last(part)
    }

    // Adds the targets in the bytes after the last whole stride.
    #[inline(always)]
    fn look_at_the_last(&mut self, part: &[u8]) -> Result<(), AllocError> {
        let last = part.len() % STRIDE;
        if last == 0 {
            return Ok(());
        }
        if part.len() >= STRIDE {
            let start = part.len() - STRIDE;
            let flags = b_flags(&part[start..start + STRIDE]) & (u64::MAX << (STRIDE - last));
            return self.add_flagged(part, start, flags);
        }
        for at in 0..part.len() {
            self.add_target(part, at)?;
        }
        Ok(())
    }

    // Adds the targets of the flagged ones of a stride.
    #[inline(always)]
    fn add_flagged(&mut self, part: &[u8], start: usize, flags: u64) -> Result<(), AllocError>
        requires { start + STRIDE ≤ length part.now }
    {
        let mut left = flags;
        for _turn in 0..STRIDE {
            if left == 0 {
                break;
            }
            let at = start + left.trailing_zeros() as usize % STRIDE;
            self.add_target(part, at)?;
            left &= left - 1;
        }
        Ok(())
    }

    // Adds the target of a back reference, where there may be one.
    #[inline(never)]
    fn add_target(&mut self, part: &[u8], at: usize) -> Result<(), AllocError> {
        if at >= part.len() || part[at] != b'B' {
            return Ok(());
        }
        if let Some((target, _)) = back_reference(part, at) {
            self.add(target, part.len())?;
        }
        Ok(())
    }

    // Adds a position of a name of so many bytes.
    fn add(&mut self, at: usize, len: usize) -> Result<(), AllocError> {
        let bit = 1u64 << (at % 64);
        let word = at / 64;
        self.any |= bit;
        if word < 4 {
            self.near[word] |= bit;
            return Ok(());
        }
        if self.far.is_empty() {
            self.far.resize(len / 64, 0)?;
        }
        if let Some(bits) = self.far.get_mut(word - 4) {
            *bits |= bit;
        }
        Ok(())
    }

    /// Whether a position may be a target.
    #[inline(always)]
    pub fn may_have(&self, at: usize) -> bool {
        (self.any >> (at % 64)) & 1 == 1
    }

    /// Whether a position is a target.
    pub fn has(&self, at: usize) -> bool {
        let word = at / 64;
        let bits = if word < 4 {
            self.near[word]
        } else {
            self.far.get(word - 4).copied().unwrap_or(0)
        };
        (bits >> (at % 64)) & 1 == 1
    }
}

// A bit for each of 16 bytes: whether it is `B`.
#[inline(always)]
fn b_flags(bytes: &[u8]) -> u64
    requires { length bytes.now ≡ STRIDE }
{
    u8x16::from_slice(bytes)
        .simd_eq(u8x16::splat(b'B'))
        .to_bitmask()
}
