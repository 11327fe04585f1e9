//! The memory that names are printed in, one after the other.

ghost use Rattle.std.specs.Prelude.{◌≡◌, ◌≤◌};
ghost use Rattle.binfarce_v0_state.specs.machine.MemoryKept.{kept_bytes};
ghost use Rattle.binfarce_v0_state.specs.declared.memory.TheConstants.{MOST_BYTES};

use crate::state::Buffers;
use std::alloc::Global;

/// The memory that names are printed in, one after the other: at most `MOST_BYTES`. A printing doesn't see earlier
/// contents of its buffers.
#[derive(Drop)]
pub struct Memory {
    pub alloc: Global,
    buffers: Option<Buffers>,
}

/// The most bytes that are kept.
pub const MOST_BYTES: usize = 1 << 20;

impl Memory {
    /// No memory yet.
    pub fn new(alloc: Global) -> Memory
        ensures { kept_bytes result ≡ 0 }
    {
        Memory {
            alloc,
            buffers: None,
        }
    }

    /// The buffers of an earlier printing, or new ones.
    #[inline(always)]
    pub fn take(&mut self) -> Buffers
        ensures { kept_bytes self.new ≡ 0 }
    {
        match self.buffers.take() {
            Some(buffers) => buffers,
            None => Buffers::empty(self.alloc),
        }
    }

    /// Keeps the buffers of a printing for the next one, unless they take more than `MOST_BYTES`.
    #[inline(always)]
    pub fn put_back(&mut self, buffers: Buffers)
        ensures { kept_bytes self.new ≤ MOST_BYTES }
    {
        self.buffers = if buffers.bytes() <= MOST_BYTES {
            Some(buffers)
        } else {
            None
        };
    }
}
