//! How an address is looked up, and the form of the answer.

ghost use Rattle.std.specs.Prelude.{◌≡◌};
ghost use Rattle.binfarce_addresses.specs.Lookup.{in_file, is_within};

use binfarce_rows::json::Form;

/// How addresses are looked up and answered.
#[derive(Debug, Clone, Copy, PartialEq)]
pub struct Lookup<'a> {
    /// Where the file is loaded, or `size` bytes of it. Without a base addresses are the file's own.
    pub base: Option<u64>,
    /// Where the file itself says that it is loaded, or these bytes: its address for the base.
    pub linked: u64,
    /// How many bytes are at the base, if offsets in the file are looked up: the base is then the offset of the first
    /// in the file. Offsets of other bytes have no address.
    pub size: Option<u64>,
    /// The address in the file that an offset of 0 after its name means: in ELF 0, since glibc and sanitizers subtract
    /// what the loader added; in Mach-O and PE `linked`, from which their offsets count.
    pub origin: u64,
    /// Whether the addresses are return addresses, as in a backtrace. The one before it is looked up, which is in the
    /// call: a call that doesn't return may be the last instruction of its function. If that has no function symbol,
    /// the address itself is looked up: a signal may have interrupted the first instruction of a function.
    pub is_return: bool,
    /// How the answers are written. Objects don't have the section.
    pub form: Form<'a>,
    /// The file's path in a text. An offset after it, or after the name that follows its last `/`, counts from the
    /// origin, or in the file with a `size`: `path+0x1f`; but not if it may be one into a function of the file with this
    /// name (`push_annotated`).
    pub path: &'a [u8],
}

impl Lookup<'_> {
    /// The address in the file of an address. `None` below the base, past 64 bits, and for an offset of other bytes than
    /// those at the base.
    pub(crate) fn in_file(self, address: u64) -> Option<u64>
        ensures { result ≡ in_file self.entry address }
    {
        let Some(base) = self.base else {
            return Some(address);
        };
        let distance = address.checked_sub(base)?;
        if self.is_within(distance) {
            distance.checked_add(self.linked)
        } else {
            None
        }
    }

    // Whether what is so far behind the base is within the bytes there: of return addresses also the one behind a call at
    // their end.
    fn is_within(self, distance: u64) -> bool
        ensures { result ≡ is_within self.entry.size self.entry.is_return distance }
    {
        match self.size {
            Some(size) if self.is_return => distance <= size,
            Some(size) => distance < size,
            None => true,
        }
    }
}
