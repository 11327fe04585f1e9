//! The beginning of a Mach-O or PE file, from which its sections are read.

ghost use Rattle.std.specs.Prelude.{◌≡◌};
ghost use Rattle.binfarce_tables.specs.BeginningReading.{bytes_of, file_length_of};

/// A prefix of a file, in memory, that has all of the file's sections, and the file's length.
#[derive(Drop)]
pub struct Beginning {
    pub(crate) bytes: Vec<u8>,
    pub(crate) file_length: u64,
}

impl Beginning {
    /// The file's first bytes.
    pub fn bytes(&self) -> &[u8]
        ensures { result.now ≡ bytes_of self.entry.now }
    {
        self.bytes.as_slice()
    }

    /// How many bytes the file had when they were read.
    pub fn file_length(&self) -> u64
        ensures { result ≡ file_length_of self.now }
    {
        self.file_length
    }
}
