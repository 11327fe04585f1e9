//! A source that records the parts that it is asked for.

ghost use Rattle.std.specs.Prelude.{◌≡◌, ◌++◌, ◌∷◌, [], Some, is_ok, if◌then◌else◌};
ghost use Rattle.binfarce.specs.Elf.{elf32, elf64};
ghost use Rattle.binfarce.specs.Format.{format_of};
ghost use Rattle.binfarce.specs.declared.ByteOrder.{ByteOrder};
ghost use Rattle.binfarce.specs.declared.Format.TheVariants.{Elf32, Elf64, Macho, PE};
ghost use Rattle.binfarce_tables.specs.ElfReads.{elf_parts};
ghost use Rattle.binfarce_tables.specs.MachoReads.{macho_parts};
ghost use Rattle.binfarce_tables.specs.PeReads.{pe_parts};
ghost use Rattle.binfarce_tools.specs.Parts.{head_part, parts_in};
ghost use Rattle.test_reading.specs.Logged.{LogsOnly, log_view};

use binfarce_bytes::functions::Selection;
use binfarce_bytes::source::Source;
use binfarce_tables::ReadError;
use binfarce_tools::SymbolTable;
use binfarce_tools::tables::{Tables, read};
use std::alloc::{AllocError, Global};
use std::io;

/// A part of a file: an offset and a size, in bytes.
#[derive(Clone, Copy)]
pub struct LoggedPart {
    pub offset: u64,
    pub size: u64,
}

/// A file in memory that is read at offsets, and records each part that it is asked for before it gives the part. A read
/// fails also if the log can't grow.
#[derive(Clone, Copy)]
pub struct Recorded<'a> {
    pub file: &'a [u8],
}

impl<'a> Source for Recorded<'a> {
    type Log = Vec<LoggedPart>;

    ghost bytes = { λ s. Some s.file.now };

    ghost logs_only = { λ log. log_view log.items };

    fn length(&self) -> io::Result<u64> {
        self.file.length()
    }

    fn fill_at(&self, log: &mut Vec<LoggedPart>, offset: u64, buf: &mut [u8]) -> io::Result<()> {
        record(log, offset, buf.len())?;
        self.file.fill_at(&mut (), offset, buf)
    }
}

// Appends a part to the log.
fn record(log: &mut Vec<LoggedPart>, offset: u64, size: usize) -> Result<(), AllocError>
    ensures { log.new.items ≡ (if is_ok result then log.old.items ++ record { offset = offset; size = size } ∷ []
        else log.old.items) }
{
    log.push(LoggedPart {
        offset,
        size: size as u64,
    })?;
    Ok(())
}

/// Reads the tables of a file for the function symbols of a selection, and returns the log of the reading: the parts
/// that were asked for, in order. Each is one of the parts that its format defines, and nothing else was read.
pub fn read_recorded(
    alloc: Global,
    file: &[u8],
    which: SymbolTable,
    selection: Selection<'_>,
) -> (Result<Tables<'static>, ReadError>, Vec<LoggedPart>)
    ensures only { LogsOnly (parts_in which file.now) result.1.items }
    ensures elf_of_32_bits { (order : ByteOrder) → format_of file.now ≡ Elf32 order
        → LogsOnly (head_part file.now ∷ elf_parts which elf32 order file.now) result.1.items }
    ensures elf_of_64_bits { (order : ByteOrder) → format_of file.now ≡ Elf64 order
        → LogsOnly (head_part file.now ∷ elf_parts which elf64 order file.now) result.1.items }
    ensures macho { format_of file.now ≡ Macho
        → LogsOnly (head_part file.now ∷ macho_parts file.now) result.1.items }
    ensures pe { format_of file.now ≡ PE
        → LogsOnly (head_part file.now ∷ pe_parts file.now) result.1.items }
{
    let mut log = Vec::new(alloc);
    let tables = read(alloc, &Recorded { file }, &mut log, which, selection);
    (tables, log)
}
