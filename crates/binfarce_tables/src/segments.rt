//! Where an ELF file is loaded, read from its program headers.

ghost use Rattle.std.specs.Prelude.{◌≡◌, ◌≢◌, ◌*◌, List, ℕ, Some, IfErr};
ghost use Rattle.binfarce_bytes.specs.Part.{whole_part};
ghost use Rattle.binfarce_bytes.specs.Source.{ReadsOnly};
ghost use Rattle.binfarce_elf_memory.specs.ElfSegments.{file_load_address, load_address_at, program_length};
ghost use Rattle.binfarce_tables.specs.ElfReads.{elf_load_parts};
ghost use Rattle.binfarce_tables.specs.Reading.{Reads, Known};
ghost use Rattle.binfarce_tables.specs.declared.error.ReadError.TheVariants.{Unreadable};

use crate::elf::read_place;
use crate::error::ReadError;
use crate::opened::{Opened, open};
use binfarce_bytes::ByteOrder;
use binfarce_bytes::source::Source;
use binfarce_elf::class::Width;
use binfarce_elf_memory::parts::HeaderTable;
use binfarce_elf_memory::segments::{self, LoadAddress, load_address};
use std::alloc::Global;

/// Where a file of this class is loaded unless the loader chooses another address, numbers in the given order: the page
/// of 4096 bytes of its lowest loaded segment, and its first code segment. `None` without a loaded one, as in an object
/// file. The file header of 52 or 64 bytes and the program headers are read, and no other byte. The magic number isn't
/// checked.
///
/// # Errors
///
/// `Refused` with `UnexpectedEof` if the file is too short for its header, or its program headers end past it;
/// `Unreadable` if the source can't be read at offsets, or a read of it fails, and never for a source that can't
/// fail, such as bytes in memory; `OutOfMemory` if an allocation fails.
#[tactic(auto, unfolding(binfarce_elf_memory::specs::ElfSegments::file_load_address, crate::specs::ElfReads::elf_load_parts))]
pub fn read_load_address<S: Source>(
    alloc: Global,
    source: &S,
    log: &mut S::Log,
    width: Width,
    byte_order: ByteOrder,
) -> Result<Option<LoadAddress>, ReadError>
    ensures answer { (file : List ℕ) → S.bytes source.now ≡ Some file
        → Reads (S.may_fail source.now) (λ loaded. loaded) (file_load_address width byte_order file) result }
    ensures only { (file : List ℕ) → S.bytes source.now ≡ Some file
        → ReadsOnly (S.is_sure source.now) (S.logs_only log.old) (S.logs_only log.new)
        (elf_load_parts width byte_order file) (IfErr result (λ e. e ≢ Unreadable)) }
{
    let opened = open(alloc, source)?;
    let place = read_place(&opened, log, width, byte_order)?;
    read_segments(&opened, log, width, place)
}

// Where it is loaded, by the program headers at this place.
#[tactic(auto, unfolding(binfarce_elf_memory::specs::ElfSegments::load_address_at))]
fn read_segments<S: Source>(
    opened: &Opened<'_, S>,
    log: &mut S::Log,
    width: Width,
    place: HeaderTable,
) -> Result<Option<LoadAddress>, ReadError>
    ensures answer { (file : List ℕ) → Known (S.bytes opened.now.source.now) opened.now.len file
        → Reads (S.may_fail opened.now.source.now) (λ loaded. loaded)
        (load_address_at width place.byte_order file place.phoff (place.phnum * program_length width)) result }
    ensures only { (file : List ℕ) → Known (S.bytes opened.now.source.now) opened.now.len file
        → ReadsOnly (S.is_sure opened.now.source.now) (S.logs_only log.old) (S.logs_only log.new)
        (whole_part file place.phoff (place.phnum * program_length width)) (IfErr result (λ e. e ≢ Unreadable)) }
{
    let size = u64::from(place.phnum) * segments::program_length(width) as u64;
    let headers = opened.within(log, place.phoff, size)?;
    Ok(load_address(&headers, width, place.byte_order))
}
