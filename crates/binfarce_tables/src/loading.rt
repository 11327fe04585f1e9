//! Where a file of any format is loaded.

ghost use Rattle.std.specs.Prelude.{◌≡◌, ◌≢◌, List, ℕ, Some, IfErr};
ghost use Rattle.binfarce_bytes.specs.Source.{ReadsOnly};
ghost use Rattle.binfarce_tables.specs.Loading.{load_address, load_parts, without_code};
ghost use Rattle.binfarce_tables.specs.Reading.{Reads};
ghost use Rattle.binfarce_tables.specs.declared.error.ReadError.TheVariants.{Unreadable};

use crate::error::ReadError;
use crate::{macho, pe, segments};
use binfarce_bytes::format::Format;
use binfarce_bytes::source::Source;
use binfarce_elf::class::Width;
pub use binfarce_elf_memory::segments::{CodeSegment, LoadAddress};
use std::alloc::Global;

/// Where a file of this format says that it is loaded, unless the loader chooses another address: of ELF the page of
/// 4096 bytes of its lowest loaded segment, and its first code segment; of Mach-O the address of its first segment
/// `__TEXT`, of PE its image base. `None` if there is none, as in an object file, and for an unknown format. Only
/// what states it is read.
///
/// # Errors
///
/// `Refused` with `UnexpectedEof` if the file is too short for its header, or what states the address ends past it,
/// and with `MalformedInput` for a bad Mach-O load command before that segment; `Unreadable` if the source can't be
/// read at offsets, or a read of it fails, and never for a source that can't fail, such as bytes in memory;
/// `OutOfMemory` if an allocation fails.
pub fn read_load_address<S: Source>(
    alloc: Global,
    source: &S,
    log: &mut S::Log,
    format: Format,
) -> Result<Option<LoadAddress>, ReadError>
    ensures answer { (file : List ℕ) → S.bytes source.now ≡ Some file
        → Reads (S.may_fail source.now) (λ loaded. loaded) (load_address format file) result }
    ensures only { (file : List ℕ) → S.bytes source.now ≡ Some file
        → ReadsOnly (S.is_sure source.now) (S.logs_only log.old) (S.logs_only log.new)
        (load_parts format file) (IfErr result (λ e. e ≢ Unreadable)) }
{
    match format {
        Format::Elf32 { byte_order } => {
            segments::read_load_address(alloc, source, log, Width::Bits32, byte_order)
        }
        Format::Elf64 { byte_order } => {
            segments::read_load_address(alloc, source, log, Width::Bits64, byte_order)
        }
        Format::Macho => {
            let address = macho::read_load_address(alloc, source, log)?;
            Ok(without_code(address))
        }
        Format::PE => {
            let address = pe::read_load_address(alloc, source, log)?;
            Ok(without_code(address))
        }
        Format::Unknown => Ok(None),
    }
}

// What is known of a file that states its address alone.
fn without_code(address: Option<u64>) -> Option<LoadAddress>
    ensures { result ≡ without_code address }
{
    let address = address?;
    Some(LoadAddress {
        address,
        code: None,
    })
}
