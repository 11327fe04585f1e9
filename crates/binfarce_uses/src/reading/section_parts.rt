ghost use Rattle.std.specs.Prelude.{◌≡◌, List, ℕ, Some};
ghost use Rattle.binfarce.specs.Elf.{elf64};
ghost use Rattle.binfarce.specs.declared.ByteOrder.TheVariants.{LittleEndian};
ghost use Rattle.binfarce_tables.specs.Reading.{Reads};
ghost use Rattle.binfarce_tables.specs.SectionReading.{file_sections, sections_view};

use binfarce::ByteOrder;
use binfarce_bytes::source::Source;
use binfarce_tables::elf::{SectionParts, read_sections};
use binfarce_tables::{ReadError, Width};
use std::alloc::Global;

/// The parts of a file that have its sections and their names.
pub fn section_parts<S: Source<Log = ()>>(
    alloc: Global,
    source: &S,
) -> Result<SectionParts, ReadError>
    ensures { (file : List ℕ) → S.bytes source.now ≡ Some file
        → Reads (S.may_fail source.now) sections_view (file_sections elf64 LittleEndian file) result }
{
    read_sections(
        alloc,
        source,
        &mut (),
        Width::Bits64,
        ByteOrder::LittleEndian,
    )
}
