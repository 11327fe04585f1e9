ghost use Rattle.std.specs.Prelude.{◌≡◌, List, ℕ, Some, codes};
ghost use Rattle.binfarce.specs.Format.{format_of};
ghost use Rattle.binfarce_sections.specs.Named.{bytes_named};
ghost use Rattle.binfarce_sections.specs.Section.{sections_of};
ghost use Rattle.binfarce_sections.specs.Results.{TakesRead};

use binfarce_bytes::source::Source;
use binfarce_sections::bytes::write_section_of;
use binfarce_sections::error::SectionError;
use binfarce_tools::list::Sink;
use std::alloc::Global;

/// Writes the dependencies of an opened file.
pub fn write_source_dependencies<F: Source<Log = ()>, S: Sink>(
    alloc: Global,
    file: &F,
    out: &mut S,
) -> Result<(), SectionError>
    ensures { (bytes : List ℕ) → F.bytes file.now ≡ Some bytes
        → TakesRead (F.may_fail file.now) (bytes_named (sections_of (format_of bytes) bytes) bytes (codes ".dep-v0"))
        (S.taken out.old) (S.taken out.new) result }
{
    write_section_of(alloc, file, &mut (), ".dep-v0", out)
}
