ghost use Rattle.std.specs.Prelude.{codes};
ghost use Rattle.binfarce.specs.Format.{format_of};
ghost use Rattle.binfarce_sections.specs.Named.{bytes_named};
ghost use Rattle.binfarce_sections.specs.Section.{sections_of};
ghost use Rattle.binfarce_sections.specs.Results.{Hands};

use binfarce_sections::bytes::section_bytes;
use binfarce_sections::error::SectionError;

/// What `cargo auditable` has written into a program: zlib over JSON.
pub fn dependencies(file: &[u8]) -> Result<&[u8], SectionError>
    ensures { Hands (λ b. b.now) (bytes_named (sections_of (format_of file.now) file.now) file.now
        (codes ".dep-v0")) result }
{
    section_bytes(file, ".dep-v0")
}
