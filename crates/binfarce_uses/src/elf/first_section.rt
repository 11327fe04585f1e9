ghost use Rattle.std.specs.Prelude.{◌≡◌, true};
ghost use Rattle.binfarce.specs.Elf.{elf64, section_table, walk};
ghost use Rattle.binfarce.specs.ElfViews.{section_view};
ghost use Rattle.binfarce.specs.Refusal.{refusal_of};
ghost use Rattle.binfarce.specs.Walk.{FirstAccepted};

use binfarce::ParseError;
use binfarce::elf64::{Elf64, Section};

/// The first section.
pub fn first_section(elf: &Elf64<'_>) -> Result<Option<Section>, ParseError>
    ensures { FirstAccepted refusal_of (section_view (λ n. n))
        (λ s accepted. accepted ≡ true) (walk elf64 (section_table elf64 elf.now)) result }
{
    elf.find_section(
        |_section|
            ensures { result ≡ true }
        { true },
    )
}
