ghost use Rattle.std.specs.Prelude.{◌≡◌, ◌+◌, ◌^◌, ◌<◌, Ok, None, Some, MatchOption, IsOkAnd};
ghost use Rattle.binfarce.specs.Elf.{Section, elf64, section_table, walk, name_of};
ghost use Rattle.binfarce.specs.ElfSymbols.{is_named};
ghost use Rattle.binfarce.specs.Walk.{first};

use binfarce::ParseError;
use binfarce::elf64::Elf64;
use std::ops::Range;

/// The file range of the section of this name: `file.get(range)` is its bytes.
pub fn section_range(elf: &Elf64<'_>, name: &str) -> Result<Option<Range<usize>>, ParseError>
    ensures found { let table = section_table elf64 elf.now in
        (s : Section) → first (λ s. is_named name.now (name_of elf64 table s)) (walk elf64 table) ≡ Ok (Some s)
        → s.offset + s.size < 2 ^ 64
        → IsOkAnd result (λ range. MatchOption range ⊥ (λ r. (r.start ≡ s.offset) × (r.end ≡ s.offset + s.size))) }
    ensures none { let table = section_table elf64 elf.now in
        first (λ s. is_named name.now (name_of elf64 table s)) (walk elf64 table) ≡ Ok None
        → IsOkAnd result (λ range. range ≡ None) }
{
    match elf.section_with_name(name)? {
        Some(section) => Ok(Some(section.range()?)),
        None => Ok(None),
    }
}
