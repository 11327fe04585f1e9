//! The law of a section's answer. Worked examples, computed from the definitions alone.

ghost use Rattle.std.specs.Prelude.{◌≡◌, [], ◌∷◌, Some, None, true, false};
ghost use Rattle.binfarce_bytes.specs.declared.ByteOrder.TheVariants.{LittleEndian, BigEndian};
ghost use Rattle.binfarce_elf.specs.Elf.{elf32, elf64};
ghost use Rattle.binfarce_elf.specs.machine.RawElf.{table_view};
ghost use Rattle.binfarce_elf_memory.specs.ElfSelection.{SectionIsAnswered, all_sections, one_section, taken_from};
ghost use Rattle.binfarce_elf_memory.specs.Versions.{version_name};

use binfarce_elf::class::Class;
use binfarce_elf::sections::Table;

/// By the symbol table, the selection of a section and the answer for this section agree.
#[tactic(auto, using(crate::proofs::Answered::section_is_answered))]
pub fn section_is_answered<C: Class>(table: Table<'_>, name: &str)
    ensures { SectionIsAnswered C.table (table_view table.entry) name.now }
{
    let _ = table;
    let _ = name;
}

/// A row of the function `f` at 0x1001, of 16 bytes, in section 1: as one section's in both classes, hidden with version
/// 2, and as an indirect function; and of all sections of a file for Arm, where bit 0 is no part of the address.
#[tactic(auto, unfolding(binfarce_elf::specs::Elf::elf32, binfarce_elf::specs::Elf::elf64, binfarce_elf::specs::ElfSymbols::symbol_at, crate::specs::ElfEnds::size_of, crate::specs::ElfSelection::function_name, crate::specs::Versions::version_of, binfarce_bytes::proofs::Computing::computing))]
fn worked_rows()
    ensures of_64_bits { taken_from elf64 LittleEndian (record { items = []; refusal = None })
        (record { elf_type = 3; machine = 62; flags = 0 }) (one_section 1 0x20 true)
        (record {
          strings = 0 ∷ 0x66 ∷ 0 ∷ [];
          rows = 1 ∷ 0 ∷ 0 ∷ 0 ∷ 0x12 ∷ 0 ∷ 1 ∷ 0 ∷ 1 ∷ 0x10 ∷ 0 ∷ 0 ∷ 0 ∷ 0 ∷ 0 ∷ 0
              ∷ 16 ∷ 0 ∷ 0 ∷ 0 ∷ 0 ∷ 0 ∷ 0 ∷ 0 ∷ [];
        }) (2 ∷ 0x80 ∷ [])
        ≡ record {
          section = 1;
          info = 0x12;
          version = 0x8002;
          entry = record { name = 0x66 ∷ []; address = 0x1001; size = 16 };
        } ∷ [] }
    ensures indirect { taken_from elf32 BigEndian (record { items = []; refusal = None })
        (record { elf_type = 3; machine = 40; flags = 0 }) (one_section 1 0x20 true)
        (record {
          strings = 0 ∷ 0x66 ∷ 0 ∷ [];
          rows = 0 ∷ 0 ∷ 0 ∷ 1 ∷ 0 ∷ 0 ∷ 0x10 ∷ 1 ∷ 0 ∷ 0 ∷ 0 ∷ 16 ∷ 0x1A ∷ 0 ∷ 0 ∷ 1
              ∷ [];
        }) []
        ≡ record {
          section = 1;
          info = 0x1A;
          version = 0;
          entry = record { name = 0x66 ∷ []; address = 0x1001; size = 16 };
        } ∷ [] }
    ensures left_out { taken_from elf32 BigEndian (record { items = []; refusal = None })
        (record { elf_type = 3; machine = 40; flags = 0 }) (one_section 1 0x20 false)
        (record {
          strings = 0 ∷ 0x66 ∷ 0 ∷ [];
          rows = 0 ∷ 0 ∷ 0 ∷ 1 ∷ 0 ∷ 0 ∷ 0x10 ∷ 1 ∷ 0 ∷ 0 ∷ 0 ∷ 16 ∷ 0x1A ∷ 0 ∷ 0 ∷ 1
              ∷ [];
        }) [] ≡ [] }
    ensures in_memory { taken_from elf32 BigEndian (record { items = []; refusal = None })
        (record { elf_type = 3; machine = 40; flags = 0 }) (all_sections 2)
        (record {
          strings = 0 ∷ 0x66 ∷ 0 ∷ [];
          rows = 0 ∷ 0 ∷ 0 ∷ 1 ∷ 0 ∷ 0 ∷ 0x10 ∷ 1 ∷ 0 ∷ 0 ∷ 0 ∷ 16 ∷ 0x12 ∷ 0 ∷ 0 ∷ 1
              ∷ [];
        }) []
        ≡ record {
          section = 1;
          info = 0x12;
          version = 0;
          entry = record { name = 0x66 ∷ []; address = 0x1000; size = 16 };
        } ∷ [] }
{}

/// The definitions of a library `f` (index 1) and of its version `g` (index 2), and the names of these versions, of the
/// hidden version 2, and of one that isn't defined.
fn worked_versions()
    ensures { let name = version_name BigEndian (0 ∷ 0x66 ∷ 0 ∷ 0x67 ∷ 0 ∷ [])
        (0 ∷ 1 ∷ 0 ∷ 1 ∷ 0 ∷ 1 ∷ 0 ∷ 1 ∷ 0 ∷ 0 ∷ 0 ∷ 0 ∷ 0 ∷ 0 ∷ 0 ∷ 20 ∷ 0 ∷ 0 ∷ 0 ∷ 28 ∷ 0 ∷ 0 ∷ 0 ∷ 1 ∷ 0 ∷ 0 ∷ 0 ∷ 0
        ∷ 0 ∷ 1 ∷ 0 ∷ 0 ∷ 0 ∷ 2 ∷ 0 ∷ 1 ∷ 0 ∷ 0 ∷ 0 ∷ 0 ∷ 0 ∷ 0 ∷ 0 ∷ 20 ∷ 0 ∷ 0 ∷ 0 ∷ 0 ∷ 0 ∷ 0 ∷ 0
        ∷ 3 ∷ 0 ∷ 0 ∷ 0 ∷ 0 ∷ []) in
        (name 1 ≡ None) × (name 2 ≡ Some (0x67 ∷ [])) × (name 0x8002 ≡ Some (0x67 ∷ [])) × (name 3 ≡ None) }
{}
