//! Worked examples, computed from the definitions alone.

ghost use Rattle.std.specs.Prelude.{◌≡◌, [], ◌∷◌, ◌++◌, replicate, codes, Ok, Err};
ghost use Rattle.binfarce_bytes.specs.Refusal.{symbols_section_is_missing};
ghost use Rattle.binfarce_bytes.specs.declared.ByteOrder.TheVariants.{LittleEndian, BigEndian};
ghost use Rattle.binfarce_elf.specs.Elf.{SectionTable, elf32, elf64, section_at};
ghost use Rattle.binfarce_elf.specs.ElfSymbols.{elf_answer, entries_of};

/// A 32-bit big-endian section header: `PROGBITS`, at 0x34, of 0x20 bytes, with entries of 4 bytes.
#[tactic(auto, unfolding(crate::specs::Elf::elf32, crate::specs::Elf::section_at, binfarce_bytes::proofs::Computing::computing))]
fn worked_section()
    ensures { section_at elf32 BigEndian
        (0 ∷ 0 ∷ 0 ∷ 11 ∷ 0 ∷ 0 ∷ 0 ∷ 1 ∷ 0 ∷ 0 ∷ 0 ∷ 6 ∷ 0 ∷ 0 ∷ 0x10 ∷ 0 ∷ 0 ∷ 0 ∷ 0 ∷ 0x34 ∷ 0 ∷ 0 ∷ 0 ∷ 0x20 ∷ 0 ∷ 0
        ∷ 0 ∷ 7 ∷ 0 ∷ 0 ∷ 0 ∷ 0 ∷ 0 ∷ 0 ∷ 0 ∷ 1 ∷ 0 ∷ 0 ∷ 0 ∷ 4 ∷ []) 0 5
        ≡ record {
          index = 5;
          name_offset = 11;
          kind = 1;
          flags = 6;
          address = 0x1000;
          link = 7;
          offset = 0x34;
          size = 0x20;
          entry_size = 4;
        } }
{}

/// The rows of a symbol table: the function `f` of section 1 at 0x1000, of 16 bytes, in both classes; and rows that
/// aren't kept: of section 2, of size 0, without a name, an object, and an indirect function.
#[tactic(auto, unfolding(crate::specs::Elf::elf32, crate::specs::Elf::elf64, crate::specs::ElfSymbols::symbol_at, crate::specs::ElfSymbols::entry_of, crate::specs::ElfSymbols::entries_of, binfarce_bytes::proofs::Computing::computing))]
fn worked_rows()
    ensures of_32_bits { entries_of elf32 BigEndian (0 ∷ 0x66 ∷ 0 ∷ [])
        (0 ∷ 0 ∷ 0 ∷ 1 ∷ 0 ∷ 0 ∷ 0x10 ∷ 0 ∷ 0 ∷ 0 ∷ 0 ∷ 16 ∷ 0x12 ∷ 0 ∷ 0 ∷ 1
        ∷ 0 ∷ 0 ∷ 0 ∷ 1 ∷ 0 ∷ 0 ∷ 0x10 ∷ 0 ∷ 0 ∷ 0 ∷ 0 ∷ 16 ∷ 0x12 ∷ 0 ∷ 0 ∷ 2 ∷ []) 1
        ≡ record { name = 0x66 ∷ []; address = 0x1000; size = 16 } ∷ [] }
    ensures of_64_bits { entries_of elf64 LittleEndian (0 ∷ 0x66 ∷ 0 ∷ [])
        (1 ∷ 0 ∷ 0 ∷ 0 ∷ 0x12 ∷ 0 ∷ 1 ∷ 0 ∷ 0 ∷ 0x10 ∷ 0 ∷ 0 ∷ 0 ∷ 0 ∷ 0 ∷ 0 ∷ 16 ∷ 0 ∷ 0 ∷ 0 ∷ 0 ∷ 0 ∷ 0 ∷ 0 ∷ []) 1
        ≡ record { name = 0x66 ∷ []; address = 0x1000; size = 16 } ∷ [] }
    ensures without_size { entries_of elf32 BigEndian (0 ∷ 0x66 ∷ 0 ∷ [])
        (0 ∷ 0 ∷ 0 ∷ 1 ∷ 0 ∷ 0 ∷ 0x10 ∷ 0 ∷ 0 ∷ 0 ∷ 0 ∷ 0 ∷ 0x12 ∷ 0 ∷ 0 ∷ 1 ∷ []) 1 ≡ [] }
    ensures without_name { entries_of elf32 BigEndian (0x66 ∷ 0 ∷ [])
        (0 ∷ 0 ∷ 0 ∷ 0 ∷ 0 ∷ 0 ∷ 0x10 ∷ 0 ∷ 0 ∷ 0 ∷ 0 ∷ 16 ∷ 0x12 ∷ 0 ∷ 0 ∷ 1 ∷ []) 1 ≡ [] }
    ensures object { entries_of elf32 BigEndian (0 ∷ 0x66 ∷ 0 ∷ [])
        (0 ∷ 0 ∷ 0 ∷ 1 ∷ 0 ∷ 0 ∷ 0x10 ∷ 0 ∷ 0 ∷ 0 ∷ 0 ∷ 16 ∷ 0x11 ∷ 0 ∷ 0 ∷ 1 ∷ []) 1 ≡ [] }
    ensures indirect { entries_of elf32 BigEndian (0 ∷ 0x66 ∷ 0 ∷ [])
        (0 ∷ 0 ∷ 0 ∷ 1 ∷ 0 ∷ 0 ∷ 0x10 ∷ 0 ∷ 0 ∷ 0 ∷ 0 ∷ 16 ∷ 0x1A ∷ 0 ∷ 0 ∷ 1 ∷ []) 1 ≡ [] }
{}

/// A file of the section `.t` of 0x20 bytes, a symbol table and its strings, which are the section names too: the answer
/// for `.t` has the function `f` and not the object `f`, and there is no section `.u`.
fn worked_answer()
    ensures { let file =
        (0 ∷ 0 ∷ 0 ∷ 1 ∷ 0 ∷ 0 ∷ 0 ∷ 1 ∷ 0 ∷ 0 ∷ 0 ∷ 6 ∷ 0 ∷ 0 ∷ 16 ∷ replicate 8 0 ++ (32 ∷ replicate 11 0 ++
        (1 ∷ replicate 11 0 ++ (2 ∷ replicate 11 0 ++ (120 ∷ 0 ∷ 0 ∷ 0 ∷ 32 ∷ 0 ∷ 0 ∷ 0 ∷ 2 ∷ replicate 7 0 ++
        (4 ∷ 0 ∷ 0 ∷ 0 ∷ 16 ∷ replicate 7 0 ++ (3 ∷ replicate 11 0 ++ (152 ∷ 0 ∷ 0 ∷ 0 ∷ 6 ∷ replicate 11 0 ++
        (1 ∷ replicate 7 0 ++ (4 ∷ 0 ∷ 0 ∷ 16 ∷ 0 ∷ 0 ∷ 0 ∷ 0 ∷ 16 ∷ 18 ∷ replicate 6 0 ++ (4 ∷ 0 ∷ 0 ∷ 16 ∷ 16
        ∷ 0 ∷ 0 ∷ 0 ∷ 8 ∷ 17 ∷ 0 ∷ 0 ∷ 0 ∷ 0 ∷ 46 ∷ 116 ∷ 0 ∷ 102 ∷ 0 ∷ []))))))))))) in
        let table : SectionTable = record { order = BigEndian; file = file; shoff = 0; shnum = 3; shstrndx = 2 } in
        (elf_answer elf32 table (codes ".t")
        ≡ Ok (record {
          entries = record { name = codes "f"; address = 0x1000; size = 16 } ∷ [];
          section_size = 0x20;
        })) × (elf_answer elf32 table (codes ".u") ≡ Err symbols_section_is_missing) }
{}
