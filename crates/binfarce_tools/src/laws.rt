//! Laws of answers, proved from the definitions. Worked examples, computed from the definitions alone.

ghost use Rattle.std.specs.Prelude.{◌≡◌, ◌++◌, [], ◌∷◌, replicate, Option, Some, None, is_some, true, false, Ok, Err, List, ℕ};
ghost use Rattle.binfarce.specs.declared.ByteOrder.TheVariants.{LittleEndian};
ghost use Rattle.binfarce.specs.Refusal.{symbols_section_is_missing, malformed_input, unexpected_eof};
ghost use Rattle.binfarce.specs.SectionEntries.{SelectedSymbols};
ghost use Rattle.binfarce.specs.Elf.{elf32, elf64};
ghost use Rattle.binfarce.specs.ElfSelection as elf;
ghost use Rattle.binfarce.specs.ElfSelection.{section_file_answer};
ghost use Rattle.binfarce.specs.ElfSymbols.{elf_file_answer};
ghost use Rattle.binfarce.specs.MachoSymbols.{macho_file_answer};
ghost use Rattle.binfarce.specs.PeSymbols.{pe_file_answer};
ghost use Rattle.binfarce.specs.declared.SymbolTable.{SymbolTable};
ghost use Rattle.binfarce.specs.declared.SymbolTable.TheVariants.{Symtab};
ghost use Rattle.binfarce_bytes.specs.Part.{part};
ghost use Rattle.binfarce_tables.specs.ElfReads.{elf_parts, headers_size};
ghost use Rattle.binfarce_tables.specs.MachoReads.{macho_parts};
ghost use Rattle.binfarce_tables.specs.PeReads.{pe_parts};
ghost use Rattle.binfarce.specs.Symbol.{AreSymbolsOf, Listed};
ghost use Rattle.binfarce_tools.specs.Answer.{one_list, selected_answer};
ghost use Rattle.binfarce_tools.specs.SectionAnswer.{IsListingOf, IsReportOf};
ghost use Rattle.binfarce_tools.specs.machine.Symbols.{IsReportOfSymbols, symbols_listing};

use binfarce::ByteOrder;
use binfarce::demangle::SymbolData;

/// The answer of an ELF file for a section, as one list with the section's size, is the one of its reader. That for a
/// section of any file has a size, and its sections share no addresses; that for all sections has no size.
pub fn sections_are_selected(file: &[u8], byte_order: ByteOrder, section: &str)
    ensures of_elf32 { elf_file_answer elf32 byte_order file.now section.now
        ≡ one_list (elf.selected_file_answer Symtab elf32 byte_order file.now (Some section.now)) }
    ensures of_elf64 { elf_file_answer elf64 byte_order file.now section.now
        ≡ one_list (elf.selected_file_answer Symtab elf64 byte_order file.now (Some section.now)) }
    ensures of_either_32 { (which : SymbolTable) → section_file_answer which elf32 byte_order file.now section.now
        ≡ one_list (elf.selected_file_answer which elf32 byte_order file.now (Some section.now)) }
    ensures of_either_64 { (which : SymbolTable) → section_file_answer which elf64 byte_order file.now section.now
        ≡ one_list (elf.selected_file_answer which elf64 byte_order file.now (Some section.now)) }
    ensures sized { (which : SymbolTable) (selection : Option (List ℕ)) (selected : SelectedSymbols)
        → selected_answer which selection file.now ≡ Some (Ok selected)
        → (is_some selected.section_size ≡ is_some selection)
        × (is_some selection ≡ true → selected.shares_addresses ≡ false) }
{
    let _ = file;
    let _ = byte_order;
    let _ = section;
}

/// The section headers of a table at 2 that has three by its count: all three, and two where the file ends in the
/// third.
#[tactic(auto, unfolding(binfarce_elf::specs::Elf::elf32))]
fn worked_sizes()
    ensures whole { headers_size elf32
        (record { order = LittleEndian; file = replicate 130 0; shoff = 2; shnum = 3; shstrndx = 0 }) ≡ 120 }
    ensures truncated { headers_size elf32
        (record { order = LittleEndian; file = replicate 121 0; shoff = 2; shnum = 3; shstrndx = 0 }) ≡ 80 }
{}

/// Every byte of a header counts: two headers that differ in the last byte of `shoff` alone.
#[tactic(auto, unfolding(binfarce_elf::specs::Elf::elf32, binfarce_elf::specs::Elf::section_table, binfarce_elf::specs::Elf::header_of, binfarce_elf::specs::Elf::walk, binfarce_elf::specs::ElfSymbols::elf_answer, binfarce_bytes::proofs::Computing::computing))]
fn worked_answers()
    ensures no_sections { elf_file_answer elf32 LittleEndian (replicate 52 0) (0x66 ∷ [])
        ≡ Err symbols_section_is_missing }
    ensures past_the_end { elf_file_answer elf32 LittleEndian (replicate 35 0 ++ 1 ∷ replicate 16 0)
        (0x66 ∷ [])
        ≡ Err unexpected_eof }
{}

/// As `worked_answers`, for Mach-O and PE: two counts of load commands, and two headers that differ in the last byte of
/// the size of the optional header.
#[tactic(auto, unfolding(binfarce_macho::specs::Macho::header_fields, binfarce_macho::specs::Macho::header_of, binfarce_macho::specs::Macho::commands_from, binfarce_macho::specs::Macho::sections_of, binfarce_macho::specs::Macho::walk, binfarce_macho::specs::MachoSymbols::macho_answer, binfarce_macho::specs::MachoSymbols::located, binfarce_pe::specs::Pe::header_fields, binfarce_pe::specs::Pe::header_after, binfarce_pe::specs::Pe::walk, binfarce_pe::specs::PeSymbols::pe_answer, binfarce_bytes::proofs::Computing::computing))]
fn worked_other_answers()
    ensures no_command { macho_file_answer (replicate 40 0) ≡ Err symbols_section_is_missing }
    ensures refused_command { macho_file_answer (replicate 16 0 ++ 1 ∷ replicate 23 0) ≡ Err malformed_input }
    ensures no_section { pe_file_answer (replicate 64 0) ≡ Err symbols_section_is_missing }
    ensures past_the_end { pe_file_answer (replicate 21 0 ++ 1 ∷ replicate 42 0) ≡ Err unexpected_eof }
{}

/// The parts of a file of 52 bytes that states a section header table without headers at its beginning: the file
/// header, the section header of the section names, which is whole there, the section names, which are empty, and the
/// table's first byte.
#[tactic(auto, unfolding(binfarce_tables::specs::ElfReads::elf_parts, binfarce_tables::specs::ElfReads::elf_section_parts, binfarce_tables::specs::ElfReads::names_parts, binfarce_tables::specs::ElfReads::headers_parts, binfarce_tables::specs::ElfReads::found_parts, binfarce_elf::specs::Elf::elf32, binfarce_elf::specs::Elf::section_table, binfarce_elf::specs::Elf::header_of, binfarce_elf::specs::Elf::section_at, binfarce_elf::specs::Elf::walk, binfarce_elf::specs::SymbolTables::table_sections, binfarce_bytes::proofs::Computing::computing))]
fn worked_elf_parts()
    ensures { elf_parts Symtab elf32 LittleEndian (replicate 52 0)
        ≡ part 0 52 ∷ part 0 40 ∷ part 0 0 ∷ part 0 1 ∷ [] }
{}

/// The parts of a file with one load command, a symbol table's of 24 bytes: its strings lie in the file, or end past
/// it, or the header states that the commands have 23 bytes, and the whole file is read.
#[tactic(auto, unfolding(binfarce_tables::specs::MachoReads::macho_section_parts, binfarce_tables::specs::MachoReads::macho_parts, binfarce_macho::specs::MachoParts::holds_from, binfarce_macho::specs::Macho::header_fields, binfarce_macho::specs::Macho::header_of, binfarce_macho::specs::Macho::commands_from, binfarce_macho::specs::MachoSymbols::symbol_table_fields, binfarce_macho::specs::MachoSymbols::symbol_table_at, binfarce_bytes::proofs::Computing::computing))]
fn worked_macho_parts()
    ensures symbol_table { macho_parts
        (replicate 16 0 ++ 1 ∷ 0 ∷ 0 ∷ 0 ∷ 24 ∷ replicate 11 0 ++ 2 ∷ 0 ∷ 0 ∷ 0 ∷ 24 ∷ 0 ∷ 0 ∷ 0 ∷ 56 ∷ 0 ∷ 0 ∷ 0
        ∷ 1 ∷ 0 ∷ 0 ∷ 0 ∷ 72 ∷ 0 ∷ 0 ∷ 0 ∷ 4 ∷ 0 ∷ 0 ∷ 0 ∷ replicate 20 0)
        ≡ part 0 28 ∷ part 0 56 ∷ part 72 4 ∷ part 56 16 ∷ [] }
    ensures truncated_strings { macho_parts
        (replicate 16 0 ++ 1 ∷ 0 ∷ 0 ∷ 0 ∷ 24 ∷ replicate 11 0 ++ 2 ∷ 0 ∷ 0 ∷ 0 ∷ 24 ∷ 0 ∷ 0 ∷ 0 ∷ 56 ∷ 0 ∷ 0 ∷ 0
        ∷ 1 ∷ 0 ∷ 0 ∷ 0 ∷ 72 ∷ 0 ∷ 0 ∷ 0 ∷ 4 ∷ 0 ∷ 0 ∷ 0 ∷ replicate 19 0)
        ≡ part 0 28 ∷ part 0 56 ∷ part 56 16 ∷ [] }
    ensures past_the_end { macho_parts
        (replicate 16 0 ++ 1 ∷ 0 ∷ 0 ∷ 0 ∷ 23 ∷ replicate 11 0 ++ 2 ∷ 0 ∷ 0 ∷ 0 ∷ 24 ∷ 0 ∷ 0 ∷ 0 ∷ 56 ∷ 0 ∷ 0 ∷ 0
        ∷ 1 ∷ 0 ∷ 0 ∷ 0 ∷ 72 ∷ 0 ∷ 0 ∷ 0 ∷ 4 ∷ 0 ∷ 0 ∷ 0 ∷ replicate 20 0)
        ≡ part 0 28 ∷ part 0 55 ∷ part 0 76 ∷ part 72 4 ∷ part 56 16 ∷ [] }
{}

/// The parts of a file with one section header right after the file header, and a symbol table of one record at 112:
/// that with a string byte after it, or cut off in it. Last, of a file without sections, with an optional header of 40
/// bytes.
#[tactic(auto, unfolding(binfarce_tables::specs::PeReads::pe_parts, binfarce_pe::specs::Pe::header_fields, binfarce_pe::specs::Pe::header_after, binfarce_bytes::proofs::Computing::computing))]
fn worked_pe_parts()
    ensures whole { pe_parts
        (replicate 60 0 ++ 64 ∷ replicate 9 0 ++ 1 ∷ replicate 5 0 ++ 112 ∷ 0 ∷ 0 ∷ 0 ∷ 1 ∷ replicate 50 0)
        ≡ part 60 4 ∷ part 64 24 ∷ part 88 40 ∷ part 88 0 ∷ part 112 18 ∷ part 130 1 ∷ [] }
    ensures truncated { pe_parts
        (replicate 60 0 ++ 64 ∷ replicate 9 0 ++ 1 ∷ replicate 5 0 ++ 112 ∷ 0 ∷ 0 ∷ 0 ∷ 1 ∷ replicate 48 0)
        ≡ part 60 4 ∷ part 64 24 ∷ part 88 40 ∷ part 88 0 ∷ [] }
    ensures optional_header { pe_parts
        (replicate 60 0 ++ 64 ∷ replicate 23 0 ++ 40 ∷ replicate 50 0)
        ≡ part 60 4 ∷ part 64 24 ∷ part 128 0 ∷ part 88 32 ∷ part 0 0 ∷ part 0 135 ∷ [] }
{}

/// The lines of the symbols of an answer are its listing, and the report of their shares is its report.
#[tactic(auto, using(crate::proofs::SymbolLaws::listing_of_symbols))]
fn symbols_list_and_report(symbols: &[SymbolData], size: u64)
    ensures listing { (listed : Listed) → AreSymbolsOf listed.entries symbols.now → listed.section_size ≡ size
        → IsListingOf listed (symbols_listing symbols.now size) }
    ensures report { (listed : Listed) (text : List ℕ) → AreSymbolsOf listed.entries symbols.now
        → listed.section_size ≡ size → IsReportOfSymbols symbols.now size text → IsReportOf listed text }
{
    let _ = symbols;
    let _ = size;
}
