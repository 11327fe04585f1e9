//! The tables of a file's function symbols, read from a source.

ghost use Rattle.std.specs.Prelude.{◌≡◌, ◌≢◌, ℕ, List, true, false, Option, Ok, Some, None, IfErr, IfOk, MatchResult, codes};
ghost use Rattle.std.specs.Option.{option_map};
ghost use Rattle.binfarce.specs.SelectionViews.{version_names};
ghost use Rattle.binfarce.specs.Refusal.{refusal_of, section_is_missing};
ghost use Rattle.binfarce.specs.SectionEntries.{SelectedSymbols};
ghost use Rattle.binfarce.specs.declared.SymbolTable.{SymbolTable};
ghost use Rattle.binfarce.specs.declared.SymbolTable.TheVariants.{Symtab, Dynsym};
ghost use Rattle.binfarce.specs.Format.{format_of};
ghost use Rattle.binfarce_bytes.specs.Source.{ReadsOnly};
ghost use Rattle.binfarce_tables.specs.declared.error.ReadError.TheVariants.{Unreadable};
ghost use Rattle.binfarce_tools.specs.Answer.{selected_answer};
ghost use Rattle.binfarce_tools.specs.Entries.{GetsIn};
ghost use Rattle.binfarce_tools.specs.Parts.{format_parts, parts_in};
ghost use Rattle.binfarce_bytes.specs.Selection.{section_of};
ghost use Rattle.binfarce_tools.specs.declared.list.ListError.TheVariants.{Write};
ghost use Rattle.binfarce_tools.specs.Tables.{AcceptsTables, AreTablesOf, ReadsTables, is_whole, may_be_refused, section_names, shares_addresses_of, version_names_of};

use crate::functions::{Selected, listed, of_elf, section_functions, section_lent};
use crate::list::ListError;
use binfarce::{Format, ParseError, SectionFunction, SymbolTable};
pub use binfarce_bytes::functions::Selection;
use binfarce_bytes::source::Source;
use binfarce_tables::format::read_format;
use binfarce_tables::{ReadError, VersionNames, Width, elf, macho, pe};
use std::alloc::Global;

/// The tables of a file for the function symbols of a selection: those that were read, a whole file in memory, or what
/// was made of either.
#[derive(Drop)]
pub enum Tables<'a> {
    /// The parts of an ELF file.
    Elf(elf::Parts),
    /// The parts of a Mach-O file.
    Macho(macho::Parts),
    /// The parts of a PE file.
    Pe(pe::Parts),
    /// Nothing: the file's first bytes name no supported format.
    Unknown,
    /// All bytes of a file, and the section.
    Whole {
        file: &'a [u8],
        section: &'a str,
    },
    /// The function symbols of a section, which were made before, its size, and the names of their versions.
    Made {
        functions: Vec<SectionFunction<'a>>,
        size: u64,
        versions: VersionNames<'a>,
    },
}

impl<'a> Tables<'a> {
    /// The tables of a file in memory for a section, by the symbol table. Nothing is read yet.
    #[tactic(auto, unfolding(crate::specs::Tables::AreTablesOf))]
    pub fn whole(file: &'a [u8], section: &'a str) -> Tables<'a>
        ensures { AreTablesOf Symtab file.entry.now (Some section.entry.now) result }
    {
        Self::Whole { file, section }
    }

    /// The tables, unless their function symbols are refused: then `functions` fails only if an allocation does.
    /// Those of a file read at offsets are refused if its format is unknown.
    ///
    /// # Errors
    ///
    /// Those of `functions`.
    pub fn accepted(self, alloc: Global) -> Result<Tables<'a>, ListError>
        ensures { (which : SymbolTable) (file : List ℕ) (section : Option (List ℕ))
            → AreTablesOf which file section self.entry → AcceptsTables which file section result }
    {
        if self.may_be_refused() {
            self.functions(alloc)?;
        }
        Ok(self)
    }

    // Whether the function symbols may be refused: those that were read or made of an answer aren't.
    fn may_be_refused(&self) -> bool
        ensures { result ≡ may_be_refused self.now }
    {
        match self {
            Tables::Unknown | Tables::Whole { .. } => true,
            _ => false,
        }
    }

    /// The function symbols that the tables were read for, by the symbol table that they were read by. Those of a
    /// section are, for the symbol table, the answer of `functions_of_file`, and those of all sections that of
    /// `all_functions` of a reader.
    ///
    /// # Errors
    ///
    /// Those of `functions_of_file`; `Parse` only of a whole file.
    #[tactic(auto, unfolding(crate::specs::Tables::AreTablesOf))]
    pub fn functions(&self, alloc: Global) -> Result<Selected<'_>, ListError>
        ensures gets { (which : SymbolTable) (file : List ℕ) (section : Option (List ℕ))
            → AreTablesOf which file section self.entry.now → GetsIn which file section result }
        ensures unwritten { IfErr result (λ e. e ≢ Write) }
    {
        match self {
            Tables::Elf(parts) => Ok(of_elf(parts.functions())),
            Tables::Macho(parts) => Ok(listed(parts.functions(alloc)?, parts.section_size())),
            Tables::Pe(parts) => Ok(listed(parts.functions(alloc)?, parts.section_size())),
            Tables::Unknown => Err(ListError::Unknown),
            Tables::Whole { file, section } => section_functions(alloc, file, section),
            Tables::Made {
                functions,
                size,
                ..
            } => Ok(section_lent(functions, *size)),
        }
    }

    /// The name of the section of this number, a slice of the tables. `None` if there is no such section, where it
    /// has no valid name, and where the tables are those of a whole file, or were made.
    pub fn section_name(&self, number: u32) -> Option<&str>
        ensures read { option_map (λ t. t.now) result ≡ section_names self.entry.now number }
        ensures file { (which : SymbolTable) (file : List ℕ) (section : Option (List ℕ))
            (selected : SelectedSymbols)
            → AreTablesOf which file section self.entry.now
            → selected_answer which section file ≡ Some (Ok selected) → selected.section_size ≡ None
            → option_map (λ t. t.now) result ≡ selected.section_name number }
    {
        self.name_read(number)
    }

    fn name_read(&self, number: u32) -> Option<&str>
        ensures { option_map (λ t. t.now) result ≡ section_names self.entry.now number }
    {
        match self {
            Tables::Elf(parts) => parts.section_name(number),
            Tables::Macho(parts) => parts.section_name(number),
            Tables::Pe(parts) => parts.section_name(number),
            _ => None,
        }
    }

    /// The names of the versions that the function symbols have: those that an ELF file defines for its dynamic symbols.
    /// They borrow the tables.
    pub fn version_names(&self) -> VersionNames<'_>
        ensures read { (version : ℕ) → version_names result version ≡ version_names_of self.entry.now version }
        ensures file { (which : SymbolTable) (file : List ℕ) (section : Option (List ℕ))
            (selected : SelectedSymbols)
            → AreTablesOf which file section self.entry.now
            → selected_answer which section file ≡ Some (Ok selected)
            → (version : ℕ) → version_names result version ≡ selected.version_name version }
    {
        self.versions_read()
    }

    fn versions_read(&self) -> VersionNames<'_>
        ensures { (version : ℕ) → version_names result version ≡ version_names_of self.entry.now version }
    {
        match self {
            Tables::Elf(parts) => parts.version_names(),
            Tables::Made { versions, .. } => *versions,
            _ => VersionNames {
                offsets: None,
                strings: &[],
            },
        }
    }

    /// Whether the sections that the tables were read for share addresses: all sections of an ELF object file
    /// (`ET_REL`), and of a PE file without an image base, do, whose addresses are offsets in a section.
    pub fn shares_addresses(&self) -> bool
        ensures { (which : SymbolTable) (file : List ℕ) (section : Option (List ℕ)) (selected : SelectedSymbols)
            → AreTablesOf which file section self.now → selected_answer which section file ≡ Some (Ok selected)
            → result ≡ selected.shares_addresses }
    {
        self.sharing_read()
    }

    fn sharing_read(&self) -> bool
        ensures { result ≡ shares_addresses_of self.now }
    {
        match self {
            Tables::Elf(parts) => parts.shares_addresses(),
            Tables::Pe(parts) => parts.shares_addresses(),
            _ => false,
        }
    }
}

/// Reads the tables of a file for the function symbols of a selection, by this symbol table: its first 8 bytes, which
/// name its format, and the parts that `binfarce_tables` reads of a file of that format. Of a file of an unknown format
/// no other byte is read. Each part that is kept takes no more memory than the file has bytes of it; of the versions of
/// dynamic symbols the offsets of names are kept, at most 32,768.
///
/// # Errors
///
/// `Refused` with the error of the format's reader, and `SectionIsMissing` of `.dynsym` for the dynamic symbol table of
/// a Mach-O or PE file; `Unreadable` if the source can't be read at offsets, or a read of it fails, and never for a
/// source that can't fail, such as bytes in memory; `OutOfMemory` if an allocation fails.
pub fn read<S: Source>(
    alloc: Global,
    source: &S,
    log: &mut S::Log,
    which: SymbolTable,
    selection: Selection<'_>,
) -> Result<Tables<'static>, ReadError>
    ensures answer { (file : List ℕ) → S.bytes source.now ≡ Some file
        → ReadsTables (S.may_fail source.now ≡ true) which file (section_of selection.entry) result }
    ensures parts { IfOk result (λ tables. is_whole tables ≡ false) }
    ensures only { (file : List ℕ) → S.bytes source.now ≡ Some file
        → ReadsOnly (S.is_sure source.now) (S.logs_only log.old) (S.logs_only log.new)
        (parts_in which file) (IfErr result (λ e. e ≢ Unreadable)) }
{
    let format = read_format(alloc, source, log)?;
    read_tables(alloc, source, log, format, which, selection)
}

/// As `read`, of a file that has this format: its first 8 bytes aren't read for it.
///
/// # Errors
///
/// Those of `read`.
pub fn read_tables<S: Source>(
    alloc: Global,
    source: &S,
    log: &mut S::Log,
    format: Format,
    which: SymbolTable,
    selection: Selection<'_>,
) -> Result<Tables<'static>, ReadError>
    ensures answer { (file : List ℕ) → S.bytes source.now ≡ Some file → format ≡ format_of file
        → ReadsTables (S.may_fail source.now ≡ true) which file (section_of selection.entry) result }
    ensures parts { IfOk result (λ tables. is_whole tables ≡ false) }
    ensures only { (file : List ℕ) → S.bytes source.now ≡ Some file
        → ReadsOnly (S.is_sure source.now) (S.logs_only log.old) (S.logs_only log.new)
        (format_parts which format file) (IfErr result (λ e. e ≢ Unreadable)) }
{
    match format {
        Format::Elf32 { byte_order } => {
            let parts = elf::read(
                alloc,
                source,
                log,
                Width::Bits32,
                byte_order,
                which,
                selection,
            )?;
            Ok(Tables::Elf(parts))
        }
        Format::Elf64 { byte_order } => {
            let parts = elf::read(
                alloc,
                source,
                log,
                Width::Bits64,
                byte_order,
                which,
                selection,
            )?;
            Ok(Tables::Elf(parts))
        }
        Format::Macho => {
            has_table(which)?;
            let parts = macho::read(alloc, source, log, selection)?;
            Ok(Tables::Macho(parts))
        }
        Format::PE => {
            has_table(which)?;
            let parts = pe::read(alloc, source, log, selection)?;
            Ok(Tables::Pe(parts))
        }
        Format::Unknown => Ok(Tables::Unknown),
    }
}

// Whether a Mach-O or PE file has this symbol table: none has a dynamic one.
fn has_table(which: SymbolTable) -> Result<(), ParseError>
    ensures { MatchResult result
        (λ _. which ≡ Symtab)
        (λ e. (which ≡ Dynsym) × (refusal_of e ≡ section_is_missing (codes ".dynsym"))) }
{
    match which {
        SymbolTable::Symtab => Ok(()),
        SymbolTable::Dynsym => Err(ParseError::SectionIsMissing(which.name())),
    }
}
