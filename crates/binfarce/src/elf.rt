//! ELF files of either class (System V gABI).

ghost use Rattle.std.specs.Prelude.{◌≡◌, ◌<◌, ◌≤◌, length, nat_eq, None, Some, All, MatchResult};
ghost use Rattle.std.specs.Option.{option_map};
ghost use Rattle.std.specs.Result.{IsOk};
ghost use Rattle.binfarce_bytes.specs.Refusal.{Gives, refusal_of, unexpected_eof};
ghost use Rattle.binfarce_bytes.specs.Walk.{MayBeAsked, FirstAccepted, first};
ghost use Rattle.binfarce_bytes.specs.Entries.{Answers, ListsSome};
ghost use Rattle.binfarce_bytes.specs.Found.{entry_at};
ghost use Rattle.binfarce_bytes.specs.SymbolViews.{function_view};
ghost use Rattle.binfarce.specs.ElfFunctions.{functions_left, functions_view};
ghost use Rattle.binfarce.specs.Symbol.{HoldsSymbols};
ghost use Rattle.binfarce_elf.specs.Elf.{header_of, section_table, walk, name_of};
ghost use Rattle.binfarce_elf.specs.ElfSymbols.{is_named, section_data, elf_answer};
ghost use Rattle.binfarce_elf_memory.specs.ElfSelection.{listed_of, elf_selected, section_answer};
ghost use Rattle.binfarce_elf.specs.ElfViews.{header_view, section_view};
ghost use Rattle.binfarce_elf_memory.specs.SelectionViews.{selected_view, HoldsAllFunctions};
ghost use Rattle.binfarce_elf.specs.declared.symbol_table.SymbolTable.TheVariants.{Dynsym};

use crate::symbols::symbols_of_elf;
use binfarce_bytes::functions::{FunctionSymbol, SectionFunction};
use binfarce_bytes::{ByteOrder, ParseError};
use binfarce_elf::class::Class;
use binfarce_elf::header::{Header, parse_header};
use binfarce_elf::sections::{self, HasSections, Section, Sections, Table};
use binfarce_elf::symbol_table::SymbolTable;
use binfarce_elf::symbols;
use binfarce_elf_memory::ends::kind_of;
use binfarce_elf_memory::selection::{self, Functions as AllFunctions};
use binfarce_names::demangle::SymbolData;
use std::alloc::Global;
use std::marker::Model;

/// An ELF file of either class. It borrows the file's bytes.
#[derive(Drop)]
pub struct Elf<'a, C: Class> {
    data: &'a [u8],
    byte_order: ByteOrder,
    header: Header<C>,
}

impl<'a, C: Class> Model for Elf<'a, C> {
    ghost use Rattle.std.specs.Prelude.{◌≡◌};
    ghost use Rattle.binfarce_elf.specs.Elf.{ElfFile, header_of};
    ghost use Rattle.binfarce_elf.specs.ElfViews.{header_view};

    ghost Value = { ElfFile };

    ghost view = { λ e. record { order = e.byte_order; bytes = e.data.now } };

    ghost invariant = { λ e. header_view C.number_of e.header ≡ header_of C.table e.byte_order e.data.now };
}

/// Reads the file header in the given order. The magic number isn't checked.
pub fn parse<C: Class>(file: &[u8], byte_order: ByteOrder) -> Result<Elf<'_, C>, ParseError>
    ensures { MatchResult result
        (λ e. (C.table.header_length ≤ length file.now) × (e ≡ record { order = byte_order; bytes = file.now }))
        (λ e. (length file.now < C.table.header_length) × (refusal_of e ≡ unexpected_eof)) }
{
    let header = parse_header(file, byte_order)?;
    Ok(Elf {
        data: file,
        byte_order,
        header,
    })
}

impl<'a, C: Class> Elf<'a, C> {
    /// The file header, as it was read by `parse`.
    pub fn header(&self) -> Header<C>
        ensures { header_view C.number_of result ≡ header_of C.table self.now.order self.now.bytes }
    {
        self.header
    }

    /// The sections in file order, as `find_section` searches them. Each is read on demand.
    ///
    /// `UnexpectedEof` is the last item where the section header table doesn't begin in the file, or a header is
    /// truncated: as for `find_section` with a callback that always answers false.
    pub fn sections(&self) -> Sections<'a, C>
        ensures { result ≡ walk C.table (section_table C.table self.now) }
    {
        sections::sections_of::<C>(self.section_table())
    }

    /// The section's bytes, a slice of the file.
    ///
    /// The range is the one that the header states (`sh_offset`, `sh_size`). A section of type `SHT_NOBITS` has no
    /// bytes in the file (gABI, "Sections"): the bytes at its range have no meaning.
    ///
    /// # Errors
    ///
    /// `MalformedInput` if their end exceeds `usize`, `UnexpectedEof` if it lies past the file.
    pub fn section_bytes(&self, section: &Section<C>) -> Result<&'a [u8], ParseError>
        ensures { Gives refusal_of
            (λ b. b.now) (section_data self.now.bytes (section_view C.number_of section.now)) result }
    {
        sections::section_data::<C>(self.data, *section)
    }

    /// The first section that the callback accepts, in file order; `None` if it accepts none.
    ///
    /// A section header is read only if the callback has refused the sections before it.
    ///
    /// # Errors
    ///
    /// `UnexpectedEof` where the section header table doesn't begin in the file, or a header that is read is truncated.
    pub fn find_section<F: Fn(Section<C>) -> bool>(
        &self,
        callback: F,
    ) -> Result<Option<Section<C>>, ParseError>
        requires { All (MayBeAsked (section_view C.number_of) (F.pre callback))
            (walk C.table (section_table C.table self.now)).items }
        ensures { FirstAccepted refusal_of (section_view C.number_of) (F.post callback)
            (walk C.table (section_table C.table self.now)) result }
    {
        Ok(sections::first_section::<C, F>(self.section_table(), callback)?)
    }

    /// The first section with this name.
    ///
    /// # Errors
    ///
    /// Those of `find_section`.
    pub fn section_with_name(&self, name: &str) -> Result<Option<Section<C>>, ParseError>
        ensures { let table = section_table C.table self.now in Gives refusal_of (option_map (section_view C.number_of))
            (first (λ s. is_named name.now (name_of C.table table s)) (walk C.table table)) result }
    {
        Ok(sections::section_with_name::<C>(self.section_table(), name)?)
    }

    /// The section of this index in the section header table, counted from 0; `None` if there are fewer.
    ///
    /// # Errors
    ///
    /// Those of `find_section`.
    pub fn section_with_index(&self, index: u32) -> Result<Option<Section<C>>, ParseError>
        ensures { let table = section_table C.table self.now in Gives refusal_of (option_map (section_view C.number_of))
            (first (λ s. nat_eq s.index index) (walk C.table table)) result }
    {
        Ok(symbols::section_of_index::<C>(self.section_table(), index)?)
    }

    /// The function symbols of the section with this name as the file stores them, in the order of the symbol table,
    /// and the section's size in bytes. Nothing is allocated, and names stay mangled.
    ///
    /// It keeps rows of type function (`STT_FUNC`) that name the section by its index, and have a size and a name.
    ///
    /// # Errors
    ///
    /// In this order: those of `find_section`; `SymbolsSectionIsMissing`; `SectionIsMissing` of `.symtab` (the first
    /// section of type 2, `SHT_SYMTAB`) and of `.strtab` (the section that it links to); `UnexpectedSectionType` if
    /// that isn't of type 3 (`SHT_STRTAB`); `MalformedInput` if the string table's bytes end past `usize`, and
    /// `UnexpectedEof` past the file; the same for the symbol table's bytes; `UnexpectedEof` for a truncated last row.
    pub fn functions(&self, section_name: &str) -> Result<(Functions<'a>, u64), ParseError>
        ensures { Gives refusal_of functions_view
            (elf_answer C.table (section_table C.table self.now) section_name.now) result }
    {
        self.functions_by(SymbolTable::Symtab, section_name)
    }

    /// The same functions from the dynamic symbol table, which a stripped file still has; and indirect functions
    /// (`STT_GNU_IFUNC`), such as `strlen` of a C library.
    ///
    /// # Errors
    ///
    /// Those of `functions`, but `SectionIsMissing` is of `.dynsym` (the first section of type 11, `SHT_DYNSYM`) and of
    /// `.dynstr` (the section that it links to).
    pub fn dynamic_functions(&self, section_name: &str) -> Result<(Functions<'a>, u64), ParseError>
        ensures { Gives refusal_of functions_view
            (section_answer Dynsym C.table (section_table C.table self.now) section_name.now) result }
    {
        self.functions_by(SymbolTable::Dynsym, section_name)
    }

    // The function symbols of the section with this name by this symbol table, and the section's size.
    #[tactic(auto, unfolding(binfarce_elf_memory::specs::ElfSelection::section_answer))]
    fn functions_by(
        &self,
        which: SymbolTable,
        name: &str,
    ) -> Result<(Functions<'a>, u64), ParseError>
        ensures { Gives refusal_of functions_view
            (section_answer which C.table (section_table C.table self.now) name.now) result }
    {
        let functions = self.section_functions(which, name)?;
        Ok(of_section(functions))
    }

    /// The function symbols of all sections, each with the index of its section, at their addresses and with their sizes
    /// in memory: a list in the order of this symbol table. Names stay mangled.
    ///
    /// It keeps rows of type function (`STT_FUNC`, `STT_GNU_IFUNC`) that have a name: none without a section
    /// (`SHN_UNDEF`), and none with a reserved index such as `SHN_ABS`. A function of size 0, such as `_start`, ends at
    /// the next greater address of a symbol of its section, or with the section. In a file for Arm or MIPS (`EM_ARM`,
    /// `EM_MIPS`) bit 0 of a function's value is its instruction set, and is cleared. In a file for 64-bit PowerPC of ABI
    /// version 1 that is no object, a function whose symbol is in `.opd` has the address in its descriptor, in the section
    /// of code that holds this; one without either is left out.
    ///
    /// # Errors
    ///
    /// In this order: `UnexpectedEof` where the section header table doesn't begin in the file, or a section header is
    /// truncated; those of `functions`, or `dynamic_functions`, from the missing symbol table on; `OutOfMemory` if an
    /// allocation failed.
    #[tactic(auto, unfolding(binfarce_elf::specs::Elf::section_table))]
    pub fn all_functions(
        &self,
        alloc: Global,
        which: SymbolTable,
    ) -> Result<Vec<SectionFunction<'a>>, ParseError>
        ensures { Answers HoldsAllFunctions IsOk
            (elf_selected which C.table (section_table C.table self.now) None) result }
    {
        selection::all_functions::<C>(alloc, self.section_table(), kind_of(&self.header), which)
    }

    /// The function symbols of a section as `functions` or `dynamic_functions` gives them, each with the section's
    /// index, by this symbol table. Nothing is allocated.
    ///
    /// # Errors
    ///
    /// Those of these calls.
    pub fn section_functions(
        &self,
        which: SymbolTable,
        name: &str,
    ) -> Result<AllFunctions<'a>, ParseError>
        ensures { Gives refusal_of selected_view
            (elf_selected which C.table (section_table C.table self.now) (Some name.now)) result }
    {
        selection::section_functions::<C>(self.section_table(), which, name)
    }

    /// The functions of the symbol table as symbols with readable names, and the section's size in bytes.
    ///
    /// # Errors
    ///
    /// Those of `functions`, and `OutOfMemory` if an allocation failed; an empty list allocates nothing.
    pub fn symbols(
        &self,
        alloc: Global,
        section_name: &str,
    ) -> Result<(Vec<SymbolData>, u64), ParseError>
        ensures { Answers HoldsSymbols ListsSome
            (elf_answer C.table (section_table C.table self.now) section_name.now) result }
    {
        let (functions, size) = self.functions(section_name)?;
        Ok((symbols_of_elf(alloc, functions.all)?, size))
    }

    /// The functions of the dynamic symbol table as symbols with readable names, and the section's size in bytes.
    ///
    /// # Errors
    ///
    /// Those of `dynamic_functions`, and `OutOfMemory` if an allocation failed; an empty list allocates nothing.
    pub fn dynamic_symbols(
        &self,
        alloc: Global,
        section_name: &str,
    ) -> Result<(Vec<SymbolData>, u64), ParseError>
        ensures { Answers HoldsSymbols ListsSome
            (section_answer Dynsym C.table (section_table C.table self.now) section_name.now) result }
    {
        let (functions, size) = self.dynamic_functions(section_name)?;
        let symbols = symbols_of_elf(alloc, functions.all)?;
        Ok((symbols, size))
    }

    /// The file's bytes, as given to `parse`.
    pub fn data(&self) -> &'a [u8]
        ensures { result.now ≡ self.now.bytes }
    {
        self.data
    }
}

impl<'a, C: Class> HasSections<'a, C> for Elf<'a, C> {
    ghost file = { λ e. e };

    fn section_table(&self) -> Table<'a> {
        sections::section_table(self.data, self.byte_order, &self.header)
    }
}

// The functions of one section, and its size.
fn of_section(all: AllFunctions<'_>) -> (Functions<'_>, u64)
    ensures { functions_view result ≡ listed_of (selected_view all.entry) }
{
    let size = all.section_size().unwrap_or(0);
    (Functions { all }, size)
}

/// An iterator over the function symbols of a section, in the order of the symbol table.
///
/// Rows are read on demand, and names stay in the file: nothing is allocated or copied.
#[must_use = "iterators are lazy and do nothing unless consumed"]
#[derive(Clone, Drop)]
pub struct Functions<'a> {
    pub(crate) all: AllFunctions<'a>,
}

impl<'a> Functions<'a> {
    /// The function symbol that an address symbolizes to, among those that are left: of those whose range holds it the
    /// one of greatest address, and of several the first. `None` if no range holds it.
    ///
    /// A range begins at the symbol's address (`st_value`) and has its size in bytes. Each row that is left is read
    /// once; nothing is allocated or copied.
    pub fn symbol_at(self, address: u64) -> Option<FunctionSymbol<'a>>
        ensures { option_map function_view result ≡ entry_at (functions_left self.entry) address }
    {
        self.all.symbol_at(address)
    }
}

impl<'a> Iterator for Functions<'a> {
    ghost use Rattle.std.specs.Iterator.{YieldsFirstBy, item_count};
    ghost use Rattle.binfarce_bytes.specs.SymbolViews.{function_view};
    ghost use Rattle.binfarce.specs.ElfFunctions.{functions_left};

    type Item = FunctionSymbol<'a>;

    ghost next_gives = { YieldsFirstBy function_view functions_left };

    ghost remaining = { item_count functions_left };

    #[inline(always)]
    fn next(&mut self) -> Option<FunctionSymbol<'a>> {
        Some(self.all.next()?.function)
    }
}
