//! The function symbols of a file of any format.

ghost use Rattle.std.specs.Prelude.{◌≡◌, length, map, nat_eq, Some};
ghost use Rattle.std.specs.Iterator.{YieldsFirstBy};
ghost use Rattle.binfarce.specs.ElfSelection.{selected_file_answer, size_taken};
ghost use Rattle.binfarce.specs.SelectionViews.{selected_view};
ghost use Rattle.binfarce.specs.MachoSections.{HasSection};
ghost use Rattle.binfarce.specs.MachoSelection as macho_selection;
ghost use Rattle.binfarce.specs.MachoSymbols.{macho_file_answer, HasAddress};
ghost use Rattle.binfarce.specs.PeSelection as pe_selection;
ghost use Rattle.binfarce.specs.PeSymbols.{pe_file_answer};
ghost use Rattle.binfarce.specs.SectionEntries.{SelectsSome};
ghost use Rattle.binfarce.specs.Symbol.{Answers, ListsSome};
ghost use Rattle.binfarce.specs.SymbolViews.{section_function_view};
ghost use Rattle.binfarce.specs.declared.SymbolTable.TheVariants.{Symtab};
ghost use Rattle.binfarce_tools.specs.Answer.{file_answer, MemoryIn};
ghost use Rattle.binfarce_tools.specs.Entries.{all_left, arranged_left, lent_left, functions_left, HoldsLeft, HoldsListed, HoldsText, GetsAs, GetsIn};
ghost use Rattle.binfarce_tools.specs.SectionAnswer.{readers_answer, NeedsMemory};

use crate::list::ListError;
use binfarce::{
    ByteOrder, Format, FunctionSymbol, ParseError, SectionFunction, SymbolTable, detect_format,
    macho, pe,
};
use binfarce_bytes::functions::Selection;
use binfarce_elf::class::Class;
use binfarce_elf::header::parse_header;
use binfarce_elf::sections::section_table;
use binfarce_elf_memory::selection;
use binfarce_macho::{functions as macho_functions, header as macho_header};
use binfarce_pe::parts::places_after;
use binfarce_pe::{functions as pe_functions, header as pe_header};
use std::alloc::Global;

/// An iterator over the function symbols of a file, in the order of its listing.
#[derive(Drop)]
pub struct Functions<'a> {
    /// The function symbols with their sections.
    pub all: AllFunctions<'a>,
}

impl<'a> Iterator for Functions<'a> {
    ghost use Rattle.std.specs.Iterator.{YieldsFirstBy, item_count};
    ghost use Rattle.binfarce.specs.SymbolViews.{function_view};
    ghost use Rattle.binfarce_tools.specs.Entries.{functions_left};

    type Item = FunctionSymbol<'a>;

    ghost next_gives = { YieldsFirstBy function_view functions_left };

    ghost remaining = { item_count functions_left };

    fn next(&mut self) -> Option<FunctionSymbol<'a>> {
        Some(self.all.next()?.function)
    }
}

/// An iterator over the function symbols of a selection with their sections, in the order of the listing.
#[derive(Drop)]
pub enum AllFunctions<'a> {
    Elf(selection::Functions<'a>),
    Arranged(Arranged<'a>),
    Lent(Lent<'a>),
}

/// The function symbols of a list with their sections, from an index on.
#[derive(Drop)]
pub struct Arranged<'a> {
    functions: Vec<SectionFunction<'a>>,
    next: usize,
}

/// The function symbols of a list that another value owns, from an index on: so tables made once serve several readings.
#[derive(Drop)]
pub struct Lent<'a> {
    functions: &'a [SectionFunction<'a>],
    next: usize,
}

impl<'a> Iterator for AllFunctions<'a> {
    ghost use Rattle.std.specs.Iterator.{YieldsFirstBy, item_count};
    ghost use Rattle.binfarce.specs.SymbolViews.{section_function_view};
    ghost use Rattle.binfarce_tools.specs.Entries.{all_left};

    type Item = SectionFunction<'a>;

    ghost next_gives = { YieldsFirstBy section_function_view all_left };

    ghost remaining = { item_count all_left };

    fn next(&mut self) -> Option<SectionFunction<'a>> {
        match self {
            AllFunctions::Elf(functions) => functions.next(),
            AllFunctions::Arranged(functions) => functions.next(),
            AllFunctions::Lent(functions) => functions.next(),
        }
    }
}

impl AllFunctions<'_> {
    /// Whether none is left. At most one is read.
    pub fn is_empty(&self) -> bool
        ensures { result ≡ nat_eq (length (all_left self.now)) 0 }
    {
        match self {
            AllFunctions::Elf(functions) => functions.is_empty(),
            AllFunctions::Arranged(functions) => functions.functions.len() <= functions.next,
            AllFunctions::Lent(functions) => functions.functions.len() <= functions.next,
        }
    }
}

impl<'a> Arranged<'a> {
    // The first of those that are left, which the others follow.
    fn next(&mut self) -> Option<SectionFunction<'a>>
        ensures { YieldsFirstBy section_function_view arranged_left self.old result self.new }
    {
        let function = *self.functions.get(self.next)?;
        self.next += 1;
        Some(function)
    }
}

impl<'a> Lent<'a> {
    // The first of those that are left, which the others follow.
    fn next(&mut self) -> Option<SectionFunction<'a>>
        ensures { YieldsFirstBy section_function_view lent_left self.old result self.new }
    {
        let function = *self.functions.get(self.next)?;
        self.next += 1;
        Some(function)
    }
}

/// The function symbols of a selection.
#[derive(Drop)]
pub struct Selected<'a> {
    /// The function symbols with their sections, in the order of the listing.
    pub functions: AllFunctions<'a>,
    /// The size of the selected section; `None` for all sections.
    pub size: Option<u64>,
}

impl<'a> Selected<'a> {
    /// The function symbols without their sections, and the section's size: `None` for all sections.
    pub fn into_list(self) -> (Functions<'a>, Option<u64>)
        ensures functions { all_left result.0.all ≡ all_left self.entry.functions }
        ensures size { result.1 ≡ self.entry.size }
    {
        let Selected { functions, size } = self;
        (Functions { all: functions }, size)
    }
}

/// The function symbols of a file and the size of their section, with their names as they are stored.
///
/// # Errors
///
/// `Unknown` if the format isn't supported; `Parse` if its reader refuses the file; `OutOfMemory` if an
/// allocation failed.
pub fn functions_of_file<'a>(
    alloc: Global,
    file: &'a [u8],
    section: &str,
) -> Result<(Functions<'a>, u64), ListError>
    ensures { GetsAs HoldsListed (MemoryIn file.entry.now (Some section.entry.now))
        (file_answer file.entry.now section.entry.now) result }
{
    let (functions, size) = section_functions(alloc, file, section)?.into_list();
    Ok((functions, size.unwrap_or(0)))
}

// The function symbols of a section, which is looked for in a whole file, as a selection.
#[tactic(auto, unfolding(crate::specs::Answer::selected_symbols, crate::specs::Answer::NeedsMemory))]
pub(crate) fn section_functions<'a>(
    alloc: Global,
    file: &'a [u8],
    section: &str,
) -> Result<Selected<'a>, ListError>
    ensures { GetsIn Symtab file.entry.now (Some section.entry.now) result }
{
    match detect_format(file) {
        Format::Elf32 { byte_order } => Ok(functions_of_elf::<u32>(file, byte_order, section)?),
        Format::Elf64 { byte_order } => Ok(functions_of_elf::<u64>(file, byte_order, section)?),
        Format::Macho => Ok(functions_of_macho(alloc, file, section)?),
        Format::PE => Ok(functions_of_pe(alloc, file, section)?),
        Format::Unknown => Err(ListError::Unknown),
    }
}

// The function symbols that the reader of the file's format gives for a section: of a Mach-O or PE file its
// `functions`, those of the text.
#[tactic(auto, unfolding(crate::specs::SectionAnswer::format_answer))]
pub(crate) fn readers_functions<'a>(
    alloc: Global,
    file: &'a [u8],
    section: &str,
) -> Result<Selected<'a>, ListError>
    ensures { GetsAs HoldsText (NeedsMemory file.entry.now) (readers_answer file.entry.now section.entry.now) result }
{
    match detect_format(file) {
        Format::Macho => Ok(text_of_macho(alloc, file)?),
        Format::PE => Ok(text_of_pe(alloc, file)?),
        Format::Elf32 { .. } | Format::Elf64 { .. } | Format::Unknown => {
            section_functions(alloc, file, section)
        }
    }
}

// The function symbols of a section of an ELF file of this class.
#[tactic(auto, unfolding(binfarce_elf_memory::specs::ElfSelection::selected_file_answer))]
fn functions_of_elf<'a, C: Class>(
    file: &'a [u8],
    byte_order: ByteOrder,
    section: &str,
) -> Result<Selected<'a>, ParseError>
    ensures { Answers HoldsLeft SelectsSome
        (selected_file_answer Symtab C.table byte_order file.entry.now (Some section.entry.now)) result }
{
    let header = parse_header::<C>(file, byte_order)?;
    let table = section_table(file, byte_order, &header);
    let functions = selection::section_functions::<C>(table, SymbolTable::Symtab, section)?;
    Ok(of_elf(functions))
}

// The function symbols of a selection of an ELF file.
pub(crate) fn of_elf(functions: selection::Functions<'_>) -> Selected<'_>
    ensures functions { all_left result.functions ≡ (selected_view functions.entry).entries }
    ensures size { result.size ≡ size_taken (selected_view functions.entry).taken }
{
    let size = functions.section_size();
    Selected {
        functions: AllFunctions::Elf(functions),
        size,
    }
}

// The function symbols of a Mach-O file's text.
fn text_of_macho(alloc: Global, file: &[u8]) -> Result<Selected<'_>, ParseError>
    ensures { Answers HoldsText (λ _. HasAddress file.entry.now) (macho_file_answer file.entry.now) result }
{
    let header = macho_header::parse_header(file)?;
    let (functions, size) = macho_functions::text_functions(alloc, file, header)?;
    Ok(listed(functions, Some(size)))
}

// The function symbols of a PE file's text.
fn text_of_pe(alloc: Global, file: &[u8]) -> Result<Selected<'_>, ParseError>
    ensures { Answers HoldsText ListsSome (pe_file_answer file.entry.now) result }
{
    let (pe_pointer, header) = pe_header::parse_header(file)?;
    let places = places_after(pe_pointer, header);
    let (functions, size) = pe_functions::text_functions(alloc, file, places)?;
    Ok(listed(functions, Some(size)))
}

// The function symbols of a Mach-O file's code section, which answers for every section.
fn functions_of_macho<'a>(
    alloc: Global,
    file: &'a [u8],
    section: &str,
) -> Result<Selected<'a>, ParseError>
    ensures { Answers HoldsLeft (λ _. HasSection file.entry.now)
        (macho_selection.selected_file_answer (Some section.entry.now) file.entry.now) result }
{
    let selection = Selection::Section(section);
    let (functions, size) = macho::parse(file)?.selected_functions(alloc, selection)?;
    Ok(listed(functions, size))
}

// The function symbols of a PE file's code section, which answers for every section.
fn functions_of_pe<'a>(
    alloc: Global,
    file: &'a [u8],
    section: &str,
) -> Result<Selected<'a>, ParseError>
    ensures { Answers HoldsLeft SelectsSome
        (pe_selection.selected_file_answer (Some section.entry.now) file.entry.now) result }
{
    let selection = Selection::Section(section);
    let (functions, size) = pe::parse(file)?.selected_functions(alloc, selection)?;
    Ok(listed(functions, size))
}

// The function symbols of a list, with the size of their section, if one is selected.
pub(crate) fn listed(functions: Vec<SectionFunction<'_>>, size: Option<u64>) -> Selected<'_>
    ensures functions { all_left result.functions ≡ map section_function_view functions.entry.items }
    ensures size { result.size ≡ size }
{
    Selected {
        functions: AllFunctions::Arranged(Arranged { functions, next: 0 }),
        size,
    }
}

// A list that another value owns, as the function symbols of a section of this size.
pub(crate) fn section_lent<'a>(functions: &'a [SectionFunction<'a>], size: u64) -> Selected<'a>
    ensures functions { all_left result.functions ≡ map section_function_view functions.entry.now }
    ensures size { result.size ≡ Some size }
{
    Selected {
        functions: AllFunctions::Lent(Lent { functions, next: 0 }),
        size: Some(size),
    }
}
