//! The function symbols of a selection: of one section, or of all sections with their addresses and sizes in memory.

ghost use Rattle.std.specs.Prelude.{◌≡◌, List, [], ◌∷◌, length, map, nat_eq, Some, None, IfOk, MatchOption, MatchResult};
ghost use Rattle.std.specs.Result.{IsOk};
ghost use Rattle.std.specs.Option.{option_map};
ghost use Rattle.std.specs.List.{range_with_len, filter_map};
ghost use Rattle.std.specs.List.Sorted.{IsNonDecreasingBy};
ghost use Rattle.binfarce_bytes.specs.Entries.{Answers};
ghost use Rattle.binfarce_bytes.specs.Found.{entry_at};
ghost use Rattle.binfarce_bytes.specs.Refusal.{Gives, refusal_of, unexpected_eof};
ghost use Rattle.binfarce_bytes.specs.Selection.{section_of};
ghost use Rattle.binfarce_bytes.specs.SymbolViews.{function_view, section_function_view};
ghost use Rattle.binfarce_elf.specs.Classes.{class_of};
ghost use Rattle.binfarce_elf.specs.Elf.{walk};
ghost use Rattle.binfarce_elf.specs.ElfSymbols.{row_count, row_of};
ghost use Rattle.binfarce_elf.specs.machine.RawElf.{symbol_view, table_view};
ghost use Rattle.binfarce_elf_memory.specs.ElfEnds.{End, kind_of};
ghost use Rattle.binfarce_elf_memory.specs.ElfSelection.{elf_selected, entry_sized, entry_taken, function_name, is_of_section, is_taken, needed, size_taken, taken, taken_from};
ghost use Rattle.binfarce_elf_memory.specs.SelectionViews.{HoldsAllFunctions, functions_left, kind_view, needed_view, selected_view, sized_from, taken_view};
ghost use Rattle.binfarce_elf_memory.specs.Versions.{bytes_if, version_of, versions_section};
ghost use Rattle.binfarce_elf_memory.specs.machine.RawSelection.{AreKeysOf, rows_or};

use crate::descriptors::placed_rows;
use crate::ends::{FileKind, address_of, is_function_kind, keys_of, row_size};
use crate::versions::{row_versions, version_at};
use binfarce_bytes::functions::{FunctionSymbol, SectionFunction, Selection, found_with};
use binfarce_bytes::parser::{UnexpectedEof, parse_null_string};
use binfarce_bytes::{ByteOrder, ParseError};
use binfarce_elf::class::{Class, Half, SymbolRow, Width, row_at};
use binfarce_elf::sections::{Table, index_of, names_bytes, section_named};
use binfarce_elf::symbol_table::SymbolTable;
use binfarce_elf::symbols::{Rows, TableSections, rows_at, table_sections};
use std::alloc::{AllocError, Global};

// The index of no section, and the first of the reserved indices.
const SHN_UNDEF: Half = 0;

const SHN_LORESERVE: Half = 0xff00;

/// What a selection takes of a symbol table.
#[derive(Clone, Copy)]
pub enum Taken {
    /// The functions of the section of this index, as the file stores them; the section's size, and whether indirect
    /// functions (`STT_GNU_IFUNC`) count.
    Section {
        index: Half,
        size: u64,
        indirect: bool,
    },
    /// Those of all sections, of which there are so many, in memory.
    All {
        count: Half,
    },
}

impl Taken {
    /// The size of the one section; `None` for all sections.
    pub fn size(self) -> Option<u64>
        ensures { result ≡ size_taken (taken_view self) }
    {
        match self {
            Taken::Section { size, .. } => Some(size),
            Taken::All { .. } => None,
        }
    }
}

/// What a selection takes of a symbol table, and the sections of the table and its strings.
#[derive(Clone, Copy)]
pub struct Needed {
    pub taken: Taken,
    pub table: TableSections,
}

/// The function symbols of the section with this name, by this symbol table. Nothing is allocated.
#[tactic(auto, unfolding(crate::specs::ElfSelection::elf_selected, crate::specs::ElfSelection::rows_taken))]
pub fn section_functions<'a, C: Class>(
    table: Table<'a>,
    which: SymbolTable,
    name: &str,
) -> Result<Functions<'a>, ParseError>
    ensures { Gives refusal_of selected_view
        (elf_selected which C.table (table_view table.entry) (Some name.now)) result }
{
    let selection = Selection::Section(name);
    let needed = needed_of::<C>(table, names_bytes::<C>(table), which, selection)?;
    let Rows { strings, rows } = rows_at(table.data, C::width(), needed.table)?;
    Ok(functions_in(
        rows,
        strings,
        row_versions::<C>(table, which),
        C::width(),
        table.byte_order,
        needed.taken,
        false,
        &[],
    ))
}

/// The function symbols of all sections of a file of this kind, by this symbol table: a list in table order. Every
/// refusal comes before the first allocation.
#[tactic(auto, unfolding(crate::specs::ElfSelection::elf_selected, crate::specs::ElfSelection::rows_taken))]
pub fn all_functions<'a, C: Class>(
    alloc: Global,
    table: Table<'a>,
    kind: FileKind,
    which: SymbolTable,
) -> Result<Vec<SectionFunction<'a>>, ParseError>
    requires { kind_view kind ≡ kind_of C.table (table_view table) }
    ensures { Answers HoldsAllFunctions IsOk (elf_selected which C.table (table_view table.entry) None) result }
{
    let names = names_bytes::<C>(table);
    let needed = needed_of::<C>(table, names, which, Selection::All)?;
    let found = rows_at(table.data, C::width(), needed.table)?;
    let placed = placed_rows(
        alloc,
        table,
        names,
        C::width(),
        kind,
        needed.taken,
        found.rows,
    )?;
    let rows = rows_or(found.rows, &placed);
    let functions = functions_of::<C>(
        alloc,
        table,
        kind,
        which,
        needed.taken,
        found.strings,
        rows,
    )?;
    Ok(functions)
}

// These rows, unless there are others.
fn rows_or<'a>(rows: &'a [u8], others: &'a Option<Vec<u8>>) -> &'a [u8]
    ensures { result.now ≡ rows_or rows.entry.now others.entry.now }
{
    match others {
        None => rows,
        Some(others) => others.as_slice(),
    }
}

// The function symbols that a selection takes of these rows.
fn functions_of<'a, C: Class>(
    alloc: Global,
    table: Table<'_>,
    kind: FileKind,
    which: SymbolTable,
    taken: Taken,
    strings: &'a [u8],
    rows: &[u8],
) -> Result<Vec<SectionFunction<'a>>, AllocError>
    ensures { let sections = walk C.table (table_view table.entry) in IfOk result
        (λ v. map section_function_view v.items ≡ taken_from C.table table.entry.byte_order sections (kind_view kind)
        (taken_view taken) (record { strings = strings.entry.now; rows = rows.now })
        (bytes_if table.entry.data.now (versions_section which sections))) }
{
    let has_modes = kind.has_modes();
    let keys = keys_of::<C>(alloc, table, kind, Rows { strings, rows })?;
    let functions = list_in(
        alloc,
        &keys,
        C::width(),
        table.byte_order,
        has_modes,
        taken,
        strings,
        rows,
        row_versions::<C>(table, which),
    )?;
    Ok(functions)
}

// The function symbols that a selection takes of these rows with their versions, by the keys of the ends of their
// sections.
fn list_in<'a>(
    alloc: Global,
    keys: &[u128],
    width: Width,
    byte_order: ByteOrder,
    has_modes: bool,
    taken: Taken,
    strings: &'a [u8],
    rows: &[u8],
    versions: &[u8],
) -> Result<Vec<SectionFunction<'a>>, AllocError>
    requires { IsNonDecreasingBy (λ k. k) keys.now }
    ensures { (ends : List End) → AreKeysOf ends keys.now → IfOk result
        (λ v. map section_function_view v.items ≡ filter_map
        (λ k. entry_sized strings.entry.now (taken_view taken) has_modes ends
        (row_of (class_of width) byte_order rows.now k) (version_of byte_order versions.now k))
        (range_with_len 0 (row_count (class_of width) rows.now))) }
{
    let length = width.symbol_length();
    let mut functions = Vec::new(alloc);
    for k in 0..rows.len() / length {
        let row = row_at(width, rows, k * length, byte_order).unwrap();
        let version = version_at(versions, k, byte_order);
        let size = row_size(keys, has_modes, row);
        match function_of(strings, taken, has_modes, row, version, size) {
            None => {}
            Some(function) => functions.push(function)?,
        }
    }
    Ok(functions)
}

/// The function symbols that a selection takes of the rows of a symbol table of this class, whose names are in these
/// strings, and whose versions these are. For all sections, `sizes` has the sizes of all rows in memory, and `has_modes`
/// says whether bit 0 of a function's value is its instruction set.
pub fn functions_in<'a>(
    rows: &'a [u8],
    strings: &'a [u8],
    versions: &'a [u8],
    width: Width,
    byte_order: ByteOrder,
    taken: Taken,
    has_modes: bool,
    sizes: &'a [u64],
) -> Functions<'a>
    ensures entries { functions_left result ≡ sized_from (class_of width) byte_order (taken_view taken) has_modes
        (record { strings = strings.entry.now; rows = rows.entry.now }) versions.entry.now sizes.entry.now 0 }
    ensures taken { (selected_view result).taken ≡ taken_view taken }
    ensures strings { (selected_view result).strings ≡ strings.entry.now }
{
    Functions {
        rows,
        strings,
        versions,
        width,
        byte_order,
        taken,
        has_modes,
        sizes,
        next: 0,
    }
}

// A selection and the sections that its symbols need; `names` holds the section names.
#[tactic(auto, unfolding(crate::specs::ElfSelection::needed, crate::specs::ElfSelection::taken))]
pub(crate) fn needed_of<C: Class>(
    table: Table<'_>,
    names: Option<&[u8]>,
    which: SymbolTable,
    selection: Selection<'_>,
) -> Result<Needed, ParseError>
    ensures { Gives refusal_of needed_view
        (needed which (walk C.table (table_view table.entry)) (option_map (λ b. b.now) names.entry) table.entry.shnum
        (section_of selection.entry)) result }
{
    let taken = match selection {
        Selection::Section(name) => {
            let Some(section) = section_named::<C>(table, names, name)? else {
                return Err(ParseError::SymbolsSectionIsMissing);
            };
            Taken::Section {
                index: index_of(section),
                size: section.size().widened(),
                indirect: matches!(which, SymbolTable::Dynsym),
            }
        }
        Selection::All => {
            whole_sections::<C>(table)?;
            Taken::All { count: table.shnum }
        }
    };
    let sections = table_sections::<C>(table, which)?;
    Ok(Needed {
        taken,
        table: sections,
    })
}

// Refused if a section header is truncated.
#[tactic(auto, unfolding(binfarce_elf::specs::Elf::walk))]
fn whole_sections<C: Class>(table: Table<'_>) -> Result<(), UnexpectedEof>
    ensures { let end = (walk C.table (table_view table.entry)).refusal in MatchResult result
        (λ _. end ≡ None) (λ _. end ≡ Some unexpected_eof) }
{
    let room = table.data.len().saturating_sub(table.shoff) / C::SECTION_LENGTH;
    if table.shoff < table.data.len() && usize::from(table.shnum) <= room {
        Ok(())
    } else {
        Err(UnexpectedEof {})
    }
}

/// An iterator over the function symbols of a selection, each with the index of its section, in the order of the symbol
/// table.
///
/// Rows are read on demand, and names stay in the file: nothing is allocated or copied.
#[must_use = "iterators are lazy and do nothing unless consumed"]
#[derive(Clone, Drop)]
pub struct Functions<'a> {
    rows: &'a [u8],
    strings: &'a [u8],
    versions: &'a [u8],
    width: Width,
    byte_order: ByteOrder,
    taken: Taken,
    has_modes: bool,
    sizes: &'a [u64],
    next: usize,
}

impl<'a> Functions<'a> {
    /// The size of the selected section in bytes (`sh_size`); `None` for all sections.
    pub fn section_size(&self) -> Option<u64>
        ensures { result ≡ size_taken (selected_view self.now).taken }
    {
        self.taken.size()
    }

    /// Whether none is left. Rows are read up to the first one that is a function's.
    pub fn is_empty(&self) -> bool
        ensures { result ≡ nat_eq (length (functions_left self.now)) 0 }
    {
        self.first_left().is_none()
    }

    /// The function symbol that an address symbolizes to, among those that are left: of those whose range holds it the
    /// one of greatest address, and of several the first. `None` if no range holds it.
    ///
    /// A range begins at the symbol's address (`st_value`) and has its size in bytes. Each row that is left is read
    /// once; nothing is allocated or copied.
    #[tactic(auto, using(crate::proofs::RowsLeft::none_at_first))]
    pub fn symbol_at(self, address: u64) -> Option<FunctionSymbol<'a>>
        ensures { option_map function_view result
            ≡ entry_at (map (λ e. e.entry) (functions_left self.entry)) address }
    {
        let mut found = None;
        for function in self {
            found = found_with(found, function.function, address);
        }
        found
    }

    // The first function that is left, and the number of the row after it.
    #[inline(always)]
    fn first_left(&self) -> Option<(SectionFunction<'a>, usize)>
        ensures { MatchOption result (functions_left self.now ≡ [])
            (λ r. functions_left self.now ≡ section_function_view r.0 ∷ functions_left
            (record self.now { next = r.1 })) }
    {
        match self.width {
            Width::Bits32 => self.first_of(Width::Bits32),
            Width::Bits64 => self.first_of(Width::Bits64),
        }
    }

    // So by this class, whose size of a row the compiler knows.
    #[inline(always)]
    #[tactic(auto, using(crate::proofs::RowsLeft::ended))]
    fn first_of(&self, width: Width) -> Option<(SectionFunction<'a>, usize)>
        ensures { MatchOption result (functions_left (record self.now { width = width }) ≡ [])
            (λ r. functions_left (record self.now { width = width }) ≡ section_function_view r.0 ∷ functions_left
            (record self.now { width = width; next = r.1 })) }
    {
        let length = width.symbol_length();
        for k in self.next..self.rows.len() / length {
            let row = row_at(width, self.rows, k * length, self.byte_order).unwrap();
            let version = version_at(self.versions, k, self.byte_order);
            let size = self.sizes.get(k).copied().unwrap_or(0);
            match function_of(self.strings, self.taken, self.has_modes, row, version, size) {
                None => continue,
                Some(function) => return Some((function, k + 1)),
            }
        }
        None
    }
}

impl<'a> Iterator for Functions<'a> {
    ghost use Rattle.std.specs.Iterator.{YieldsFirstBy, item_count};
    ghost use Rattle.binfarce_bytes.specs.SymbolViews.{section_function_view};
    ghost use Rattle.binfarce_elf_memory.specs.Versions.{bytes_if, version_of, versions_section};
    ghost use Rattle.binfarce_elf_memory.specs.SelectionViews.{functions_left};

    type Item = SectionFunction<'a>;

    ghost next_gives = { YieldsFirstBy section_function_view functions_left };

    ghost remaining = { item_count functions_left };

    #[inline(always)]
    fn next(&mut self) -> Option<SectionFunction<'a>> {
        let (function, next) = self.first_left()?;
        self.next = next;
        Some(function)
    }
}

// The function of a row of this version, and of this size in memory, with its section, where it is taken.
#[inline(always)]
#[tactic(auto, unfolding(crate::specs::ElfSelection::function_name))]
fn function_of(
    strings: &[u8],
    taken: Taken,
    has_modes: bool,
    row: SymbolRow,
    version: Half,
    size: u64,
) -> Option<SectionFunction<'_>>
    ensures { option_map section_function_view result
        ≡ entry_taken strings.entry.now (taken_view taken) has_modes (symbol_view row) version size }
{
    if !is_taken(taken, row) || row.name == 0 {
        return None;
    }
    let name = parse_null_string(strings, row.name as usize)?;
    let (address, size) = match taken {
        Taken::Section { .. } => (row.value, row.size),
        Taken::All { .. } => (address_of(has_modes, row), size),
    };
    Some(SectionFunction {
        section: u32::from(row.section),
        info: row.info,
        version,
        function: FunctionSymbol {
            name,
            address,
            size,
        },
    })
}

// Whether a row is of a function that is taken.
#[inline(always)]
fn is_taken(taken: Taken, row: SymbolRow) -> bool
    ensures { result ≡ is_taken (taken_view taken) (symbol_view row) }
{
    match taken {
        Taken::Section {
            index,
            indirect,
            ..
        } => row.section == index && row.size != 0 && is_function_kind(indirect, row),
        Taken::All { count } => { is_of_section(count, row.section) && is_function_kind(true, row) }
    }
}

// Whether this is the index of one of so many sections.
#[inline(always)]
fn is_of_section(count: Half, index: Half) -> bool
    ensures { result ≡ is_of_section count index }
{
    SHN_UNDEF < index && index < SHN_LORESERVE && index < count
}
