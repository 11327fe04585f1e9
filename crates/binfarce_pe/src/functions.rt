//! The function symbols of selected sections at their addresses in memory, and those of the text by the rule of
//! `functions` of a reader.

ghost use Rattle.std.specs.Prelude.{◌≡◌, ◌≢◌, ◌⊎◌, ℕ, ◌&&◌, ◌+◌, ◌-◌, ◌*◌, ◌<◌, ◌≤◌, ◌++◌, true, false, List, [], ◌∷◌, length, map, All, Some, None, IfOk, IfSome, OnErr, MatchOption, is_some, nat_eq, nat_lt, unwrap_or, if◌then◌else◌};
ghost use Rattle.std.specs.List.{filter_map};
ghost use Rattle.std.specs.Option.{option_map};
ghost use Rattle.binfarce_bytes.specs.Entries.{Answers, ListsSome};
ghost use Rattle.binfarce_bytes.specs.Refusal.{Gives, refusal_of};
ghost use Rattle.binfarce_bytes.specs.RowViews.{rows_view};
ghost use Rattle.binfarce_bytes.specs.SectionEntries.{SelectsSome};
ghost use Rattle.binfarce_bytes.specs.Selection.{section_of};
ghost use Rattle.binfarce_bytes.specs.Sizes.{addresses_of, least_above, least_of};
ghost use Rattle.binfarce_bytes.specs.SymbolViews.{section_function_view, HoldsSized};
ghost use Rattle.binfarce_pe.specs.Pe.{section_at};
ghost use Rattle.binfarce_pe.specs.PeNames.{full_name, string_table};
ghost use Rattle.binfarce_pe.specs.PeParts.{places_of, places_view, headers_view, section_table, table_view, text_view, whole_in};
ghost use Rattle.binfarce_pe.specs.PeRules.{accepted_name, ends_at};
ghost use Rattle.binfarce_pe.specs.PeSelection.{is_external_or_static, is_inner, is_routine, memory_size, memory_address, rules_of, name_of, section_entries, entries_by, section_size, whole_sections, code_section, code_of, sections_in, selected_answer, sections_view, IsWhole, IsWithin, HasHeader};
ghost use Rattle.binfarce_pe.specs.PeViews.{section_view};
ghost use Rattle.binfarce_pe.specs.PeSymbols as pe_symbols;
ghost use Rattle.binfarce_pe.specs.PeSymbols.{pe_answer, record_count};
ghost use Rattle.binfarce_pe.specs.machine.RawPe.{symbol_view, bound_of, ending_name, function_in, names_view, HoldsRows, HoldsSections};

use crate::header::image_base;
use crate::names::{full_name, string_table};
use crate::parts::{SECTION_LENGTH, TableOffsets, Text, text_in};
use crate::sections::{Section, Table, section_at, section_named, section_table};
use crate::symbols::{
    CoffTable, SYMBOL_LENGTH, SymbolRow, is_function, name_of, symbol_of, symbol_table,
};
use binfarce_bytes::functions::{FunctionSymbol, SectionFunction, Selection};
use binfarce_bytes::parser::{number_at, slice_at, to_index};
use binfarce_bytes::sizes::{RowAddress, arrange};
use binfarce_bytes::{ByteOrder, ParseError};
use std::alloc::{AllocError, Global};
use std::mem;

const IMAGE_SYM_CLASS_EXTERNAL: u8 = 2;

const IMAGE_SYM_CLASS_STATIC: u8 = 3;

const IMAGE_SYM_CLASS_LABEL: u8 = 6;

/// The sections of a file whose function symbols are listed.
#[derive(Clone, Copy)]
pub enum SelectedSections<'a> {
    /// The text, by the rule of `functions` of a reader: external functions, at their offsets in it.
    Text(Text),
    /// The sections of a file with this image base, with these headers: external and static functions, at their
    /// addresses in memory. All are selected, or the code section alone, which has this index and size.
    Memory(Option<u64>, Table<'a>, Option<Text>),
}

impl SelectedSections<'_> {
    /// The size in bytes of the section that is selected: of the text in the file, of the code section in memory. `None`
    /// for all sections.
    pub fn section_size(self) -> Option<u64>
        ensures { result ≡ section_size (sections_view self.entry) }
    {
        match self {
            SelectedSections::Text(text) => Some(u64::from(text.size)),
            SelectedSections::Memory(_, _, None) => None,
            SelectedSections::Memory(_, _, Some(code)) => Some(u64::from(code.size)),
        }
    }
}

/// The function symbols of a selection in a file whose tables are at these places, and the size of the selected
/// section: the answer of `selected_functions` of a reader, with its refusals. `OutOfMemory` only instead of a list that
/// isn't empty.
#[tactic(auto, unfolding(crate::specs::PeSelection::selected_answer))]
pub fn functions_of_file<'a>(
    alloc: Global,
    file: &'a [u8],
    places: TableOffsets,
    selection: Selection<'_>,
) -> Result<(Vec<SectionFunction<'a>>, Option<u64>), ParseError>
    requires { places_view places ≡ places_of file.now }
    ensures { Answers HoldsSized SelectsSome (selected_answer (section_of selection.entry) file.entry.now) result }
{
    let sections = selected_sections(file, places, selection)?;
    let symbols = symbol_table(file, places)?;
    let functions = functions_of(alloc, sections, symbols)?;
    Ok((functions, sections.section_size()))
}

/// The function symbols of the text of a file whose tables are at these places, and the text's size in bytes in the
/// file: those of `functions` of a reader, with its refusals. `OutOfMemory` only instead of a list that isn't empty.
pub fn text_functions<'a>(
    alloc: Global,
    file: &'a [u8],
    places: TableOffsets,
) -> Result<(Vec<SectionFunction<'a>>, u64), ParseError>
    requires { places_view places ≡ places_of file.now }
    ensures { Answers (λ listed given. (map (λ e. e.entry) (map section_function_view given.0.items)
        ≡ listed.entries)
        × (given.1 ≡ listed.section_size)) ListsSome (pe_answer file.entry.now) result }
{
    let text = text_in(section_table(file, places))?;
    let symbols = symbol_table(file, places)?;
    let functions = functions_of(alloc, SelectedSections::Text(text), symbols)?;
    Ok((functions, u64::from(text.size)))
}

// The sections of a file, none of whose headers is truncated, of which this selection takes all or the code section.
fn selected_sections<'a>(
    file: &'a [u8],
    places: TableOffsets,
    selection: Selection<'_>,
) -> Result<SelectedSections<'a>, ParseError>
    requires { places_view places ≡ places_of file.now }
    ensures answer { Gives refusal_of sections_view (sections_in (section_of selection.entry) file.entry.now) result }
    ensures whole { IfOk result (λ c. IsWhole (sections_view c)) }
{
    let optional_header = to_index(places.optional_header);
    let header = slice_at(file, optional_header, places.optional_header_size)?;
    let headers = whole_sections(section_table(file, places))?;
    let code = code_of(headers, selection)?;
    Ok(SelectedSections::Memory(image_base(header), headers, code))
}

// The section headers, of which none is truncated.
#[tactic(auto, unfolding(crate::specs::PeParts::table_walk))]
fn whole_sections(sections: Table<'_>) -> Result<Table<'_>, ParseError>
    ensures whole { Gives refusal_of headers_view (whole_sections (headers_view sections.entry)) result }
    ensures room { IfOk result (λ t. t.count ≤ whole_in (headers_view t)) }
{
    let room = (sections.bytes.len() + 16).saturating_sub(sections.offset) / SECTION_LENGTH;
    if sections.offset < sections.bytes.len() && sections.count as usize <= room {
        Ok(sections)
    } else {
        Err(ParseError::UnexpectedEof)
    }
}

/// The index and the size in bytes of the code section among section headers of which none is truncated, if the
/// selection is of one section. `SymbolsSectionIsMissing` if it is missing.
pub fn code_of(sections: Table<'_>, selection: Selection<'_>) -> Result<Option<Text>, ParseError>
    requires { sections.count ≤ whole_in (headers_view sections) }
    ensures answer { Gives refusal_of (option_map text_view)
        (code_of (section_of selection.entry) (headers_view sections.entry)) result }
    ensures within { IfOk result (λ code. IsWithin (option_map text_view code) sections.entry.count) }
{
    match selection {
        Selection::All => Ok(None),
        Selection::Section(_) => match code_section(sections) {
            None => Err(ParseError::SymbolsSectionIsMissing),
            Some(code) => {
                let size = memory_size(sections, u32::from(code.index));
                Ok(Some(Text {
                    index: code.index,
                    size,
                }))
            }
        },
    }
}

// The first section `.text`.
fn code_section(sections: Table<'_>) -> Option<Section<'_>>
    ensures { option_map section_view result ≡ code_section (headers_view sections.entry) }
{
    match section_named(sections, ".text") {
        Ok(found) => found,
        Err(_) => None,
    }
}

/// The name of the section of this number, if there is one and its stored name is UTF-8: a part of the headers, or
/// of the strings, which are the bytes from the string table's beginning on.
pub fn section_name<'a>(sections: Table<'a>, strings: &'a [u8], number: u32) -> Option<&'a str>
    requires { sections.count ≤ whole_in (headers_view sections) }
    ensures { option_map (λ t. t.now) result
        ≡ option_map (full_name (string_table strings.now)) (name_of (headers_view sections.entry) number) }
{
    let index = number.checked_sub(1)?;
    if index >= u32::from(sections.count) {
        return None;
    }
    let start = sections.offset + index as usize * SECTION_LENGTH;
    match section_at(sections.bytes, start, index as u16).unwrap() {
        None => None,
        Some(section) => Some(full_name(string_table(strings), section.name)),
    }
}

/// The function symbols of selected sections in a symbol table: by section, and in each by the row's value and at equal
/// values in table order. The only error is a failed allocation, and only instead of a list that isn't empty.
#[tactic(auto, using(binfarce_bytes::proofs::SomeListed::none_of, binfarce_bytes::proofs::SomeListed::some_of))]
pub fn functions_of<'a>(
    alloc: Global,
    sections: SelectedSections<'_>,
    symbols: CoffTable<'a>,
) -> Result<Vec<SectionFunction<'a>>, AllocError>
    requires { IsWhole (sections_view sections) }
    ensures functions { IfOk result (λ v. map section_function_view v.items
        ≡ entries_by (rules_of (sections_view sections.entry)) (table_view symbols.entry)) }
    ensures memory { OnErr result
        (entries_by (rules_of (sections_view sections.entry)) (table_view symbols.entry) ≢ []) }
{
    let mut functions = Vec::new(alloc);
    if !has_functions(sections, symbols) {
        return Ok(functions);
    }
    let mut held = rows_by_section(alloc, sections, symbols)?;
    let (first, count) = span_of(sections);
    for at in 0..count {
        let rows = mem::replace(&mut held[at as usize], no_rows(alloc));
        push_functions(alloc, &mut functions, sections, first + at, rows)?;
    }
    Ok(functions)
}

// The index of the first selected section, and how many there are from it on.
fn span_of(sections: SelectedSections<'_>) -> (u32, u32)
    ensures first { result.0 ≡ (rules_of (sections_view sections.entry)).first }
    ensures count { result.1 ≡ (rules_of (sections_view sections.entry)).count }
    ensures fits { result.0 + result.1 ≤ 65536 }
{
    match sections {
        SelectedSections::Text(text) => (u32::from(text.index), 1),
        SelectedSections::Memory(_, headers, None) => (0, u32::from(headers.count)),
        SelectedSections::Memory(_, _, Some(code)) => (u32::from(code.index), 1),
    }
}

// Whether a row is a function that is kept of the section that it names, if that is selected and its name can be read.
fn accepts(sections: SelectedSections<'_>, row: SymbolRow) -> bool
    ensures { (index : ℕ) → ((rules_of (sections_view sections.entry)).section index).accepts (symbol_view row)
        ≡ (result && nat_eq (symbol_view row).section_number (index + 1)) }
{
    let is_kept = match sections {
        SelectedSections::Text(_) => row.storage_class == IMAGE_SYM_CLASS_EXTERNAL,
        SelectedSections::Memory(_, _, _) => is_external_or_static(row),
    };
    is_function(row) && is_kept
}

// Whether a row ends sizes in the section that it names, if that is selected, even where it isn't kept.
fn ends_sizes(
    sections: SelectedSections<'_>,
    symbols: CoffTable<'_>,
    number: usize,
    row: SymbolRow,
) -> bool
    requires { number < record_count (table_view symbols) }
    ensures { (index : ℕ) → ends_at (table_view symbols.entry)
        ((rules_of (sections_view sections.entry)).section index) number (symbol_view row)
        ≡ (result && nat_eq (symbol_view row).section_number (index + 1)) }
{
    match sections {
        SelectedSections::Text(_) => false,
        SelectedSections::Memory(_, _, _) => {
            is_external_or_static(row) || is_routine(symbols, number, row)
        }
    }
}

// Whether a row is the label of a routine, and not of a place within a function. Where its name can't be read it is.
fn is_routine(symbols: CoffTable<'_>, number: usize, row: SymbolRow) -> bool
    requires { number < record_count (table_view symbols) }
    ensures { (index : ℕ) → is_routine index (symbol_view row)
        (pe_symbols.name_of (table_view symbols.entry) number (symbol_view row))
        ≡ (result && nat_eq (symbol_view row).section_number (index + 1)) }
{
    if row.storage_class != IMAGE_SYM_CLASS_LABEL {
        return false;
    }
    match name_of(symbols, number, row) {
        None => true,
        Some(name) => !is_inner(name),
    }
}

// Whether a name is one that compilers and assemblers give to labels within functions.
fn is_inner(name: &str) -> bool
    ensures { result ≡ is_inner name.now }
{
    let name = name.as_bytes();
    name.starts_with(b".") || name.starts_with(b"L") || name.starts_with(b"$")
}

// Whether a row's value is the offset of a symbol in its section, and no label's.
fn is_external_or_static(row: SymbolRow) -> bool
    ensures { (index : ℕ) → is_external_or_static index (symbol_view row)
        ≡ (result && nat_eq (symbol_view row).section_number (index + 1)) }
{
    let class = row.storage_class;
    class == IMAGE_SYM_CLASS_EXTERNAL || class == IMAGE_SYM_CLASS_STATIC
}

// The position among the selected sections of the one that a row names.
fn position_of(sections: SelectedSections<'_>, row: SymbolRow) -> Option<u32>
    ensures { let rules = rules_of (sections_view sections.entry) in
        let names = λ (i : ℕ). nat_eq (symbol_view row).section_number (rules.first + i + 1) in MatchOption result
        ((i : ℕ) → i < rules.count → names i ≡ false)
        (λ at. (at < rules.count) × ((i : ℕ) → names i ≡ nat_eq i at)) }
{
    let (first, count) = span_of(sections);
    let number = u32::from(row.section_number);
    if first < number && number - first <= count {
        Some(number - first - 1)
    } else {
        None
    }
}

// The position among the selected sections of the one in which a row ends sizes, and the row's name where it is kept.
fn ending_of<'a>(
    sections: SelectedSections<'_>,
    symbols: CoffTable<'a>,
    number: usize,
    row: SymbolRow,
) -> Option<(u32, Option<&'a str>)>
    requires { number < record_count (table_view symbols) }
    ensures { let rules = rules_of (sections_view sections.entry) in
        let name = λ (i : ℕ). ending_name (table_view symbols.entry) (rules.section (rules.first + i)) number
        (symbol_view row) in MatchOption result
        ((i : ℕ) → i < rules.count → name i ≡ None)
        (λ f. (f.0 < rules.count)
        × ((i : ℕ) → name i ≡ (if nat_eq i f.0 then Some (option_map (λ t. t.now) f.1) else None))) }
{
    let at = match position_of(sections, row) {
        None => return None,
        Some(at) => at,
    };
    match function_name(sections, symbols, number, row) {
        Some(name) => Some((at, Some(name))),
        None => {
            if ends_sizes(sections, symbols, number, row) {
                Some((at, None))
            } else {
                None
            }
        }
    }
}

// The position among the selected sections of the one that a row is kept of.
fn kept_in(
    sections: SelectedSections<'_>,
    symbols: CoffTable<'_>,
    number: usize,
    row: SymbolRow,
) -> Option<u32>
    requires { number < record_count (table_view symbols) }
    ensures { let rules = rules_of (sections_view sections.entry) in
        let name = λ (i : ℕ). accepted_name (table_view symbols.entry)
        (rules.section (rules.first + i)).accepts number (symbol_view row) in MatchOption result
        ((i : ℕ) → i < rules.count → name i ≡ None)
        (λ at. (at < rules.count) × (is_some (name at) ≡ true)) }
{
    let at = match position_of(sections, row) {
        None => return None,
        Some(at) => at,
    };
    match function_name(sections, symbols, number, row) {
        None => None,
        Some(_) => Some(at),
    }
}

// The name of a row that is kept of the section that it names, if that is selected.
#[tactic(auto, unfolding(crate::specs::PeRules::accepted_name))]
fn function_name<'a>(
    sections: SelectedSections<'_>,
    symbols: CoffTable<'a>,
    number: usize,
    row: SymbolRow,
) -> Option<&'a str>
    requires { number < record_count (table_view symbols) }
    ensures { (index : ℕ) → accepted_name (table_view symbols.entry)
        ((rules_of (sections_view sections.entry)).section index).accepts number (symbol_view row)
        ≡ (if nat_eq (symbol_view row).section_number (index + 1) then option_map (λ t. t.now) result else None) }
{
    if accepts(sections, row) {
        name_of(symbols, number, row)
    } else {
        None
    }
}

// The size that sizes end at in the section of this index.
#[tactic(auto, unfolding(crate::specs::PeSelection::memory_size, crate::specs::Pe::section_fields))]
fn bound_of(sections: SelectedSections<'_>, index: u32) -> u32
    requires { HasHeader (sections_view sections) index }
    ensures { result ≡ bound_of (sections_view sections.entry) index }
{
    match sections {
        SelectedSections::Text(text) => text.size,
        SelectedSections::Memory(_, headers, _) => memory_size(headers, index),
    }
}

// How many bytes the section of this index has in memory, or in an object.
#[tactic(auto, unfolding(crate::specs::PeSelection::memory_size, crate::specs::Pe::section_fields))]
fn memory_size(sections: Table<'_>, index: u32) -> u32
    requires { index < whole_in (headers_view sections) }
    ensures { result ≡ memory_size (headers_view sections.entry) index }
{
    let start = sections.offset + index as usize * SECTION_LENGTH;
    let size = number_at(sections.bytes, start + 8, ByteOrder::LittleEndian).unwrap();
    if size == 0 {
        number_at(sections.bytes, start + 16, ByteOrder::LittleEndian).unwrap()
    } else {
        size
    }
}

// The address for a row's value in the section of this index.
fn address_of(sections: SelectedSections<'_>, index: u32, value: u64) -> u64
    requires { HasHeader (sections_view sections) index }
    ensures { result ≡ (rules_of (sections_view sections.entry)).address index value }
{
    match sections {
        SelectedSections::Text(_) => value,
        SelectedSections::Memory(base, headers, _) => memory_address(
            base, headers, index,
        ).wrapping_add(value),
    }
}

// Where the section of this index begins in memory; 0 in an object.
#[tactic(auto, unfolding(crate::specs::PeSelection::memory_address, crate::specs::Pe::section_fields))]
fn memory_address(image_base: Option<u64>, sections: Table<'_>, index: u32) -> u64
    requires { index < whole_in (headers_view sections) }
    ensures { result ≡ memory_address image_base (headers_view sections.entry) index }
{
    let start = sections.offset + index as usize * SECTION_LENGTH;
    let address: u32 = number_at(sections.bytes, start + 12, ByteOrder::LittleEndian).unwrap();
    match image_base {
        None => 0,
        Some(base) => base.wrapping_add(u64::from(address)),
    }
}

// The rows that end sizes in a section, in table order: the address of each and its index among them, and its name where
// it is kept.
#[derive(Drop)]
struct Held<'a> {
    rows: Vec<RowAddress>,
    names: Vec<Option<&'a str>>,
}

/// Whether the selected sections have a function symbol: whether the list of `functions_of` has an element. Nothing is
/// allocated, and nothing is sorted.
pub fn has_functions(sections: SelectedSections<'_>, symbols: CoffTable<'_>) -> bool
    ensures { result ≡ nat_lt 0
        (length (entries_by (rules_of (sections_view sections.entry)) (table_view symbols.entry))) }
{
    let row_count = symbols.rows.len() / SYMBOL_LENGTH;
    let mut next = 0;
    while next < row_count {
        let number = next;
        let row = symbol_of(symbols, number);
        next = number + 1 + row.number_of_aux_symbols as usize;
        match kept_in(sections, symbols, number, row) {
            None => {}
            Some(_) => return true,
        }
    }
    false
}

// The rows that end sizes in each selected section.
fn rows_by_section<'a>(
    alloc: Global,
    sections: SelectedSections<'_>,
    symbols: CoffTable<'a>,
) -> Result<Vec<Held<'a>>, AllocError>
    ensures held { IfOk result
        (λ v. HoldsSections (table_view symbols.entry) (rules_of (sections_view sections.entry)) 0 v.items) }
    ensures long { IfOk result (λ v. length v.items ≡ (rules_of (sections_view sections.entry)).count) }
{
    let (_, count) = span_of(sections);
    let row_count = symbols.rows.len() / SYMBOL_LENGTH;
    let mut held = no_rows_of(alloc, count)?;
    let mut next = 0;
    while next < row_count {
        let number = next;
        let row = symbol_of(symbols, number);
        next += 1 + row.number_of_aux_symbols as usize;
        match ending_of(sections, symbols, number, row) {
            None => {}
            Some((at, name)) => push_row(&mut held[at as usize], u64::from(row.value), name)?,
        }
    }
    Ok(held)
}

// No rows so far, for each of as many sections.
fn no_rows_of<'a>(alloc: Global, count: u32) -> Result<Vec<Held<'a>>, AllocError>
    ensures { IfOk result
        (λ v. (length v.items ≡ count) × All (λ h. (h.rows.items ≡ []) × (h.names.items ≡ [])) v.items) }
{
    let mut held = Vec::new(alloc);
    for _index in 0..count {
        held.push(no_rows(alloc))?;
    }
    Ok(held)
}

fn no_rows<'a>(alloc: Global) -> Held<'a>
    ensures rows { result.rows.items ≡ [] }
    ensures names { result.names.items ≡ [] }
{
    Held {
        rows: Vec::new(alloc),
        names: Vec::new(alloc),
    }
}

fn push_row<'a>(held: &mut Held<'a>, address: u64, name: Option<&'a str>) -> Result<(), AllocError>
    ensures rows { IfOk result
        (λ _. held.new.rows.items
        ≡ held.old.rows.items ++ record { address = address; index = length held.old.names.items } ∷ []) }
    ensures names { IfOk result (λ _. held.new.names.items ≡ held.old.names.items ++ name.entry ∷ []) }
{
    held.rows.push(RowAddress {
        address,
        index: held.names.len(),
    })?;
    held.names.push(name)?;
    Ok(())
}

// Adds the function symbols of the section of this index, of whose rows these are held.
fn push_functions<'a>(
    alloc: Global,
    functions: &mut Vec<SectionFunction<'a>>,
    sections: SelectedSections<'_>,
    index: u32,
    held: Held<'a>,
) -> Result<(), AllocError>
    requires named { All (λ r. r.index < length held.names.items) held.rows.items }
    requires within { (index < 65536) × HasHeader (sections_view sections) index }
    ensures { let rules = rules_of (sections_view sections.entry) in (table : pe_symbols.CoffTable)
        → HoldsRows table (rules.section index) held.entry → IfOk result
        (λ _. map section_function_view functions.new.items
        ≡ map section_function_view functions.old.items ++ section_entries rules table index) }
{
    let arranged = arrange(alloc, held.rows)?;
    push_rows(
        functions,
        sections,
        index,
        &arranged.rows,
        &held.names,
        &arranged.above,
    )
}

// Adds the function symbols of arranged rows; `above` has the least address above each.
fn push_rows<'a>(
    functions: &mut Vec<SectionFunction<'a>>,
    sections: SelectedSections<'_>,
    index: u32,
    rows: &[RowAddress],
    names: &[Option<&'a str>],
    above: &[Option<u64>],
) -> Result<(), AllocError>
    requires named { All (λ r. r.index < length names.now) rows.now }
    requires above { above.now ≡ map (λ r. least_above (addresses_of (rows_view rows.now)) r.address) rows.now }
    requires within { (index < 65536) × HasHeader (sections_view sections) index }
    ensures { let rules = rules_of (sections_view sections.entry) in IfOk result
        (λ _. map section_function_view functions.new.items
        ≡ map section_function_view functions.old.items ++ filter_map (function_in rules index (names_view names.now)
        (addresses_of (rows_view rows.now))) (rows_view rows.now)) }
{
    let bound = u64::from(bound_of(sections, index));
    for at in 0..rows.len() {
        let row = rows[at];
        let name = match names[row.index] {
            None => continue,
            Some(name) => name,
        };
        functions.push(SectionFunction {
            section: index + 1,
            info: 0,
            version: 0,
            function: FunctionSymbol {
                name,
                address: address_of(sections, index, row.address),
                size: size_at(sections, row.address, above[at], bound),
            },
        })?;
    }
    Ok(())
}

// The size at an address, given the least greater address that ends sizes and the size that sizes end at.
fn size_at(sections: SelectedSections<'_>, address: u64, above: Option<u64>, bound: u64) -> u64
    requires { IfSome above (λ a. address < a) }
    ensures { let chosen = sections_view sections.entry in (index : ℕ) (addresses : List ℕ)
        → bound ≡ bound_of chosen index → above ≡ least_above addresses address
        → result ≡ ((rules_of chosen).section index).size addresses address }
{
    match sections {
        SelectedSections::Text(_) => size_up_to(address, above, bound),
        SelectedSections::Memory(_, _, _) => size_within(address, above, bound),
    }
}

// The distance from the address to the least of the text's size and `above` that is greater; 0 if neither is.
fn size_up_to(address: u64, above: Option<u64>, text_size: u64) -> u64
    requires { IfSome above (λ a. address < a) }
    ensures { result ≡ unwrap_or
        (option_map (λ a. a - address)
        (if nat_lt address text_size then Some (least_of text_size above) else above)) 0 }
{
    let end = match above {
        None => text_size,
        Some(next) if address < text_size => next.min(text_size),
        Some(next) => next,
    };
    end.saturating_sub(address)
}

// The distance from the address to `above`, and to the section's end at the latest; 0 at and past that end.
fn size_within(address: u64, above: Option<u64>, section_size: u64) -> u64
    ensures { result ≡ least_of section_size above - address }
{
    let end = match above {
        None => section_size,
        Some(next) => next.min(section_size),
    };
    end.saturating_sub(address)
}
