//! The function symbols of the selected sections, and those of the text by the rule of `functions` of a reader.

ghost use Rattle.std.specs.Prelude.{◌≡◌, ◌≢◌, ℕ, ◌+◌, ◌-◌, ◌*◌, ◌/◌, ◌<◌, ◌≤◌, ◌++◌, ◌&&◌, [], ◌∷◌, length, map, nat_eq, nat_lt, not, slice_get, All, None, Some, Ok, IfOk, OnErr, unwrap_or, MatchOption};
ghost use Rattle.std.specs.Option.{option_map};
ghost use Rattle.binfarce_bytes.specs.Refusal.{Gives, refusal_of};
ghost use Rattle.binfarce_bytes.specs.Entries.{Answers};
ghost use Rattle.binfarce_bytes.specs.RowViews.{row_view, rows_view};
ghost use Rattle.binfarce_bytes.specs.Selection.{section_of};
ghost use Rattle.binfarce_bytes.specs.Sizes.{addresses_of, arranged, least_above};
ghost use Rattle.binfarce_bytes.specs.SymbolViews.{function_view, section_function_view, HoldsSectionFunctions, HoldsSized};
ghost use Rattle.binfarce_macho.specs.Macho.{header_of};
ghost use Rattle.binfarce_macho.specs.MachoSections.{lies_in, is_label, function_name, HasSection};
ghost use Rattle.binfarce_macho.specs.MachoSelection.{code_view, entries_in, entries_of_selected, is_selected, selected_answer, SomeAddress, extent_view, numbered_view, sections_view, symbols_view};
ghost use Rattle.binfarce_macho.specs.MachoSymbols.{row_addresses, is_candidate, size_up_to, sized_entry, entry_of, located_by, macho_answer, text_end_of, HasAddress};
ghost use Rattle.binfarce_macho.specs.MachoViews.{header_view};
ghost use Rattle.binfarce_macho.specs.machine.RawMacho.{symbol_view, located_view, selected_view, text_added, text_answer, named_in, function_in, HoldsInFirst, HoldsKept, IsInside};

use crate::header::MachoHeader;
use crate::numbered::{
    CodeSection, MAX_SECT, NumberedSection, SelectedSections, selected_sections,
};
use crate::symbols::{
    Extent, SYMBOL_LENGTH, SymbolBytes, SymbolRow, symbol_at, symbol_table, symbols_by, text_extent,
};
use binfarce_bytes::ParseError;
use binfarce_bytes::functions::{FunctionSymbol, SectionFunction, Selection};
use binfarce_bytes::parser::parse_null_string;
use binfarce_bytes::sizes::{RowAddress, arrange};
use std::alloc::{AllocError, Global};
use std::mem;

// The bits of a row's type that make it an entry for a debugger, and those that say where the symbol is defined.
const N_STAB: u8 = 0xE0;

const N_TYPE: u8 = 0x0E;

// The symbol is defined in the row's section.
const N_SECT: u8 = 0x0E;

// The symbols of a text that ends at this address.
#[derive(Clone, Copy)]
pub(crate) struct TextRows<'a> {
    pub(crate) end: u64,
    pub(crate) symbols: SymbolBytes<'a>,
}

// The rows that are kept of each section, in table order, and by a row's number the name of one that is kept.
#[derive(Drop)]
struct Kept<'a> {
    rows: Vec<Vec<RowAddress>>,
    names: Vec<&'a str>,
}

/// The function symbols of a selection of a file with this header, and the size in bytes of the code section, `None` for
/// all sections: the answer of `selected_functions` of a reader, with its refusals. `OutOfMemory` only if the file has
/// a section.
pub fn functions_of_file<'a>(
    alloc: Global,
    file: &'a [u8],
    header: MachoHeader,
    selection: Selection<'_>,
) -> Result<(Vec<SectionFunction<'a>>, Option<u64>), ParseError>
    requires { header_view header ≡ header_of file.now }
    ensures { Answers HoldsSized (λ _. HasSection file.now) (selected_answer (section_of selection.entry) file.now)
        result }
{
    let sections = selected_sections(alloc, file, header, selection)?;
    let table = symbol_table(file, header)?;
    let symbols = symbols_by(file, table)?;
    let functions = functions_of(alloc, &sections, symbols)?;
    Ok((functions, sections.size()))
}

/// The function symbols of the selected sections: by section, and in each by address and at equal addresses in table
/// order. Only a failed allocation is an error, and it comes only if there is a section.
pub fn functions_of<'a>(
    alloc: Global,
    selected: &SelectedSections,
    symbols: Option<SymbolBytes<'a>>,
) -> Result<Vec<SectionFunction<'a>>, ParseError>
    ensures { let sections = sections_view selected.now in
        Answers HoldsSectionFunctions (λ _. sections.sections ≢ [])
        (Ok (entries_in sections (option_map symbols_view symbols.entry))) result }
{
    match symbols {
        None => Ok(Vec::new(alloc)),
        Some(symbols) => functions_in(alloc, &selected.sections, selected.code, symbols),
    }
}

/// The function symbols of the text of a file with this header, and the text's size in bytes: those of `functions` of a
/// reader, with its refusals; each has section number 1. `OutOfMemory` only if the symbol table has an address.
pub fn text_functions<'a>(
    alloc: Global,
    file: &'a [u8],
    header: MachoHeader,
) -> Result<(Vec<SectionFunction<'a>>, u64), ParseError>
    requires { header_view header ≡ header_of file.now }
    ensures { Answers (λ listed given. (map (λ e. e.entry) (map section_function_view given.0.items)
        ≡ listed.entries)
        × (given.1 ≡ listed.section_size)) (λ _. HasAddress file.now) (macho_answer file.now) result }
{
    let text = text_extent(file, header)?;
    let table = symbol_table(file, header)?;
    match symbols_by(file, table)? {
        None => Ok((Vec::new(alloc), 0)),
        Some(symbols) => {
            let functions = functions_of_text(alloc, text, symbols)?;
            Ok((functions, text.size))
        }
    }
}

fn functions_of_text<'a>(
    alloc: Global,
    text: Extent,
    symbols: SymbolBytes<'a>,
) -> Result<Vec<SectionFunction<'a>>, ParseError>
    ensures { let text = extent_view text in let symbols = symbols_view symbols.entry in
        Answers HoldsInFirst (λ _. SomeAddress (located_by text (Some symbols))) (text_answer text symbols) result }
{
    let end = text_end(text)?;
    let mut functions = Vec::new(alloc);
    push_functions(alloc, &mut functions, TextRows { end, symbols })?;
    Ok(functions)
}

// The address where the text ends; `MalformedInput` if that exceeds 64 bits.
fn text_end(text: Extent) -> Result<u64, ParseError>
    ensures { Gives refusal_of (λ n. n) (text_end_of (extent_view text)) result }
{
    text.address
        .checked_add(text.size)
        .ok_or(ParseError::MalformedInput)
}

// Adds the function symbols of the text.
fn push_functions<'a>(
    alloc: Global,
    functions: &mut Vec<SectionFunction<'a>>,
    text: TextRows<'a>,
) -> Result<(), ParseError>
    ensures { let rows = row_addresses text.entry.symbols.rows.now in
        Answers (λ entries _. map section_function_view functions.new.items ≡ entries) (λ _. rows ≢ [])
        (text_added (map section_function_view functions.old.items) text.entry (arranged rows)) result }
{
    let rows = rows_of(alloc, text.symbols)?;
    if rows.is_empty() {
        return Ok(());
    }
    let arranged = arrange(alloc, rows)?;
    push_rows(functions, text, &arranged.rows, &arranged.above)
}

// The rows of the symbol table whose addresses end a size in the text: those that have one, in table order.
fn rows_of(alloc: Global, symbols: SymbolBytes<'_>) -> Result<Vec<RowAddress>, AllocError>
    ensures rows { IfOk result (λ v. (rows_view v.items ≡ row_addresses symbols.entry.rows.now)
        × All (λ r. r.index * 16 + 16 ≤ length symbols.entry.rows.now) v.items) }
    ensures memory { OnErr result (row_addresses symbols.entry.rows.now ≢ []) }
{
    let mut rows = Vec::new(alloc);
    for k in 0..symbols.rows.len() / SYMBOL_LENGTH {
        let row = symbol_at(symbols.rows, k * SYMBOL_LENGTH).unwrap();
        if ends_size(row) {
            rows.push(RowAddress {
                address: row.value,
                index: k,
            })?;
        }
    }
    Ok(rows)
}

// Whether a row's address ends a size in the text: whether it has one.
fn ends_size(row: SymbolRow) -> bool
    ensures { result ≡ not (nat_eq (symbol_view row).value 0) }
{
    row.value != 0
}

// Adds the function symbols of arranged rows of the text, given the least address above each.
fn push_rows<'a>(
    functions: &mut Vec<SectionFunction<'a>>,
    text: TextRows<'a>,
    rows: &[RowAddress],
    above: &[Option<u64>],
) -> Result<(), ParseError>
    requires above { above.now
        ≡ map (λ r. least_above (addresses_of (row_addresses text.symbols.rows.now)) r.address) rows.now }
    requires whole { All (λ r. r.index * 16 + 16 ≤ length text.symbols.rows.now) rows.now }
    ensures { Answers (λ entries _. map section_function_view functions.new.items ≡ entries) (λ _. rows.now ≢ [])
        (text_added (map section_function_view functions.old.items) text.entry (rows_view rows.now)) result }
{
    for k in 0..rows.len() {
        match text_entry(text, rows[k], above[k])? {
            None => {}
            Some(function) => push_function(functions, function)?,
        }
    }
    Ok(())
}

fn push_function<'a>(
    functions: &mut Vec<SectionFunction<'a>>,
    function: FunctionSymbol<'a>,
) -> Result<(), AllocError>
    ensures { IfOk result (λ _. functions.new.items
        ≡ functions.old.items ++ record { section = 1; info = 0; version = 0; function = function.entry } ∷ []) }
{
    functions.push(SectionFunction {
        section: 1,
        info: 0,
        version: 0,
        function,
    })?;
    Ok(())
}

// The function symbol of a row of the text, given the least address above its own.
#[tactic(auto, unfolding(crate::specs::MachoSymbols::entry_of, crate::specs::MachoSymbols::macho_size))]
fn text_entry<'a>(
    text: TextRows<'a>,
    at: RowAddress,
    above: Option<u64>,
) -> Result<Option<FunctionSymbol<'a>>, ParseError>
    requires above { above ≡ least_above (addresses_of (row_addresses text.symbols.rows.now)) at.address }
    requires row { at.index * 16 + 16 ≤ length text.symbols.rows.now }
    ensures { Gives refusal_of (option_map function_view) (entry_of (located_view text.entry) (row_view at)) result }
{
    let row = symbol_at(text.symbols.rows, at.index * SYMBOL_LENGTH).unwrap();
    if !is_candidate(row) {
        return Ok(None);
    }
    let size = size_up_to(above, text.end, at.address)?;
    let name = parse_null_string(text.symbols.strings, row.name as usize);
    Ok(sized_entry(at.address, size, name))
}

// Whether a row of the text is kept if it has a size and a name.
fn is_candidate(row: SymbolRow) -> bool
    ensures { result ≡ is_candidate (symbol_view row) }
{
    row.name != 0 && row.kind & 0x0A != 0 && row.section == 1
}

fn size_up_to(above: Option<u64>, text_end: u64, address: u64) -> Result<Option<u64>, ParseError>
    requires { (n : ℕ) → above ≡ Some n → address < n }
    ensures { Gives refusal_of (λ o. o) (size_up_to above text_end address) result }
{
    match above {
        Some(above) => Ok(Some(above - address)),
        None => {
            if address < text_end {
                Ok(Some(text_end - address))
            } else if address == text_end {
                Ok(None)
            } else {
                Err(ParseError::MalformedInput)
            }
        }
    }
}

fn sized_entry(address: u64, size: Option<u64>, name: Option<&str>) -> Option<FunctionSymbol<'_>>
    ensures { option_map function_view result ≡ sized_entry address size (option_map (λ t. t.now) name.entry) }
{
    let size = size?;
    let name = name?;
    Some(FunctionSymbol {
        name,
        address,
        size,
    })
}

/// Whether the selected sections have a function symbol: whether the list of `functions_of` has an element. Nothing is
/// allocated, and nothing is sorted.
pub fn has_functions(selected: &SelectedSections, symbols: Option<SymbolBytes<'_>>) -> bool
    ensures { result ≡ nat_lt 0
        (length (entries_in (sections_view selected.now) (option_map symbols_view symbols.entry))) }
{
    match symbols {
        None => false,
        Some(symbols) => keeps_some(&selected.sections, selected.code, symbols),
    }
}

// Whether a row is kept of a selected section.
fn keeps_some(
    sections: &[NumberedSection],
    code: Option<CodeSection>,
    symbols: SymbolBytes<'_>,
) -> bool
    ensures { result ≡ nat_lt 0
        (length (entries_of_selected (selected_view sections.now code) (symbols_view symbols.entry))) }
{
    for k in 0..symbols.rows.len() / SYMBOL_LENGTH {
        let row = symbol_at(symbols.rows, k * SYMBOL_LENGTH).unwrap();
        match kept_of(sections, symbols.strings, row) {
            None => {}
            Some((at, _)) => {
                if is_taken(sections, code, at) {
                    return true;
                }
            }
        }
    }
    false
}

// The function symbols of selected sections in a symbol table. Only a failed allocation is an error.
fn functions_in<'a>(
    alloc: Global,
    sections: &[NumberedSection],
    code: Option<CodeSection>,
    symbols: SymbolBytes<'a>,
) -> Result<Vec<SectionFunction<'a>>, ParseError>
    ensures { let selected = selected_view sections.now code in
        Answers HoldsSectionFunctions (λ _. sections.now ≢ [])
        (Ok (entries_of_selected selected (symbols_view symbols.entry))) result }
{
    let mut functions = Vec::new(alloc);
    if sections.is_empty() {
        return Ok(functions);
    }
    let kept = kept_by_section(alloc, sections, symbols)?;
    let mut kept_rows = kept.rows;
    for index in 0..MAX_SECT {
        let at = usize::from(index);
        if is_taken(sections, code, at) {
            let rows = mem::replace(&mut kept_rows[at], Vec::new(alloc));
            let extent = sections[at].extent;
            push_section(alloc, &mut functions, extent, index + 1, rows, &kept.names)?;
        }
    }
    Ok(functions)
}

// Whether there is a section of this index, and it is selected: each is, or the code section alone.
fn is_taken(sections: &[NumberedSection], code: Option<CodeSection>, index: usize) -> bool
    ensures { result ≡ (nat_lt index (length sections.now) && is_selected (option_map code_view code) index) }
{
    if index >= sections.len() {
        return false;
    }
    match code {
        None => true,
        Some(code) => index == code.index,
    }
}

// The rows that are kept of each section, found in one walk over the symbol table.
fn kept_by_section<'a>(
    alloc: Global,
    sections: &[NumberedSection],
    symbols: SymbolBytes<'a>,
) -> Result<Kept<'a>, AllocError>
    ensures { IfOk result
        (λ k. HoldsKept (map numbered_view sections.now) (symbols_view symbols.entry)
        (length symbols.entry.rows.now / 16) 0 k.rows.items k.names.items) }
{
    let row_count = symbols.rows.len() / SYMBOL_LENGTH;
    let mut rows = nothing_kept(alloc, sections.len())?;
    let mut names = vec![in alloc; ""; row_count]?;
    for k in 0..row_count {
        let row = symbol_at(symbols.rows, k * SYMBOL_LENGTH).unwrap();
        match kept_of(sections, symbols.strings, row) {
            None => {}
            Some((at, name)) => {
                names[k] = name;
                rows[at].push(RowAddress {
                    address: row.value,
                    index: k,
                })?;
            }
        }
    }
    Ok(Kept { rows, names })
}

// No rows so far, for each of as many sections.
fn nothing_kept(alloc: Global, count: usize) -> Result<Vec<Vec<RowAddress>>, AllocError>
    ensures { IfOk result (λ v. (length v.items ≡ count) × All (λ rows. rows.items ≡ []) v.items) }
{
    let mut kept = Vec::new(alloc);
    for _index in 0..count {
        kept.push(Vec::new(alloc))?;
    }
    Ok(kept)
}

// The index of the section that a row is kept of, and the row's name: a function of a section that holds instructions.
fn kept_of<'a>(
    sections: &[NumberedSection],
    strings: &'a [u8],
    row: SymbolRow,
) -> Option<(usize, &'a str)>
    ensures { let name = λ (i : ℕ). named_in strings.entry.now (i + 1) (slice_get (map numbered_view sections.now) i)
        (symbol_view row) in MatchOption result
        ((i : ℕ) → name i ≡ None)
        (λ found. (found.0 < length sections.now) × (name found.0 ≡ Some found.1.now)
        × ((i : ℕ) → i ≢ found.0 → name i ≡ None) × (found.0 < 255)) }
{
    if row.section == 0 {
        return None;
    }
    let index = usize::from(row.section) - 1;
    if index >= sections.len() {
        return None;
    }
    let section = &sections[index];
    if !section.has_instructions {
        return None;
    }
    match function_name(strings, section.extent, row.section, row) {
        None => None,
        Some(name) => Some((index, name)),
    }
}

// Adds the function symbols of the kept rows of a section; `names` has their names by the rows' numbers.
fn push_section<'a>(
    alloc: Global,
    functions: &mut Vec<SectionFunction<'a>>,
    section: Extent,
    number: u8,
    rows: Vec<RowAddress>,
    names: &[&'a str],
) -> Result<(), AllocError>
    requires { All (IsInside (extent_view section) (length names.now)) rows.items }
    ensures { let in_order = arranged (rows_view rows.items) in IfOk result
        (λ _. map section_function_view functions.new.items
        ≡ map section_function_view functions.old.items ++ map (function_in (extent_view section) number
        (map (λ t. t.now) names.now) in_order) in_order) }
{
    let arranged = arrange(alloc, rows)?;
    push_kept(
        functions,
        section,
        number,
        &arranged.rows,
        names,
        &arranged.above,
    )
}

// Adds the function symbols of arranged rows of a section, given the least address above each.
fn push_kept<'a>(
    functions: &mut Vec<SectionFunction<'a>>,
    section: Extent,
    number: u8,
    rows: &[RowAddress],
    names: &[&'a str],
    above: &[Option<u64>],
) -> Result<(), AllocError>
    requires inside { All (IsInside (extent_view section) (length names.now)) rows.now }
    requires above { above.now ≡ map (λ r. least_above (addresses_of (rows_view rows.now)) r.address) rows.now }
    ensures { IfOk result
        (λ _. map section_function_view functions.new.items
        ≡ map section_function_view functions.old.items ++ map (function_in (extent_view section) number
        (map (λ t. t.now) names.now) (rows_view rows.now)) (rows_view rows.now)) }
{
    for at in 0..rows.len() {
        let row = rows[at];
        functions.push(SectionFunction {
            section: u32::from(number),
            info: 0,
            version: 0,
            function: FunctionSymbol {
                name: names[row.index],
                address: row.address,
                size: size_in(section, above[at], row.address),
            },
        })?;
    }
    Ok(())
}

// The bytes from an address in the section to the address above or, if there is none, to the section's end.
fn size_in(section: Extent, above: Option<u64>, address: u64) -> u64
    requires inside { (section.address ≤ address) × (address < section.address + section.size) }
    requires above { (n : ℕ) → above ≡ Some n → address < n }
    ensures { result ≡ unwrap_or above (section.address + section.size) - address }
{
    match above {
        None => section.size - (address - section.address),
        Some(above) => above - address,
    }
}

// The name of a row that is kept: a function of the section of this number.
#[tactic(auto, unfolding(crate::specs::MachoSections::function_name))]
fn function_name<'a>(
    strings: &'a [u8],
    section: Extent,
    number: u8,
    row: SymbolRow,
) -> Option<&'a str>
    ensures { option_map (λ t. t.now) result
        ≡ function_name strings.entry.now (extent_view section) number (symbol_view row) }
{
    if row.section != number || row.kind & (N_STAB | N_TYPE) != N_SECT || row.name == 0 {
        return None;
    }
    if !lies_in(section, row.value) {
        return None;
    }
    let name = parse_null_string(strings, row.name as usize)?;
    if is_label(name) { None } else { Some(name) }
}

fn lies_in(section: Extent, address: u64) -> bool
    ensures { result ≡ lies_in (extent_view section) address }
{
    section.address <= address && address - section.address < section.size
}

// Whether a name is that of a label of the assembler.
fn is_label(name: &str) -> bool
    ensures { result ≡ is_label name.now }
{
    let name = name.as_bytes();
    name.starts_with(b"ltmp") || name.starts_with(b"L")
}
