//! `binfarce at [OPTION..] FILE [ADDRESS..]`: the function symbol at each address.

ghost use Rattle.std.specs.Prelude.{◌≡◌, ◌≢◌, ℕ, List, Option, true, false, length, map, Some, Ok, Err, IfErr, IfOk};
ghost use Rattle.std.specs.List.{list_any};
ghost use Rattle.binfarce.specs.SectionEntries.{SelectedSymbols};
ghost use Rattle.binfarce_addresses.specs.Counts.{AreCountsOf, answers_at};
ghost use Rattle.binfarce_addresses.specs.Lines.{AreLinesAt};
ghost use Rattle.binfarce_addresses.specs.Lookup.{places_in};
ghost use Rattle.binfarce.specs.Format.{format_of};
ghost use Rattle.binfarce_tables.specs.Reading.{Reads};
ghost use Rattle.binfarce_tools.specs.Listing.{ListingFits};
ghost use Rattle.binfarce_tools.specs.Answer.{addresses_are_shared, selected_answer, MemoryIn};
ghost use Rattle.binfarce_tools.specs.Tables.{AreTablesOf, ReadsAs};
ghost use Rattle.binfarce_tools.specs.declared.SymbolTable.{SymbolTable};
ghost use Rattle.binfarce_tools.specs.Writing.{EndsAs, Takes, Fails, Leaves, write_failed};
ghost use Rattle.binfarce_tools.specs.SectionAnswer.{is_elf};
ghost use Rattle.binfarce_jobs.specs.At.{AnswersInput, AreTablesAt, HasPlaces, IsShared, addresses_of, answer_at, is_behind, loaded_and_origin};
ghost use Rattle.binfarce_jobs.specs.machine.Dynamic.{IsDynamic, is_refused_so};
ghost use Rattle.binfarce_io.specs.Faults.{failure, outcome_of};
ghost use Rattle.binfarce_jobs.specs.Show.{AreTablesFor, answer_for};
ghost use Rattle.binfarce_words.specs.WordViews.{Gives};

use crate::show::{Symbols, has_functions, tables_of};
use binfarce_addresses::at::{Places, write_lines};
use binfarce_addresses::stream::answer_lines;
use binfarce_addresses::{Counts, Lookup, parse_address};
use binfarce_bytes::ParseError;
use binfarce_bytes::format::Format;
use binfarce_bytes::source::Source;
use binfarce_io::fault::Fault;
use binfarce_tables::ReadError;
use binfarce_tables::format::read_format;
use binfarce_tables::loading::{LoadAddress, read_load_address};
use binfarce_tools::SymbolTable;
use binfarce_tools::list::Sink;
use binfarce_tools::tables::Tables;
use binfarce_words::wrong::Wrong;
use std::alloc::Global;
use std::io::Read;

/// The addresses in the words.
///
/// # Errors
///
/// `NoAddress` with the first word that isn't an address; `OutOfMemory` if an allocation fails.
pub fn read_addresses<'a>(alloc: Global, words: &[&'a str]) -> Result<Vec<u64>, Wrong<'a>>
    ensures { Gives (λ v. v.items) (addresses_of (map (λ word. word.now) words.entry.now)) result }
{
    let mut addresses = Vec::new(alloc);
    for word in words {
        match parse_address(word.as_bytes()) {
            Some(address) => match addresses.push(address) {
                Ok(()) => {}
                Err(_) => return Err(Wrong::OutOfMemory),
            },
            None => return Err(Wrong::NoAddress(word)),
        }
    }
    Ok(addresses)
}

/// What addresses came to.
#[derive(Debug, Clone, Copy, PartialEq)]
pub struct Answered {
    /// How many there are, and how many were found.
    pub counts: Counts,
    /// How many function symbols they were looked up in.
    pub symbols: usize,
    /// Whether one of them would be found as a return address. Of lines of standard input, which aren't kept, this isn't
    /// asked.
    pub is_behind: bool,
}

/// The tables of the source in which addresses are looked up, and the symbol table that they are read by: those for
/// these function symbols; of an ELF file without `.symtab` those by `.dynsym`, if it has function symbols there.
///
/// # Errors
///
/// Those of `tables_of` for these function symbols; a failed read or allocation also for those by `.dynsym`.
pub fn tables_at<S: Source<Log = ()>>(
    alloc: Global,
    source: &S,
    symbols: &Symbols<'_>,
) -> Result<(Tables<'static>, SymbolTable), ReadError>
    ensures { (file : List ℕ) → S.bytes source.now ≡ Some file → ReadsAs (AreTablesAt symbols.now file)
        (S.may_fail source.now ≡ true) (answer_at symbols.now file) result }
{
    let format = read_format(alloc, source, &mut ())?;
    match tables_of(alloc, source, symbols) {
        Ok(tables) => Ok((tables, symbols.which)),
        Err(e) => tables_after(alloc, source, symbols, &format, e),
    }
}

// The tables of a file of this format, of which those for these function symbols weren't read.
fn tables_after<S: Source<Log = ()>>(
    alloc: Global,
    source: &S,
    symbols: &Symbols<'_>,
    format: &Format,
    e: ReadError,
) -> Result<(Tables<'static>, SymbolTable), ReadError>
    ensures { (file : List ℕ) → S.bytes source.now ≡ Some file → format.now ≡ format_of file
        → ReadsAs (AreTablesFor symbols.now file) (S.may_fail source.now ≡ true) (answer_for symbols.now file) (Err e)
        → ReadsAs (AreTablesAt symbols.now file)
        (S.may_fail source.now ≡ true) (answer_at symbols.now file) result }
{
    if is_elf(format) && is_no_symtab(e) {
        if let Some(tables) = dynamic_tables(alloc, source, symbols)? {
            return Ok((tables, SymbolTable::Dynsym));
        }
    }
    Err(e)
}

// Whether a file is refused since it has no `.symtab`.
fn is_no_symtab(e: ReadError) -> bool
    ensures { result ≡ is_refused_so e }
{
    matches!(
        e,
        ReadError::Refused(ParseError::SectionIsMissing(".symtab"))
    )
}

// The tables by `.dynsym`. `None` if these are refused, or have no function symbol.
fn dynamic_tables<S: Source<Log = ()>>(
    alloc: Global,
    source: &S,
    symbols: &Symbols<'_>,
) -> Result<Option<Tables<'static>>, ReadError>
    ensures { (file : List ℕ) → S.bytes source.now ≡ Some file
        → IsDynamic symbols.now file (S.may_fail source.now ≡ true) result }
{
    let dynamic = Symbols {
        which: SymbolTable::Dynsym,
        selection: symbols.selection,
    };
    let tables = match tables_of(alloc, source, &dynamic) {
        Ok(tables) => tables,
        Err(ReadError::Refused(_)) => return Ok(None),
        Err(e) => return Err(e),
    };
    if has_functions(alloc, &tables)? {
        Ok(Some(tables))
    } else {
        Ok(None)
    }
}

/// Symbolizes the addresses, by this lookup and the function symbols of these tables, and counts them.
///
/// # Errors
///
/// `Unknown`, `Parse`, `OutOfMemory` and `Write` as `at` refuses; `SharedAddresses` for all sections of an object file.
pub fn answer_all<K: Sink>(
    alloc: Global,
    tables: &Tables<'_>,
    lookup: Lookup<'_>,
    addresses: &[u64],
    out: &mut K,
) -> Result<Answered, Fault>
    ensures outcome { (which : SymbolTable) (file : List ℕ) (section : Option (List ℕ))
        → AreTablesOf which file section tables.now
        → addresses_are_shared (selected_answer which section file) ≡ false
        → EndsAs ListingFits (MemoryIn file section) (selected_answer which section file) (outcome_of result) }
    ensures shared { (which : SymbolTable) (file : List ℕ) (section : Option (List ℕ))
        → AreTablesOf which file section tables.now
        → addresses_are_shared (selected_answer which section file) ≡ true → IsShared result }
    ensures takes { (which : SymbolTable) (file : List ℕ) (section : Option (List ℕ))
        → AreTablesOf which file section tables.now → Takes (AreLinesAt lookup.entry addresses.now)
        (selected_answer which section file) (K.taken out.old) (K.taken out.new) (outcome_of result) }
    ensures counts { (which : SymbolTable) (file : List ℕ) (section : Option (List ℕ)) (selected : SelectedSymbols)
        → AreTablesOf which file section tables.now → selected_answer which section file ≡ Some (Ok selected)
        → IfOk result (λ a. AreCountsOf (answers_at (places_in selected) lookup.entry addresses.now) a.counts) }
    ensures symbols { (which : SymbolTable) (file : List ℕ) (section : Option (List ℕ)) (selected : SelectedSymbols)
        → AreTablesOf which file section tables.now → selected_answer which section file ≡ Some (Ok selected)
        → IfOk result (λ a. a.symbols ≡ length (places_in selected)) }
    ensures behind { (which : SymbolTable) (file : List ℕ) (section : Option (List ℕ)) (selected : SelectedSymbols)
        → AreTablesOf which file section tables.now → selected_answer which section file ≡ Some (Ok selected)
        → IfOk result (λ a. a.is_behind ≡ list_any (is_behind (places_in selected) lookup.entry) addresses.now) }
    ensures fails { Fails (K.has_failed out.old) (K.has_failed out.new) (outcome_of result) }
    ensures leaves { Leaves out.old out.new (outcome_of result) }
{
    let places = places_of(alloc, tables)?;
    let counts = write_lines(alloc, &places, lookup, addresses, out)?;
    Ok(Answered {
        counts,
        symbols: places.len(),
        is_behind: are_behind(&places, lookup, addresses),
    })
}

// Whether one of the addresses would be found as a return address.
fn are_behind(places: &Places<'_>, lookup: Lookup<'_>, addresses: &[u64]) -> bool
    ensures { result ≡ list_any (is_behind places.now lookup.entry) addresses.now }
{
    addresses
        .iter()
        .any(|address| is_behind(places, lookup, *address))
}

fn is_behind(places: &Places<'_>, lookup: Lookup<'_>, address: u64) -> bool
    ensures { result ≡ is_behind places.now lookup.entry address }
{
    let mut returning = lookup;
    returning.is_return = true;
    places.find(returning, address).is_some()
}

/// Where the file itself says that it is loaded, which is the address of the base, at 0 if it doesn't say it; and the
/// address in the file that an offset of 0 after its name means. Of the source it reads headers alone.
///
/// # Errors
///
/// Those of `read_format` and `read_load_address`.
pub fn load_addresses_of<S: Source<Log = ()>>(
    alloc: Global,
    source: &S,
) -> Result<(LoadAddress, u64), ReadError>
    ensures { (file : List ℕ) → S.bytes source.now ≡ Some file
        → Reads (S.may_fail source.now) (λ both. both) (loaded_and_origin file) result }
{
    let format = read_format(alloc, source, &mut ())?;
    let elf = is_elf(&format);
    let stated = read_load_address(alloc, source, &mut (), format)?;
    let loaded = stated.unwrap_or(LoadAddress {
        address: 0,
        code: None,
    });
    Ok((loaded, if elf { 0 } else { loaded.address }))
}

fn is_elf(format: &Format) -> bool
    ensures { result ≡ is_elf format.now }
{
    match format {
        Format::Elf32 { .. } | Format::Elf64 { .. } => true,
        _ => false,
    }
}

/// The places of the function symbols of these tables.
///
/// # Errors
///
/// `Unknown`, `Parse` and `OutOfMemory` as `at` refuses; `SharedAddresses` for all sections of an object file.
pub fn places_of<'a>(alloc: Global, tables: &'a Tables<'_>) -> Result<Places<'a>, Fault>
    ensures has { (which : SymbolTable) (file : List ℕ) (section : Option (List ℕ))
        → AreTablesOf which file section tables.entry.now
        → HasPlaces (addresses_are_shared (selected_answer which section file)) (MemoryIn file section)
        (selected_answer which section file) result }
    ensures unwritten { IfErr result (λ e. failure e ≢ write_failed) }
{
    let places = Places::of_tables(alloc, tables)?;
    if tables.shares_addresses() {
        return Err(Fault::SharedAddresses);
    }
    Ok(places)
}

/// Symbolizes the addresses in the lines of `input`, each as soon as its line feed has come, and counts them.
///
/// # Errors
///
/// Those of `answer_all`, before anything of `input` is read; `Input` if it can't be read.
pub fn answer_input<I: Read, K: Sink>(
    alloc: Global,
    tables: &Tables<'_>,
    lookup: Lookup<'_>,
    input: &mut I,
    out: &mut K,
) -> Result<Answered, Fault>
    ensures answers { (which : SymbolTable) (file : List ℕ) (section : Option (List ℕ))
        → AreTablesOf which file section tables.now
        → AnswersInput (addresses_are_shared (selected_answer which section file)) (MemoryIn file section)
        (selected_answer which section file) lookup.entry
        (I.remaining input.old) (I.remaining input.new) (K.taken out.old) (K.taken out.new) result }
    ensures fails { Fails (K.has_failed out.old) (K.has_failed out.new) (outcome_of result) }
{
    let places = places_of(alloc, tables)?;
    let counts = answer_lines(alloc, &places, lookup, input, out)?;
    Ok(Answered {
        counts,
        symbols: places.len(),
        is_behind: false,
    })
}
