//! Symbolizes addresses in an executable, a line for each.

ghost use Rattle.std.specs.Prelude.{◌≡◌, ◌≢◌, ◌++◌, ◌<◌, ℕ, List, Option, length, nat_eq, Some, None, Ok, map, IfErr, IfOk, MatchOption};
ghost use Rattle.binfarce.specs.SectionEntries.{SelectedSymbols};
ghost use Rattle.binfarce.specs.Symbol.{Entry};
ghost use Rattle.binfarce.specs.SymbolViews.{function_view};
ghost use Rattle.binfarce_tools.specs.Answer.{file_answer, selected_answer, MemoryIn};
ghost use Rattle.binfarce_tools.specs.Entries.{all_left};
ghost use Rattle.binfarce_tools.specs.Listing.{ListingFits};
ghost use Rattle.binfarce_tools.specs.Tables.{AreTablesOf};
ghost use Rattle.binfarce_tools.specs.declared.SymbolTable.{SymbolTable};
ghost use Rattle.binfarce_tools.specs.declared.list.ListError.TheVariants.{Write};
ghost use Rattle.binfarce_tools.specs.Writing.{EndsAs, Takes, Fails, Leaves};
ghost use Rattle.binfarce.specs.Found.{entry_at};
ghost use Rattle.binfarce_addresses.specs.Lookup.{entry_for, found_at, has_symbol, is_local, places_in, with_local_last};
ghost use Rattle.binfarce_addresses.specs.Counts.{AreCountsOf, answers_at, is_held};
ghost use Rattle.binfarce_addresses.specs.Lines.{IsLineAt, AreLinesAt, outcome_of};
ghost use Rattle.binfarce_addresses.specs.PlacesViews.{IsMadeOf};
ghost use Rattle.binfarce_addresses.specs.Stream.{AreAnswersOf, IsAnswerOf};
ghost use Rattle.binfarce_addresses.specs.Places.{IsAtPlace, IsFoundIn};
ghost use Rattle.binfarce_addresses.specs.machine.Places.{ArePlacesOf, IsFoundFor, IsPlaceFor, ranges_of};

use crate::counts::{Counts, Reply};
use crate::lookup::Lookup;
use crate::names::Names;
use crate::ranges::{AddressRange, Ranges};
use binfarce::FunctionSymbol;
use binfarce_tools::functions::{Functions, functions_of_file};
use binfarce_tools::list::{ListError, Sink};
use binfarce_tools::tables::Tables;
use binfarce_tools::writing::write_whole;
use std::alloc::{AllocError, Global};
use std::marker::Model;

/// The function symbols of a file, arranged for lookups by address.
///
/// Contracts speak of its entries, in the order of the listing, but the local symbols of an ELF file after the others.
#[derive(Drop)]
pub struct Places<'a> {
    pub(crate) functions: Vec<FunctionSymbol<'a>>,
    ranges: Ranges,
}

/// What an address symbolizes to: the place of a function symbol, and the offset of the address into it.
pub type Found = (usize, u64);

impl<'a> Model for Places<'a> {
    ghost Value = { List Entry };

    ghost view = { λ s. map function_view s.functions.items };

    ghost invariant = { λ s. ArePlacesOf s.functions.items s.ranges };
}

impl<'a> Places<'a> {
    /// The places of a file's function symbols: of an ELF file those of the section.
    ///
    /// # Errors
    ///
    /// Those of `list`, except `Write`.
    pub fn of_file(alloc: Global, file: &'a [u8], section: &str) -> Result<Places<'a>, ListError>
        ensures { IsMadeOf (MemoryIn file.entry.now (Some section.now))
            (file_answer file.entry.now section.now) result }
    {
        let (functions, _) = functions_of_file(alloc, file, section)?;
        Ok(places_of(alloc, functions)?)
    }

    /// The places of the function symbols of a file's tables: for the selection that they were read for. The sections
    /// of an object file may share addresses (`Tables::shares_addresses`), so with all of them an address may symbolize
    /// to another section's symbol.
    ///
    /// # Errors
    ///
    /// As `of_file`.
    pub fn of_tables(alloc: Global, tables: &'a Tables<'_>) -> Result<Places<'a>, ListError>
        ensures made { (which : SymbolTable) (file : List ℕ) (section : Option (List ℕ))
            → AreTablesOf which file section tables.entry.now
            → IsMadeOf (MemoryIn file section) (selected_answer which section file) result }
        ensures unwritten { IfErr result (λ e. e ≢ Write) }
    {
        let (functions, _) = tables.functions(alloc)?.into_list();
        Ok(places_of(alloc, functions)?)
    }

    /// How many function symbols there are.
    pub fn len(&self) -> usize
        ensures { result ≡ length self.now }
    {
        self.functions.len()
    }

    /// Whether there is no function symbol.
    pub fn is_empty(&self) -> bool
        ensures { result ≡ nat_eq (length self.now) 0 }
    {
        self.functions.is_empty()
    }

    /// The function symbol that an address symbolizes to by this lookup, and the offset of the address into it.
    pub fn find(&self, lookup: Lookup<'_>, address: u64) -> Option<(FunctionSymbol<'a>, u64)>
        ensures { MatchOption result (found_at self.now lookup.entry address ≡ None)
            (λ f. found_at self.now lookup.entry address ≡ Some (function_view f.0, f.1)) }
    {
        let (place, offset) = self.find_place(lookup, Some(address))?;
        Some((self.functions[place], offset))
    }

    // What an address symbolizes to; nothing without an address.
    #[inline(always)]
    pub(crate) fn find_place(&self, lookup: Lookup<'_>, address: Option<u64>) -> Option<Found>
        ensures { IsFoundFor self.now lookup.entry address result }
    {
        self.find_in(lookup.is_return, lookup.in_file(address?))
    }

    // What an address in the file symbolizes to; nothing without an address.
    #[inline(always)]
    pub(crate) fn find_in(&self, is_return: bool, address: Option<u64>) -> Option<Found>
        ensures { IsFoundIn self.now is_return address result }
    {
        let address = address?;
        let place = self.place_for(is_return, address)?;
        let offset = address.saturating_sub(self.at(place).address);
        Some((place, offset))
    }

    // The place of the function symbol that an address in the file symbolizes to.
    #[inline(always)]
    fn place_for(&self, is_return: bool, address: u64) -> Option<usize>
        ensures { IsPlaceFor self.now (entry_for is_return self.now address) result }
    {
        let here = self.place_of(address);
        if !is_return {
            return here;
        }
        let before = self.place_of(address.saturating_sub(1));
        before.or(here)
    }

    // The place of the function symbol that holds an address in the file.
    #[inline(always)]
    fn place_of(&self, address: u64) -> Option<usize>
        ensures { IsPlaceFor self.now (entry_at self.now address) result }
    {
        self.ranges.find(address)
    }

    // The function symbol at a place.
    #[inline(always)]
    pub(crate) fn at(&self, place: usize) -> FunctionSymbol<'a>
        requires { place < length self.now }
        ensures { IsAtPlace self.now place (function_view result) }
    {
        self.functions[place]
    }

    /// Whether a function symbol has this name, as it is stored.
    pub fn has(&self, name: &[u8]) -> bool
        ensures { result ≡ has_symbol self.now name.now }
    {
        self.functions
            .iter()
            .any(|function| function.name.as_bytes() == name)
    }

    /// Appends the line of an address to the text: the address, the symbol that it symbolizes to by this lookup, and
    /// the offset of the address into it; or `??` if there is none. Returns whether there is one.
    ///
    /// # Errors
    ///
    /// `AllocError` if an allocation failed: the text is then unspecified.
    pub fn push_line(
        &self,
        alloc: Global,
        text: &mut Vec<u8>,
        lookup: Lookup<'_>,
        address: u64,
    ) -> Result<bool, AllocError>
        ensures line { IfOk result (λ _. (line : List ℕ) × IsLineAt self.now lookup.entry address line
            × (text.new.items ≡ text.old.items ++ line)) }
        ensures held { IfOk result (λ held. held ≡ is_held self.now lookup.entry address) }
    {
        let mut names = Names::new(alloc, self, lookup, 0)?;
        names.push_address_line(text, address)
    }
}

// The places of function symbols.
fn places_of(alloc: Global, listed: Functions<'_>) -> Result<Places<'_>, AllocError>
    ensures { IfOk result (λ p. p ≡ with_local_last (all_left listed.entry.all)) }
{
    let mut functions = Vec::new(alloc);
    let mut local = Vec::new(alloc);
    for function in listed.all {
        if is_local(function.info) {
            local.push(function.function)?;
        } else {
            functions.push(function.function)?;
        }
    }
    functions.extend_from_slice(&local)?;
    let ranges = ranges_of(alloc, &functions)?;
    let ranges = Ranges::new(alloc, &ranges)?;
    Ok(Places { functions, ranges })
}

// Whether a symbol of an ELF file with this info is local: its binding is `STB_LOCAL`.
fn is_local(info: u8) -> bool
    ensures { result ≡ is_local info }
{
    0 < info && info < 16
}

// The ranges of function symbols.
fn ranges_of(
    alloc: Global,
    functions: &[FunctionSymbol<'_>],
) -> Result<Vec<AddressRange>, AllocError>
    ensures { IfOk result (λ v. v.items ≡ ranges_of functions.now) }
{
    let mut ranges = Vec::with_capacity(alloc, functions.len())?;
    for function in functions {
        ranges.push(AddressRange {
            address: function.address,
            size: function.size,
        })?;
    }
    Ok(ranges)
}

/// Symbolizes addresses in an executable: a line for each, in their order.
///
/// The format and the section are as in `list`. A line is `{address:016x} {name}+0x{offset:x}`: the address, the
/// readable name of its function symbol, and the offset into it. With a base, the address in the file is as far from
/// `linked` as the address is from the base. For a return address the one before it is looked up, but the offset is that
/// of the address. A symbol holds the addresses of its range, or if its size is 0 its own. If several hold an address, it
/// is the one of greatest address; if several have that, the first in the order of the listing, in an ELF file the first
/// that isn't local, if there is one. The line is
/// `{address:016x} ??` for an address that none holds, and for one below the base, or, where `size` bytes are loaded from
/// there, past them. Returns how many addresses there are, and how many of them a symbol holds.
///
/// # Errors
///
/// Those of `list`. Only after `Write` a beginning of the lines may be written.
pub fn at<S: Sink>(
    alloc: Global,
    file: &[u8],
    section: &str,
    lookup: Lookup<'_>,
    addresses: &[u64],
    out: &mut S,
) -> Result<Counts, ListError>
    ensures outcome { EndsAs ListingFits (MemoryIn file.now (Some section.now))
        (file_answer file.now section.now) (outcome_of result) }
    ensures takes { Takes (AreLinesAt lookup.entry addresses.now) (file_answer file.now section.now)
        (S.taken out.old) (S.taken out.new) (outcome_of result) }
    ensures counts { (selected : SelectedSymbols) → file_answer file.now section.now ≡ Some (Ok selected)
        → IfOk result (AreCountsOf (answers_at (places_in selected) lookup.entry addresses.now)) }
    ensures fails { Fails (S.has_failed out.old) (S.has_failed out.new) (outcome_of result) }
    ensures leaves { Leaves out.old out.new (outcome_of result) }
{
    at_tables(alloc, &Tables::whole(file, section), lookup, addresses, out)
}

/// As `at`, from the tables of a file: for the selection that they were read for.
///
/// # Errors
///
/// As `at`.
#[tactic(auto, using(crate::proofs::AddressLines::ends_of, crate::proofs::AddressLines::takes_of, crate::proofs::AddressLines::if_counts_of))]
pub fn at_tables<S: Sink>(
    alloc: Global,
    tables: &Tables<'_>,
    lookup: Lookup<'_>,
    addresses: &[u64],
    out: &mut S,
) -> Result<Counts, ListError>
    ensures outcome { (which : SymbolTable) (file : List ℕ) (section : Option (List ℕ))
        → AreTablesOf which file section tables.now
        → EndsAs ListingFits (MemoryIn file section) (selected_answer which section file) (outcome_of result) }
    ensures takes { (which : SymbolTable) (file : List ℕ) (section : Option (List ℕ))
        → AreTablesOf which file section tables.now → Takes (AreLinesAt lookup.entry addresses.now)
        (selected_answer which section file) (S.taken out.old) (S.taken out.new) (outcome_of result) }
    ensures counts { (which : SymbolTable) (file : List ℕ) (section : Option (List ℕ)) (selected : SelectedSymbols)
        → AreTablesOf which file section tables.now → selected_answer which section file ≡ Some (Ok selected)
        → IfOk result (AreCountsOf (answers_at (places_in selected) lookup.entry addresses.now)) }
    ensures fails { Fails (S.has_failed out.old) (S.has_failed out.new) (outcome_of result) }
    ensures leaves { Leaves out.old out.new (outcome_of result) }
{
    let places = Places::of_tables(alloc, tables)?;
    write_lines(alloc, &places, lookup, addresses, out)
}

/// Writes a line for each address, and counts them, as `at` does, by the places of a file.
///
/// # Errors
///
/// `OutOfMemory` if an allocation failed; `Write` if a write failed, which alone can leave a beginning of the
/// lines written.
#[tactic(auto, using(crate::proofs::AddressLines::endings))]
pub fn write_lines<S: Sink>(
    alloc: Global,
    places: &Places<'_>,
    lookup: Lookup<'_>,
    addresses: &[u64],
    out: &mut S,
) -> Result<Counts, ListError>
    ensures outcome { (selected : SelectedSymbols) → places.now ≡ places_in selected
        → EndsAs ListingFits (λ _. ⊥) (Some (Ok selected)) (outcome_of result) }
    ensures takes { (selected : SelectedSymbols) → places.now ≡ places_in selected
        → Takes (AreLinesAt lookup.entry addresses.now)
        (Some (Ok selected)) (S.taken out.old) (S.taken out.new) (outcome_of result) }
    ensures counts { IfOk result (AreCountsOf (answers_at places.now lookup.entry addresses.now)) }
    ensures fails { Fails (S.has_failed out.old) (S.has_failed out.new) (outcome_of result) }
    ensures leaves { Leaves out.old out.new (outcome_of result) }
{
    let mut names = Names::with_room(alloc, places, lookup)?;
    let mut text = Vec::new(alloc);
    let mut counts = Counts::new();
    for address in addresses {
        let held = names.push_address_line(&mut text, *address)?;
        counts.add(Reply::Held(held));
    }
    write_whole(out, text.as_slice())?;
    Ok(counts)
}
