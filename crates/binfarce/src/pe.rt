//! PE files with COFF symbols (Microsoft PE Format), which are little endian.

ghost use Rattle.std.specs.Prelude.{◌≡◌, ◌<◌, ◌≤◌, length, All, MatchResult, IfOk};
ghost use Rattle.std.specs.Option.{option_map};
ghost use Rattle.binfarce_bytes.specs.Refusal.{Gives, refusal_of, unexpected_eof};
ghost use Rattle.binfarce_bytes.specs.Walk.{MayBeAsked, FirstAccepted, first};
ghost use Rattle.binfarce_bytes.specs.Entries.{Answers, ListsSome};
ghost use Rattle.binfarce_bytes.specs.SectionEntries.{AnswersAll, SelectsSome};
ghost use Rattle.binfarce_bytes.specs.Selection.{section_of};
ghost use Rattle.binfarce_bytes.specs.SymbolViews.{HoldsFunctions, HoldsSectionFunctions, HoldsSized};
ghost use Rattle.binfarce.specs.Symbol.{HoldsSymbols};
ghost use Rattle.binfarce_pe.specs.Pe.{least_length, signature_offset, header_of, section_data, walk, is_named};
ghost use Rattle.binfarce_pe.specs.PeParts.{places_of, places_view};
ghost use Rattle.binfarce_pe.specs.PeSelection.{all_answer, selected_answer, HasSection};
ghost use Rattle.binfarce_pe.specs.PeSymbols.{pe_answer, ArrangesRows};
ghost use Rattle.binfarce_pe.specs.PeViews.{header_view, section_view};
ghost use Rattle.binfarce.specs.PeSizes.{EqualAddressesEqualSizes};

use crate::symbols::{symbols_of_list, without_sections};
use binfarce_bytes::ParseError;
use binfarce_bytes::functions::{FunctionSymbol, SectionFunction, Selection};
use binfarce_names::demangle::SymbolData;
use binfarce_pe::functions::{functions_of_file, text_functions};
pub use binfarce_pe::header::PeHeader;
use binfarce_pe::header::parse_header;
use binfarce_pe::parts::{TableOffsets, places_after};
pub use binfarce_pe::sections::{Section, Sections};
use binfarce_pe::sections::{self, first_of_file};
use std::alloc::Global;
use std::marker::Model;

/// A PE file. It borrows the file's bytes.
#[derive(Debug, Clone, Drop)]
pub struct Pe<'a> {
    data: &'a [u8],
    pe_pointer: u32,
    header: PeHeader,
}

impl<'a> Model for Pe<'a> {
    ghost use Rattle.std.specs.Prelude.{◌≡◌, ◌≤◌, ℕ, List, length};
    ghost use Rattle.binfarce_pe.specs.Pe.{header_of, signature_offset, least_length};
    ghost use Rattle.binfarce_pe.specs.PeViews.{header_view};

    ghost Value = { List ℕ };

    ghost view = { λ p. p.data.now };

    ghost invariant = { λ p. (header_view p.header ≡ header_of p.data.now)
        × (p.pe_pointer ≡ signature_offset p.data.now) × (least_length p.data.now ≤ length p.data.now) };
}

/// Reads the file header. The signature isn't checked. Nothing is copied.
///
/// # Errors
///
/// `UnexpectedEof` for fewer than 64 bytes, and where the file header that they point to is truncated.
pub fn parse(file: &[u8]) -> Result<Pe<'_>, ParseError>
    ensures { MatchResult result
        (λ pe. (least_length file.now ≤ length file.now) × (pe ≡ file.now))
        (λ e. (length file.now < least_length file.now) × (refusal_of e ≡ unexpected_eof)) }
{
    let (pe_pointer, header) = parse_header(file)?;
    Ok(Pe {
        data: file,
        pe_pointer,
        header,
    })
}

impl<'a> Pe<'a> {
    /// The file's bytes, as given to `parse`.
    pub fn data(&self) -> &'a [u8]
        ensures { result.now ≡ self.now }
    {
        self.data
    }

    /// The file header, as it was read by `parse`.
    pub fn header(&self) -> PeHeader
        ensures { header_view result ≡ header_of self.now }
    {
        self.header
    }

    /// The sections in file order, as `find_section` searches them. Each is read on demand.
    ///
    /// `UnexpectedEof` is the last item where the section table doesn't begin in the file, or a header is truncated: as
    /// for `find_section` with a callback that always answers false.
    pub fn sections(&self) -> Sections<'a>
        ensures { result ≡ walk self.now }
    {
        sections::sections_of(self.data, self.places())
    }

    /// The section's bytes, a slice of the file.
    ///
    /// # Errors
    ///
    /// `UnexpectedEof` if they end past the file.
    pub fn section_bytes(&self, section: &Section<'_>) -> Result<&'a [u8], ParseError>
        ensures { Gives refusal_of (λ b. b.now) (section_data self.now (section_view section.now)) result }
    {
        sections::section_data(self.data, section)
    }

    /// The first section that the callback accepts, in file order; `None` if it accepts none.
    ///
    /// A section header is read only if the callback has refused the sections before it. A section whose name isn't
    /// UTF-8 is skipped.
    ///
    /// # Errors
    ///
    /// `UnexpectedEof` where the section table doesn't begin in the file, or a header that is
    /// read is truncated; only the last 16 bytes of a header aren't read.
    pub fn find_section<F: Fn(Section<'_>) -> bool>(
        &self,
        callback: F,
    ) -> Result<Option<Section<'a>>, ParseError>
        requires { All (MayBeAsked section_view (F.pre callback)) (walk self.now).items }
        ensures { FirstAccepted refusal_of section_view (F.post callback) (walk self.now) result }
    {
        Ok(first_of_file(self.data, self.places(), callback)?)
    }

    /// The first section with this name.
    ///
    /// # Errors
    ///
    /// Those of `find_section`.
    pub fn section_with_name(&self, name: &str) -> Result<Option<Section<'a>>, ParseError>
        ensures { Gives refusal_of (option_map section_view) (first (λ s. is_named name.now s) (walk self.now))
            result }
    {
        Ok(sections::section_with_name(self.data, self.places(), name)?)
    }

    /// The function symbols of the section `.text`, by address and at equal addresses in table order, and the section's
    /// size in bytes in the file.
    ///
    /// Their names are slices of the file, and still mangled. An address is the row's value: the offset in the section,
    /// in bytes. It keeps rows of external functions that name the section by its number and have a name. The name is
    /// the row's own 8 bytes up to the first NUL, which may be empty but have to be UTF-8, or the text at an offset in
    /// the string table ("COFF Symbol Table"). A symbol's size is the distance to the next greater of the addresses of
    /// the kept rows and the section's size, or 0 if none is greater.
    ///
    /// # Errors
    ///
    /// In this order: those of `find_section`; `SymbolsSectionIsMissing`; `UnexpectedEof` if the symbol table, even
    /// an empty one, doesn't begin in the file, or ends past it. `OutOfMemory` only instead of a list that isn't empty.
    pub fn functions(&self, alloc: Global) -> Result<(Vec<FunctionSymbol<'a>>, u64), ParseError>
        ensures { Answers HoldsFunctions ListsSome (pe_answer self.now) result }
    {
        let (functions, size) = text_functions(alloc, self.data, self.places())?;
        Ok((without_sections(alloc, &functions)?, size))
    }

    /// The function symbols of `functions` with readable names, and the size of `.text` in bytes in the file.
    ///
    /// # Errors
    ///
    /// Those of `functions`.
    pub fn symbols(&self, alloc: Global) -> Result<(Vec<SymbolData>, u64), ParseError>
        ensures answer { Answers HoldsSymbols ListsSome (pe_answer self.now) result }
        ensures order { ArrangesRows self.now }
        ensures sizes { IfOk result (λ answer. EqualAddressesEqualSizes answer.0.items) }
    {
        let (functions, size) = self.functions(alloc)?;
        let symbols = symbols_of_list(alloc, &functions)?;
        Ok((symbols, size))
    }

    /// The function symbols of all sections, external and static, each with its section's number: by section, and in
    /// each by the row's value and at equal values in table order.
    ///
    /// An address is a virtual address: the image base, the section's address and the row's value, modulo 2^64. A file
    /// without an optional header of PE32 or PE32+ is an object, and there it is the value, the offset in the section.
    /// A size ends at the next greater address of an external or static row of the section, whatever its type, or of a
    /// label whose name doesn't begin with `.`, `L` or `$`, and with the section in memory at the latest (`VirtualSize`,
    /// or if that is 0 `SizeOfRawData`). Sections are numbered from 1 on, also those whose name isn't UTF-8. A row
    /// without a section, or whose section doesn't exist, isn't kept.
    ///
    /// # Errors
    ///
    /// In this order: `UnexpectedEof` where the section table doesn't begin in the file, or a header is truncated, as
    /// for `find_section` with a callback that accepts no section; `UnexpectedEof` if the symbol table, even an
    /// empty one, doesn't begin in the file, or ends past it. `OutOfMemory` only if the file has a section.
    pub fn all_functions(&self, alloc: Global) -> Result<Vec<SectionFunction<'a>>, ParseError>
        ensures { AnswersAll HoldsSectionFunctions (HasSection self.now) (all_answer self.now) result }
    {
        let (functions, _) = self.selected_functions(alloc, Selection::All)?;
        Ok(functions)
    }

    /// The function symbols of `all_functions`; by a name, whichever it is, those of the code section alone, the first
    /// `.text`, with its size in bytes in memory (`VirtualSize`, or if that is 0 `SizeOfRawData`).
    ///
    /// Unlike `functions`, which answers as the original crate does, it takes static functions too, and addresses are
    /// virtual addresses.
    ///
    /// # Errors
    ///
    /// Those of `all_functions`, and after those of the section table `SymbolsSectionIsMissing`; `OutOfMemory` only
    /// instead of a list that isn't empty.
    pub fn selected_functions(
        &self,
        alloc: Global,
        selection: Selection<'_>,
    ) -> Result<(Vec<SectionFunction<'a>>, Option<u64>), ParseError>
        ensures { Answers HoldsSized SelectsSome (selected_answer (section_of selection.entry) self.now) result }
    {
        functions_of_file(alloc, self.data, self.places(), selection)
    }

    // The places of the tables.
    fn places(&self) -> TableOffsets
        ensures { places_view result ≡ places_of self.now }
    {
        places_after(self.pe_pointer, self.header)
    }
}
