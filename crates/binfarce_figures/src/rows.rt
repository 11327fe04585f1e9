//! Listings in an order, of the first lines alone, and with other names.

ghost use Rattle.std.specs.Prelude.{◌≡◌, ◌++◌, ℕ, List, Option, Some, Ok, length, map, IfOk, IfSome, OnOk, String};
ghost use Rattle.std.specs.BTreeMap.{get_by_text};
ghost use Rattle.std.specs.Cmp.Lexicographic.{slice_cmp};
ghost use Rattle.std.specs.Global.{Global};
ghost use Rattle.std.specs.List.{All, AllZip};
ghost use Rattle.std.specs.Option.{option_map};
ghost use Rattle.std.specs.Ordering.{nat_cmp};
ghost use Rattle.std.specs.String.{string_bytes};
ghost use Rattle.binfarce.specs.SectionEntries.{SectionEntry, SelectedSymbols};
ghost use Rattle.binfarce.specs.SymbolViews.{section_function_view};
ghost use Rattle.binfarce.specs.declared.SymbolTable.{SymbolTable};
ghost use Rattle.binfarce_tools.specs.Listing.{ListingFits};
ghost use Rattle.binfarce_tools.specs.ListWords.{outcome_of};
ghost use Rattle.binfarce_tools.specs.Answer.{selected_answer, MemoryIn};
ghost use Rattle.binfarce_tools.specs.Entries.{all_left};
ghost use Rattle.binfarce_tools.specs.Tables.{AreTablesOf, version_names_of};
ghost use Rattle.binfarce_tools.specs.Writing.{EndsAs, Takes, Fails, Leaves};
ghost use Rattle.binfarce_figures.specs.Figures.{ended};
ghost use Rattle.binfarce_figures.specs.Order.{AreNamed, IsByKey, IsInOrder, Named};
ghost use Rattle.binfarce_figures.specs.Rows.{IsNameText};
ghost use Rattle.binfarce_figures.specs.RowListing.{IsListingBy, binding_word, kind_word, last_line, symbol_members, word_of};
ghost use Rattle.binfarce_rows.specs.Json.{style_of};
ghost use Rattle.binfarce_figures.specs.machine.Listings.{AreRows, AreTexts, HasName, IsPlaced, IsRowNamed, IsShownBy, IsTextAt, IsTextFor, Notes, entry_of, name_of};

use crate::key::put_crate;
use crate::order::{Order, Row, is_by_name, sort, sort_by_name};
use binfarce::{FunctionSymbol, SectionFunction};
use binfarce_names::demangle::Demangler;
use binfarce_rows::columns::count_of;
use binfarce_rows::head::push_head;
use binfarce_rows::json::{
    Form, push_address_member, push_number_member, push_start, push_text_member,
};
use binfarce_tools::functions::Selected;
use binfarce_tools::list::{ListError, Sink, push_section_part};
use binfarce_tools::tables::Tables;
use binfarce_tools::writing::write_whole;
use std::alloc::{AllocError, Global};
use std::collections::BTreeMap;

/// What is shown of a name.
#[derive(Debug, Clone, Copy, PartialEq)]
#[non_exhaustive]
pub enum Naming {
    /// Its trimmed text.
    Trimmed,
    /// Its complete text, with hashes.
    Complete,
    /// The name as it is stored.
    Stored,
}

/// What a listing shows.
#[derive(Debug, Clone, Copy, PartialEq)]
pub struct Shown {
    /// What its lines are sorted by; `None` for the order of `list`.
    pub order: Option<Order>,
    /// How many lines it has at most.
    pub first: Option<usize>,
    /// What is shown of a name.
    pub naming: Naming,
    /// Whether the listing of a section ends with the section's size.
    pub has_total: bool,
}

/// As `list_tables`, but in an order, of the first lines alone, with other names, without the last line, or as objects
/// with the members `file`, `section`, `address`, `size`, `name`, `raw` (the stored name), `crate`, `binding`, `kind`
/// and `version`, and no last line. Returns how many function symbols there are, with those that aren't among the first.
///
/// # Errors
///
/// Those of `list_tables`.
pub fn list_by<S: Sink>(
    alloc: Global,
    tables: &Tables<'_>,
    shown: &Shown,
    form: Form<'_>,
    out: &mut S,
) -> Result<usize, ListError>
    ensures outcome { (which : SymbolTable) (file : List ℕ) (section : Option (List ℕ))
        → AreTablesOf which file section tables.now
        → EndsAs ListingFits (MemoryIn file section) (selected_answer which section file)
        (outcome_of (ended result)) }
    ensures takes { (which : SymbolTable) (file : List ℕ) (section : Option (List ℕ))
        → AreTablesOf which file section tables.now
        → Takes (IsListingBy shown.now (style_of form.entry))
        (selected_answer which section file) (S.taken out.old) (S.taken out.new) (outcome_of (ended result)) }
    ensures count { (which : SymbolTable) (file : List ℕ) (section : Option (List ℕ)) (selected : SelectedSymbols)
        → AreTablesOf which file section tables.now
        → selected_answer which section file ≡ Some (Ok selected)
        → IfOk result (λ n. n ≡ length selected.entries) }
    ensures fails { Fails (S.has_failed out.old) (S.has_failed out.new) (outcome_of (ended result)) }
    ensures leaves { Leaves out.old out.new (outcome_of (ended result)) }
{
    let selected = tables.functions(alloc)?;
    let (functions, size) = list_of(alloc, selected)?;
    let count = functions.len();
    let listing = Listing {
        alloc,
        tables,
        shown,
        form,
        size,
    };
    let text = listing.text_of(functions)?;
    write_whole(out, text.as_bytes())?;
    Ok(count)
}

// What a listing is made of.
#[derive(Drop)]
struct Listing<'b, 'a> {
    alloc: Global,
    tables: &'b Tables<'a>,
    shown: &'b Shown,
    form: Form<'b>,
    // The section's size, if one is selected.
    size: Option<u64>,
}

impl Listing<'_, '_> {
    // The whole text.
    fn text_of(&self, functions: Vec<SectionFunction<'_>>) -> Result<String, AllocError>
        ensures { IfOk result
            (λ t. IsTextFor self.now (map section_function_view functions.entry.items) (string_bytes t)) }
    {
        let mut sorted = functions;
        sort(&mut sorted, self.shown.order)?;
        let mut text = self.rows(&sorted)?;
        self.push_last_line(&mut text)?;
        Ok(text)
    }

    // The rows, of function symbols that `sort` has sorted.
    fn rows(&self, functions: &[SectionFunction<'_>]) -> Result<String, AllocError>
        ensures { (entries : List SectionEntry)
            → IsPlaced self.now.shown.now.order entries (map section_function_view functions.now)
            → IfOk result (λ t. (sorted : List SectionEntry)
            × IsInOrder self.now.shown.now.naming self.now.shown.now.order entries sorted
            × AreRows self.now sorted (string_bytes t)) }
    {
        if is_by_name(self.shown.order) {
            self.rows_by_name(functions)
        } else {
            self.first_rows(functions)
        }
    }

    // The rows of the first function symbols.
    fn first_rows(&self, functions: &[SectionFunction<'_>]) -> Result<String, AllocError>
        ensures { IfOk result (λ t. AreRows self.now (map section_function_view functions.now) (string_bytes t)) }
    {
        let count = count_of(self.shown.first, functions.len());
        let mut demangler = Demangler::new(self.alloc);
        let mut name = String::new(self.alloc);
        let mut text = String::new(self.alloc);
        for function in &functions[..count] {
            put_name(
                &mut demangler,
                &mut name,
                self.shown.naming,
                function.function.name,
            )?;
            self.push_row(&mut text, *function, name.as_str())?;
        }
        Ok(text)
    }

    // The rows of those that are first by name, of function symbols that are sorted by address.
    fn rows_by_name(&self, functions: &[SectionFunction<'_>]) -> Result<String, AllocError>
        ensures { IfOk result (λ t. (named ordered : List Named) × (sorted : List SectionEntry)
            × AreNamed self.now.shown.now.naming (map section_function_view functions.now) named
            × IsByKey (λ n. n.1) (slice_cmp nat_cmp) named ordered
            × AreNamed self.now.shown.now.naming sorted ordered × AreRows self.now sorted (string_bytes t)) }
    {
        let mut texts = Texts {
            texts: Vec::with_capacity(self.alloc, functions.len())?,
            long: BTreeMap::new(self.alloc),
        };
        let indices = self.indices_of(&mut texts, functions)?;
        let mut rows = self.rows_of(functions, &texts.texts, &indices)?;
        sort_by_name(&mut rows)?;
        self.first_named(&rows)
    }

    // The rows of the first of these.
    fn first_named(&self, rows: &[Row<'_, '_>]) -> Result<String, AllocError>
        requires { All (HasName self.now.shown.now.naming) rows.now }
        ensures { IfOk result (λ t. AreRows self.now (map entry_of rows.now) (string_bytes t)) }
    {
        let count = count_of(self.shown.first, rows.len());
        let mut text = String::new(self.alloc);
        for row in &rows[..count] {
            self.push_row(&mut text, row.function, row.name)?;
        }
        Ok(text)
    }

    // For each function symbol the index of its name's text, if that isn't the name as it is stored.
    fn indices_of(
        &self,
        texts: &mut Texts,
        functions: &[SectionFunction<'_>],
    ) -> Result<Vec<Option<usize>>, AllocError>
        requires { AreTexts self.now.shown.now.naming texts.old }
        ensures { IfOk result (λ v. AllZip (IsShownBy self.now.shown.now.naming texts.new.texts.items)
            (map name_of functions.now) v.items) }
    {
        let mut demangler = Demangler::new(self.alloc);
        let mut indices = Vec::with_capacity(self.alloc, functions.len())?;
        for function in functions {
            let index = self.index_of(&mut demangler, texts, function.function.name)?;
            indices.push(index)?;
        }
        Ok(indices)
    }

    // The index of a name's text, which is kept where it isn't there yet. None for one that is shown as it is stored: names
    // that share an end would take much more memory than the file that has them.
    fn index_of(
        &self,
        demangler: &mut Demangler,
        texts: &mut Texts,
        name: &str,
    ) -> Result<Option<usize>, AllocError>
        requires { AreTexts self.now.shown.now.naming texts.old }
        ensures index { IfOk result
            (λ i. IsShownBy self.now.shown.now.naming texts.new.texts.items name.now i) }
        ensures texts { OnOk result (AreTexts self.now.shown.now.naming texts.new) }
        ensures grown { OnOk result ((more : List (String Global))
            × (texts.new.texts.items ≡ texts.old.texts.items ++ more)) }
    {
        let mut text = String::new(self.alloc);
        put_name(demangler, &mut text, self.shown.naming, name)?;
        if text.as_str() == name {
            return Ok(None);
        }
        if let Some(index) = noted(&texts.long, name, text.len()) {
            return Ok(Some(index));
        }
        let index = texts.texts.len();
        note(self.alloc, &mut texts.long, name, index, text.len())?;
        texts.texts.push(text)?;
        Ok(Some(index))
    }

    // Function symbols with the texts at these indices, or their names as they are stored.
    fn rows_of<'b, 'a: 'b>(
        &self,
        functions: &[SectionFunction<'a>],
        texts: &'b [String],
        indices: &[Option<usize>],
    ) -> Result<Vec<Row<'b, 'a>>, AllocError>
        requires { AllZip (IsShownBy self.now.shown.now.naming texts.now) (map name_of functions.now) indices.now }
        ensures { IfOk result (λ v. (map entry_of v.items ≡ map section_function_view functions.now)
            × All (HasName self.now.shown.now.naming) v.items) }
    {
        let mut rows = Vec::with_capacity(self.alloc, functions.len())?;
        for i in 0..functions.len() {
            rows.push(self.row_at(functions[i], texts, indices[i]))?;
        }
        Ok(rows)
    }

    // A function symbol with the text at an index, or its name as it is stored.
    fn row_at<'b, 'a: 'b>(
        &self,
        function: SectionFunction<'a>,
        texts: &'b [String],
        index: Option<usize>,
    ) -> Row<'b, 'a>
        requires { IsShownBy self.now.shown.now.naming texts.now (name_of function) index }
        ensures entry { entry_of result ≡ section_function_view function.entry }
        ensures name { HasName self.now.shown.now.naming result }
    {
        let name = match index {
            Some(index) => texts[index].as_str(),
            None => function.function.name,
        };
        Row { function, name }
    }

    // Appends the row of a function symbol with this name, with its section where all sections are listed.
    fn push_row(
        &self,
        text: &mut String,
        function: SectionFunction<'_>,
        name: &str,
    ) -> Result<(), AllocError>
        ensures { OnOk result ((row : List ℕ)
            × IsRowNamed self.now (section_function_view function.entry) name.now row
            × (string_bytes text.new ≡ string_bytes text.old ++ row)) }
    {
        let FunctionSymbol {
            name: stored,
            address,
            size,
        } = function.function;
        match self.form {
            Form::Lines => {
                push_head(text, address, size)?;
                push_section_part(text, self.tables, self.size, function.section)?;
                text.push_str(name)?;
                text.push_str("\n")
            }
            Form::Objects(file, selected) => {
                let section = match self.size {
                    Some(_) => Some(selected),
                    None => self.tables.section_name(function.section),
                };
                let mut crate_name = String::new(self.alloc);
                put_crate(self.alloc, &mut crate_name, stored)?;
                push_start(text, file)?;
                push_text_member(text, "section", section)?;
                push_address_member(text, address)?;
                push_number_member(text, "size", size)?;
                push_text_member(text, "name", Some(name))?;
                push_text_member(text, "raw", Some(stored))?;
                push_text_member(text, "crate", Some(crate_name.as_str()))?;
                self.push_symbol(text, function)?;
                text.push_str("}\n")
            }
        }
    }

    // Appends the members of a symbol's binding, type and version.
    fn push_symbol(
        &self,
        text: &mut String,
        function: SectionFunction<'_>,
    ) -> Result<(), AllocError>
        ensures { OnOk result (string_bytes text.new ≡ string_bytes text.old
            ++ symbol_members (version_names_of self.now.tables.now) (section_function_view function.entry)) }
    {
        let version = self.tables.version_names().name(function.version);
        push_text_member(text, "binding", binding_word(function.info))?;
        push_text_member(text, "kind", kind_word(function.info))?;
        push_text_member(text, "version", version)
    }

    // Appends the line of the section's size, if it is wanted.
    fn push_last_line(&self, text: &mut String) -> Result<(), AllocError>
        ensures { OnOk result (string_bytes text.new ≡ string_bytes text.old
            ++ last_line (style_of self.now.form) self.now.shown.now.has_total self.now.size) }
    {
        match self.size {
            Some(size) if self.shown.has_total && self.form == Form::Lines => writeln!(
                text,
                "text {size}"
            ),
            _ => Ok(()),
        }
    }
}

/// Overwrites the text by what is shown of a name.
///
/// # Errors
///
/// `AllocError` if an allocation failed. The text is then unspecified.
pub fn put_name(
    demangler: &mut Demangler,
    text: &mut String,
    naming: Naming,
    name: &str,
) -> Result<(), AllocError>
    ensures { OnOk result (IsNameText naming name.now (string_bytes text.new)) }
{
    match naming {
        Naming::Trimmed => {
            text.clear();
            demangler.push_trimmed(text, name)
        }
        Naming::Complete => {
            *text = demangler.demangle(name)?.complete;
            Ok(())
        }
        Naming::Stored => {
            text.clear();
            text.push_str(name)
        }
    }
}

// The type of a function symbol with this info.
fn kind_word(info: u8) -> Option<&'static str>
    ensures { option_map (λ t. t.now) result ≡ kind_word info }
{
    const STT_FUNC: u8 = 2;
    const STT_GNU_IFUNC: u8 = 10;
    match info % 16 {
        STT_FUNC => Some("function"),
        STT_GNU_IFUNC => Some("indirect"),
        _ => None,
    }
}

// The binding of a function symbol with this info.
fn binding_word(info: u8) -> Option<&'static str>
    ensures { option_map (λ t. t.now) result ≡ binding_word info }
{
    kind_word(info)?;
    word_of(info / 16)
}

/// The word for a binding (`st_info / 16`): `local`, `global`, `weak` or `unique`.
pub fn word_of(binding: u8) -> Option<&'static str>
    ensures { option_map (λ t. t.now) result ≡ word_of binding }
{
    match binding {
        0 => Some("local"),
        1 => Some("global"),
        2 => Some("weak"),
        10 => Some("unique"),
        _ => None,
    }
}

// A text of so many bytes or more is kept once for all function symbols that have the name.
const LONG: usize = 1024;

// The texts of names.
#[derive(Drop)]
struct Texts {
    texts: Vec<String>,
    // The index of each long text, by the stored name.
    long: BTreeMap<String, usize>,
}

// The noted index of a name's text, if the text is long.
fn noted(long: &BTreeMap<String, usize>, name: &str, len: usize) -> Option<usize>
    ensures { IfSome result (λ i. get_by_text long.now name.now ≡ Some i) }
{
    if len < LONG {
        return None;
    }
    long.get(name).copied()
}

// Notes the index of a name's text, if the text is long.
fn note(
    alloc: Global,
    long: &mut BTreeMap<String, usize>,
    name: &str,
    index: usize,
    len: usize,
) -> Result<(), AllocError>
    ensures { OnOk result (Notes long.old name.now index long.new) }
{
    if len < LONG {
        return Ok(());
    }
    let _ = long.insert(String::from_str(alloc, name)?, index)?;
    Ok(())
}

/// The function symbols of a selection as one list, and the size of the selected section, if one is selected.
pub(crate) fn list_of<'a>(
    alloc: Global,
    selected: Selected<'a>,
) -> Result<(Vec<SectionFunction<'a>>, Option<u64>), AllocError>
    ensures { IfOk result (λ r. (map section_function_view r.0.items ≡ all_left selected.entry.functions)
        × (r.1 ≡ selected.entry.size)) }
{
    let list = selected.functions.collect(alloc)?;
    Ok((list, selected.size))
}
