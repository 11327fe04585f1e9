//! A symbol table, its strings and its rows: where they are in a file.

ghost use Rattle.std.specs.Prelude.{nat_eq};
ghost use Rattle.std.specs.Option.{option_map};
ghost use Rattle.binfarce_bytes.specs.Refusal.{Gives, refusal_of, unexpected_eof};
ghost use Rattle.binfarce_bytes.specs.Walk.{first};
ghost use Rattle.binfarce_elf.specs.Classes.{class_of};
ghost use Rattle.binfarce_elf.specs.Elf.{walk};
ghost use Rattle.binfarce_elf.specs.ElfSymbols.{whole_rows};
ghost use Rattle.binfarce_elf.specs.ElfViews.{section_view, table_sections_view};
ghost use Rattle.binfarce_elf.specs.SymbolTables.{table_sections, rows_at};
ghost use Rattle.binfarce_elf.specs.machine.RawElf.{table_view, rows_view};

use crate::class::{Class, Width, Word};
use crate::sections::{Section, Table, first_section, section_data};
use crate::symbol_table::{STRING_TABLE, SymbolTable};
use binfarce_bytes::ParseError;
use binfarce_bytes::parser::UnexpectedEof;

/// A symbol table's section, and that of its strings.
#[derive(Clone, Copy)]
pub struct TableSections {
    pub symbols: Section<u64>,
    pub strings: Section<u64>,
}

/// The strings and the rows of a symbol table.
#[derive(Clone, Copy)]
pub struct Rows<'a> {
    pub strings: &'a [u8],
    pub rows: &'a [u8],
}

/// The sections of this symbol table, or the first refusal of its search.
#[tactic(auto, unfolding(crate::specs::SymbolTables::table_sections))]
pub fn table_sections<C: Class>(
    table: Table<'_>,
    which: SymbolTable,
) -> Result<TableSections, ParseError>
    ensures { Gives refusal_of table_sections_view
        (table_sections which (walk C.table (table_view table.entry))) result }
{
    let Some(symbols) = section_of_kind::<C>(table, which.section_type())? else {
        return Err(ParseError::SectionIsMissing(which.name()));
    };
    let Some(strings) = section_of_index::<C>(table, symbols.link)? else {
        return Err(ParseError::SectionIsMissing(which.strings_name()));
    };
    if strings.kind != STRING_TABLE {
        return Err(ParseError::UnexpectedSectionType {
            expected: STRING_TABLE,
            actual: strings.kind,
        });
    }
    Ok(TableSections {
        symbols: symbols.widened(),
        strings: strings.widened(),
    })
}

/// The rows and the strings of these sections.
#[tactic(auto, unfolding(crate::specs::SymbolTables::rows_at))]
pub fn rows_at(file: &[u8], width: Width, sections: TableSections) -> Result<Rows<'_>, ParseError>
    ensures { Gives refusal_of rows_view
        (rows_at (class_of width) file.now (table_sections_view sections)) result }
{
    let strings = section_data(file, sections.strings)?;
    let rows = section_data(file, sections.symbols)?;
    let rows = whole_rows(width, rows)?;
    Ok(Rows { strings, rows })
}

/// The first section of this type.
pub fn section_of_kind<C: Class>(
    table: Table<'_>,
    kind: Word,
) -> Result<Option<Section<C>>, UnexpectedEof>
    ensures { Gives (λ _. unexpected_eof) (option_map (section_view C.number_of))
        (first (λ s. nat_eq s.kind kind) (walk C.table (table_view table.entry))) result }
{
    first_section::<C, _>(table, |section| section.kind == kind)
}

/// The section of this index.
pub fn section_of_index<C: Class>(
    table: Table<'_>,
    index: Word,
) -> Result<Option<Section<C>>, UnexpectedEof>
    ensures { Gives (λ _. unexpected_eof) (option_map (section_view C.number_of))
        (first (λ s. nat_eq s.index index) (walk C.table (table_view table.entry))) result }
{
    first_section::<C, _>(table, |section| u32::from(section.index) == index)
}

/// The rows of a symbol table of this class, of which none is truncated.
pub fn whole_rows(width: Width, rows: &[u8]) -> Result<&[u8], ParseError>
    ensures { Gives refusal_of (λ b. b.now) (whole_rows (class_of width) rows.now) result }
{
    if rows.len() % width.symbol_length() == 0 {
        Ok(rows)
    } else {
        Err(ParseError::UnexpectedEof)
    }
}
