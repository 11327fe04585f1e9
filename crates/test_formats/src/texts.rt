//! What the calls write that write texts of files: all of it, and behind it the words of a refusal.

use binfarce_tables::ReadError;
use binfarce_tools::SymbolTable;
use binfarce_tools::list::{ListError, Out, list, list_tables};
use binfarce_tools::report::{report, report_tables};
use binfarce_tools::tables::{Selection, Tables, read};
use std::alloc::{AllocError, Global};
use std::fmt::Display;
use test_image_samples::draw;

// What is written, and behind it the text of the fault.
fn text_of<E: Display + Drop>(
    alloc: Global,
    ended: Result<(), E>,
    written: Vec<u8>,
) -> Result<String, AllocError> {
    let mut text = match String::from_utf8(written) {
        Ok(text) => text,
        Err(_) => String::from_str(alloc, "no text")?,
    };
    if let Err(fault) = ended {
        write!(text, "{fault}")?;
    }
    Ok(text)
}

/// The listing of a section, its report or its picture.
pub fn text_of_section(
    alloc: Global,
    what: &str,
    section: &str,
    file: &[u8],
) -> Result<String, AllocError> {
    let mut out = Out::new(Vec::new(alloc));
    match what {
        "list" => {
            let ended = list(alloc, file, section, &mut out);
            text_of(alloc, ended, out.into_inner())
        }
        "report" => {
            let ended = report(alloc, file, section, &mut out);
            text_of(alloc, ended, out.into_inner())
        }
        _ => {
            let ended = draw(alloc, "{path}", &Tables::whole(file, section), &mut out);
            text_of(alloc, ended, out.into_inner())
        }
    }
}

// The listing of the tables of a section, or the words of what they are refused for: before they are asked for anything.
fn listing_of_accepted(alloc: Global, section: &str, file: &[u8]) -> Result<String, AllocError> {
    let tables = match Tables::whole(file, section).accepted(alloc) {
        Ok(tables) => tables,
        Err(refusal) => return format!(in alloc; "{refusal}"),
    };
    let mut out = Out::new(Vec::new(alloc));
    match list_tables(alloc, &tables, &mut out) {
        Ok(()) => text_of::<ListError>(alloc, Ok(()), out.into_inner()),
        Err(late) => format!(in alloc; "late: {late}"),
    }
}

/// All three; one that is the same as that before it isn't repeated.
pub fn all_texts(alloc: Global, section: &str, file: &[u8]) -> Result<String, AllocError> {
    let mut texts = text_of_section(alloc, "list", section, file)?;
    let accepted = listing_of_accepted(alloc, section, file)?;
    if accepted.as_str() != texts.as_str() {
        texts.push_str(&accepted)?;
    }
    let report = text_of_section(alloc, "report", section, file)?;
    let picture = text_of_section(alloc, "map", section, file)?;
    if report.as_str() != texts.as_str() {
        texts.push_str(&report)?;
    }
    if picture.as_str() != report.as_str() {
        texts.push_str(&picture)?;
    }
    Ok(texts)
}

/// The same of all sections: `list`, `report` or `map`, and a symbol table, which is `symtab` or `dynsym`.
pub fn text_of_all(alloc: Global, words: &str, file: &[u8]) -> Result<String, AllocError> {
    let (what, table) = words.split_once(' ').unwrap_or((words, ""));
    let which = match table {
        "dynsym" => SymbolTable::Dynsym,
        _ => SymbolTable::Symtab,
    };
    let tables = match read(alloc, &file, &mut (), which, Selection::All) {
        Ok(tables) => tables,
        Err(ReadError::Refused(error)) => return format!(in alloc; "{error}"),
        Err(error) => return format!(in alloc; "{error:?}"),
    };
    text_of_tables(alloc, what, &tables)
}

fn text_of_tables(alloc: Global, what: &str, tables: &Tables<'_>) -> Result<String, AllocError> {
    let mut out = Out::new(Vec::new(alloc));
    match what {
        "list" => {
            let ended = list_tables(alloc, tables, &mut out);
            text_of(alloc, ended, out.into_inner())
        }
        "report" => {
            let ended = report_tables(alloc, tables, &mut out);
            text_of(alloc, ended, out.into_inner())
        }
        _ => {
            let ended = draw(alloc, "{path}", tables, &mut out);
            text_of(alloc, ended, out.into_inner())
        }
    }
}

/// Whether the sections share their addresses, and which of some numbers no section has.
pub fn shares_addresses(alloc: Global, file: &[u8]) -> Result<String, AllocError> {
    let tables = match read(alloc, &file, &mut (), SymbolTable::Symtab, Selection::All) {
        Ok(tables) => tables,
        Err(error) => return format!(in alloc; "{error:?}"),
    };
    let mut text = format!(in alloc; "{}, without", tables.shares_addresses())?;
    for number in [0, 5, 65_536, u32::MAX] {
        if tables.section_name(number).is_none() {
            write!(text, " {number}")?;
        }
    }
    Ok(text)
}

/// The dynamic function symbols of all sections with their versions, and the names of these.
pub fn versions(alloc: Global, file: &[u8]) -> Result<String, AllocError> {
    let tables = match read(alloc, &file, &mut (), SymbolTable::Dynsym, Selection::All) {
        Ok(tables) => tables,
        Err(error) => return format!(in alloc; "{error:?}"),
    };
    versions_of(alloc, &tables)
}

fn versions_of(alloc: Global, tables: &Tables<'_>) -> Result<String, AllocError> {
    let mut text = String::new(alloc);
    let functions = match tables.functions(alloc) {
        Ok(selected) => selected.functions,
        Err(error) => return format!(in alloc; "{error}"),
    };
    for function in functions {
        let name = tables.version_names().name(function.version);
        let name = name.unwrap_or("without a name");
        let symbol = function.function.name;
        writeln!(text, "{symbol}: {}, {name}", function.version)?;
    }
    Ok(text)
}
