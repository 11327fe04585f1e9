//! The same question to both fronts: to the bytes of a whole file, and to a source that holds them.
#![tactic(auto)]

ghost use Rattle.std.specs.Iterator.{IsFinite};

pub mod recording;

use binfarce::{FunctionSymbol, SectionFunction, SymbolTable, elf32, elf64, macho, pe};
use binfarce_bytes::ParseError;
use binfarce_bytes::functions::Selection;
use binfarce_bytes::source::Source;
use binfarce_rows::json::Form;
use binfarce_sections::bytes::{write_section, write_section_of};
use binfarce_sections::error::SectionError;
use binfarce_sections::list::{list_sections, list_source};
use binfarce_tables::{self as tables, ReadError, Width};
use binfarce_tools::list::Out;
use std::alloc::{AllocError, Global};
use test_samples::elf::Layout;
use test_samples::files::File;

/// What is asked of a file.
#[derive(Clone, Copy)]
pub enum Asked<'a> {
    /// The function symbols of this section, of a Mach-O or PE file those of the text, and its size; or those of all
    /// sections.
    Functions(Option<&'a str>),
    /// The lines of the sections.
    Lines,
    /// The bytes of the section of this name.
    Bytes(&'a str),
}

/// What a call writes, and how it ends. Function symbols are written as the bytes of their numbers and names.
#[derive(Debug, PartialEq, Drop)]
pub struct Answer {
    pub text: Vec<u8>,
    pub ended: Result<(), SectionError>,
}

impl Answer {
    /// Whether an allocation failed.
    pub fn is_out_of_memory(&self) -> bool {
        match &self.ended {
            Err(SectionError::OutOfMemory | SectionError::Parse(ParseError::OutOfMemory)) => true,
            _ => false,
        }
    }
}

/// The answer of the reader of this sample's format to the bytes of a whole file.
pub fn whole(alloc: Global, kind: File, file: &[u8], asked: Asked<'_>) -> Answer {
    let mut out = Out::new(Vec::new(alloc));
    let ended = match asked {
        Asked::Functions(name) => return answer_of(alloc, functions(alloc, kind, file, name)),
        Asked::Lines => list_sections(alloc, file, &mut out),
        Asked::Bytes(name) => write_section(file, name, &mut out),
    };
    Answer {
        text: out.into_inner(),
        ended,
    }
}

/// The answer to a source, which logs what it is asked for.
pub fn parts<S: Source>(
    alloc: Global,
    kind: File,
    source: &S,
    log: &mut S::Log,
    asked: Asked<'_>,
) -> Answer {
    let mut out = Out::new(Vec::new(alloc));
    let ended = match asked {
        Asked::Functions(name) => {
            return answer_of(alloc, functions_of(alloc, kind, source, log, name));
        }
        Asked::Lines => list_source(alloc, source, log, Form::Lines, &mut out),
        Asked::Bytes(name) => write_section_of(alloc, source, log, name, &mut out),
    };
    Answer {
        text: out.into_inner(),
        ended,
    }
}

fn answer_of(alloc: Global, functions: Result<Vec<u8>, ReadError>) -> Answer {
    let (text, ended) = match functions {
        Ok(text) => (text, Ok(())),
        Err(e) => (Vec::new(alloc), Err(SectionError::from(e))),
    };
    Answer { text, ended }
}

type Text = Result<Vec<u8>, ReadError>;

const SYMTAB: SymbolTable = SymbolTable::Symtab;

fn functions(alloc: Global, kind: File, file: &[u8], name: Option<&str>) -> Text {
    let selection = selection_of(name);
    match kind {
        File::Elf(layout) if layout.is_64() => {
            let elf = elf64::parse(file, layout.order())?;
            match name {
                Some(name) => {
                    let functions = elf.section_functions(SYMTAB, name)?;
                    let size = functions.section_size();
                    Ok(text_of(alloc, functions, size)?)
                }
                None => {
                    let functions = elf.all_functions(alloc, SYMTAB)?;
                    Ok(text_of(alloc, functions.into_iter(), None)?)
                }
            }
        }
        File::Elf(layout) => {
            let elf = elf32::parse(file, layout.order())?;
            match name {
                Some(name) => {
                    let functions = elf.section_functions(SYMTAB, name)?;
                    let size = functions.section_size();
                    Ok(text_of(alloc, functions, size)?)
                }
                None => {
                    let functions = elf.all_functions(alloc, SYMTAB)?;
                    Ok(text_of(alloc, functions.into_iter(), None)?)
                }
            }
        }
        File::Macho => {
            let (functions, size) = macho::parse(file)?.selected_functions(alloc, selection)?;
            Ok(text_of(alloc, functions.into_iter(), size)?)
        }
        File::Pe => {
            let (functions, size) = pe::parse(file)?.selected_functions(alloc, selection)?;
            Ok(text_of(alloc, functions.into_iter(), size)?)
        }
    }
}

fn functions_of<S: Source>(
    alloc: Global,
    kind: File,
    source: &S,
    log: &mut S::Log,
    name: Option<&str>,
) -> Text {
    let selection = selection_of(name);
    match kind {
        File::Elf(layout) => {
            let width = width_of(layout);
            let order = layout.order();
            let parts = tables::elf::read(alloc, source, log, width, order, SYMTAB, selection)?;
            let functions = parts.functions();
            let size = functions.section_size();
            Ok(text_of(alloc, functions, size)?)
        }
        File::Macho => {
            let parts = tables::macho::read(alloc, source, log, selection)?;
            let functions = parts.functions(alloc)?;
            Ok(text_of(alloc, functions.into_iter(), parts.section_size())?)
        }
        File::Pe => {
            let parts = tables::pe::read(alloc, source, log, selection)?;
            let functions = parts.functions(alloc)?;
            Ok(text_of(alloc, functions.into_iter(), parts.section_size())?)
        }
    }
}

fn selection_of(name: Option<&str>) -> Selection<'_> {
    match name {
        Some(name) => Selection::Section(name),
        None => Selection::All,
    }
}

/// The class of a sample.
pub fn width_of(layout: Layout) -> Width {
    if layout.is_64() {
        Width::Bits64
    } else {
        Width::Bits32
    }
}

// The samples' functions take no more bytes, so that a text is one allocation.
const CAPACITY: usize = 512;

// The size of a section, if there is one, and function symbols, each after the number of its section.
fn text_of<'a, I: Iterator<Item = SectionFunction<'a>> + Drop>(
    alloc: Global,
    functions: I,
    size: Option<u64>,
) -> Result<Vec<u8>, AllocError>
    requires can { I.can_next functions }
    requires ends { IsFinite (I.remaining functions) }
{
    let mut text = Vec::with_capacity(alloc, CAPACITY)?;
    if let Some(size) = size {
        text.extend_from_slice(&size.to_be_bytes())?;
    }
    for function in functions {
        text.extend_from_slice(&function.section.to_be_bytes())?;
        push(&mut text, function.function)?;
    }
    Ok(text)
}

fn push(text: &mut Vec<u8>, function: FunctionSymbol<'_>) -> Result<(), AllocError> {
    text.extend_from_slice(&function.address.to_be_bytes())?;
    text.extend_from_slice(&function.size.to_be_bytes())?;
    text.extend_from_slice(function.name.as_bytes())?;
    text.push(0)?;
    Ok(())
}
