//! Lists of sections, and the bytes of one.

use binfarce_rows::json::Form;
use binfarce_sections::bytes::{write_section, write_section_of};
use binfarce_sections::error::SectionError;
use binfarce_sections::list::{list_sections, list_source};
use binfarce_tools::list::Out;
use std::alloc::{AllocError, Global};
use test_image_samples::tally::{Row, Tally};
use test_samples::elf::Layout;
use test_samples::expected::Expected;
use test_samples::files::File;
use test_samples::macho::{OFFSET, SIZE};
use test_samples::pe::RAW_SIZE;
use test_samples::{Patch, patched};

const LINES_32: &str = "\
0000000000000000         52          0 
0000000000000000         52         32 .text
0000000000000000         84         80 .symtab
0000000000000000        164         18 .strtab
0000000000000000        182         33 .shstrtab
";

const LINES_64: &str = "\
0000000000000000         64          0 
0000000000000000         64         32 .text
0000000000000000         96        120 .symtab
0000000000000000        216         18 .strtab
0000000000000000        234         33 .shstrtab
";

const STRINGS: &[u8] = b"\0_ZN3foo3barE\0bad\0";

// A file, what is changed in it, its lines, the name of a section, and its bytes.
type Sample = (
    File,
    &'static [Patch<'static>],
    &'static str,
    &'static str,
    &'static [u8],
);

// The samples. Those of Mach-O and PE have no bytes for their section, until it is given the offset of others.
#[rattlefmt::skip]
const ROWS: [Sample; 6] = [
    (File::Elf(Layout::Elf32Little), &[], LINES_32, ".strtab", STRINGS),
    (File::Elf(Layout::Elf32Big), &[], LINES_32, ".strtab", STRINGS),
    (File::Elf(Layout::Elf64Little), &[], LINES_64, ".strtab", STRINGS),
    (File::Elf(Layout::Elf64Big), &[], LINES_64, ".strtab", STRINGS),
    (File::Macho, &[(SIZE, &[8, 0]), (OFFSET, &[16, 1])],
        "0000000000001000        272          8 __TEXT,__text\n", "__text", b"\0a\0b\0c\0d"),
    (File::Pe, &[(RAW_SIZE, &[10, 0, 0, 0, 200])],
        "0000000000000000        200         10 .text\n", ".text", b"e\0\0\0\0\0\0\0\0\x01"),
];

// Whether the row gives its whole answer, in all four calls.
fn is_right(alloc: Global, row: &Sample) -> Row {
    let (file, patches, lines, name, bytes) = row;
    let file = patched(alloc, &file.whole(alloc)?, patches)?;
    let source = file.as_slice();
    let mut out = Out::new(Expected::new(bytes));
    let written = write_section(source, name, &mut out);
    let is_written = is_whole(written, out)?;
    let mut out = Out::new(Expected::new(bytes));
    let written = write_section_of(alloc, &source, &mut (), name, &mut out);
    let is_read = is_whole(written, out)?;
    let mut out = Out::new(Expected::new(lines.as_bytes()));
    let listed = list_sections(alloc, source, &mut out);
    let is_listed = is_whole(listed, out)?;
    let mut out = Out::new(Expected::new(lines.as_bytes()));
    let listed = list_source(alloc, &source, &mut (), Form::Lines, &mut out);
    Ok(is_written && is_read && is_listed && is_whole(listed, out)?)
}

// Whether all was written; an error if an allocation failed, before anything was.
fn is_whole(ended: Result<(), SectionError>, out: Out<Expected<'_>>) -> Row {
    let out = out.into_inner();
    match ended {
        Ok(()) => Ok(out.is_whole()),
        Err(SectionError::OutOfMemory) if out.is_empty => Err(AllocError),
        Err(_) => Ok(false),
    }
}

pub(crate) fn add_sections(alloc: Global, tally: &mut Tally) {
    for row in &ROWS {
        tally.add(row.0.name(), is_right(alloc, row));
    }
}
