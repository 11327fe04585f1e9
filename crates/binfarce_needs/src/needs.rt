//! The symbols that a file needs.

ghost use Rattle.std.specs.Prelude.{◌≡◌, List, [], map, IfOk};
ghost use Rattle.std.specs.List.{filter_map, range_with_len};
ghost use Rattle.std.specs.Option.{option_map};
ghost use Rattle.binfarce_elf.specs.Classes.{class_of};
ghost use Rattle.binfarce_elf.specs.ElfSymbols.{row_count, row_of};
ghost use Rattle.binfarce_elf.specs.machine.RawElf.{symbol_view};
ghost use Rattle.binfarce_elf_memory.specs.Versions.{version_of};
ghost use Rattle.binfarce_needs.specs.FileNeeds.{need_view, tables_view};
ghost use Rattle.binfarce_needs.specs.NeededVersions.{Version};
ghost use Rattle.binfarce_needs.specs.Needs.{is_need, need_of, needs_of};
ghost use Rattle.binfarce_needs.specs.machine.Views.{Found};

use crate::reading::Tables;
use crate::versions::{Offsets, needed_versions};
use binfarce_bytes::ByteOrder;
use binfarce_bytes::parser::parse_null_string;
use binfarce_elf::class::{Half, SymbolRow, Width, row_at};
use binfarce_elf_memory::versions::{name_by, version_at};
use std::alloc::{AllocError, Global};

// The index of no section, which undefined symbols have.
const SHN_UNDEF: Half = 0;

/// A symbol that a file needs.
#[derive(Debug, Clone, Copy, PartialEq)]
pub struct Need<'a> {
    /// Its name, as it is stored.
    pub name: &'a str,
    /// Its type and its binding (`st_info`).
    pub info: u8,
    /// The name of its version, if it has one: `GLIBC_2.34`.
    pub version: Option<&'a str>,
    /// The name of the file that the version comes from: `libc.so.6`.
    pub from: Option<&'a str>,
}

/// The symbols that a file of this class with these tables needs, in the order of the symbol table: those that are
/// undefined, with a valid name. Names stay in the tables. The only error is a failed allocation.
pub fn needs_of<'a>(
    alloc: Global,
    tables: &'a Tables,
    width: Width,
    byte_order: ByteOrder,
) -> Result<Vec<Need<'a>>, AllocError>
    ensures { IfOk result (λ v. map need_view v.items
        ≡ needs_of (class_of width) byte_order (tables_view tables.entry.now)) }
{
    let offsets = needed_versions(alloc, &tables.needed, byte_order)?;
    let needs = needs_in(
        alloc,
        width,
        byte_order,
        &tables.strings,
        &tables.rows,
        &tables.versions,
        &offsets,
    )?;
    Ok(needs)
}

// Those of these rows, by their versions.
fn needs_in<'a>(
    alloc: Global,
    width: Width,
    byte_order: ByteOrder,
    strings: &'a [u8],
    rows: &[u8],
    versions: &[u8],
    offsets: &Offsets,
) -> Result<Vec<Need<'a>>, AllocError>
    ensures { (needed : List Version) → Found offsets.now [] needed → IfOk result (λ v. map need_view v.items
        ≡ filter_map (λ k. need_of strings.entry.now needed k (row_of (class_of width) byte_order rows.now k)
        (version_of byte_order versions.now k)) (range_with_len 0 (row_count (class_of width) rows.now))) }
{
    let length = width.symbol_length();
    let mut needs = Vec::new(alloc);
    for k in 0..rows.len() / length {
        let row = row_at(width, rows, k * length, byte_order).unwrap();
        let version = version_at(versions, k, byte_order);
        match need_of(strings, offsets, k, row, version) {
            None => {}
            Some(need) => needs.push(need)?,
        }
    }
    Ok(needs)
}

// The symbol of row `k`, if it is needed, and its name is valid.
#[tactic(auto, unfolding(crate::specs::Needs::need_of))]
fn need_of<'a>(
    strings: &'a [u8],
    offsets: &Offsets,
    k: usize,
    row: SymbolRow,
    version: Half,
) -> Option<Need<'a>>
    ensures { (versions : List Version) → Found offsets.now [] versions → option_map need_view result
        ≡ need_of strings.entry.now versions k (symbol_view row) version }
{
    if !is_need(k, row) {
        return None;
    }
    let name = parse_null_string(strings, row.name as usize)?;
    Some(Need {
        name,
        info: row.info,
        version: name_by(strings, &offsets.names, version),
        from: name_by(strings, &offsets.files, version),
    })
}

// Whether row `k` is undefined, and has a name.
fn is_need(k: usize, row: SymbolRow) -> bool
    ensures { result ≡ is_need k (symbol_view row) }
{
    k != 0 && row.section == SHN_UNDEF && row.name != 0
}
