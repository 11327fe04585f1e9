//! The versions of dynamic symbols, and their names (LSB Core Generic, "Symbol Versioning").

ghost use Rattle.std.specs.Prelude.{◌≡◌, ◌<◌, ◌≤◌, ℕ, length, Some, None, IfOk, IfSome, find, nat_eq, if◌then◌else◌};
ghost use Rattle.std.specs.BTreeMap.{get};
ghost use Rattle.std.specs.Option.{option_map, option_or};
ghost use Rattle.std.specs.Ordering.{nat_cmp};
ghost use Rattle.binfarce_elf.specs.Elf.{walk};
ghost use Rattle.binfarce_elf.specs.ElfViews.{section_view};
ghost use Rattle.binfarce_elf.specs.machine.RawElf.{table_view};
ghost use Rattle.binfarce_elf_memory.specs.SelectionViews.{version_names};
ghost use Rattle.binfarce_elf_memory.specs.Versions.{bytes_if, definition_at, definitions, name_by, name_offset, version_of, versions_section};
ghost use Rattle.binfarce_elf_memory.specs.machine.RawSelection.{definition_view};

use binfarce_bytes::ByteOrder;
use binfarce_bytes::parser::{number_at, parse_null_string, slice_at, to_index};
use binfarce_elf::class::{Class, Half, Word};
use binfarce_elf::sections::{Section, Table, section_data};
use binfarce_elf::symbol_table::SymbolTable;
use binfarce_elf::symbols::section_of_kind;
use std::alloc::{AllocError, Global};
use std::collections::BTreeMap;

// The types of the sections of versions, of their definitions, and of those that are needed of other files:
// `SHT_GNU_versym`, `SHT_GNU_verdef` and `SHT_GNU_verneed`.
pub(crate) const VERSIONS: Word = 0x6fffffff;

pub(crate) const DEFINITIONS: Word = 0x6ffffffd;

pub(crate) const NEEDS: Word = 0x6ffffffe;

// An index is in the low 15 bits of a version; the high bit says that the symbol is hidden.
const INDICES: Half = 1 << 15;

// The index of symbols that are global, without a version; that of local ones is below.
const VER_NDX_GLOBAL: Half = 1;

/// The names of the versions that a file defines. It is a copy of two references.
#[derive(Clone, Copy)]
pub struct VersionNames<'a> {
    /// The offset of each defined version's name by its index, as `name_offsets` gives them; `None` for a file without
    /// versions.
    pub offsets: Option<&'a BTreeMap<Half, Word>>,
    /// The strings of the symbol table.
    pub strings: &'a [u8],
}

impl<'a> VersionNames<'a> {
    /// The name of a version, a slice of the strings: `GLIBC_2.14`. `None` for a symbol without one (the indices 0 and
    /// 1), for a version that isn't defined, and for a name that isn't in the strings or no valid UTF-8.
    pub fn name(self, version: u16) -> Option<&'a str>
        ensures { option_map (λ t. t.now) result ≡ version_names self.entry version }
    {
        name_by(self.strings, self.offsets?, version)
    }
}

/// The name of a version, a slice of the strings: the text at the offset that its index has. `None` for a symbol without
/// one (the indices 0 and 1), if there is no offset, and for a name that isn't in the strings or no valid UTF-8.
pub fn name_by<'a>(
    strings: &'a [u8],
    offsets: &BTreeMap<Half, Word>,
    version: Half,
) -> Option<&'a str>
    ensures { option_map (λ t. t.now) result ≡ name_by strings.entry.now (get nat_cmp offsets.now) version }
{
    let index = version % INDICES;
    if index <= VER_NDX_GLOBAL {
        return None;
    }
    let offset = *offsets.get(&index)?;
    parse_null_string(strings, offset as usize)
}

/// The offsets of the names of the versions that a section of definitions defines, by the versions' indices: no more
/// than the section has definitions. Each is read once. The only error is a failed allocation.
pub fn name_offsets(
    alloc: Global,
    section: &[u8],
    byte_order: ByteOrder,
) -> Result<BTreeMap<Half, Word>, AllocError>
    ensures { IfOk result (λ offsets. (index : ℕ) → index < 32768
        → get nat_cmp offsets index ≡ name_offset (definitions byte_order section.now) index) }
{
    let mut offsets = BTreeMap::new(alloc);
    let mut start: u64 = 0;
    for _passed in 0..section.len() {
        let Some(definition) = definition_at(section, start, byte_order) else {
            return Ok(offsets);
        };
        define(&mut offsets, definition.index, definition.name)?;
        if definition.next == 0 {
            return Ok(offsets);
        }
        start += u64::from(definition.next);
    }
    Ok(offsets)
}

/// Sets the offset of a name at a version's index, unless an earlier one is there. An index of 16 bits has none. The only
/// error is a failed allocation.
pub fn define(offsets: &mut BTreeMap<Half, Word>, index: Half, name: Word) -> Result<(), AllocError>
    ensures { IfOk result (λ _. (i : ℕ) → i < 32768 → get nat_cmp offsets.new i
        ≡ option_or (get nat_cmp offsets.old i) (if nat_eq index i then Some name else None)) }
{
    if index >= INDICES || offsets.get(&index).is_some() {
        return Ok(());
    }
    let _ = offsets.insert(index, name)?;
    Ok(())
}

// What a definition says: its version's index, the offset of its name, and how far behind its beginning the next one
// begins.
#[derive(Clone, Copy)]
struct Definition {
    index: Half,
    name: Word,
    next: Word,
}

// The definition that begins at `start`, if it is whole.
#[tactic(auto, unfolding(crate::specs::Versions::definition_at))]
fn definition_at(bytes: &[u8], start: u64, byte_order: ByteOrder) -> Option<Definition>
    ensures is { option_map definition_view result ≡ definition_at byte_order bytes.now start }
    ensures inside { IfSome result (λ _. start ≤ length bytes.now) }
{
    let place = to_index(start);
    slice_at(bytes, place, 20).ok()?;
    let behind: Word = number_at(bytes, place + 12, byte_order).unwrap();
    let names = to_index(start + u64::from(behind));
    slice_at(bytes, names, 8).ok()?;
    Some(Definition {
        index: number_at(bytes, place + 4, byte_order).unwrap(),
        name: number_at(bytes, names, byte_order).unwrap(),
        next: number_at(bytes, place + 16, byte_order).unwrap(),
    })
}

/// The version of a row, if these are those of all rows; 0 if it has none.
#[inline(always)]
#[tactic(auto, unfolding(crate::specs::Versions::version_of))]
pub fn version_at(versions: &[u8], row: usize, byte_order: ByteOrder) -> Half
    ensures { result ≡ version_of byte_order versions.now row }
{
    number_at(versions, row.saturating_mul(2), byte_order).unwrap_or(0)
}

// The versions of all rows of this symbol table, where the file has them.
pub(crate) fn row_versions<'a, C: Class>(table: Table<'a>, which: SymbolTable) -> &'a [u8]
    ensures { result.now ≡ bytes_if table.entry.data.now
        (versions_section which (walk C.table (table_view table.entry))) }
{
    match which {
        SymbolTable::Symtab => &[],
        SymbolTable::Dynsym => { bytes_if(table.data, whole_section_of_kind::<C>(table, VERSIONS)) }
    }
}

// The bytes of a section, if there is one and it lies in the file.
#[tactic(auto, using(binfarce_elf::proofs::Names::contents_read))]
pub(crate) fn bytes_if<C: Class>(file: &[u8], section: Option<Section<C>>) -> &[u8]
    ensures { result.now ≡ bytes_if file.entry.now (option_map (section_view C.number_of) section) }
{
    match section {
        None => &[],
        Some(section) => section_data(file, section).ok().unwrap_or(&[]),
    }
}

// The first section of this type whose header is whole.
pub(crate) fn whole_section_of_kind<C: Class>(table: Table<'_>, kind: Word) -> Option<Section<C>>
    ensures { option_map (section_view C.number_of) result
        ≡ find (λ s. nat_eq s.kind kind) (walk C.table (table_view table.entry)).items }
{
    section_of_kind::<C>(table, kind).unwrap_or(None)
}
