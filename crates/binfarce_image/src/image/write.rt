//! The bytes of a file: structures of zero bytes, into which the numbers of fields are put.

ghost use Rattle.std.specs.Prelude.{◌≡◌, ◌++◌, ◌∷◌, ◌<◌, ◌≤◌, ◌^◌, true, OnOk, IfOk, length, replicate, take};
ghost use Rattle.std.specs.List.{AllByRecursion, flat_map};
ghost use Rattle.binfarce_image.specs.Structure.{put, filled};
ghost use Rattle.binfarce_image.specs.Image.{bytes, class_of, order_of, identification, header_bytes, body, bodies_end, body_length, section_headers, section_bytes, symbol_bytes};
ghost use Rattle.binfarce_image.specs.ImageSymbols.{PartFits, RowFits};
ghost use Rattle.binfarce_image.specs.machine.Views.{class_view, field_view, numbers_view, fits, all_fit, BodyFits, HeaderFits};

use super::parts::{body_length, entry_length, kind, link, name};
use super::tables::{Class, ELF32, ELF64, Field};
use super::{ElfLayout, Image, Part, Row};
use binfarce::ByteOrder;
use std::alloc::{AllocError, Global};

const LONGEST: usize = 64;

/// The tables of a layout's class.
pub(super) fn class(layout: ElfLayout) -> Class
    ensures { class_view result ≡ class_of layout }
{
    match layout {
        ElfLayout::Elf32Little => ELF32,
        ElfLayout::Elf32Big => ELF32,
        ElfLayout::Elf64Little => ELF64,
        ElfLayout::Elf64Big => ELF64,
    }
}

fn order(layout: ElfLayout) -> ByteOrder
    ensures { result ≡ order_of layout }
{
    match layout {
        ElfLayout::Elf32Little => ByteOrder::LittleEndian,
        ElfLayout::Elf32Big => ByteOrder::BigEndian,
        ElfLayout::Elf64Little => ByteOrder::LittleEndian,
        ElfLayout::Elf64Big => ByteOrder::BigEndian,
    }
}

// The identification, and zeros after it.
fn identified(layout: ElfLayout) -> [u8; LONGEST]
    ensures { result ≡ identification layout ++ replicate 48 0 }
{
    match layout {
        ElfLayout::Elf32Little => begun(1, 1),
        ElfLayout::Elf32Big => begun(1, 2),
        ElfLayout::Elf64Little => begun(2, 1),
        ElfLayout::Elf64Big => begun(2, 2),
    }
}

fn begun(class: u8, order: u8) -> [u8; LONGEST]
    ensures { result ≡ 127 ∷ 69 ∷ 76 ∷ 70 ∷ class ∷ order ∷ 1 ∷ replicate 57 0 }
{
    let mut bytes = [0; LONGEST];
    bytes[0] = 0x7F;
    bytes[1] = b'E';
    bytes[2] = b'L';
    bytes[3] = b'F';
    bytes[4] = class;
    bytes[5] = order;
    bytes[6] = 1;
    bytes
}

/// The file, of this length, whose bodies end at `shoff`.
pub(super) fn file(
    alloc: Global,
    image: &Image,
    layout: ElfLayout,
    shoff: usize,
    length: usize,
) -> Result<Vec<u8>, AllocError>
    requires end { shoff ≡ bodies_end (class_of layout) (class_of layout).header_length image.now.parts.items }
    requires small { shoff < 2 ^ 32 }
    ensures file { IfOk result (λ v. v.items ≡ bytes image.now layout) }
    ensures fits { OnOk result (AllByRecursion PartFits image.now.parts.items) }
{
    let parts = image.parts.as_slice();
    let mut file = Vec::with_capacity(alloc, length)?;
    push_header(&mut file, image, layout, shoff)?;
    push_bodies(&mut file, parts, layout)?;
    push_section_headers(&mut file, parts, layout)?;
    Ok(file)
}

fn push_header(
    file: &mut Vec<u8>,
    image: &Image,
    layout: ElfLayout,
    shoff: usize,
) -> Result<(), AllocError>
    requires { shoff ≡ bodies_end (class_of layout) (class_of layout).header_length image.now.parts.items }
    ensures { OnOk result (file.new.items ≡ file.old.items ++ header_bytes layout image.now) }
{
    const ET_REL: u64 = 1;
    const EV_CURRENT: u64 = 1;
    let class = class(layout);
    let fields = class.header;
    push_structure(
        file,
        order(layout),
        identified(layout),
        class.header_length,
        &[
            (fields.elf_type, ET_REL),
            (fields.version, EV_CURRENT),
            (fields.shoff, shoff as u64),
            (fields.ehsize, class.header_length as u64),
            (fields.shentsize, class.section_length as u64),
            (fields.shnum, image.parts.len() as u64),
            (fields.shstrndx, u64::from(image.names_at)),
        ],
    )
}

fn push_bodies(file: &mut Vec<u8>, parts: &[Part], layout: ElfLayout) -> Result<(), AllocError>
    ensures bodies { OnOk result
        (file.new.items ≡ file.old.items ++ flat_map (body (class_of layout) (order_of layout)) parts.now) }
    ensures fits { OnOk result (AllByRecursion BodyFits parts.now) }
{
    for part in parts {
        match part {
            Part::Bytes { body, .. } => file.extend_from_slice(body)?,
            Part::Table { rows, .. } => push_rows(file, rows, layout)?,
        }
    }
    Ok(())
}

fn push_rows(file: &mut Vec<u8>, rows: &[Row], layout: ElfLayout) -> Result<(), AllocError>
    ensures rows { OnOk result
        (file.new.items ≡ file.old.items ++ flat_map (symbol_bytes (class_of layout) (order_of layout)) rows.now) }
    ensures fits { OnOk result (AllByRecursion RowFits rows.now) }
{
    for row in rows {
        push_row(file, *row, layout)?;
    }
    Ok(())
}

fn push_row(file: &mut Vec<u8>, row: Row, layout: ElfLayout) -> Result<(), AllocError>
    ensures row { OnOk result
        (file.new.items ≡ file.old.items ++ symbol_bytes (class_of layout) (order_of layout) row) }
    ensures fits { RowFits row }
{
    let class = class(layout);
    let fields = class.symbol;
    push_structure(
        file,
        order(layout),
        [0; LONGEST],
        class.symbol_length,
        &[
            (fields.name, u64::from(row.name)),
            (fields.value, u64::from(row.address)),
            (fields.size, u64::from(row.size)),
            (fields.info, u64::from(row.info)),
            (fields.other, u64::from(row.other)),
            (fields.section, u64::from(row.section)),
        ],
    )
}

fn push_section_headers(
    file: &mut Vec<u8>,
    parts: &[Part],
    layout: ElfLayout,
) -> Result<(), AllocError>
    requires { bodies_end (class_of layout) (class_of layout).header_length parts.now < 2 ^ 32 }
    ensures headers { OnOk result (file.new.items ≡ file.old.items
        ++ section_headers (class_of layout) (order_of layout) (class_of layout).header_length parts.now) }
    ensures fits { OnOk result (AllByRecursion HeaderFits parts.now) }
{
    let class = class(layout);
    let mut place = class.header_length;
    for part in parts {
        push_section_header(file, part, layout, place)?;
        place += body_length(part, class);
    }
    Ok(())
}

// The header of a part whose body begins at `place`.
fn push_section_header(
    file: &mut Vec<u8>,
    part: &Part,
    layout: ElfLayout,
    place: usize,
) -> Result<(), AllocError>
    requires { body_length (class_of layout) part.now < 2 ^ 32 }
    ensures header { OnOk result
        (file.new.items ≡ file.old.items ++ section_bytes (class_of layout) (order_of layout) place part.now) }
    ensures fits { HeaderFits part.now }
{
    let class = class(layout);
    let fields = class.section;
    push_structure(
        file,
        order(layout),
        [0; LONGEST],
        class.section_length,
        &[
            (fields.name, u64::from(name(part))),
            (fields.kind, u64::from(kind(part))),
            (fields.flags, 0),
            (fields.addr, 0),
            (fields.offset, place as u64),
            (fields.size, body_length(part, class) as u64),
            (fields.link, u64::from(link(part))),
            (fields.addralign, 1),
            (fields.entry_size, entry_length(part, class) as u64),
        ],
    )
}

// Appends a structure: the first `length` of the blank bytes, into which the numbers are put.
fn push_structure(
    file: &mut Vec<u8>,
    order: ByteOrder,
    mut blank: [u8; LONGEST],
    length: usize,
    numbers: &[(Field, u64)],
) -> Result<(), AllocError>
    requires longest { length ≤ 64 }
    requires fit { all_fit length (numbers_view numbers.now) ≡ true }
    ensures { OnOk result
        (file.new.items ≡ file.old.items ++ filled order (take length blank) (numbers_view numbers.now)) }
{
    let structure = &mut blank[..length];
    fill(structure, order, numbers);
    file.extend_from_slice(structure)
}

// Puts each number into its field.
fn fill(structure: &mut [u8], order: ByteOrder, numbers: &[(Field, u64)])
    requires { all_fit (length structure.old) (numbers_view numbers.now) ≡ true }
    ensures { structure.new ≡ filled order structure.old (numbers_view numbers.now) }
{
    for number in numbers {
        put(structure, order, number.0, number.1);
    }
}

// Puts a number into its field: as many of its bytes as the field is wide.
fn put(structure: &mut [u8], order: ByteOrder, field: Field, number: u64)
    requires { fits (length structure.old) (field_view field) ≡ true }
    ensures { structure.new ≡ put order structure.old (field_view field, number) }
{
    let Field(place, width) = field;
    let bytes = &mut structure[place..place + width];
    match order {
        ByteOrder::LittleEndian => bytes.copy_from_slice(&number.to_le_bytes()[..width]),
        ByteOrder::BigEndian => bytes.copy_from_slice(&number.to_be_bytes()[8 - width..]),
    }
}
