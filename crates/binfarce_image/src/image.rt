//! Images of small ELF files: sections as data, and the file that they are laid out in (System V gABI, chapter 4).
//!
//! An image is independent of any layout. [`lay_out`] writes it in one of four, and the readers find the same content
//! in each.

ghost use Rattle.std.specs.Prelude.{◌≡◌, Some, IfOk};
ghost use Rattle.binfarce.specs.Format.{format_of};
ghost use Rattle.binfarce_image.specs.Image.{bytes, layout_format};
ghost use Rattle.binfarce_image.specs.ImageRefusal.{refusal_due, Refuses};
ghost use Rattle.binfarce_image.specs.ImageSymbols.{ReadsBack};

mod parts;
mod tables;
mod write;

use self::parts::{bodies_end, has_names, has_one_table};
use std::alloc::{AllocError, Global};
use std::error::Error;
use std::fmt;

/// The class and the byte order that a file is written in.
#[derive(Debug, Clone, Copy)]
pub enum ElfLayout {
    /// ELFCLASS32, ELFDATA2LSB.
    Elf32Little,
    /// ELFCLASS32, ELFDATA2MSB.
    Elf32Big,
    /// ELFCLASS64, ELFDATA2LSB.
    Elf64Little,
    /// ELFCLASS64, ELFDATA2MSB.
    Elf64Big,
}

/// The content of a file: its sections in order, of which exactly one is the symbol table.
#[derive(Drop)]
pub struct Image {
    /// The sections, at most 65,535. The index of a part is that of its section.
    pub parts: Vec<Part>,
    /// The index of the part that holds the section names (`e_shstrndx`): a `Bytes` part.
    pub names_at: u16,
}

/// A section.
#[derive(Drop)]
pub enum Part {
    /// A section of plain bytes.
    Bytes {
        /// The offset of the section's name in the part of the section names, in bytes (`sh_name`).
        name: u32,
        /// The section's type (`sh_type`): 3 for a string table; not 2, which is the symbol table's.
        kind: u32,
        /// The index of a section that this one refers to (`sh_link`).
        link: u32,
        /// The section's bytes.
        body: Vec<u8>,
    },
    /// The symbol table, of kind 2 (`SHT_SYMTAB`).
    Table {
        /// The offset of the section's name in the part of the section names, in bytes (`sh_name`).
        name: u32,
        /// The index of the string table that holds the symbols' names (`sh_link`).
        link: u32,
        /// The symbols.
        rows: Vec<Row>,
    },
}

/// A symbol (gABI, "Symbol Table").
#[derive(Debug, Clone, Copy)]
pub struct Row {
    /// The offset of the symbol's name in the linked string table, in bytes (`st_name`).
    pub name: u32,
    /// The symbol's address (`st_value`).
    pub address: u32,
    /// The symbol's size in bytes (`st_size`).
    pub size: u32,
    /// The symbol's type in the low four bits, 2 for a function, and its binding (`st_info`).
    pub info: u8,
    /// The symbol's visibility (`st_other`).
    pub other: u8,
    /// The index of the section that the symbol lies in (`st_shndx`).
    pub section: u16,
}

/// Why an image was not laid out.
#[derive(Debug, PartialEq, Drop)]
pub enum ImageError {
    /// The image has more than 65,535 parts.
    TooManySections,
    /// The image has no `Table`, or more than one, or a `Bytes` part of kind 2.
    TableCount,
    /// `names_at` isn't the index of a `Bytes` part.
    NamesPlace,
    /// The file would have 2^32 bytes or more in the requested layout.
    TooLarge,
    /// An allocation failed.
    OutOfMemory,
}

impl fmt::Display for ImageError {
    ghost use Rattle.binfarce_image.specs.ImageRefusal.{image_words};

    ghost output = { λ e. Some (image_words e) };

    fn fmt<W: fmt::Write>(&self, f: &mut fmt::Formatter<W>) -> fmt::Result {
        match self {
            ImageError::TooManySections => write!(f, "too many sections"),
            ImageError::TableCount => write!(f, "image needs exactly one symbol table"),
            ImageError::NamesPlace => write!(f, "section names are not in a byte section"),
            ImageError::TooLarge => write!(f, "image is too large"),
            ImageError::OutOfMemory => write!(f, "out of memory"),
        }
    }
}

impl Error for ImageError {}

impl From<AllocError> for ImageError {
    ghost use Rattle.binfarce_image.specs.declared.image.ImageError.TheVariants.{OutOfMemory};

    ghost from_gives = { λ _ e. e ≡ OutOfMemory };

    fn from(_: AllocError) -> Self {
        ImageError::OutOfMemory
    }
}

/// The ELF file of an image in a layout: the header, the bodies of the parts in order without padding, and the section
/// headers in order.
///
/// In the header, `e_type` and `e_version` are 1, and `e_shoff` is where the bodies end. In a section header, name and
/// link are the part's, the type is its kind, `sh_addralign` is 1, and `sh_entsize` is the length of a row for the
/// table. All other fields are 0.
///
/// # Errors
///
/// In this order: `TooManySections` for more than 65,535 parts; `TableCount` if there isn't exactly one `Table`, or
/// a `Bytes` part has kind 2; `NamesPlace` if `names_at` isn't the index of a `Bytes` part; `TooLarge` if the
/// file would have 2^32 bytes or more. `OutOfMemory` if an allocation failed; nothing is allocated before the other
/// checks.
pub fn lay_out(alloc: Global, image: &Image, layout: ElfLayout) -> Result<Vec<u8>, ImageError>
    ensures file { IfOk result (λ v. v.items ≡ bytes image.now layout) }
    // The file's first bytes name the layout's class and order.
    ensures format { IfOk result (λ v. format_of v.items ≡ layout_format layout) }
    // The ELF answer for the file is the content of the image, for every name whose first part isn't the table.
    ensures law { IfOk result (λ v. ReadsBack layout image.now v.items) }
    ensures refused { Refuses (refusal_due image.now layout) result }
{
    const MAX_SECTIONS: usize = 65_535;
    const TOO_LARGE: u64 = 1 << 32;
    let parts = image.parts.as_slice();
    if parts.len() > MAX_SECTIONS {
        return Err(ImageError::TooManySections);
    }
    if !has_one_table(parts) {
        return Err(ImageError::TableCount);
    }
    if !has_names(image) {
        return Err(ImageError::NamesPlace);
    }
    let class = write::class(layout);
    let shoff = bodies_end(parts, class);
    let length = shoff.saturating_add(class.section_length * parts.len());
    if length as u64 >= TOO_LARGE {
        return Err(ImageError::TooLarge);
    }
    Ok(write::file(alloc, image, layout, shoff, length)?)
}
