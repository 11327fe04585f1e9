ghost use Rattle.std.specs.Prelude.{◌≡◌, IfOk};
ghost use Rattle.binfarce.specs.declared.ByteOrder.TheVariants.{LittleEndian};
ghost use Rattle.binfarce.specs.declared.Format.TheVariants.{Elf64};
ghost use Rattle.binfarce.specs.Format.{format_of};

use binfarce_image::image::{ElfLayout, Image, ImageError, Part, Row, lay_out};
use std::alloc::{AllocError, Global};

/// An ELF file of 64 bits whose section `.text`, of 4 bytes, has the function `f`.
pub fn one_function(alloc: Global) -> Result<Vec<u8>, ImageError>
    ensures { IfOk result (λ file. format_of file.items ≡ Elf64 LittleEndian) }
{
    let image = Image {
        parts: parts(alloc)?,
        names_at: 2,
    };
    lay_out(alloc, &image, ElfLayout::Elf64Little)
}

fn parts(alloc: Global) -> Result<Vec<Part>, AllocError> {
    let mut parts = Vec::new(alloc);
    parts.push(Part::Bytes {
        name: 1,
        kind: 1,
        link: 0,
        body: Vec::from_slice(alloc, &[0; 4])?,
    })?;
    let function = Row {
        name: 7,
        address: 4096,
        size: 4,
        info: 0x12,
        other: 0,
        section: 0,
    };
    parts.push(Part::Table {
        name: 0,
        link: 2,
        rows: Vec::from_slice(alloc, &[function])?,
    })?;
    parts.push(Part::Bytes {
        name: 0,
        kind: 3,
        link: 0,
        body: Vec::from_slice(alloc, b"\0.text\0f\0")?,
    })?;
    Ok(parts)
}
