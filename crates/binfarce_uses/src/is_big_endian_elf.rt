ghost use Rattle.std.specs.Prelude.{◌≡◌, ◌↔◌, ◌⊎◌, IsTrue};
ghost use Rattle.binfarce.specs.Format.{format_of};
ghost use Rattle.binfarce.specs.declared.ByteOrder.TheVariants.{BigEndian};
ghost use Rattle.binfarce.specs.declared.Format.TheVariants.{Elf32, Elf64};

use binfarce::{ByteOrder, Format, detect_format};

/// Whether the file is an ELF file in big-endian order.
pub fn is_big_endian_elf(file: &[u8]) -> bool
    ensures { IsTrue result ↔ ((format_of file.now ≡ Elf32 BigEndian)
        ⊎ (format_of file.now ≡ Elf64 BigEndian)) }
{
    match detect_format(file) {
        Format::Elf32 { byte_order } => byte_order == ByteOrder::BigEndian,
        Format::Elf64 { byte_order } => byte_order == ByteOrder::BigEndian,
        _ => false,
    }
}
