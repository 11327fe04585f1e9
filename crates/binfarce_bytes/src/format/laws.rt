//! Equality is equality of values. Worked examples, computed from the definitions alone.

ghost use Rattle.std.specs.Prelude.{◌≡◌, ◌↔◌, IsTrue, [], ◌∷◌};
ghost use Rattle.binfarce_bytes.specs.declared.ByteOrder.TheVariants.{LittleEndian, BigEndian};
ghost use Rattle.binfarce_bytes.specs.declared.format.Format.TheVariants.{Elf32, Elf64, Macho, PE, Unknown};
ghost use Rattle.binfarce_bytes.specs.Format.{format_of};

use crate::format::Format;

fn formats_are_equal(first: &Format, second: &Format) -> bool
    ensures { IsTrue result ↔ (first.now ≡ second.now) }
{
    first == second
}

/// The formats that first bytes name.
#[tactic(auto, unfolding(crate::specs::Format::format_of))]
fn worked_formats()
    ensures elf32 { format_of (0x7F ∷ 0x45 ∷ 0x4C ∷ 0x46 ∷ 1 ∷ 2 ∷ 1 ∷ 0 ∷ []) ≡ Elf32 BigEndian }
    ensures elf64 { format_of (0x7F ∷ 0x45 ∷ 0x4C ∷ 0x46 ∷ 2 ∷ 1 ∷ 1 ∷ 0 ∷ []) ≡ Elf64 LittleEndian }
    ensures order { format_of (0x7F ∷ 0x45 ∷ 0x4C ∷ 0x46 ∷ 2 ∷ 3 ∷ 1 ∷ 0 ∷ []) ≡ Unknown }
    ensures short { format_of (0x7F ∷ 0x45 ∷ 0x4C ∷ 0x46 ∷ 2 ∷ 1 ∷ 1 ∷ []) ≡ Unknown }
    ensures pe { format_of (0x4D ∷ 0x5A ∷ 0 ∷ 0 ∷ 0 ∷ 0 ∷ 0 ∷ 0 ∷ []) ≡ PE }
    ensures macho { format_of (0xCF ∷ 0xFA ∷ 0xED ∷ 0xFE ∷ 7 ∷ 0 ∷ 0 ∷ 1 ∷ []) ≡ Macho }
{}
