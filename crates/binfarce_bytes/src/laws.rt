//! Equality is equality of values. Worked examples, computed from the definitions alone.

ghost use Rattle.std.specs.Prelude.{◌≡◌, ◌↔◌, IsTrue, [], ◌∷◌, Some, None, pos, ◌-ℤ◌};
ghost use Rattle.binfarce_bytes.specs.declared.ByteOrder.TheVariants.{LittleEndian, BigEndian};
ghost use Rattle.binfarce_bytes.specs.Number.{number, signed};
ghost use Rattle.binfarce_bytes.specs.Text.{text_at, padded_name, padded_text};
ghost use Rattle.binfarce_bytes.specs.Refusal.{refusal_of};

use crate::{ByteOrder, ParseError};

fn byte_orders_are_equal(first: ByteOrder, second: ByteOrder) -> bool
    ensures { IsTrue result ↔ (first ≡ second) }
{
    first == second
}

fn errors_are_equal(first: ParseError, second: ParseError) -> bool
    ensures { IsTrue result ↔ (refusal_of first ≡ refusal_of second) }
{
    first == second
}

/// Numbers of the bytes `FF 80`.
#[tactic(auto, unfolding(crate::proofs::Computing::computing))]
fn worked_numbers()
    ensures little_endian { number LittleEndian (0xFF ∷ 0x80 ∷ []) ≡ 0x80FF }
    ensures big_endian { number BigEndian (0xFF ∷ 0x80 ∷ []) ≡ 0xFF80 }
    ensures signed_byte { signed 1 0xFF ≡ pos 0 -ℤ pos 1 }
    ensures signed_little_endian { signed 2 0x80FF ≡ pos 0 -ℤ pos 32513 }
    ensures signed_big_endian { signed 2 0xFF80 ≡ pos 0 -ℤ pos 128 }
{}

/// Texts among the bytes `61 62 00 63`, and names of fields with and without a NUL.
#[tactic(auto, unfolding(crate::proofs::Computing::computing))]
fn worked_texts()
    ensures up_to_nul { text_at (0x61 ∷ 0x62 ∷ 0 ∷ 0x63 ∷ []) 1 ≡ Some (0x62 ∷ []) }
    ensures empty { text_at (0x61 ∷ 0x62 ∷ 0 ∷ 0x63 ∷ []) 2 ≡ None }
    ensures without_nul { text_at (0x61 ∷ 0x62 ∷ 0 ∷ 0x63 ∷ []) 3 ≡ None }
    ensures padded { padded_name (0x61 ∷ 0 ∷ 0x62 ∷ []) ≡ Some (0x61 ∷ []) }
    ensures filled { padded_name (0x61 ∷ 0x62 ∷ []) ≡ Some (0x61 ∷ 0x62 ∷ []) }
    ensures empty_name { padded_name (0 ∷ 0x61 ∷ []) ≡ None }
    ensures empty_text { padded_text (0 ∷ 0x61 ∷ []) ≡ Some [] }
    ensures not_utf8 { padded_text (0x80 ∷ []) ≡ None }
{}
