//! Worked examples, computed from the definitions alone.

ghost use Rattle.std.specs.Prelude.{◌≡◌, ℕ, List, [], ◌∷◌, ◌++◌, replicate, codes, Some, None, Ok, Err};
ghost use Rattle.binfarce_bytes.specs.Entries.{Entry};
ghost use Rattle.binfarce_bytes.specs.Refusal.{malformed_input};
ghost use Rattle.binfarce_bytes.specs.Walk.{ended};
ghost use Rattle.binfarce_macho.specs.Macho.{commands_from, section_at};
ghost use Rattle.binfarce_macho.specs.MachoSymbols.{symbol_at, macho_answer, macho_size};

/// A load command of kind 1 and size 7, which is refused, and without its last byte.
#[tactic(auto, unfolding(crate::specs::Macho::commands_from, binfarce_bytes::proofs::Computing::computing))]
fn worked_commands()
    ensures too_small { commands_from (1 ∷ 0 ∷ 0 ∷ 0 ∷ 7 ∷ 0 ∷ 0 ∷ 0 ∷ []) 1 0
        ≡ ended (Some malformed_input) }
    ensures truncated { commands_from (1 ∷ 0 ∷ 0 ∷ 0 ∷ 7 ∷ 0 ∷ 0 ∷ []) 1 0 ≡ ended None }
{}

/// The section `__text` of `__TEXT`, at the address 0x1000, of 0x100 bytes, at the offset 0x200 of the file, with some
/// instructions and others.
#[tactic(auto, unfolding(crate::specs::Macho::section_at, crate::specs::Macho::section_fields, crate::specs::Macho::flags_at, binfarce_bytes::proofs::Computing::computing))]
fn worked_section()
    ensures { section_at (codes "__text" ++ (replicate 10 0 ++ (codes "__TEXT" ++ (replicate 10 0
        ++ (0 ∷ 0x10 ∷ 0 ∷ 0 ∷ 0 ∷ 0 ∷ 0 ∷ 0 ∷ 0 ∷ 1 ∷ 0 ∷ 0 ∷ 0 ∷ 0 ∷ 0 ∷ 0 ∷ 0 ∷ 2 ∷ 0 ∷ 0 ∷ 4 ∷ 0 ∷ 0 ∷ 0 ∷ 0
        ∷ 0 ∷ 0 ∷ 0 ∷ 0 ∷ 0 ∷ 0 ∷ 0 ∷ 0 ∷ 4 ∷ 0 ∷ 0x80 ∷ []))))) 0
        ≡ Some (record {
          segment_name = codes "__TEXT";
          section_name = codes "__text";
          address = 0x1000;
          offset = 0x200;
          size = 0x100;
          flags = 0x80000400;
        }) }
{}

/// A row: its name at offset 1, of type 0x0F, in section 1, at 0x1000.
#[tactic(auto, unfolding(crate::specs::MachoSymbols::symbol_at, crate::specs::MachoSymbols::symbol_fields, binfarce_bytes::proofs::Computing::computing))]
fn worked_row()
    ensures { symbol_at (1 ∷ 0 ∷ 0 ∷ 0 ∷ 0x0F ∷ 1 ∷ 0 ∷ 0 ∷ 0 ∷ 0x10 ∷ 0 ∷ 0 ∷ 0 ∷ 0 ∷ 0
        ∷ 0 ∷ []) 0
        ≡ record { name = 1; kind = 0x0F; section = 1; value = 0x1000 } }
{}

/// Sizes in a text that ends at 0x1100, where the last address is that end, and where section 2 has another one.
#[tactic(auto, unfolding(crate::specs::MachoSymbols::macho_size, binfarce_bytes::specs::Sizes::least_above))]
fn worked_sizes()
    ensures equal_addresses { macho_size (0x1000 ∷ 0x1000 ∷ 0x1040 ∷ 0x1100 ∷ []) 0x1100 0x1000
        ≡ Ok (Some 64) }
    ensures up_to_the_next { macho_size (0x1000 ∷ 0x1000 ∷ 0x1040 ∷ 0x1100 ∷ []) 0x1100 0x1040
        ≡ Ok (Some 192) }
    ensures at_the_end { macho_size (0x1000 ∷ 0x1000 ∷ 0x1040 ∷ 0x1100 ∷ []) 0x1100 0x1100 ≡ Ok None }
    ensures past_the_section { macho_size (0x1000 ∷ 0x1000 ∷ 0x1040 ∷ 0x1200 ∷ []) 0x1100 0x1040
        ≡ Ok (Some 448) }
{}

/// The answer of a whole file of 281 bytes: the section `__text` of 0x100 bytes at 0x1000, and the functions `a` and `b`
/// at 0x1000, `c` at 0x1040 and `d` at the text's end, which has no size there. With `d` at 0x1200, in section 2 `c` ends
/// there, and in section 1 it is refused; so is an empty text. With one load command there is no symbol table.
fn worked_answer()
    ensures { let row = λ (name section low high : ℕ).
        name ∷ 0 ∷ 0 ∷ 0 ∷ 15 ∷ section ∷ 0 ∷ 0 ∷ low ∷ high ∷ replicate 6 0 in
        let header = λ (commands : ℕ). replicate 16 0 ++ commands ∷ replicate 15 0 in
        let segment = replicate 3 0 ++ 152 ∷ replicate 59 0 ++ 1 ∷ replicate 7 0 in
        let names = codes "__text" ++ replicate 10 0 ++ codes "__TEXT" ++ replicate 11 0 in
        let symtab = 2 ∷ 0 ∷ 0 ∷ 0 ∷ 24 ∷ 0 ∷ 0 ∷ 0 ∷ 208 ∷ 0 ∷ 0 ∷ 0 ∷ 4 ∷ 0 ∷ 0 ∷ 0
        ∷ 16 ∷ 1 ∷ 0 ∷ 0 ∷ 9 ∷ 0 ∷ 0 ∷ 0 ∷ [] in
        let rows = λ (section high : ℕ). row 1 1 0 16 ++ row 3 1 0 16 ++ row 5 1 64 16 ++ row 7 section 0 high in
        let strings = 0 ∷ 97 ∷ 0 ∷ 98 ∷ 0 ∷ 99 ∷ 0 ∷ 100 ∷ 0 ∷ [] in
        let answer = λ (commands size section high : ℕ).
        macho_answer (header commands ++ 25 ∷ segment ++ names ++ 16 ∷ replicate 7 0
        ++ size ∷ replicate 38 0 ++ symtab ++ rows section high ++ strings) in
        let functions : ℕ → List Entry = λ size.
        record { name = codes "a"; address = 0x1000; size = 64 }
        ∷ record { name = codes "b"; address = 0x1000; size = 64 }
        ∷ record { name = codes "c"; address = 0x1040; size = size } ∷ [] in
        (answer 2 1 1 17 ≡ Ok (record { entries = functions 192; section_size = 256 }))
        × (answer 2 1 2 18 ≡ Ok (record { entries = functions 448; section_size = 256 }))
        × (answer 2 1 1 18 ≡ Err malformed_input)
        × (answer 2 0 1 17 ≡ Err malformed_input)
        × (answer 1 1 1 17 ≡ Ok (record { entries = []; section_size = 0 })) }
{}
