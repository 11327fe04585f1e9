//! Worked examples, computed from the definitions alone.

ghost use Rattle.std.specs.Prelude.{◌≡◌, ℕ, true, false, [], ◌∷◌, ◌++◌, replicate, codes, Some, None, Ok};
ghost use Rattle.binfarce_pe.specs.Pe.{section_at};
ghost use Rattle.binfarce_pe.specs.PeSelection.{ends_sizes, size_within};
ghost use Rattle.binfarce_pe.specs.PeSymbols.{SymbolRow, symbol_at, row_numbers, size_among, entries_of, pe_answer};

/// The section `.text`, of 0x1F bytes in memory at 0x1000 and 0x200 in the file, from 0x400 on.
#[tactic(auto, unfolding(crate::specs::Pe::section_at, crate::specs::Pe::section_fields, crate::specs::Pe::characteristics_at, binfarce_bytes::proofs::Computing::computing))]
fn worked_section()
    ensures { section_at
        (codes ".text" ++ (0 ∷ 0 ∷ 0 ∷ 0x1F ∷ 0 ∷ 0 ∷ 0 ∷ 0 ∷ 0x10 ∷ 0 ∷ 0 ∷ 0 ∷ 2 ∷ 0 ∷ 0 ∷ 0 ∷ 4 ∷ 0 ∷ 0 ∷ 0
        ∷ 0 ∷ 0 ∷ 0 ∷ 0 ∷ 0 ∷ 0 ∷ 0 ∷ 0 ∷ 0 ∷ 0 ∷ 0 ∷ 0x20 ∷ 0 ∷ 0 ∷ 0x60 ∷ [])) 0 0
        ≡ Some (record {
          name = codes ".text";
          virtual_size = 0x1F;
          virtual_address = 0x1000;
          size_of_raw_data = 0x200;
          pointer_to_raw_data = 0x400;
          characteristics = 0x60000020;
          index = 0;
        }) }
{}

/// A record of the string table's name at 4: an external function of section 1 at 0x10, with an auxiliary record.
#[tactic(auto, unfolding(crate::specs::PeSymbols::symbol_at, crate::specs::PeSymbols::symbol_fields, binfarce_bytes::proofs::Computing::computing))]
fn worked_symbol()
    ensures { symbol_at (0 ∷ 0 ∷ 0 ∷ 0 ∷ 4 ∷ 0 ∷ 0 ∷ 0 ∷ 0x10 ∷ 0 ∷ 0 ∷ 0 ∷ 1 ∷ 0 ∷ 0x20
        ∷ 0 ∷ 2 ∷ 1 ∷ []) 0
        ≡ record {
          zeroes = 0;
          offset = 4;
          value = 0x10;
          section_number = 1;
          kind = 0x20;
          storage_class = 2;
          number_of_aux_symbols = 1;
        } }
{}

/// Three records, of which the first has one auxiliary record.
#[tactic(auto, unfolding(crate::specs::PeSymbols::rows_from, crate::specs::PeSymbols::symbol_at, crate::specs::PeSymbols::symbol_fields, binfarce_bytes::proofs::Computing::computing))]
fn worked_rows()
    ensures { row_numbers (record { rows = replicate 17 0 ++ (1 ∷ replicate 36 0); strings = [] })
        ≡ 0 ∷ 2 ∷ [] }
{}

/// Sizes at 0, 64, 256 and 384, in a text of 256 bytes.
#[tactic(auto, unfolding(binfarce_bytes::specs::Sizes::least_above))]
fn worked_sizes()
    ensures up_to_the_next { size_among (256 ∷ 384 ∷ 0 ∷ 64 ∷ 0 ∷ 256 ∷ []) 0 ≡ 64 }
    ensures up_to_the_end { size_among (256 ∷ 384 ∷ 0 ∷ 64 ∷ 0 ∷ 256 ∷ []) 64 ≡ 192 }
    ensures past_the_end { size_among (256 ∷ 384 ∷ 0 ∷ 64 ∷ 0 ∷ 256 ∷ []) 256 ≡ 128 }
    ensures last { size_among (256 ∷ 384 ∷ 0 ∷ 64 ∷ 0 ∷ 256 ∷ []) 384 ≡ 0 }
{}

/// The entries of two functions: the others are an auxiliary record, a static one, one without a type, one of another
/// section and one whose name isn't UTF-8. The second has a long name.
#[tactic(auto, unfolding(crate::specs::PeSymbols::entries_of, crate::specs::PeSymbols::kept_rows, crate::specs::PeSymbols::function_name, crate::specs::PeSymbols::name_of, crate::specs::PeSymbols::rows_from, crate::specs::PeSymbols::symbol_at, crate::specs::PeSymbols::symbol_fields, binfarce_bytes::specs::Sizes::arranged, binfarce_bytes::specs::Sizes::least_above, binfarce_bytes::proofs::Computing::computing))]
fn worked_entries()
    ensures { let row = λ (name offset value section kind class aux : ℕ).
        name ∷ 0 ∷ 0 ∷ 0 ∷ offset ∷ 0 ∷ 0 ∷ 0
        ∷ value ∷ 0 ∷ 0 ∷ 0 ∷ section ∷ 0 ∷ kind ∷ 0 ∷ class ∷ aux ∷ [] in
        let kept = row 0x66 0 0x10 1 0x20 2 1 ++ row 0x78 0 0x14 1 0x20 2 0 in
        let others = row 0x73 0 0x18 1 0x20 3 0 ++ row 0x74 0 0x1A 1 0 2 0 ++ row 0x6F 0 0x1C 2 0x20 2 0
        ++ row 0xFF 0 0x1E 1 0x20 2 0 in
        entries_of (record {
          rows = kept ++ others ++ row 0 4 0x20 1 0x20 2 0;
          strings = replicate 4 0 ++ codes "gh" ++ 0 ∷ [];
        }) 0 256
        ≡ (record { name = codes "f"; address = 0x10; size = 16 }
        ∷ record { name = codes "gh"; address = 0x20; size = 224 } ∷ []) }
{}

/// The answer of a whole file of 218 bytes: one section, `.text`, of 256 bytes, and five functions `a` to `e` at 0x180,
/// 0, 0x40, 0 and 0x100.
#[tactic(auto, unfolding(crate::specs::Pe::header_fields, crate::specs::Pe::header_after, crate::specs::Pe::walk, crate::specs::Pe::section_at, crate::specs::Pe::section_fields, crate::specs::Pe::characteristics_at, crate::specs::PeSymbols::pe_answer, crate::specs::PeSymbols::symbol_table, crate::specs::PeSymbols::entries_of, crate::specs::PeSymbols::kept_rows, crate::specs::PeSymbols::function_name, crate::specs::PeSymbols::name_of, crate::specs::PeSymbols::rows_from, crate::specs::PeSymbols::symbol_at, crate::specs::PeSymbols::symbol_fields, binfarce_bytes::specs::Sizes::arranged, binfarce_bytes::specs::Sizes::least_above, binfarce_bytes::proofs::Computing::computing))]
fn worked_answer()
    ensures { let row = λ (name low high : ℕ).
        name ∷ replicate 7 0 ++ low ∷ high ∷ 0 ∷ 0 ∷ 1 ∷ 0 ∷ 0x20 ∷ 0 ∷ 2 ∷ 0 ∷ [] in
        let rows = row 0x61 0x80 1 ++ row 0x62 0 0 ++ row 0x63 0x40 0 ++ row 0x64 0 0 ++ row 0x65 0 1 in
        let headers = replicate 60 0 ++ 64 ∷ replicate 9 0 ++ 1 ∷ replicate 5 0
        ++ 128 ∷ replicate 3 0 ++ 5 ∷ replicate 7 0 in
        let text = codes ".text" ++ replicate 12 0 ++ 1 ∷ replicate 22 0 in
        pe_answer (headers ++ text ++ rows) ≡ Ok (record {
          entries = (record { name = codes "b"; address = 0; size = 64 } ∷ record { name = codes "d"; address = 0; size = 64 }
              ∷ record { name = codes "c"; address = 0x40; size = 192 } ∷ record { name = codes "e"; address = 0x100; size = 128 }
              ∷ record { name = codes "a"; address = 0x180; size = 0 } ∷ []);
          section_size = 256;
        }) }
{}

/// Sizes at the same addresses of all sections, in a section of 256 bytes in memory.
#[tactic(auto, unfolding(binfarce_bytes::specs::Sizes::least_above))]
fn worked_sizes_within()
    ensures up_to_the_next { size_within 256 (384 ∷ 0 ∷ 64 ∷ 0 ∷ 256 ∷ []) 0 ≡ 64 }
    ensures up_to_the_end { size_within 256 (384 ∷ 0 ∷ 64 ∷ 0 ∷ []) 64 ≡ 192 }
    ensures at_the_end { size_within 256 (384 ∷ 0 ∷ 64 ∷ 0 ∷ 256 ∷ []) 256 ≡ 0 }
    ensures past_the_end { size_within 256 (384 ∷ 512 ∷ []) 384 ≡ 0 }
{}

/// What ends sizes in the first section, by storage class, section number and name, whatever the type: a static row, and
/// a label, also one without a readable name; and not a label of a compiler, one of another section, or a debugger's
/// record.
#[tactic(auto, unfolding(binfarce_bytes::proofs::Computing::computing))]
fn worked_ends()
    ensures { let row : ℕ → ℕ → SymbolRow ℕ = λ class section.
        record {
          zeroes = 1;
          offset = 0;
          value = 0x10;
          section_number = section;
          kind = 0;
          storage_class = class;
          number_of_aux_symbols = 0;
        } in
        (ends_sizes 0 (row 3 1) (Some (codes "L1")) ≡ true)
        × (ends_sizes 0 (row 6 1) (Some (codes "enc_blk4")) ≡ true) × (ends_sizes 0 (row 6 1) None ≡ true)
        × (ends_sizes 0 (row 6 1) (Some (codes ".l_end")) ≡ false) × (ends_sizes 0 (row 6 1) (Some (codes "L1")) ≡ false)
        × (ends_sizes 0 (row 6 1) (Some (codes "$LN4")) ≡ false)
        × (ends_sizes 0 (row 6 2) (Some (codes "enc_blk4")) ≡ false) × (ends_sizes 0 (row 101 1) None ≡ false) }
{}
