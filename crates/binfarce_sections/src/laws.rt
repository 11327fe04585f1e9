//! Laws of the definitions.

ghost use Rattle.std.specs.Prelude.{◌≤◌, ℕ, List};
ghost use Rattle.binfarce_sections.specs.Section.{Section};
ghost use Rattle.binfarce_sections.specs.Sums.{shares_of, total};

/// The bytes that count for sections are no more than the file has: with those that count for none they are all.
fn no_byte_counts_twice()
    ensures { (file_length : ℕ) (sections : List Section) → total (shares_of file_length sections) ≤ file_length }
{}
