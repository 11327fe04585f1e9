ghost use Rattle.std.specs.Prelude.{◌≡◌, ◌+◌, Ok, None, Some, MatchOption, IsOkAnd};
ghost use Rattle.binfarce.specs.Pe.{Section, walk, is_named};
ghost use Rattle.binfarce.specs.Walk.{first};

use binfarce::ParseError;
use binfarce::pe::Pe;
use std::ops::Range;

/// The file range of the section of this name: `file.get(range)` is its bytes.
pub fn section_range(pe: &Pe<'_>, name: &str) -> Result<Option<Range<usize>>, ParseError>
    ensures found { (s : Section) → first (λ s. is_named name.now s) (walk pe.now) ≡ Ok (Some s)
        → IsOkAnd result (λ range. MatchOption range ⊥
        (λ r. (r.start ≡ s.pointer_to_raw_data) × (r.end ≡ s.pointer_to_raw_data + s.size_of_raw_data))) }
    ensures none { first (λ s. is_named name.now s) (walk pe.now) ≡ Ok None
        → IsOkAnd result (λ range. range ≡ None) }
{
    match pe.section_with_name(name)? {
        Some(section) => Ok(Some(section.range()?)),
        None => Ok(None),
    }
}
