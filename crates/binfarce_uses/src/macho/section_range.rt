ghost use Rattle.std.specs.Prelude.{◌≡◌, ◌+◌, ◌^◌, ◌<◌, Ok, None, Some, MatchOption, IsOkAnd};
ghost use Rattle.binfarce.specs.Macho.{Section, walk, is_named};
ghost use Rattle.binfarce.specs.Walk.{first};

use binfarce::ParseError;
use binfarce::macho::Macho;
use std::ops::Range;

/// The file range of the section of these names: `file.get(range)` is its bytes.
pub fn section_range(
    macho: &Macho<'_>,
    segment: &str,
    name: &str,
) -> Result<Option<Range<usize>>, ParseError>
    ensures found { (s : Section) → first (λ s. is_named segment.now name.now s) (walk macho.now) ≡ Ok (Some s)
        → s.offset + s.size < 2 ^ 64
        → IsOkAnd result (λ range. MatchOption range ⊥ (λ r. (r.start ≡ s.offset) × (r.end ≡ s.offset + s.size))) }
    ensures none { first (λ s. is_named segment.now name.now s) (walk macho.now) ≡ Ok None
        → IsOkAnd result (λ range. range ≡ None) }
{
    match macho.section_with_name(segment, name)? {
        Some(section) => Ok(Some(section.range()?)),
        None => Ok(None),
    }
}
