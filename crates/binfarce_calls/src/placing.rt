//! Where the files of `at` are loaded, and how addresses are looked up in them.

ghost use Rattle.std.specs.Prelude.{◌≡◌, length};
ghost use Rattle.std.specs.Option.{option_map};
ghost use Rattle.binfarce_rows.specs.Json.{style_of};
ghost use Rattle.binfarce_words.specs.WordViews.{given_view};
ghost use Rattle.binfarce_words.specs.declared.flag.Flag.TheVariants.{Offsets, Return};
ghost use Rattle.binfarce_calls.specs.Asked.{has, style_asked};
ghost use Rattle.binfarce_calls.specs.Placing.{base_for, base_given, file_at, files_asked, has_bytes, lacks_bytes, loaded_asked, missed_hint, path_for, span_for, unclear_hint, unfound_hint, value_for};

use crate::request::form_of;
use binfarce_addresses::{Counts, Lookup, parse_address};
use binfarce_jobs::hint::{Hint, Loaded};
use binfarce_logs::maps::{NoBase, base_of};
use binfarce_tables::loading::{CodeSegment, LoadAddress};
use binfarce_words::flag::Flag;
use binfarce_words::flag::Flag::{Annotate, As, Base, Maps, Offsets, Return};
use binfarce_words::given::Arguments;

// How many files there are: all operands where a text is annotated, else the first one.
pub(crate) fn count_of_files(given: &Arguments<'_>) -> usize
    ensures { result ≡ length (files_asked (given_view given.now)) }
{
    let all = given.operands.len();
    if given.has(Annotate) { all } else { all.min(1) }
}

// The value of an option for the file at a place: of one file the one that is given last, and of several the one at
// this place.
fn value_for<'a>(given: &Arguments<'a>, flag: Flag, place: usize) -> Option<&'a str>
    ensures { option_map (λ t. t.now) result ≡ value_for flag (given_view given.now) place }
{
    if count_of_files(given) < 2 {
        return given.value(flag);
    }
    given.value_at(flag, place)
}

/// The path of the file at a place among the operands.
pub fn file_at<'a>(given: &Arguments<'a>, place: usize) -> &'a str
    ensures { result.now ≡ file_at (given_view given.now) place }
{
    given.operand(place).unwrap_or("")
}

/// The path of the file at a place in maps and in a text: its own, or the one that is given for it.
pub fn path_for<'a>(given: &Arguments<'a>, place: usize) -> &'a str
    ensures { result.now ≡ path_for (given_view given.now) place }
{
    value_for(given, As, place).unwrap_or(file_at(given, place))
}

/// The base that is given for the file at a place.
pub fn base_given(given: &Arguments<'_>, place: usize) -> Option<u64>
    ensures { result ≡ base_given (given_view given.now) place }
{
    parse_address(value_for(given, Base, place)?.as_bytes())
}

/// Where the file at a place is loaded, which says itself that it is loaded there, if that is known: by the maps, where
/// these are read, or at the base that is given for it.
///
/// # Errors
///
/// Those of `base_of`, where the maps don't place the file.
pub fn base_for(
    given: &Arguments<'_>,
    maps: Option<&[u8]>,
    place: usize,
    loaded: LoadAddress,
) -> Result<Option<u64>, NoBase>
    ensures { result ≡ base_for (given_view given.now) (option_map (λ m. m.now) maps.entry) place loaded }
{
    let Some(maps) = maps else {
        return Ok(base_given(given, place));
    };
    match base_of(maps, path_for(given, place).as_bytes(), loaded) {
        Ok(base) => Ok(Some(base)),
        Err(why) => Err(why),
    }
}

/// Whether addresses are offsets in a file that says that it is loaded there, and has no code with bytes.
pub(crate) fn lacks_bytes(given: &Arguments<'_>, loaded: LoadAddress) -> bool
    ensures { result ≡ lacks_bytes (given_view given.now) loaded }
{
    given.has(Offsets) && !has_bytes(loaded.code)
}

// Whether there is a segment with bytes.
fn has_bytes(code: Option<CodeSegment>) -> bool
    ensures { result ≡ has_bytes code }
{
    match code {
        Some(code) => code.size > 0,
        None => false,
    }
}

// What is looked up in a file that is loaded at the base, if that is known, and says itself that it is loaded there: from
// where on, the file's address for that, and how many bytes. Addresses from the base on, or offsets of the code.
fn span_for(
    given: &Arguments<'_>,
    base: Option<u64>,
    loaded: LoadAddress,
) -> (Option<u64>, u64, Option<u64>)
    ensures { result ≡ span_for (has Offsets (given_view given.now)) base loaded }
{
    match loaded.code {
        Some(code) if given.has(Offsets) => (Some(code.offset), code.address, Some(code.size)),
        _ => (base, loaded.address, None),
    }
}

/// How addresses are looked up in the file at a place, which is loaded at the base, if that is known, and says itself
/// that it is loaded there; an offset of 0 after its name means the origin, unless addresses are offsets in the file.
pub fn lookup_for<'a>(
    given: &Arguments<'a>,
    place: usize,
    base: Option<u64>,
    loaded: LoadAddress,
    origin: u64,
) -> Lookup<'a>
    ensures span { (result.base, result.linked, result.size)
        ≡ span_for (has Offsets (given_view given.now)) base loaded }
    ensures origin { result.origin ≡ origin }
    ensures returns { result.is_return ≡ has Return (given_view given.now) }
    ensures form { style_of result.form ≡ style_asked (file_at (given_view given.now) place) (given_view given.now) }
    ensures path { result.path.now ≡ path_for (given_view given.now) place }
{
    let (base, linked, size) = span_for(given, base, loaded);
    Lookup {
        base,
        linked,
        size,
        origin,
        is_return: given.has(Return),
        form: form_of(given, file_at(given, place)),
        path: path_for(given, place).as_bytes(),
    }
}

/// What is known of where the files are loaded, or that one of the addresses is behind a function symbol.
pub fn loaded_by(given: &Arguments<'_>, is_behind: bool) -> Loaded
    ensures { result ≡ loaded_asked is_behind (given_view given.now) }
{
    if is_behind {
        Loaded::Behind
    } else if given.has(Maps) {
        Loaded::Maps
    } else if given.has(Base) {
        Loaded::Base
    } else if given.has(Offsets) {
        Loaded::Offsets
    } else {
        Loaded::Unknown
    }
}

/// The hint on files in which none of the addresses that were looked up was found, if any was: which may be in several
/// files isn't known of those that are unclear.
pub fn missed(counts: Counts, loaded: Loaded) -> Option<Hint>
    ensures { result ≡ missed_hint counts loaded }
{
    let clear = counts.asked.saturating_sub(counts.unclear);
    if counts.found > 0 || clear == 0 {
        return None;
    }
    Some(Hint::Missed(clear, loaded))
}

/// The hint on a text in which addresses may be in several files.
pub fn unclear(counts: Counts) -> Option<Hint>
    ensures { result ≡ unclear_hint counts }
{
    if counts.unclear == 0 {
        return None;
    }
    Some(Hint::Unclear(counts.unclear))
}

/// The hint on a text in which nothing was found: on offsets behind names of other files, or that it has no address.
pub fn unfound(counts: Counts, is_bare: bool) -> Option<Hint>
    ensures { result ≡ unfound_hint counts is_bare }
{
    if counts.found > 0 {
        None
    } else if counts.missing > 0 {
        Some(Hint::Offsets(counts.missing))
    } else if counts.asked == 0 {
        Some(Hint::NoAddress(is_bare))
    } else {
        None
    }
}
