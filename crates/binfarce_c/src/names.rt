//! Names of symbols in readable form.

ghost use Rattle.std.specs.Prelude.{◌≡◌};
ghost use Rattle.binfarce.specs.Name.{mangled_view};
ghost use Rattle.binfarce_c.specs.Names.{Demangles, Trims, GivesCrate, GivesMangling, HoldsMangling, kind_number, no_name, no_text};

use crate::buffer::{Text, give, put};
use crate::functions::start;
use crate::status::{NONE, NOT_UTF8, OK, OUT_OF_MEMORY, number_of};
use binfarce::demangle::{self, Demangled, Kind, crate_of, push_trimmed};
use std::alloc::Global;
use std::{ptr, str};

/// What `binfarce_demangle` returns: `struct binfarce_name`.
#[repr(C)]
#[derive(Drop)]
pub struct SymbolName {
    /// How the call ended.
    pub status: u32,
    /// How the name is mangled: 0 unknown, 1 legacy, 2 v0.
    pub kind: u32,
    /// The whole length of the complete text in bytes.
    pub complete_length: usize,
    /// The whole length of the trimmed text in bytes.
    pub trimmed_length: usize,
    /// The whole length of the crate's name in bytes.
    pub crate_length: usize,
    /// 1 if the name has a crate, and else 0.
    pub has_crate: u32,
}

/// How a name is mangled, and the part of it that is kept: `struct binfarce_mangling`.
#[repr(C)]
#[derive(Clone, Copy)]
pub struct Mangling {
    /// The first byte of the part, in the name; null if the part is empty.
    pub part: *const u8,
    /// The length of the part in bytes.
    pub part_length: usize,
    /// How the name is mangled: 0 unknown, 1 legacy, 2 v0.
    pub kind: u32,
}

/// The readable form of a name, all of it: the complete text, the trimmed one and the crate, each in a buffer of its
/// own. See `binfarce.h`.
#[unsafe(no_mangle)]
#[tactic(auto, unfolding(crate::specs::Names::Demangles))]
pub extern "C" fn binfarce_demangle(
    alloc: Global,
    name: &[u8],
    complete: &mut [u8],
    trimmed: &mut [u8],
    crate_name: &mut [u8],
) -> SymbolName
    ensures { Demangles name.now complete.old complete.new trimmed.old trimmed.new crate_name.old
        crate_name.new result }
{
    let Ok(name) = str::from_utf8(name) else {
        return no_name(NOT_UTF8);
    };
    let Ok(found) = demangle::SymbolName::demangle(alloc, name) else {
        return no_name(OUT_OF_MEMORY);
    };
    let crate_text = found.crate_name.as_deref().unwrap_or("").as_bytes();
    put(found.complete.as_bytes(), complete);
    put(found.trimmed.as_bytes(), trimmed);
    put(crate_text, crate_name);
    SymbolName {
        status: OK,
        kind: kind_number(found.kind),
        complete_length: found.complete.len(),
        trimmed_length: found.trimmed.len(),
        crate_length: crate_text.len(),
        has_crate: number_of(found.crate_name.is_some()),
    }
}

/// The trimmed text of a name, in a buffer. See `binfarce.h`.
#[unsafe(no_mangle)]
#[tactic(auto, unfolding(crate::specs::Names::Trims))]
pub extern "C" fn binfarce_trimmed(alloc: Global, name: &[u8], out: &mut [u8]) -> Text
    ensures { Trims name.now out.old out.new result }
{
    let Ok(name) = str::from_utf8(name) else {
        return none(NOT_UTF8);
    };
    let mut text = String::new(alloc);
    match push_trimmed(alloc, &mut text, name) {
        Ok(()) => give(text.as_bytes(), out),
        Err(_) => none(OUT_OF_MEMORY),
    }
}

/// The crate of a name, in a buffer. See `binfarce.h`.
#[unsafe(no_mangle)]
#[tactic(auto, unfolding(crate::specs::Names::GivesCrate))]
pub extern "C" fn binfarce_crate_of(alloc: Global, name: &[u8], out: &mut [u8]) -> Text
    ensures { GivesCrate name.now out.old out.new result }
{
    let Ok(name) = str::from_utf8(name) else {
        return none(NOT_UTF8);
    };
    match crate_of(alloc, name) {
        Ok(Some(text)) => give(text.as_bytes(), out),
        Ok(None) => none(NONE),
        Err(_) => none(OUT_OF_MEMORY),
    }
}

/// How a name is mangled. Nothing is allocated. See `binfarce.h`.
#[unsafe(no_mangle)]
#[tactic(auto, unfolding(crate::specs::Names::GivesMangling))]
pub extern "C" fn binfarce_mangling(name: &[u8], out: &mut Mangling) -> u32
    ensures { GivesMangling name.now out.new result }
{
    let Ok(name) = str::from_utf8(name) else {
        *out = Mangling {
            part: ptr::null(),
            part_length: 0,
            kind: 0,
        };
        return NOT_UTF8;
    };
    *out = mangling_of(demangle::demangle(name));
    OK
}

fn mangling_of(name: Demangled<'_>) -> Mangling
    ensures { HoldsMangling (mangled_view name.entry) result }
{
    let part = name.part().as_bytes();
    Mangling {
        part: start(part),
        part_length: part.len(),
        kind: kind_number(name.kind()),
    }
}

fn kind_number(kind: Kind) -> u32
    ensures { result ≡ kind_number kind }
{
    kind as u32
}

// No name, for this reason.
fn no_name(status: u32) -> SymbolName
    ensures { result ≡ no_name status }
{
    SymbolName {
        status,
        kind: 0,
        complete_length: 0,
        trimmed_length: 0,
        crate_length: 0,
        has_crate: 0,
    }
}

/// No text, for this reason.
pub(crate) fn none(status: u32) -> Text
    ensures { result ≡ no_text status }
{
    Text {
        status,
        detail: 0,
        length: 0,
    }
}
