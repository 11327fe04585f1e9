//! The modules of function symbols.

ghost use Rattle.std.specs.Prelude.{◌≡◌, ◌++◌, ◌≤◌, ℕ, List, OnOk, length, take};
ghost use Rattle.std.specs.Str.{IsCharBoundary};
ghost use Rattle.std.specs.String.{string_bytes};
ghost use Rattle.binfarce_figures.specs.Modules.{NamesItsCrate, begins_in, begins_module, begins_name, below_crate, leaves, may_end, module_of, modules};

use crate::generic::{is_of_name, is_of_path};
use std::alloc::AllocError;

/// Appends the module of a function of this crate with this trimmed name.
pub(crate) fn push_module(
    text: &mut String,
    crate_name: &str,
    trimmed: &str,
) -> Result<(), AllocError>
    ensures { OnOk result (string_bytes text.new ≡ string_bytes text.old ++ module_of crate_name.now trimmed.now) }
{
    text.push_str(crate_name)?;
    let path = below_crate(crate_name, trimmed);
    text.push_str(&path[..modules_len(path)])
}

// What comes after the crate where a path of it first begins in a text; nothing if none does.
fn below_crate<'a>(crate_name: &str, text: &'a str) -> &'a str
    ensures { result.now ≡ below_crate crate_name.now 32 text.entry.now }
{
    let bytes = text.as_bytes();
    let mut before = ' ';
    let mut at = 0;
    while at < bytes.len() {
        if !is_of_path(before) && begins_in(crate_name.as_bytes(), &bytes[at..]) {
            return &text[at + crate_name.len()..];
        }
        before = char::from(bytes[at]);
        at += 1;
    }
    ""
}

// Whether a text begins with a path of this crate.
fn begins_in(crate_name: &[u8], text: &[u8]) -> bool
    ensures { result ≡ begins_in crate_name.now text.now }
{
    text.starts_with(crate_name) && text[crate_name.len()..].starts_with(b"::")
}

// How long the modules of a path are below its crate.
fn modules_len(path: &str) -> usize
    ensures within { result ≤ length path.now }
    ensures boundary { IsCharBoundary path.now result }
    ensures modules { take result path.now ≡ modules path.now }
{
    let bytes = path.as_bytes();
    let mut end = 0;
    let mut at = 0;
    while at < bytes.len() {
        let rest = &bytes[at..];
        if may_end(rest) {
            end = at;
        }
        if leaves(rest) {
            return end;
        }
        at += 1;
    }
    end
}

// Whether the modules of a path may end before this text.
fn may_end(text: &[u8]) -> bool
    ensures { result ≡ may_end text.now }
{
    text.starts_with(b"::") && (begins_name(&text[2..]) || text[2..].starts_with(b"<impl "))
}

// Whether a path leaves its modules where this text begins.
fn leaves(text: &[u8]) -> bool
    ensures { result ≡ leaves text.now }
{
    match text {
        [] => true,
        [c, ..] => {
            !is_of_path(char::from(*c)) || text.starts_with(b"::") && !begins_module(&text[2..])
        }
    }
}

// Whether a text begins with a name.
fn begins_name(text: &[u8]) -> bool
    ensures { result ≡ begins_name text.now }
{
    matches!(text, [c, ..] if is_of_name(char::from(*c)))
}

// Whether a text begins with a module's name.
fn begins_module(text: &[u8]) -> bool
    ensures { result ≡ begins_module text.now }
{
    let mut at = 0;
    while at < text.len() {
        let c = text[at];
        if c != b'_' {
            return is_of_name(char::from(c)) && !c.is_ascii_uppercase();
        }
        at += 1;
    }
    false
}

/// The first part of a module's name is its crate, if that has no colon in its name.
fn modules_name_their_crates()
    ensures { (crate_name trimmed : List ℕ) → NamesItsCrate crate_name trimmed }
{}
