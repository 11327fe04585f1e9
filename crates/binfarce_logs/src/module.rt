//! Offsets into modules in a text.

ghost use Rattle.std.specs.Prelude.{◌≡◌, length};
ghost use Rattle.binfarce_logs.specs.Module.{ends_with_mark, ends_with_plus, may_begin_name, may_begin_path, may_begin_word, name_len, names_module, names_symbol};

use crate::maps::name_of;

// How many bytes the name of the file of this path has that is before an offset, which comes after the text. 0 if none
// is.
pub(crate) fn name_len(path: &[u8], text: &[u8]) -> usize
    ensures { result ≡ name_len path.now text.now }
{
    if names_module(path, text) {
        return path.len();
    }
    let name = name_of(path);
    if names_module(name, text) {
        name.len()
    } else {
        0
    }
}

// Whether an offset into this module comes after the text.
fn names_module(name: &[u8], text: &[u8]) -> bool
    ensures { result ≡ names_module name.now text.now }
{
    ends_with_mark(name, b"+", text)
        || ends_with_mark(name, b"(+", text)
        || ends_with_mark(name, b" + ", text)
}

// Whether an offset after the text may be one into a function of this name.
pub(crate) fn names_symbol(name: &[u8], text: &[u8]) -> bool
    ensures { result ≡ names_symbol name.now text.now }
{
    if !text.ends_with(b"+") {
        return false;
    }
    let named = &text[..text.len() - 1];
    named.ends_with(name) && may_begin_word(&named[..named.len() - name.len()])
}

// Whether an offset comes after the text.
pub(crate) fn ends_with_plus(text: &[u8]) -> bool
    ensures { result ≡ ends_with_plus text.now }
{
    text.ends_with(b"+") || text.ends_with(b"+ ")
}

// Whether the text ends with the name of this module, and a mark.
fn ends_with_mark(name: &[u8], mark: &[u8], text: &[u8]) -> bool
    ensures { result ≡ ends_with_mark name.now mark.now text.now }
{
    if !text.ends_with(mark) {
        return false;
    }
    let named = &text[..text.len() - mark.len()];
    named.ends_with(name) && may_begin_name(&named[..named.len() - name.len()])
}

// Whether the name of a module may begin after the text.
fn may_begin_name(text: &[u8]) -> bool
    ensures { result ≡ may_begin_name text.now }
{
    may_begin_path(text) || (text.ends_with(b"(") && may_begin_path(&text[..text.len() - 1]))
}

// Whether a path may begin after the text, or go on.
fn may_begin_path(text: &[u8]) -> bool
    ensures { result ≡ may_begin_path text.now }
{
    may_begin_word(text) || text.ends_with(b"/") || text.ends_with(b"[")
}

// Whether a word may begin after the text.
fn may_begin_word(text: &[u8]) -> bool
    ensures { result ≡ may_begin_word text.now }
{
    text.is_empty() || text.ends_with(b" ") || text.ends_with(b"\t") || text.ends_with(b"\n")
}
