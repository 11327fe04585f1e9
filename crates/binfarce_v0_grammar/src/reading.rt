//! Reading a v0 name by the grammar alone: it is validated in one pass, without allocation.

ghost use Rattle.std.specs.Prelude.{◌≡◌, ◌<◌, ◌≤◌, length, suc};
ghost use Rattle.std.specs.Str.{IsAscii};
ghost use Rattle.binfarce_v0_grammar.specs.declared.limits.TheConstants.{MAX_LEVELS};
ghost use Rattle.binfarce_v0_grammar.specs.Forms.{type_form_by};
ghost use Rattle.binfarce_v0_grammar.specs.machine.View.{listed_view};
ghost use Rattle.binfarce_v0_grammar.specs.machine.Ends.{ends, type_end, bindings_end, item_end, list_end, return_end, lifetime_end, argument_end};

use crate::forms::{
    ConstForm, FunctionForm, Listed, basic_type, const_form, function_form, lifetime_form,
};
use crate::identifiers::{identifier_at, identifier_name_at, undisambiguated_at};
use crate::numbers::{back_reference, byte_at, optional_base_62_number};
use crate::positions::eat;

// `<const>`
#[tactic(auto, using(crate::proofs::ReadingComplete::const_end_at, crate::proofs::ReadingComplete::const_end_none), unfolding(crate::specs::machine::Ends::const_end))]
fn read_const(part: &str, levels_left: usize, at: usize) -> Option<usize>
    requires ascii { IsAscii part.now }
    requires levels { levels_left ≤ MAX_LEVELS }
    ensures { result ≡ (ends part.now levels_left).constant at }
{
    if levels_left == 0 {
        return None;
    }
    match const_form(part, Some(at)) {
        ConstForm::UntypedPlaceholder(after) | ConstForm::Placeholder(_, after) => Some(after),
        ConstForm::Value(_, _, after) => Some(after),
        ConstForm::Back(_, after) => Some(after),
        ConstForm::Nothing | ConstForm::Invalid(_, _) => None,
    }
}

// The lifetime of a dyn type.
fn read_lifetime(part: &str, at: usize) -> Option<usize>
    ensures { result ≡ lifetime_end part.now at }
{
    let bytes = part.as_bytes();
    let _start = eat(bytes, b'L', Some(at))?;
    let (_life, after) = lifetime_form(bytes, Some(at));
    after
}

/// The position after the `<path>` at a position. `None` if there is no path, and if it has more than
/// `levels_left` levels. The target of a back reference and the meaning of a lifetime's index aren't checked.
#[cycle(reading)]
#[tactic(auto, using(crate::proofs::ReadingComplete::path_end_at, crate::proofs::ReadingComplete::path_end_none), unfolding(crate::specs::machine::Ends::path_end, crate::specs::Forms::path_form))]
pub fn read_path(part: &str, levels_left: usize, at: usize) -> Option<usize>
    requires ascii { IsAscii part.now }
    requires levels { levels_left ≤ MAX_LEVELS }
    ensures { result ≡ (ends part.now levels_left).path at }
{
    if levels_left == 0 {
        return None;
    }
    let inner = levels_left - 1;
    let bytes = part.as_bytes();
    match byte_at(bytes, at) {
        b'C' => {
            let (_root, end) = identifier_name_at(part, at + 1)?;
            Some(end)
        }
        b'N' => {
            if !byte_at(bytes, at + 1).is_ascii_alphabetic() {
                return None;
            }
            let mid = read_path(part, inner, at + 2)?;
            let (_identifier, end) = identifier_at(part, mid)?;
            Some(end)
        }
        b'M' => {
            let (_impl, after) = optional_base_62_number(bytes, b's', at + 1)?;
            let mid = read_path(part, inner, after)?;
            read_type(part, inner, mid)
        }
        b'X' => {
            let (_impl, after) = optional_base_62_number(bytes, b's', at + 1)?;
            let mid = read_path(part, inner, after)?;
            let end = read_type(part, inner, mid)?;
            read_path(part, inner, end)
        }
        b'Y' => {
            let mid = read_type(part, inner, at + 1)?;
            read_path(part, inner, mid)
        }
        b'I' => {
            let mid = read_path(part, inner, at + 1)?;
            read_items(part, inner, Listed::Arguments, mid)
        }
        b'B' => {
            let (_target, after) = back_reference(bytes, at)?;
            Some(after)
        }
        _ => None,
    }
}

// `<type>`
#[cycle(reading)]
#[tactic(auto, using(crate::proofs::ReadingComplete::type_end_at, crate::proofs::ReadingComplete::type_end_none), unfolding(crate::specs::machine::Ends::type_end, crate::specs::Forms::type_form))]
fn read_type(part: &str, levels_left: usize, at: usize) -> Option<usize>
    requires ascii { IsAscii part.now }
    requires levels { levels_left ≤ MAX_LEVELS }
    ensures { result ≡ (ends part.now levels_left).ty at }
{
    if levels_left == 0 || at >= part.len() {
        return None;
    }
    let letter = byte_at(part.as_bytes(), at);
    if basic_type(letter).is_some() {
        return Some(at + 1);
    }
    read_other_type(part, levels_left - 1, at, letter)
}

// A type that isn't a basic type.
#[cycle(reading)]
#[tactic(auto, unfolding(crate::specs::machine::Ends::type_end, crate::specs::Forms::type_form_by))]
fn read_other_type(part: &str, levels_left: usize, at: usize, letter: u8) -> Option<usize>
    requires ascii { IsAscii part.now }
    requires levels { levels_left < MAX_LEVELS }
    requires within { at < length part.now }
    ensures { result ≡ type_end part.now (ends part.now levels_left) at (type_form_by part.now at letter) }
{
    let bytes = part.as_bytes();
    match letter {
        b'R' | b'Q' => {
            let (_life, after) = lifetime_form(bytes, Some(at + 1));
            read_type(part, levels_left, after?)
        }
        b'P' | b'O' | b'S' => read_type(part, levels_left, at + 1),
        b'A' => {
            let mid = read_type(part, levels_left, at + 1)?;
            read_const(part, levels_left, mid)
        }
        b'T' => read_items(part, levels_left, Listed::Types, at + 1),
        b'F' => match function_form(part, optional_base_62_number(bytes, b'G', at + 1)) {
            FunctionForm::FunctionOf(_, after) => {
                let mid = read_items(part, levels_left, Listed::Types, after)?;
                read_return(part, levels_left, mid)
            }
            FunctionForm::Nothing | FunctionForm::InvalidAbi(_) => None,
        },
        b'D' => {
            let (_binder, after) = optional_base_62_number(bytes, b'G', at + 1)?;
            let mid = read_items(part, levels_left, Listed::Traits, after)?;
            read_lifetime(part, mid)
        }
        b'B' => {
            let (_target, after) = back_reference(bytes, at)?;
            Some(after)
        }
        _ => read_path(part, levels_left, at),
    }
}

// The return of a function type.
#[cycle(reading)]
fn read_return(part: &str, levels_left: usize, at: usize) -> Option<usize>
    requires ascii { IsAscii part.now }
    requires levels { levels_left ≤ MAX_LEVELS }
    ensures { result ≡ return_end part.now (ends part.now levels_left) at }
{
    match eat(part.as_bytes(), b'u', Some(at)) {
        Some(after) => Some(after),
        None => read_type(part, levels_left, at),
    }
}

// A list up to its `E`.
#[cycle(reading)]
#[tactic(auto, using(crate::proofs::ReadingLists::items_end_step, crate::proofs::ReadingLists::items_end_none, crate::proofs::ReadingLists::items_end_more))]
fn read_items(part: &str, levels_left: usize, listed: Listed, start: usize) -> Option<usize>
    requires ascii { IsAscii part.now }
    requires levels { levels_left ≤ MAX_LEVELS }
    ensures { result ≡ list_end part.now (ends part.now levels_left) (listed_view listed) start }
{
    let bytes = part.as_bytes();
    let mut at = start;
    for _turn in 0..bytes.len() + 1 {
        if let Some(after) = eat(bytes, b'E', Some(at)) {
            return Some(after);
        }
        at = read_item(part, levels_left, listed, at)?;
    }
    None
}

// An item of a list.
#[cycle(reading)]
#[tactic(auto, unfolding(crate::specs::machine::Ends::item_end))]
fn read_item(part: &str, levels_left: usize, listed: Listed, at: usize) -> Option<usize>
    requires ascii { IsAscii part.now }
    requires levels { levels_left ≤ MAX_LEVELS }
    ensures { result ≡ item_end part.now (ends part.now levels_left) (listed_view listed) at }
{
    match listed {
        Listed::Types => read_type(part, levels_left, at),
        Listed::Arguments => read_argument(part, levels_left, at),
        Listed::Traits => {
            let mid = read_path(part, levels_left, at)?;
            read_bindings(part, levels_left, mid)
        }
    }
}

// `<generic-arg>`
#[cycle(reading)]
fn read_argument(part: &str, levels_left: usize, at: usize) -> Option<usize>
    requires ascii { IsAscii part.now }
    requires levels { levels_left ≤ MAX_LEVELS }
    ensures { result ≡ argument_end part.now (ends part.now levels_left) at }
{
    let bytes = part.as_bytes();
    if eat(bytes, b'L', Some(at)).is_some() {
        let (_life, after) = lifetime_form(bytes, Some(at));
        return after;
    }
    match eat(bytes, b'K', Some(at)) {
        Some(after) => read_const(part, levels_left, after),
        None => read_type(part, levels_left, at),
    }
}

// The bindings of a trait.
#[cycle(reading)]
#[tactic(auto, using(crate::proofs::ReadingLists::bindings_end_step, crate::proofs::ReadingLists::bindings_end_none, crate::proofs::ReadingLists::bindings_end_more))]
fn read_bindings(part: &str, levels_left: usize, start: usize) -> Option<usize>
    requires ascii { IsAscii part.now }
    requires levels { levels_left ≤ MAX_LEVELS }
    ensures { result ≡ bindings_end part.now (ends part.now levels_left) (suc (length part.now)) start }
{
    let bytes = part.as_bytes();
    let mut at = start;
    for _turn in 0..bytes.len() + 1 {
        let Some(binding) = eat(bytes, b'p', Some(at)) else {
            return Some(at);
        };
        let (_name, bound) = undisambiguated_at(part, binding)?;
        at = read_type(part, levels_left, bound)?;
    }
    None
}
