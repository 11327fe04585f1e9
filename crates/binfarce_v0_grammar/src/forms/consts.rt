//! The form of the const at a position of a v0 name, and its value.

ghost use Rattle.std.specs.Prelude.{◌≡◌, ◌<◌, IfSome, IsTrue, Some, length};
ghost use Rattle.std.specs.Option.{option_map};
ghost use Rattle.std.specs.Str.{IsAscii};
ghost use Rattle.binfarce_v0_grammar.specs.Base62.{hex_digits};
ghost use Rattle.binfarce_v0_grammar.specs.Forms.{is_signed, const_type, has_sign, boolean_of, character_of, value_of, const_value, typed_form, const_form};
ghost use Rattle.binfarce_v0_grammar.specs.machine.View.{value_view, const_view};

use super::basic_type;
use crate::identifiers::ascii_slice;
use crate::numbers::{back_reference, byte_at, hex_end, hex_number};

/// The value of a const.
#[derive(Clone, Copy)]
pub enum ConstValue<'a> {
    /// An integer: whether it has a sign, and its hexadecimal digits.
    Integer(bool, &'a str),
    Boolean(bool),
    Character(char),
}

/// `<const>`. The last number of a form is the position after it.
#[derive(Clone, Copy)]
pub enum ConstForm<'a> {
    /// Another type, or an invalid back reference.
    Nothing,
    /// `"p"`
    UntypedPlaceholder(usize),
    /// `<type> "p"`, with the name of the type.
    Placeholder(&'static str, usize),
    /// `<type> <const-data>`, with the name of the type.
    Value(&'static str, ConstValue<'a>, usize),
    /// The same with an invalid value: whether it has a sign.
    Invalid(bool, &'static str),
    /// `<backref>`, with the position that it names.
    Back(usize, usize),
}

/// The form of the const at a position, if there is a position.
#[tactic(auto, unfolding(crate::specs::Forms::const_form))]
pub fn const_form<'a>(part: &'a str, at: Option<usize>) -> ConstForm<'a>
    requires ascii { IsAscii part.now }
    ensures { const_view result ≡ const_form part.now at }
{
    let Some(at) = at else {
        return ConstForm::Nothing;
    };
    let bytes = part.as_bytes();
    let tag = byte_at(bytes, at);
    match tag {
        b'B' => match back_reference(bytes, at) {
            Some((target, after)) => ConstForm::Back(target, after),
            None => ConstForm::Nothing,
        },
        b'p' => ConstForm::UntypedPlaceholder(at + 1),
        _ => match const_type(tag) {
            Some(type_name) => typed_form(part, tag, at + 1, type_name),
            None => ConstForm::Nothing,
        },
    }
}

// The types of consts, by their letters.
#[tactic(auto, unfolding(crate::specs::Forms::const_type))]
fn const_type(letter: u8) -> Option<&'static str>
    ensures value { option_map (λ n. n.now) result ≡ const_type letter }
    ensures letter { IfSome result (λ _. 0 < letter) }
{
    match letter {
        b'h' | b't' | b'm' | b'y' | b'o' | b'j' => basic_type(letter),
        b'a' | b's' | b'l' | b'x' | b'n' | b'i' => basic_type(letter),
        b'b' | b'c' => basic_type(letter),
        _ => None,
    }
}

// The form of a const of a type, after the type's letter.
fn typed_form<'a>(part: &'a str, letter: u8, at: usize, type_name: &'static str) -> ConstForm<'a>
    requires ascii { IsAscii part.now }
    ensures { const_view result ≡ typed_form part.now letter at (Some type_name.now) }
{
    let bytes = part.as_bytes();
    if byte_at(bytes, at) == b'p' {
        return ConstForm::Placeholder(type_name, at + 1);
    }
    let negative = has_sign(bytes, letter, at);
    match const_value(part, letter, negative, at) {
        Some((value, after)) => ConstForm::Value(type_name, value, after),
        None => ConstForm::Invalid(negative, type_name),
    }
}

// The types of signed integers.
fn is_signed(letter: u8) -> bool
    ensures { result ≡ is_signed letter }
{
    matches!(letter, b'a' | b's' | b'l' | b'x' | b'n' | b'i')
}

// The sign of a signed integer.
#[tactic(auto, unfolding(crate::specs::Forms::has_sign))]
fn has_sign(part: &[u8], letter: u8, at: usize) -> bool
    ensures value { result ≡ has_sign part.now letter at }
    ensures within { IsTrue result → at < length part.now }
{
    is_signed(letter) && byte_at(part, at) == b'n'
}

// `<const-data>`, and the position after it.
#[tactic(auto, unfolding(crate::specs::Forms::const_value))]
fn const_value<'a>(
    part: &'a str,
    letter: u8,
    negative: bool,
    at: usize,
) -> Option<(ConstValue<'a>, usize)>
    requires ascii { IsAscii part.now }
    requires within { IsTrue negative → at < length part.now }
    ensures { option_map (λ v. (value_view v.0, v.1)) result ≡ const_value part.now letter negative at }
{
    let start = if negative { at + 1 } else { at };
    let (digits, after) = hex_digits(part, start)?;
    let value = value_of(letter, negative, digits)?;
    Some((value, after))
}

// Hexadecimal digits, and the position after their `_`.
#[tactic(auto, using(crate::proofs::NumberLemmas::hex_digits_step))]
fn hex_digits<'a>(part: &'a str, at: usize) -> Option<(&'a str, usize)>
    requires ascii { IsAscii part.now }
    ensures { option_map (λ d. (d.0.now, d.1)) result ≡ hex_digits part.now at }
{
    let end = hex_end(part.as_bytes(), at)?;
    Some((ascii_slice(part, at, end), end + 1))
}

// Hexadecimal digits as a value of a type.
#[tactic(auto, unfolding(crate::specs::Forms::value_of))]
fn value_of<'a>(letter: u8, negative: bool, digits: &'a str) -> Option<ConstValue<'a>>
    ensures { option_map value_view result ≡ value_of letter negative digits.now }
{
    match letter {
        b'b' => boolean_of(hex_number(digits.as_bytes())?),
        b'c' => character_of(hex_number(digits.as_bytes())?),
        _ => Some(ConstValue::Integer(negative, digits)),
    }
}

// The boolean of a number.
fn boolean_of<'a>(n: u64) -> Option<ConstValue<'a>>
    ensures { option_map value_view result ≡ boolean_of n }
{
    match n {
        0 => Some(ConstValue::Boolean(false)),
        1 => Some(ConstValue::Boolean(true)),
        _ => None,
    }
}

// The char of a code point.
fn character_of<'a>(n: u64) -> Option<ConstValue<'a>>
    ensures { option_map value_view result ≡ character_of n }
{
    let character = char::from_u32(u32::try_from(n).ok()?)?;
    Some(ConstValue::Character(character))
}
