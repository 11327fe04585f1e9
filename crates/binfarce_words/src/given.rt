//! The options and operands that are given.

ghost use Rattle.std.specs.Prelude.{◌≡◌, find, map, is_some, IfOk, Ok};
ghost use Rattle.std.specs.List.{filter, slice_get};
ghost use Rattle.std.specs.Option.{option_map};
ghost use Rattle.std.specs.Str.{bytes_eq};
ghost use Rattle.binfarce_words.specs.Words.{bad_value, count_given, flag_name, is_by_section, key_given, limit_given, number_given, operand_at, operand_texts, order_given, value_given, values_given, with_operand, with_option};
ghost use Rattle.binfarce_words.specs.WordViews.{Changes, HasNearest, argument_view, given_view, wrong_view};

use crate::argument::Argument;
use crate::flag::Flag;
use crate::flag::Flag::{By, FailAbove, Sort};
use crate::named::Named;
use crate::takes::{Key, Limit, Order, Takes, count_in, key_named, limit_in, order_named};
use crate::wrong::Wrong;
use binfarce_rows::address::parse_address;
use std::alloc::{AllocError, Global};

/// The options and operands of a command.
#[derive(Debug, Drop)]
pub struct Arguments<'a> {
    /// The options in their order, each with its value.
    pub options: Vec<(Flag, &'a str)>,
    /// The arguments that aren't options, nor values of options.
    pub operands: Vec<Argument<'a>>,
}

impl<'a> Arguments<'a> {
    /// Whether the option is given.
    pub fn has(&self, flag: Flag) -> bool
        ensures { result ≡ is_some (value_given flag (given_view self.now)) }
    {
        self.value(flag).is_some()
    }

    /// The option's value, as it was given last.
    pub fn value(&self, flag: Flag) -> Option<&'a str>
        ensures { option_map (λ t. t.now) result ≡ value_given flag (given_view self.now) }
    {
        let name = flag.name();
        let options = self.options.as_slice();
        match options.iter().rev().copied().find(|it| it.0.name() == name) {
            Some((_, value)) => Some(value),
            None => None,
        }
    }

    /// The option's value at a place among those that are given, in their order.
    pub fn value_at(&self, flag: Flag, place: usize) -> Option<&'a str>
        ensures { option_map (λ t. t.now) result ≡ slice_get (values_given flag (given_view self.now)) place }
    {
        match nth_given(self.options.as_slice(), flag.name(), place) {
            Some((_, value)) => Some(value),
            None => None,
        }
    }

    /// The address that is the option's value.
    pub fn address(&self, flag: Flag) -> Option<u64>
        ensures { result ≡ number_given flag (given_view self.now) }
    {
        parse_address(self.value(flag)?.as_bytes())
    }

    /// The number that is the option's value.
    pub fn count(&self, flag: Flag) -> Option<usize>
        ensures { result ≡ count_given flag (given_view self.now) }
    {
        count_in(self.value(flag)?)
    }

    /// The limit that is given.
    pub fn limit(&self) -> Option<Limit>
        ensures { result ≡ limit_given (given_view self.now) }
    {
        limit_in(self.value(FailAbove)?)
    }

    /// Whether the bytes of sections are summed.
    pub fn is_by_section(&self) -> bool
        ensures { result ≡ is_by_section (given_view self.now) }
    {
        matches!(self.value(By), Some("section"))
    }

    /// The order that is asked for.
    pub fn order(&self) -> Option<Order>
        ensures { result ≡ order_given (given_view self.now) }
    {
        order_named(self.value(Sort)?)
    }

    /// The key that sizes are summed by.
    pub fn key(&self) -> Option<Key>
        ensures { result ≡ key_given (given_view self.now) }
    {
        key_named(self.value(By)?)
    }

    /// The text of the operand at this place, from 0 on, if it has one.
    pub fn operand(&self, at: usize) -> Option<&'a str>
        ensures { option_map (λ t. t.now) result ≡ operand_at at (given_view self.now) }
    {
        self.operands.get(at)?.text()
    }

    /// The texts of the operands, in their order.
    ///
    /// # Errors
    ///
    /// `AllocError` if an allocation fails.
    pub fn operand_texts(&self, alloc: Global) -> Result<Vec<&'a str>, AllocError>
        ensures { IfOk result (λ v. map (λ t. t.now) v.items ≡ operand_texts (given_view self.now)) }
    {
        let mut texts = Vec::new(alloc);
        for operand in &self.operands {
            if let Some(text) = operand.text() {
                texts.push(text)?;
            }
        }
        Ok(texts)
    }

    // Takes an option.
    pub(crate) fn set(&mut self, flag: Flag, value: &'a str) -> Result<(), Wrong<'a>>
        ensures { Changes given_view (with_option (given_view self.old) flag value.now) self.new result }
    {
        if !flag.form().2.is_met_by(value) {
            return Err(bad_value(flag, value));
        }
        self.options
            .push((flag, value))
            .map_err(|_| Wrong::OutOfMemory)
    }

    // Takes an operand.
    pub(crate) fn push(&mut self, argument: Argument<'a>) -> Result<(), Wrong<'a>>
        ensures { Changes given_view (Ok (with_operand (given_view self.old) (argument_view argument.entry)))
            self.new result }
    {
        self.operands.push(argument).map_err(|_| Wrong::OutOfMemory)
    }
}

// Why an option doesn't take this value.
fn bad_value<'a>(flag: Flag, value: &'a str) -> Wrong<'a>
    ensures { (wrong_view result ≡ bad_value flag value.entry.now) × HasNearest result }
{
    match flag.form().2 {
        Takes::Page if parse_address(value.as_bytes()).is_none() => Wrong::NoAddress(value),
        _ => Wrong::BadValue(flag, value),
    }
}

// The option at a place among those of this name.
fn nth_given<'a>(options: &[(Flag, &'a str)], name: &str, place: usize) -> Option<(Flag, &'a str)>
    ensures { result ≡ slice_get (filter (λ it. bytes_eq (flag_name it.0) name.now) options.now) place }
{
    let mut left = place;
    for option in options {
        if option.0.name() == name {
            if left == 0 {
                return Some(*option);
            }
            left -= 1;
        }
    }
    None
}
