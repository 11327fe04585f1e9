//! Arguments of the program.

ghost use Rattle.std.specs.Prelude.{◌≡◌, map, IfOk, Some};
ghost use Rattle.std.specs.Option.{option_map};
ghost use Rattle.std.specs.String.{string_bytes};
ghost use Rattle.binfarce_words.specs.Words.{arguments_from, required_text, text_of};
ghost use Rattle.binfarce_words.specs.WordViews.{Gives, argument_view};

use crate::wrong::Wrong;
use std::alloc::{AllocError, Global};
use std::fmt;

/// An argument of the program.
#[derive(Debug, Clone, Copy, PartialEq)]
pub enum Argument<'a> {
    /// A text.
    Text(&'a str),
    /// The argument at this position, from 1 on, isn't UTF-8.
    NotUtf8(usize),
}

impl<'a> Argument<'a> {
    /// Its text, if it has one.
    pub fn text(self) -> Option<&'a str>
        ensures { option_map (λ t. t.now) result ≡ text_of (argument_view self.entry) }
    {
        match self {
            Argument::Text(text) => Some(text),
            Argument::NotUtf8(_) => None,
        }
    }

    // Its text, which it has to have.
    pub(crate) fn required(self) -> Result<&'a str, Wrong<'a>>
        ensures { Gives (λ t. t.now) (required_text (argument_view self.entry)) result }
    {
        match self {
            Argument::Text(text) => Ok(text),
            Argument::NotUtf8(at) => Err(Wrong::NotUtf8(at)),
        }
    }
}

impl<'a> fmt::Display for Argument<'a> {
    ghost use Rattle.binfarce_words.specs.Words.{name_of};

    ghost output = { λ argument. Some (name_of (argument_view argument)) };

    fn fmt<W: fmt::Write>(&self, f: &mut fmt::Formatter<W>) -> fmt::Result {
        match self {
            Argument::Text(text) => write!(f, "{text}"),
            Argument::NotUtf8(at) => write!(f, "argument {at}"),
        }
    }
}

/// The arguments with these texts, in their order. One without a text isn't UTF-8.
///
/// # Errors
///
/// `AllocError` if an allocation fails.
pub fn arguments_of<'a>(
    alloc: Global,
    texts: &'a [Option<String>],
) -> Result<Vec<Argument<'a>>, AllocError>
    ensures { IfOk result (λ v. map argument_view v.items
        ≡ arguments_from 1 (map (option_map string_bytes) texts.entry.now)) }
{
    let mut arguments = Vec::new(alloc);
    for text in texts {
        let at = arguments.len() + 1;
        let argument = match text {
            Some(text) => Argument::Text(text.as_str()),
            None => Argument::NotUtf8(at),
        };
        arguments.push(argument)?;
    }
    Ok(arguments)
}
