//! Why a call is wrong.

ghost use Rattle.std.specs.Prelude.{Some};

use crate::command::Command;
use crate::flag::Flag;
use crate::named::Named;
use std::fmt;

/// Why a call is wrong.
#[derive(Debug, Clone, Copy, PartialEq)]
pub enum Wrong<'a> {
    /// There is no command.
    NoCommand,
    /// No command has this name; the nearest one, if one is near.
    UnknownCommand(&'a str, Option<Command>),
    /// The command has no such option; the nearest one, if one is near.
    UnknownOption(Command, &'a str, Option<Flag>),
    /// The option has no value.
    NoValue(Flag),
    /// Two options that exclude each other.
    Exclusive(Flag, Flag),
    /// The first option needs the second.
    Needs(Flag, Flag),
    /// The option is given otherwise than once for each of the files.
    NotEach(Flag),
    /// The word isn't an address.
    NoAddress(&'a str),
    /// The file at this path has no line that is a mapping.
    NotMaps(&'a str),
    /// The option doesn't take this value.
    BadValue(Flag, &'a str),
    /// The option is for function symbols, and sections are summed.
    OnlyFunctions(Flag),
    /// The limit is one on growth, and files aren't compared.
    OnlyGrowth(&'a str),
    /// The command has no file.
    NoFile(Command),
    /// The command has one file, and compares two.
    NoSecondFile,
    /// A word more than the command takes.
    TooMany(&'a str),
    /// The bytes of a section can't be written as JSON.
    BytesAsJson,
    /// The argument at this position isn't UTF-8.
    NotUtf8(usize),
    /// An allocation failed.
    OutOfMemory,
}

impl<'a> fmt::Display for Wrong<'a> {
    ghost use Rattle.binfarce_words.specs.WordViews.{wrong_words};

    ghost output = { λ e. Some (wrong_words e) };

    fn fmt<W: fmt::Write>(&self, f: &mut fmt::Formatter<W>) -> fmt::Result {
        match self {
            Wrong::NoCommand => write!(f, "no command; binfarce --help shows them"),
            Wrong::UnknownCommand(word, near) => match near {
                None => write!(f, "no command {word}; binfarce --help shows them"),
                Some(near) => {
                    let name = near.name();
                    write!(f, "no command {word}; the nearest is {name}")
                }
            },
            Wrong::UnknownOption(command, word, near) => {
                let name = command.name();
                match near {
                    None => write!(
                        f,
                        "no option {word} of {name}; binfarce {name} --help shows them"
                    ),
                    Some(near) => {
                        let option = near.name();
                        write!(f, "no option {word} of {name}; the nearest is {option}")
                    }
                }
            }
            Wrong::NoValue(flag) => {
                let name = flag.name();
                write!(f, "{name} has no value")
            }
            Wrong::Exclusive(one, other) => {
                let first = one.name();
                let second = other.name();
                write!(f, "{first} and {second} exclude each other")
            }
            Wrong::Needs(one, other) => {
                let first = one.name();
                let second = other.name();
                write!(f, "{first} needs {second}")
            }
            Wrong::NotEach(flag) => {
                let name = flag.name();
                write!(
                    f,
                    "{name} comes once for each file, in their order, or not at all"
                )
            }
            Wrong::NoAddress(word) => write!(f, "not an address: {word}"),
            Wrong::NotMaps(path) => write!(f, "no line of {path} is one of /proc/PID/maps"),
            Wrong::BadValue(flag, word) => {
                let name = flag.name();
                let taken = flag.form().2.values();
                write!(f, "{name} takes {taken}, and not {word}")
            }
            Wrong::OnlyFunctions(flag) => {
                let name = flag.name();
                write!(
                    f,
                    "{name} goes with --by=function-section, and not with --by=section"
                )
            }
            Wrong::OnlyGrowth(word) => write!(
                f,
                "--fail-above={word} is for diff; size takes a number of bytes"
            ),
            Wrong::NoFile(command) => {
                let name = command.name();
                write!(f, "no file; binfarce {name} --help shows how it is called")
            }
            Wrong::NoSecondFile => write!(f, "diff compares two files, and has one"),
            Wrong::TooMany(word) => write!(f, "one argument too many: {word}"),
            Wrong::BytesAsJson => write!(
                f,
                "--json lists sections, and has no form for the bytes of one"
            ),
            Wrong::NotUtf8(at) => write!(f, "argument {at} is not UTF-8"),
            Wrong::OutOfMemory => write!(f, "out of memory"),
        }
    }
}
