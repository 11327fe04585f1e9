//! Options and operands, argument after argument.

ghost use Rattle.std.specs.Prelude.{◌≡◌, find, map};
ghost use Rattle.std.specs.Option.{option_map};
ghost use Rattle.binfarce_words.specs.Words.{after_argument, after_short, flag_named, given_of, is_named, is_option, parts_of, unknown_option};
ghost use Rattle.binfarce_words.specs.WordViews.{Gives, Changes, HasNearest, argument_view, given_view, reading_view, wrong_view};

use crate::argument::Argument;
use crate::command::Command;
use crate::flag::Flag;
use crate::given::Arguments;
use crate::named::nearest;
use crate::takes::Takes;
use crate::wrong::Wrong;
use std::alloc::Global;

// The options and operands of a command.
pub(crate) fn read_given<'a>(
    alloc: Global,
    command: Command,
    arguments: &[Argument<'a>],
) -> Result<Arguments<'a>, Wrong<'a>>
    ensures { Gives given_view (given_of command (map argument_view arguments.entry.now)) result }
{
    let mut reading = Reading {
        given: Arguments {
            options: Vec::new(alloc),
            operands: Vec::new(alloc),
        },
        waiting: None,
        are_operands: false,
    };
    for argument in arguments {
        match reading.take(command, *argument) {
            Ok(()) => {}
            Err(e) => return Err(e),
        }
    }
    match reading.waiting {
        None => Ok(reading.given),
        Some(flag) => Err(Wrong::NoValue(flag)),
    }
}

// Arguments that were read up to here.
#[derive(Drop)]
struct Reading<'a> {
    given: Arguments<'a>,
    // The option whose value comes next.
    waiting: Option<Flag>,
    // `--` came: all further arguments are operands.
    are_operands: bool,
}

impl<'a> Reading<'a> {
    // Takes the next argument.
    #[tactic(auto, unfolding(crate::specs::Words::after_word))]
    fn take(&mut self, command: Command, argument: Argument<'a>) -> Result<(), Wrong<'a>>
        ensures { Changes reading_view (after_argument command (reading_view self.old)
            (argument_view argument.entry)) self.new result }
    {
        let word = match (argument, self.waiting) {
            (Argument::Text(word), _) => word,
            (Argument::NotUtf8(at), Some(_)) => return Err(Wrong::NotUtf8(at)),
            (Argument::NotUtf8(_), None) => return self.given.push(argument),
        };
        if let Some(flag) = self.waiting {
            self.waiting = None;
            return self.given.set(flag, word);
        }
        if self.are_operands || !is_option(word) {
            return self.given.push(argument);
        }
        if word == "--" {
            self.are_operands = true;
            return Ok(());
        }
        let (name, value) = parts_of(word);
        let flag = flag_named(command, word, name)?;
        match (flag.form().2, value) {
            (Takes::Nothing, None) => self.given.set(flag, ""),
            (Takes::Nothing, Some(_)) => Err(unknown_option(command, word)),
            (_, Some(value)) => self.given.set(flag, value),
            (_, None) => {
                self.waiting = Some(flag);
                Ok(())
            }
        }
    }
}

// The option of the command that is written with this name.
fn flag_named<'a>(command: Command, word: &'a str, name: &str) -> Result<Flag, Wrong<'a>>
    ensures { Gives (λ flag. flag) (flag_named command word.entry.now name.now) result }
{
    find_flag(command.flags(), name).ok_or_else(|| unknown_option(command, word))
}

// The first of these options that is written with this name.
fn find_flag(flags: &[Flag], name: &str) -> Option<Flag>
    ensures { result ≡ find (is_named name.now) flags.now }
{
    flags.iter().copied().find(|flag| flag.is_named(name))
}

fn unknown_option<'a>(command: Command, word: &'a str) -> Wrong<'a>
    ensures { (wrong_view result ≡ unknown_option command word.entry.now) × HasNearest result }
{
    Wrong::UnknownOption(command, word, nearest(command.flags(), word, 2))
}

// Whether the word begins with `-`, and has more.
fn is_option(word: &str) -> bool
    ensures { result ≡ is_option word.now }
{
    matches!(word.as_bytes(), [b'-', _, ..])
}

// The option and the value of a word: `-n3`; the parts before and after its first `=`; or the word alone.
fn parts_of(word: &str) -> (&str, Option<&str>)
    ensures { (result.0.now, option_map (λ t. t.now) result.1) ≡ parts_of word.entry.now }
{
    if let Some(value) = after_short(word) {
        return ("-n", Some(value));
    }
    match word.split_once('=') {
        Some((name, value)) => (name, Some(value)),
        None => (word, None),
    }
}

// The value directly after `-n`.
fn after_short(word: &str) -> Option<&str>
    ensures { option_map (λ t. t.now) result ≡ after_short word.entry.now }
{
    match word.strip_prefix("-n") {
        Some(value) if !value.is_empty() && !value.starts_with('=') => Some(value),
        _ => None,
    }
}
