//! Options.

ghost use Rattle.std.specs.Prelude.{◌≡◌};
ghost use Rattle.binfarce_words.specs.Words.{form_of, is_named};

use crate::flag::Flag::{
    All, Annotate, As, Bare, Base, By, Dynamic, FailAbove, First, Folded, Full, Help, Id, Json,
    Limits, Maps, NoTotal, Offsets, Percent, Raw, Return, Section, Sort, Std, Undefined,
};
use crate::named::Named;
use crate::takes::Takes;

/// An option of a command.
#[derive(Debug, Clone, Copy, PartialEq)]
pub enum Flag {
    /// Shows help on the command.
    Help,
    /// Names a section of an ELF file.
    Section,
    /// Keeps hashes.
    Full,
    /// Where the file is loaded: of several files once for each.
    Base,
    /// Names a file in the form of `/proc/PID/maps`, which says where the file is loaded.
    Maps,
    /// The file's name or path in maps and in a text: of several files once for each.
    As,
    /// The addresses are offsets in the file.
    Offsets,
    /// The addresses are return addresses.
    Return,
    /// Annotates the addresses in standard input.
    Annotate,
    /// Annotates bare words of hexadecimal digits, too.
    Bare,
    /// Reads the dynamic symbol table of an ELF file.
    Dynamic,
    /// Takes the function symbols of all sections.
    All,
    /// Sorts the lines.
    Sort,
    /// Takes the first lines alone.
    First,
    /// Leaves out the line of the section's size.
    NoTotal,
    /// Shows names as they are stored.
    Raw,
    /// What sizes are summed by.
    By,
    /// Shows shares in per cent.
    Percent,
    /// Joins the crates of Rust's standard library.
    Std,
    /// Writes JSON objects.
    Json,
    /// The most that a sum may be, or may have grown by.
    FailAbove,
    /// Names a file of such limits by row.
    Limits,
    /// Writes stacks.
    Folded,
    /// Writes what says from which build files are.
    Id,
    /// Lists what files need of others.
    Undefined,
}

impl Flag {
    // Its name, its short name if it has one, and what it takes.
    pub(crate) fn form(self) -> (&'static str, &'static str, Takes)
        ensures { (result.0.now, result.1.now, result.2) ≡ form_of self }
    {
        match self {
            Help => ("--help", "-h", Takes::Nothing),
            Section => ("--section", "", Takes::Text),
            Full => ("--full", "", Takes::Nothing),
            Base => ("--base", "", Takes::Page),
            Maps => ("--maps", "", Takes::Text),
            As => ("--as", "", Takes::Text),
            Offsets => ("--offsets", "", Takes::Nothing),
            Return => ("--return", "", Takes::Nothing),
            Annotate => ("--annotate", "", Takes::Nothing),
            Bare => ("--bare", "", Takes::Nothing),
            Dynamic => ("--dynamic", "", Takes::Nothing),
            All => ("--all", "", Takes::Nothing),
            Sort => ("--sort", "", Takes::Order),
            First => ("--first", "-n", Takes::Count),
            NoTotal => ("--no-total", "", Takes::Nothing),
            Raw => ("--raw", "", Takes::Nothing),
            By => ("--by", "", Takes::Key),
            Percent => ("--percent", "", Takes::Nothing),
            Std => ("--std", "", Takes::Nothing),
            Json => ("--json", "", Takes::Nothing),
            FailAbove => ("--fail-above", "", Takes::Limit),
            Limits => ("--limits", "", Takes::Text),
            Folded => ("--folded", "", Takes::Nothing),
            Id => ("--id", "", Takes::Nothing),
            Undefined => ("--undefined", "", Takes::Nothing),
        }
    }

    pub(crate) fn is_named(self, name: &str) -> bool
        ensures { result ≡ is_named name.now self }
    {
        let (long, short, _) = self.form();
        long == name || short == name
    }
}

impl Named for Flag {
    ghost use Rattle.binfarce_words.specs.Words.{flag_name};

    ghost text = { flag_name };

    fn name(self) -> &'static str {
        self.form().0
    }
}
