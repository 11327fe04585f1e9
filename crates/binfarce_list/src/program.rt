//! The program, over any reader and any writer.

ghost use Rattle.std.specs.Prelude.{◌≡◌, ◌⊎◌, ℕ, List, [], true, map, Some, None, MatchResult, IfSome};
ghost use Rattle.std.specs.String.{string_bytes};
ghost use Rattle.binfarce_tools.specs.Listing.{ListingFits};
ghost use Rattle.binfarce_tools.specs.Given.{words_of};
ghost use Rattle.binfarce_tools.specs.SectionAnswer.{readers_answer, NeedsMemory, IsListingOf};
ghost use Rattle.binfarce_tools.specs.Sink.{writer_of, has_failed};
ghost use Rattle.binfarce_tools.specs.Status.{status_of};
ghost use Rattle.binfarce_tools.specs.Writing.{ProgramEndsAs, Takes, Fails, Leaves};
ghost use Rattle.binfarce_list.specs.Program.{outcome_of, is_usage};
ghost use Rattle.binfarce_list.specs.declared.program.Fault.TheVariants.{Usage};

use binfarce_bytes::source::Source;
use binfarce_tools::list::{ListError, Out, list, list_tables};
use binfarce_tools::program::{
    Contents, Failure, contents_at, file_and_section, is_read_at_offsets, read_whole,
};
use std::alloc::Global;
use std::io::{Read, Write};
use thiserror::Error;

/// Why the program did not list a file. Its text is the printed line.
#[derive(Debug, Drop, Error)]
pub enum Fault {
    /// The arguments aren't a file and perhaps a section.
    #[error("usage: binfarce-list FILE [SECTION]")]
    Usage,
    /// The file can't be opened or read.
    #[error("binfarce-list: cannot read file")]
    File,
    /// The file was not listed.
    #[error("binfarce-list: {0}")]
    List(ListError),
}

impl From<Failure> for Fault {
    ghost use Rattle.binfarce_list.specs.Program.{fault_of};

    ghost from_gives = { λ e f. f ≡ fault_of e };

    fn from(e: Failure) -> Self {
        match e {
            Failure::Usage => Fault::Usage,
            Failure::File => Fault::File,
            Failure::Refused(e) => Fault::List(ListError::Parse(e)),
            Failure::OutOfMemory => Fault::List(ListError::OutOfMemory),
            Failure::Write => Fault::List(ListError::Write),
        }
    }
}

impl binfarce_tools::program::Fault for Fault {
    ghost use Rattle.binfarce_list.specs.Program.{is_usage};

    ghost is_usage = { is_usage };

    fn status(&self) -> u8 {
        status(self)
    }
}

/// The file and the section in the arguments after the program's own name. The section is by default `.text`.
///
/// `Usage` for none, and for more than two.
pub fn words(arguments: &[String]) -> Result<(&str, &str), Fault>
    ensures { let given = words_of (map string_bytes arguments.now) in MatchResult result
        (λ w. given ≡ Some (w.0.now, w.1.now)) (λ e. (given ≡ None) × (e ≡ Usage)) }
{
    Ok(file_and_section(arguments)?)
}

/// Reads a file to its end, and lists the function symbols of its section.
///
/// `File` if it can't be read; `List` if an allocation fails while it is read, and as `list` refuses.
pub fn run<R: Read, W: Write>(
    alloc: Global,
    file: &mut R,
    section: &str,
    out: &mut Out<W>,
) -> Result<(), Fault>
    ensures outcome { IfSome (R.remaining file.old) (λ bytes. ProgramEndsAs (Unit {0}) ListingFits
        (NeedsMemory bytes) (readers_answer bytes section.now) (outcome_of result)) }
    ensures takes { IfSome (R.remaining file.old) (λ bytes. Takes IsListingOf (readers_answer bytes section.now)
        (W.contents (writer_of out.old)) (W.contents (writer_of out.new)) (outcome_of result)) }
    ensures fails { Fails (has_failed out.old) (has_failed out.new) (outcome_of result) }
    ensures leaves { Leaves out.old out.new (outcome_of result) }
{
    let bytes = read_whole(alloc, file)?;
    list(alloc, &bytes, section, out).map_err(Fault::List)
}

/// As `run`, but of an ELF file that can be read at offsets only the headers, the symbol table and the names are read.
pub fn run_file<F: Read + Source<Log = ()>, W: Write>(
    alloc: Global,
    file: &mut F,
    section: &str,
    out: &mut Out<W>,
) -> Result<(), Fault>
    ensures outcome { (bytes : List ℕ) → F.bytes file.old ≡ Some bytes → F.remaining file.old ≡ Some bytes
        → ProgramEndsAs ((F.may_fail file.old ≡ true) ⊎ (bytes ≡ [])) ListingFits (NeedsMemory bytes)
        (readers_answer bytes section.now) (outcome_of result) }
    ensures takes { (bytes : List ℕ) → F.bytes file.old ≡ Some bytes → F.remaining file.old ≡ Some bytes
        → Takes IsListingOf (readers_answer bytes section.now)
        (W.contents (writer_of out.old)) (W.contents (writer_of out.new)) (outcome_of result) }
    ensures fails { Fails (has_failed out.old) (has_failed out.new) (outcome_of result) }
    ensures leaves { Leaves out.old out.new (outcome_of result) }
{
    if !is_read_at_offsets(file) {
        return run(alloc, file, section, out);
    }
    match contents_at(alloc, file, section)? {
        Contents::Tables(tables) => list_tables(alloc, &tables, out).map_err(Fault::List),
        Contents::Whole(bytes) => list(alloc, &bytes, section, out).map_err(Fault::List),
    }
}

/// The program's exit status: 2 for wrong arguments, and 1 for any other fault.
pub fn status(fault: &Fault) -> u8
    ensures { result ≡ status_of (is_usage fault.now) }
{
    match fault {
        Fault::Usage => 2,
        _ => 1,
    }
}
