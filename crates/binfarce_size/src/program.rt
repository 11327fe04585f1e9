//! The program, over any reader and any writer.

ghost use Rattle.std.specs.Prelude.{◌≡◌, ◌⊎◌, ℕ, List, [], true, map, Some, None, MatchResult, IfSome};
ghost use Rattle.std.specs.String.{string_bytes};
ghost use Rattle.binfarce_tools.specs.Given.{words_of};
ghost use Rattle.binfarce_tools.specs.SectionAnswer.{readers_answer, NeedsMemory, IsReportOf, ReportFits};
ghost use Rattle.binfarce_tools.specs.Sink.{writer_of, has_failed};
ghost use Rattle.binfarce_tools.specs.Status.{status_of};
ghost use Rattle.binfarce_tools.specs.Writing.{ProgramEndsAs, Takes, Fails, Leaves};
ghost use Rattle.binfarce_size.specs.Program.{outcome_of, is_usage};
ghost use Rattle.binfarce_size.specs.declared.program.Fault.TheVariants.{Usage};

use binfarce_bytes::source::Source;
use binfarce_tools::list::Out;
use binfarce_tools::program::{
    Contents, Failure, contents_at, file_and_section, is_read_at_offsets, read_whole,
};
use binfarce_tools::report::{ReportError, report, report_tables};
use std::alloc::Global;
use std::io::{Read, Write};
use thiserror::Error;

/// Why the program did not report on a file. Its text is the printed line.
#[derive(Debug, Drop, Error)]
pub enum Fault {
    /// The arguments aren't a file and perhaps a section.
    #[error("usage: binfarce-size FILE [SECTION]")]
    Usage,
    /// The file can't be opened or read.
    #[error("binfarce-size: cannot read file")]
    File,
    /// No report of the file was made.
    #[error("binfarce-size: {0}")]
    Report(ReportError),
}

impl From<Failure> for Fault {
    ghost use Rattle.binfarce_size.specs.Program.{fault_of};

    ghost from_gives = { λ e f. f ≡ fault_of e };

    fn from(e: Failure) -> Self {
        match e {
            Failure::Usage => Fault::Usage,
            Failure::File => Fault::File,
            Failure::Refused(e) => Fault::Report(ReportError::Parse(e)),
            Failure::OutOfMemory => Fault::Report(ReportError::OutOfMemory),
            Failure::Write => Fault::Report(ReportError::Write),
        }
    }
}

impl binfarce_tools::program::Fault for Fault {
    ghost use Rattle.binfarce_size.specs.Program.{is_usage};

    ghost is_usage = { is_usage };

    fn status(&self) -> u8 {
        status(self)
    }
}

/// The file and the section in the arguments after the program's own name. The section is by default `.text`.
///
/// `Usage` for none, and for more than two.
pub fn words(arguments: &[String]) -> Result<(&str, &str), Fault>
    ensures { let given = words_of (map string_bytes arguments.now) in MatchResult result
        (λ w. given ≡ Some (w.0.now, w.1.now)) (λ e. (given ≡ None) × (e ≡ Usage)) }
{
    Ok(file_and_section(arguments)?)
}

/// Reads a file to its end, and reports how much of its section each crate takes.
///
/// `File` if it can't be read; `Report` if an allocation fails while it is read, and as `report` refuses.
pub fn run<R: Read, W: Write>(
    alloc: Global,
    file: &mut R,
    section: &str,
    out: &mut Out<W>,
) -> Result<(), Fault>
    ensures outcome { IfSome (R.remaining file.old) (λ bytes. ProgramEndsAs (Unit {0}) ReportFits
        (NeedsMemory bytes) (readers_answer bytes section.now) (outcome_of result)) }
    ensures takes { IfSome (R.remaining file.old) (λ bytes. Takes IsReportOf (readers_answer bytes section.now)
        (W.contents (writer_of out.old)) (W.contents (writer_of out.new)) (outcome_of result)) }
    ensures fails { Fails (has_failed out.old) (has_failed out.new) (outcome_of result) }
    ensures leaves { Leaves out.old out.new (outcome_of result) }
{
    let bytes = read_whole(alloc, file)?;
    report(alloc, &bytes, section, out).map_err(Fault::Report)
}

/// As `run`, but of an ELF file that can be read at offsets only the headers, the symbol table and the names are read.
pub fn run_file<F: Read + Source<Log = ()>, W: Write>(
    alloc: Global,
    file: &mut F,
    section: &str,
    out: &mut Out<W>,
) -> Result<(), Fault>
    ensures outcome { (bytes : List ℕ) → F.bytes file.old ≡ Some bytes → F.remaining file.old ≡ Some bytes
        → ProgramEndsAs ((F.may_fail file.old ≡ true) ⊎ (bytes ≡ [])) ReportFits (NeedsMemory bytes)
        (readers_answer bytes section.now) (outcome_of result) }
    ensures takes { (bytes : List ℕ) → F.bytes file.old ≡ Some bytes → F.remaining file.old ≡ Some bytes
        → Takes IsReportOf (readers_answer bytes section.now)
        (W.contents (writer_of out.old)) (W.contents (writer_of out.new)) (outcome_of result) }
    ensures fails { Fails (has_failed out.old) (has_failed out.new) (outcome_of result) }
    ensures leaves { Leaves out.old out.new (outcome_of result) }
{
    if !is_read_at_offsets(file) {
        return run(alloc, file, section, out);
    }
    match contents_at(alloc, file, section)? {
        Contents::Tables(tables) => report_tables(alloc, &tables, out).map_err(Fault::Report),
        Contents::Whole(bytes) => report(alloc, &bytes, section, out).map_err(Fault::Report),
    }
}

/// The program's exit status: 2 for wrong arguments, and 1 for any other fault.
pub fn status(fault: &Fault) -> u8
    ensures { result ≡ status_of (is_usage fault.now) }
{
    match fault {
        Fault::Usage => 2,
        _ => 1,
    }
}
