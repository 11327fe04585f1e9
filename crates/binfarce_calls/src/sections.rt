//! The sections of files: what is asked for of those of one, and how many bytes those of several have.

ghost use Rattle.std.specs.Prelude.{◌≡◌, ℕ, Bool, List, None, Some, length, map, nat_lt, true};
ghost use Rattle.binfarce_rows.specs.Json.{style_of};
ghost use Rattle.binfarce_jobs.specs.Files.{AreHeld, IsHeld, asked_files, state_of};
ghost use Rattle.binfarce_foreign.specs.Foreign.{foreign_in};
ghost use Rattle.binfarce_io.specs.Input.{IsReadOf};
ghost use Rattle.binfarce_io.specs.Output.{pending, taken, writer_of};
ghost use Rattle.binfarce_limits.specs.Rows.{limit_view};
ghost use Rattle.binfarce_words.specs.WordViews.{argument_view};
ghost use Rattle.binfarce_calls.specs.Sections.{InTurn, ShowsAsked, SumsArgument, SumsOne, style_at};
ghost use Rattle.binfarce_calls.specs.machine.Steps.{SumsSource};

use crate::limits::section_rows;
use binfarce_bytes::source::Source;
use binfarce_io::fault::Fault;
use binfarce_io::output::Output;
use binfarce_jobs::files::{System, give, give_rows, heading, open_input, refuse, refuse_argument};
use binfarce_jobs::limit::{Verdict, above, exceeds};
use binfarce_jobs::section::{Asked, write_sections};
use binfarce_jobs::show::Request;
use binfarce_limits::rows::{Finding, RowLimit};
use binfarce_rows::json::Form;
use binfarce_sections::sums::{SectionSums, sum_sections};
use binfarce_sections::tables::read;
use binfarce_words::argument::Argument;
use std::alloc::Global;
use std::io::{Read, Write};

/// Writes what is asked for of the sections of the file at this path, or reports why it is refused.
///
/// # Errors
///
/// `Write` if a write fails.
pub fn show_section<F: Read + Source<Log = ()> + Drop, Y: System<F>, W: Write>(
    alloc: Global,
    system: &mut Y,
    path: &str,
    asked: Asked<'_>,
    form: Form<'_>,
    out: &mut Output<W>,
) -> Result<Verdict, Fault>
    ensures { (file : List ℕ) → Y.bytes_at system.old path.now ≡ Some file
        → ShowsAsked asked.entry (style_of form.entry) path.now (Y.may_fail_at system.old path.now) file
        (state_of W.contents out.old (Y.reports system.old) (Y.hints system.old))
        (state_of W.contents out.new (Y.reports system.new) (Y.hints system.new)) result }
{
    let Some(input) = open_input(alloc, system, path) else {
        return Ok(Verdict::refused());
    };
    // No heading precedes the text.
    out.begin(Vec::new(alloc));
    let written = write_sections(alloc, &input, asked, form, out);
    out.end()?;
    match written {
        Ok(()) => Ok(Verdict::done()),
        Err(e) => refuse(alloc, system, path, &input, Fault::from(e)),
    }
}

/// Writes how many bytes of the file at each path its sections have, in order. Of several arguments, each file is under a
/// line with its path. A file that is refused, and an argument that isn't UTF-8, is reported, and the others follow. A
/// length that exceeds the limit is reported, too.
///
/// # Errors
///
/// `Write` if a write fails, and `OutOfMemory` if an allocation for a heading, or for the name of an argument that
/// isn't UTF-8, fails.
pub fn sum_files<F: Read + Source<Log = ()> + Drop, Y: System<F>, W: Write>(
    alloc: Global,
    system: &mut Y,
    asked: &Request<'_>,
    first: Option<usize>,
    files: &[Argument<'_>],
    out: &mut Output<W>,
) -> Result<Verdict, Fault>
    ensures { (held : List ℕ → List ℕ) → AreHeld (Y.bytes_at system.old) held (map argument_view files.now)
        → InTurn
        (SumsArgument first (asked_files asked.now (nat_lt 1 (length files.now)) (Y.may_fail_at system.old) held))
        (map argument_view files.now)
        (state_of W.contents out.old (Y.reports system.old) (Y.hints system.old))
        (state_of W.contents out.new (Y.reports system.new) (Y.hints system.new)) result }
{
    let are_several = files.len() > 1;
    let mut all = Verdict::done();
    for argument in files {
        let summed = sum_argument(alloc, system, asked, first, argument, are_several, out)?;
        all = all.and_then(summed);
    }
    Ok(all)
}

// Writes how many bytes of the file at a path its sections have, or reports why it, or the argument, is refused.
fn sum_argument<F: Read + Source<Log = ()> + Drop, Y: System<F>, W: Write>(
    alloc: Global,
    system: &mut Y,
    asked: &Request<'_>,
    first: Option<usize>,
    argument: &Argument<'_>,
    are_several: bool,
    out: &mut Output<W>,
) -> Result<Verdict, Fault>
    ensures sums { (held : List ℕ → List ℕ) → IsHeld (Y.bytes_at system.old) held (argument_view argument.now)
        → SumsArgument first (asked_files asked.now are_several (Y.may_fail_at system.old) held)
        (argument_view argument.now)
        (state_of W.contents out.old (Y.reports system.old) (Y.hints system.old))
        (state_of W.contents out.new (Y.reports system.new) (Y.hints system.new)) result }
    ensures bytes { Y.bytes_at system.new ≡ Y.bytes_at system.old }
    ensures may_fail { Y.may_fail_at system.new ≡ Y.may_fail_at system.old }
{
    match argument {
        Argument::Text(path) => sum_file(alloc, system, asked, first, path, are_several, out),
        Argument::NotUtf8(at) => refuse_argument(alloc, system, *at),
    }
}

// Writes how many bytes of a file its sections have, under its heading, or reports why it is refused.
fn sum_file<F: Read + Source<Log = ()> + Drop, Y: System<F>, W: Write>(
    alloc: Global,
    system: &mut Y,
    asked: &Request<'_>,
    first: Option<usize>,
    path: &str,
    are_several: bool,
    out: &mut Output<W>,
) -> Result<Verdict, Fault>
    ensures sums { (held : List ℕ → List ℕ) → Y.bytes_at system.old path.now ≡ Some (held path.now)
        → SumsOne first (asked_files asked.now are_several (Y.may_fail_at system.old) held) path.now
        (state_of W.contents out.old (Y.reports system.old) (Y.hints system.old))
        (state_of W.contents out.new (Y.reports system.new) (Y.hints system.new)) result }
    ensures bytes { Y.bytes_at system.new ≡ Y.bytes_at system.old }
    ensures may_fail { Y.may_fail_at system.new ≡ Y.may_fail_at system.old }
{
    out.begin(heading(alloc, path, are_several)?);
    let Some(input) = open_input(alloc, system, path) else {
        return Ok(Verdict::refused());
    };
    let form = form_at(asked, path);
    match sum_source(alloc, &input, first, asked.limits, form, out) {
        Ok(summed) => {
            let excess = above(summed.length, asked.limit);
            let is_above = exceeds(&excess, &summed.rows);
            give(system, path, excess);
            give_rows(system, path, summed.rows);
            Ok(Verdict {
                is_done: true,
                is_above,
            })
        }
        Err(fault) => refuse(alloc, system, path, &input, fault),
    }
}

// The form in which the sums of the file at this path are written.
fn form_at<'a>(asked: &Request<'a>, path: &'a str) -> Form<'a>
    ensures { style_of result ≡ style_at asked.entry.now path.entry.now }
{
    if asked.is_json {
        Form::Objects(path, "")
    } else {
        Form::Lines
    }
}

// A file that is summed: its length, and which of its rows are above their limits.
#[derive(Drop)]
struct FileRows {
    length: u64,
    rows: Vec<Finding>,
}

// Writes how many bytes of a source its sections have, after what is left of the heading.
fn sum_source<S: Source<Log = ()>, W: Write>(
    alloc: Global,
    source: &S,
    first: Option<usize>,
    limits: &[RowLimit<'_>],
    form: Form<'_>,
    out: &mut Output<W>,
) -> Result<FileRows, Fault>
    ensures { (file part : List ℕ) (may_fail : Bool) → S.bytes source.now ≡ Some part → IsReadOf file part
        → foreign_in file ≡ None → (S.may_fail source.now ≡ true → may_fail ≡ true)
        → SumsSource (style_of form.entry) first (map limit_view limits.now) may_fail file (pending out.old)
        (W.contents (writer_of out.old)) (W.contents (writer_of out.new)) (taken W.contents out.new) result }
{
    let tables = read(alloc, source, &mut ())?;
    let sums = SectionSums::of_tables(alloc, &tables)?;
    let rows = section_rows(alloc, limits, &sums)?;
    sum_sections(alloc, &sums, first, form, out)?;
    out.end()?;
    let length = sums.file_length();
    Ok(FileRows { length, rows })
}
