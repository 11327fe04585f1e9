//! Runs a command on files, one after the other.

ghost use Rattle.std.specs.Prelude.{◌≡◌, ◌⊎◌, [], ◌∷◌, ℕ, Bool, List, true, Option, Some, None, map, nat_lt, length, IfErr, IfOk, IfSome, MatchOption};
ghost use Rattle.binfarce_io.specs.Faults.{is_of_file};
ghost use Rattle.binfarce_jobs.specs.Files.{Grows, Hinted, HintsFault, Refused, RefusesArgument, Reports, ReportsFault, AreHeld, IsHeld, asked_files, ShowsAll, ShowsSource, ShowsOne, heading, hinted, state_of};
ghost use Rattle.binfarce_jobs.specs.Hints.{all_words, hint_words, words_of};
ghost use Rattle.binfarce_io.specs.Output.{pending, taken, writer_of};
ghost use Rattle.binfarce_foreign.specs.Foreign.{foreign_in};
ghost use Rattle.binfarce_io.specs.Input.{IsForeign, IsReadOf, IsUnreadable, bytes_of, may_fail_of};
ghost use Rattle.binfarce_limits.specs.Rows.{finding_words};
ghost use Rattle.binfarce_words.specs.WordViews.{argument_view};

use crate::hint::{Hint, Hints, hints_on, refusal_hints};
use crate::limit::{Verdict, exceeds};
use crate::show::{Request, Seen, show};
use binfarce_bytes::source::Source;
use binfarce_io::fault::Fault;
use binfarce_io::input::OpenFile;
use binfarce_io::message::push_escaped;
use binfarce_io::output::Output;
use binfarce_limits::rows::Finding;
use binfarce_sections::error::SectionError;
use binfarce_words::argument::Argument;
use std::alloc::{AllocError, Global};
use std::io::{self, Error, Read, Write};

/// The system around a command: opened files, and messages.
pub trait System<F: Read + Source<Log = ()>> {
    // The bytes of the file at a path, where they are known.
    ghost bytes_at: { Self → List ℕ → Option (List ℕ) } = { λ _ _. None };

    // The file at a path may fail to be opened or read.
    ghost may_fail_at: { Self → List ℕ → Bool } = { λ _ _. true };

    // What was reported so far, if that is known.
    ghost reports: { Self → Option (List Refused) } = { λ _. None };

    // The hints that were given so far, where they are known.
    ghost hints: { Self → Option (List Hinted) } = { λ _. None };

    /// The file at this path, to be read.
    fn open(&self, path: &str) -> io::Result<F>
        ensures bytes { IfOk result (λ f. IfSome (bytes_at self.now path.now)
            (λ bytes. (F.bytes f ≡ Some bytes) × (F.remaining f ≡ Some bytes))) }
        ensures may_fail { IfOk result (λ f. F.may_fail f ≡ true → may_fail_at self.now path.now ≡ true) }
        ensures failed { IfErr result (λ _. may_fail_at self.now path.now ≡ true) };

    /// Reports why the file at this path is refused. `reason` is the system's, if a read failed.
    fn report(&mut self, path: &str, fault: Fault, reason: Option<Error>)
        ensures reports { Reports (reports self.old) (reports self.new) ((path.now, fault) ∷ []) }
        ensures hints { hints self.new ≡ hints self.old }
        ensures bytes { bytes_at self.new ≡ bytes_at self.old }
        ensures may_fail { may_fail_at self.new ≡ may_fail_at self.old };

    /// Gives a hint on the file at this path.
    fn hint(&mut self, path: &str, hint: Hint)
        ensures hints { Grows (hints self.old) (hints self.new) ((path.now, hint_words hint) ∷ []) }
        ensures reports { reports self.new ≡ reports self.old }
        ensures bytes { bytes_at self.new ≡ bytes_at self.old }
        ensures may_fail { may_fail_at self.new ≡ may_fail_at self.old };
}

/// Shows the file at each path, in order. If there are several arguments, each file is shown under a line with its path.
/// A file that is refused, and an argument that isn't UTF-8, is reported, and the others follow. The hints on each file
/// come after what is written or reported of it; one says that a sum exceeds its limit.
///
/// # Errors
///
/// `Write` if a write fails, and `OutOfMemory` if an allocation for a heading, or for the name of an argument that
/// isn't UTF-8, fails.
pub fn show_files<F: Read + Source<Log = ()> + Drop, Y: System<F>, W: Write>(
    alloc: Global,
    system: &mut Y,
    asked: &Request<'_>,
    files: &[Argument<'_>],
    out: &mut Output<W>,
) -> Result<Verdict, Fault>
    ensures { (held : List ℕ → List ℕ) → AreHeld (Y.bytes_at system.old) held (map argument_view files.now)
        → ShowsAll
        (asked_files asked.now (nat_lt 1 (length files.now)) (Y.may_fail_at system.old) held)
        (map argument_view files.now)
        (state_of W.contents out.old (Y.reports system.old) (Y.hints system.old))
        (state_of W.contents out.new (Y.reports system.new) (Y.hints system.new)) result }
{
    let are_several = files.len() > 1;
    let mut all = Verdict::done();
    for argument in files {
        let shown = show_file(alloc, system, asked, argument, are_several, out)?;
        all = all.and_then(shown);
    }
    Ok(all)
}

/// Reports that the argument at this position isn't UTF-8, which names no file.
///
/// # Errors
///
/// `OutOfMemory` if an allocation for its name fails.
pub fn refuse_argument<F: Read + Source<Log = ()>, Y: System<F>>(
    alloc: Global,
    system: &mut Y,
    at: usize,
) -> Result<Verdict, Fault>
    ensures reports { RefusesArgument at (Y.reports system.old) (Y.reports system.new) result }
    ensures hints { Y.hints system.new ≡ Y.hints system.old }
    ensures bytes { Y.bytes_at system.new ≡ Y.bytes_at system.old }
    ensures may_fail { Y.may_fail_at system.new ≡ Y.may_fail_at system.old }
{
    let argument = Argument::NotUtf8(at);
    let name = format!(in alloc; "{argument}")?;
    system.report(name.as_str(), Fault::NotUtf8, None);
    let verdict = Verdict::refused();
    Ok(verdict)
}

// Shows the file at a path, under its heading, or reports why it, or the argument, is refused.
fn show_file<F: Read + Source<Log = ()> + Drop, Y: System<F>, W: Write>(
    alloc: Global,
    system: &mut Y,
    asked: &Request<'_>,
    argument: &Argument<'_>,
    are_several: bool,
    out: &mut Output<W>,
) -> Result<Verdict, Fault>
    ensures shows { (held : List ℕ → List ℕ) → IsHeld (Y.bytes_at system.old) held (argument_view argument.now)
        → ShowsOne (asked_files asked.now are_several (Y.may_fail_at system.old) held) (argument_view argument.now)
        (state_of W.contents out.old (Y.reports system.old) (Y.hints system.old))
        (state_of W.contents out.new (Y.reports system.new) (Y.hints system.new)) result }
    ensures bytes { Y.bytes_at system.new ≡ Y.bytes_at system.old }
    ensures may_fail { Y.may_fail_at system.new ≡ Y.may_fail_at system.old }
{
    let path = match argument {
        Argument::Text(path) => *path,
        Argument::NotUtf8(at) => return refuse_argument(alloc, system, *at),
    };
    out.begin(heading(alloc, path, are_several)?);
    let Some(input) = open_input(alloc, system, path) else {
        return Ok(Verdict::refused());
    };
    match show_source(alloc, asked, path, &input, out) {
        Ok(seen) => {
            let hints = hints_on(alloc, &input, asked, seen);
            let is_above = exceeds(&hints.excess, &hints.rows);
            give_all(system, path, hints);
            Ok(Verdict {
                is_done: true,
                is_above,
            })
        }
        Err(fault) => refuse(alloc, system, path, &input, fault),
    }
}

/// What precedes a file's text: of several files, its name in a line, with its control characters escaped as in messages.
///
/// # Errors
///
/// `AllocError` if an allocation fails.
pub fn heading(alloc: Global, path: &str, are_several: bool) -> Result<Vec<u8>, AllocError>
    ensures { IfOk result (λ v. v.items ≡ heading are_several path.now) }
{
    if !are_several {
        return Ok(Vec::new(alloc));
    }
    let mut text = String::from_str(alloc, "\n")?;
    push_escaped(&mut text, path)?;
    text.push_str(":\n")?;
    Vec::from_slice(alloc, text.as_bytes())
}

// Shows the source after what is left of the heading, which is written also if the text is empty.
fn show_source<S: Source<Log = ()>, W: Write>(
    alloc: Global,
    asked: &Request<'_>,
    path: &str,
    source: &S,
    out: &mut Output<W>,
) -> Result<Seen, Fault>
    ensures { (file : List ℕ) → S.bytes source.now ≡ Some file
        → ShowsSource asked.now path.now (S.may_fail source.now ≡ true) file (pending out.old)
        (W.contents (writer_of out.old)) (W.contents (writer_of out.new)) (taken W.contents out.new) result }
{
    let seen = show(alloc, asked, path, source, out)?;
    out.end()?;
    Ok(seen)
}

/// Opens the file at this path, and loads it. `None` if it can't be opened or read, or if its first bytes name
/// what no reader reads, which is reported.
pub fn open_input<F: Read + Source<Log = ()> + Drop, Y: System<F>>(
    alloc: Global,
    system: &mut Y,
    path: &str,
) -> Option<OpenFile<F>>
    ensures input { (file : List ℕ) → Y.bytes_at system.old path.now ≡ Some file → MatchOption result
        ((fault : Fault) × (IsForeign file fault ⊎ IsUnreadable (Y.may_fail_at system.old path.now) file fault)
        × Reports (Y.reports system.old) (Y.reports system.new) ((path.now, fault) ∷ []))
        (λ input. (bytes : List ℕ) × IsReadOf file bytes × (bytes_of F.bytes input ≡ Some bytes)
        × (may_fail_of F.may_fail input ≡ true → Y.may_fail_at system.old path.now ≡ true)
        × (foreign_in file ≡ None)) }
    ensures reported { MatchOption result
        ((fault : Fault) × Reports (Y.reports system.old) (Y.reports system.new) ((path.now, fault) ∷ []))
        (λ _. Y.reports system.new ≡ Y.reports system.old) }
    ensures hints { Y.hints system.new ≡ Y.hints system.old }
    ensures unchanged { IfSome result (λ _. system.new ≡ system.old) }
    ensures bytes { Y.bytes_at system.new ≡ Y.bytes_at system.old }
    ensures may_fail { Y.may_fail_at system.new ≡ Y.may_fail_at system.old }
{
    let mut input = match system.open(path) {
        Ok(file) => OpenFile::new(file),
        Err(e) => {
            system.report(path, Fault::Section(SectionError::Unreadable), Some(e));
            return None;
        }
    };
    if let Err(fault) = input.load(alloc) {
        system.report(path, fault, input.take_reason());
        return None;
    }
    Some(input)
}

/// Gives the hint, if there is one.
pub fn give<F: Read + Source<Log = ()>, Y: System<F>>(
    system: &mut Y,
    path: &str,
    hint: Option<Hint>,
)
    ensures hints { Grows (Y.hints system.old) (Y.hints system.new) (hinted path.now (words_of hint)) }
    ensures reports { Y.reports system.new ≡ Y.reports system.old }
    ensures bytes { Y.bytes_at system.new ≡ Y.bytes_at system.old }
    ensures may_fail { Y.may_fail_at system.new ≡ Y.may_fail_at system.old }
{
    match hint {
        Some(hint) => system.hint(path, hint),
        None => {}
    }
}

// Gives all of these hints, in their order.
fn give_all<F: Read + Source<Log = ()>, Y: System<F>>(system: &mut Y, path: &str, hints: Hints)
    ensures hints { Grows (Y.hints system.old) (Y.hints system.new) (hinted path.now (all_words hints)) }
    ensures reports { Y.reports system.new ≡ Y.reports system.old }
    ensures bytes { Y.bytes_at system.new ≡ Y.bytes_at system.old }
    ensures may_fail { Y.may_fail_at system.new ≡ Y.may_fail_at system.old }
{
    let Hints {
        first,
        second,
        excess,
        rows,
    } = hints;
    give(system, path, first);
    give(system, path, second);
    give(system, path, excess);
    give_rows(system, path, rows);
}

/// Gives what is said of rows, in its order.
pub fn give_rows<F: Read + Source<Log = ()>, Y: System<F>>(
    system: &mut Y,
    path: &str,
    rows: Vec<Finding>,
)
    ensures hints { Grows (Y.hints system.old) (Y.hints system.new) (hinted path.now (map finding_words rows.items)) }
    ensures reports { Y.reports system.new ≡ Y.reports system.old }
    ensures bytes { Y.bytes_at system.new ≡ Y.bytes_at system.old }
    ensures may_fail { Y.may_fail_at system.new ≡ Y.may_fail_at system.old }
{
    for row in rows {
        system.hint(path, Hint::Row(row));
    }
}

/// Reports why the file at this path is refused, with hints on what would help.
///
/// # Errors
///
/// A fault that isn't the file's: a failed write, or one of the whole call.
pub fn refuse<F: Read + Source<Log = ()>, Y: System<F>>(
    alloc: Global,
    system: &mut Y,
    path: &str,
    input: &OpenFile<F>,
    fault: Fault,
) -> Result<Verdict, Fault>
    ensures reports { ReportsFault path.now (Y.reports system.old)
        (Y.reports system.new) fault (is_of_file fault) result }
    ensures hints { (file : List ℕ) → bytes_of F.bytes input.now ≡ Some file
        → HintsFault path.now (Y.hints system.old) (Y.hints system.new) fault (is_of_file fault) file }
    ensures bytes { Y.bytes_at system.new ≡ Y.bytes_at system.old }
    ensures may_fail { Y.may_fail_at system.new ≡ Y.may_fail_at system.old }
{
    if !fault.is_of_file() {
        return Err(fault);
    }
    let hints = refusal_hints(alloc, input, &fault);
    system.report(path, fault, input.take_reason());
    give_all(system, path, hints);
    Ok(Verdict::refused())
}
