//! `binfarce COMMAND [OPTION..] ..`: reads executables, and demangles Rust names.
#![tactic(auto)]

mod asked;
mod help;
mod limits;
mod needs;
mod report;

use crate::asked::Addresses;
use crate::help::{VERSION, help};
use crate::limits::{limits_in, read_limit_file};
use crate::report::{ended, refuse as refuse_call, report, say};
use binfarce_addresses::Counts;
use binfarce_addresses::at::Places;
use binfarce_calls::at::{Given, Placed, ReadFile, places_of_files, read_file, read_files};
use binfarce_calls::compare::{Pair, Sizes, compare, compare_sections};
use binfarce_calls::filter::lines_of;
use binfarce_calls::placing::{file_at, loaded_by, lookup_for, missed, unclear, unfound};
use binfarce_calls::request::{figures_of, form_of, request_of, symbols_of};
use binfarce_calls::sections::{show_section, sum_files};
use binfarce_filtering::stream::{StreamError, filter_stream};
use binfarce_identity::{Lack, Style, identity_line, lacked};
use binfarce_io::fault::Fault;
use binfarce_io::input::{FileOrStdin, OpenFile};
use binfarce_io::message::{Message, message_of, push_escaped, push_refusal};
use binfarce_io::output::Output;
use binfarce_jobs::at::{answer_all, answer_input};
use binfarce_jobs::files::{System, give, open_input, refuse, show_files};
use binfarce_jobs::hint::{Hint, lack};
use binfarce_jobs::limit::Verdict;
use binfarce_jobs::section::Asked;
use binfarce_jobs::show::Symbols;
use binfarce_limits::rows::RowLimit;
use binfarce_logs::Module;
use binfarce_logs::annotate::annotate_stream;
use binfarce_logs::framed::annotate_frames;
use binfarce_sections::error::SectionError;
use binfarce_tools::report::ReportError;
use binfarce_tools::tables::Selection;
use binfarce_words::argument::arguments_of;
use binfarce_words::call::{Call, read_call};
use binfarce_words::command::Command;
use binfarce_words::flag::Flag::{
    Annotate, Bare, FailAbove, First, Full, Id, Json, Limits, Maps, Offsets, Undefined,
};
use binfarce_words::given::Arguments;
use binfarce_words::wrong::Wrong;
use std::alloc::{AllocError, Global};
use std::env::{Env, FillError};
use std::fs::File;
use std::io::{self, Error, Input, Read, Stdin, Write};
use std::process::ExitCode;

fn main(rt: HostRuntime) -> ExitCode {
    let status = match texts(&rt) {
        Ok(texts) => run(&rt, texts.as_slice()).unwrap_or_else(|wrong| refuse_call(&rt, &wrong)),
        Err(_) => refuse_call(&rt, &Wrong::OutOfMemory),
    };
    ExitCode::from(status)
}

// The arguments after the program's own name; `None` for one that isn't UTF-8. The buffer that they are read into grows
// to double its size for one that is too long.
fn texts(rt: &HostRuntime) -> Result<Vec<Option<String>>, AllocError> {
    let alloc = rt.alloc();
    let mut texts = Vec::new(alloc);
    let mut buffer = Vec::new(alloc);
    buffer.resize(256, 0)?;
    for _ in 0..u64::MAX {
        match rt.arg(texts.len() + 1, &mut buffer) {
            Ok(len) => {
                let text = match std::str::from_utf8(&buffer[..len]) {
                    Ok(text) => Some(String::from_str(alloc, text)?),
                    Err(_) => None,
                };
                texts.push(text)?;
            }
            Err(FillError::NotPresent) => break,
            Err(FillError::TooLong) => buffer.resize(buffer.len().saturating_mul(2), 0)?,
        }
    }
    Ok(texts)
}

// Runs the call that the arguments mean, and returns the program's exit status.
fn run<'a>(rt: &HostRuntime, texts: &'a [Option<String>]) -> Result<u8, Wrong<'a>> {
    let arguments = arguments_of(rt.alloc(), texts).map_err(|_| Wrong::OutOfMemory)?;
    let call = read_call(rt.alloc(), arguments.as_slice())?;
    let asked = match &call {
        Call::Run(Command::At, given) => match asked::asked_of(rt, given)? {
            Some(asked) => asked,
            None => return Ok(1),
        },
        _ => Addresses::nothing(rt.alloc()),
    };
    let Some(file) = read_limit_file(rt, &call) else {
        return Ok(1);
    };
    let limits = match limits_in(rt, &call, &file) {
        Ok(limits) => limits,
        Err(status) => return Ok(status),
    };
    let mut out = Output::new(rt.alloc(), io::writer(rt));
    let done = match answer(rt, &call, &asked, limits.as_slice(), &mut out) {
        Ok(Some(verdict)) => Ok(verdict),
        Ok(None) => return Err(Wrong::NotMaps(maps_of(&call))),
        Err(fault) => Err(fault),
    };
    let has_limit =
        matches!(&call, Call::Run(_, given) if given.has(FailAbove) || given.has(Limits));
    Ok(ended(rt, done, has_limit, out.into_parts().1))
}

// The path of the maps.
fn maps_of<'a>(call: &Call<'a>) -> &'a str {
    match call {
        Call::Run(_, given) => given.value(Maps).unwrap_or(""),
        _ => "",
    }
}

// Runs a call, and flushes the output. `None` if the maps have no mapping: nothing is then written.
fn answer<'a, W: Write>(
    rt: &HostRuntime,
    call: &'a Call<'_>,
    asked: &Addresses,
    limits: &'a [RowLimit<'a>],
    out: &mut Output<W>,
) -> Result<Option<Verdict>, Fault> {
    let done = match call {
        Call::Help(topic) => {
            let (text, options) = help(*topic);
            print(text, out)?;
            print(options, out)?;
            Some(Verdict::done())
        }
        Call::Version => {
            print(VERSION, out)?;
            Some(Verdict::done())
        }
        Call::Run(command, given) => {
            let refusals = String::new(rt.alloc());
            let symbols = symbols_of(given, matches!(command, Command::At));
            // The name of the only section that is asked for, if one is.
            let section = match (*command, symbols.selection) {
                (Command::Section, _) => given.operand(1),
                (_, Selection::Section(name)) => Some(name),
                (_, Selection::All) => None,
            };
            let section = match section {
                Some(name) => Some(String::from_str(rt.alloc(), name)?),
                None => None,
            };
            let host = Host {
                rt,
                refusals,
                section,
            };
            let mut work = Work {
                host,
                given,
                limits,
                out,
            };
            let done = work.run(*command, asked)?;
            work.print_refusals()?;
            done
        }
    };
    out.flush().map_err(|_| Fault::Report(ReportError::Write))?;
    Ok(done)
}

fn print<W: Write>(text: &str, out: &mut Output<W>) -> Result<(), Fault> {
    out.write_all(text.as_bytes())
        .map_err(|_| Fault::Report(ReportError::Write))
}

// A command's work: the system around it, what it is given, and where it writes.
#[derive(Drop)]
struct Work<'a, 'b, W> {
    host: Host<'a>,
    given: &'a Arguments<'b>,
    // Those on rows.
    limits: &'a [RowLimit<'a>],
    out: &'a mut Output<W>,
}

impl<'a, W: Write> Work<'a, '_, W> {
    // The addresses of `at`, and the maps, were read before. `None` if the maps have no mapping.
    fn run(&mut self, command: Command, asked: &Addresses) -> Result<Option<Verdict>, Fault> {
        let given = self.given;
        let verdict = match command {
            Command::At if given.has(Annotate) => return self.annotate(asked),
            Command::At => return self.symbolize(asked),
            Command::List if given.has(Undefined) => self.write_needs()?,
            Command::Diff => self.compare()?,
            Command::Filter => self.filter()?,
            Command::Section if given.has(Id) => self.write_identities()?,
            Command::Section => self.write_section()?,
            Command::List | Command::Size | Command::Map => self.show_all(command)?,
        };
        Ok(Some(verdict))
    }

    // Prints the objects of the files that were refused since the last time, if objects are asked for.
    fn print_refusals(&mut self) -> Result<(), Fault> {
        if self.given.has(Json) {
            print(self.host.refusals.as_str(), self.out)?;
            self.host.refusals.clear();
        }
        Ok(())
    }

    // Shows what the command shows of all files that are given.
    fn show_all(&mut self, command: Command) -> Result<Verdict, Fault> {
        let given = self.given;
        let alloc = self.host.rt.alloc();
        let asked = request_of(command, given, self.limits);
        // Objects have the names of their files, and need no headings.
        let most = if asked.is_json { 1 } else { usize::MAX };
        let mut all = Verdict::done();
        for files in given.operands.chunks(most) {
            let host = &mut self.host;
            let shown = if given.is_by_section() {
                sum_files(alloc, host, &asked, given.count(First), files, self.out)?
            } else {
                show_files(alloc, host, &asked, files, self.out)?
            };
            all = all.and_then(shown);
            self.print_refusals()?;
        }
        Ok(all)
    }

    // Compares two files.
    fn compare(&mut self) -> Result<Verdict, Fault> {
        let given = self.given;
        let alloc = self.host.rt.alloc();
        let new = file_at(given, 1);
        let pair = Pair {
            old: file_at(given, 0),
            new,
            form: form_of(given, new),
            limit: given.limit(),
            limits: self.limits,
        };
        let figures = figures_of(given);
        if given.is_by_section() {
            return compare_sections(alloc, &mut self.host, &pair, &figures, self.out);
        }
        let sizes = Sizes {
            symbols: symbols_of(given, false),
            figures,
        };
        compare(alloc, &mut self.host, &pair, &sizes, self.out)
    }

    // Demangles the names in standard input, or the given ones.
    fn filter(&mut self) -> Result<Verdict, Fault> {
        let alloc = self.host.rt.alloc();
        let full = self.given.has(Full);
        if !self.given.operands.is_empty() {
            let names = self.given.operand_texts(alloc)?;
            let text = lines_of(alloc, names.as_slice())?;
            filter_stream(alloc, full, &mut text.as_slice(), self.out)?;
            return Ok(Verdict::done());
        }
        let mut input = OpenFile::new(self.host.rt.stdin());
        match filter_stream(alloc, full, &mut input, self.out) {
            Ok(()) => Ok(Verdict::done()),
            Err(StreamError::Read) => Ok(self.host.report_input(&input)),
            Err(e) => Err(Fault::from(e)),
        }
    }

    // Symbolizes addresses: those that are given, or those of standard input, one a line. `None` if the maps have no
    // mapping.
    fn symbolize(&mut self, asked: &Addresses) -> Result<Option<Verdict>, Fault> {
        let words = self.given;
        let alloc = self.host.rt.alloc();
        let given = Given {
            words,
            maps: asked.maps(),
        };
        let symbols = symbols_of(words, true);
        let file = match read_file(alloc, &mut self.host, &given, 0, &symbols)? {
            ReadFile::Placed(file) => file,
            ReadFile::Refused => return Ok(Some(Verdict::refused())),
            ReadFile::NoMaps => return Ok(None),
        };
        let lookup = lookup_for(words, 0, file.base, file.loaded, file.origin);
        let addresses = asked.addresses.as_slice();
        let input = &mut OpenFile::new(self.host.rt.reader());
        let done = if addresses.is_empty() {
            answer_input(alloc, &file.tables, lookup, input, self.out)
        } else {
            answer_all(alloc, &file.tables, lookup, addresses, self.out)
        };
        let path = file_at(words, 0);
        match done {
            Ok(answered) => {
                let counts = answered.counts;
                if let Some(missed) = missed(counts, loaded_by(words, answered.is_behind)) {
                    let lack = lack_of(alloc, &file, &symbols, answered.symbols == 0);
                    self.host.hint(path, lack.unwrap_or(missed));
                }
                match counts.missing {
                    0 => Ok(Some(Verdict::done())),
                    missing => Err(Fault::Missing(missing)),
                }
            }
            Err(Fault::Stream(StreamError::Read)) => Ok(Some(self.host.report_input(input))),
            Err(fault) if fault.is_of_file() => {
                self.host.report(path, fault, None);
                Ok(Some(Verdict::refused()))
            }
            Err(fault) => Err(fault),
        }
    }

    // Annotates the text of standard input, by all files that are given and not refused; nothing is written where each is.
    // `None` if the maps have no mapping.
    fn annotate(&mut self, asked: &Addresses) -> Result<Option<Verdict>, Fault> {
        let words = self.given;
        let alloc = self.host.rt.alloc();
        let symbols = symbols_of(words, true);
        let given = Given {
            words,
            maps: asked.maps(),
        };
        let Some(files) = read_files(alloc, &mut self.host, &given, &symbols)? else {
            return Ok(None);
        };
        // What the modules refer to isn't freed before the program ends: a reference in a structure has one lifetime.
        let files: &'static [Placed<FileOrStdin<File, Stdin>>] = files.leak();
        let found = places_of_files(alloc, &mut self.host, &given, files)?;
        let found: &'static [(&'static Placed<FileOrStdin<File, Stdin>>, Places<'static>)] =
            found.leak();
        if found.is_empty() {
            return Ok(Some(Verdict::refused()));
        }
        let mut modules = Vec::new(alloc);
        for (file, places) in found.iter() {
            let lookup = lookup_for(words, file.place, file.base, file.loaded, file.origin);
            let module = Module { places, lookup };
            if modules.push(module).is_err() {
                return Err(Fault::Report(ReportError::OutOfMemory));
            }
        }
        let input = &mut OpenFile::new(self.host.rt.reader());
        let done = match asked.text() {
            Some(mut text) => annotated(words, alloc, &modules, &mut text, self.out),
            None => annotated(words, alloc, &modules, input, self.out),
        };
        match done {
            Ok(counts) => {
                let is_empty = asked.text().is_none() && input.len() == 0;
                if !is_empty {
                    let lack = match found.first() {
                        Some((file, places)) => lack_of(alloc, file, &symbols, places.len() == 0),
                        None => None,
                    };
                    self.hint_on_text(counts, lack);
                }
                Ok(Some(Verdict {
                    is_done: found.len() == words.operands.len(),
                    is_above: false,
                }))
            }
            Err(StreamError::Read) => Ok(Some(self.host.report_input(input))),
            Err(e) => Err(Fault::from(e)),
        }
    }

    // Gives the hints on a text: on its addresses, and on files in which none of them is, with what a file lacks.
    fn hint_on_text(&mut self, counts: Counts, lack: Option<Hint>) {
        let given = self.given;
        give(&mut self.host, "standard input", unclear(counts));
        give(
            &mut self.host,
            "standard input",
            unfound(counts, given.has(Bare)),
        );
        if let Some(missed) = missed(counts, loaded_by(given, false)) {
            let alloc = self.host.rt.alloc();
            let joined = given
                .operand_texts(alloc)
                .and_then(|paths| joined(alloc, paths.as_slice()));
            if let Ok(names) = joined {
                self.host.hint(names.as_str(), lack.unwrap_or(missed));
            }
        }
    }

    // Writes what says from which build each file is, a line each.
    fn write_identities(&mut self) -> Result<Verdict, Fault> {
        let given = self.given;
        let paths = given.operand_texts(self.host.rt.alloc())?;
        let are_several = paths.len() > 1;
        let mut all = Verdict::done();
        for path in paths {
            let done = self.write_identity(path, are_several)?;
            self.print_refusals()?;
            all = all.and_then(done);
        }
        Ok(all)
    }

    // Writes it of the file at this path, of several before the path, or reports why the file is refused.
    fn write_identity(&mut self, path: &str, are_several: bool) -> Result<Verdict, Fault> {
        let alloc = self.host.rt.alloc();
        let Some(input) = open_input(alloc, &mut self.host, path) else {
            return Ok(Verdict::refused());
        };
        let mut name = String::new(alloc);
        push_escaped(&mut name, path)?;
        let style = if self.given.has(Json) {
            Style::Object(path)
        } else if are_several {
            Style::Named(name.as_str())
        } else {
            Style::Alone
        };
        match identity_line(alloc, &input, &mut (), style) {
            Ok(line) => {
                print(line.as_str(), self.out)?;
                Ok(Verdict::done())
            }
            Err(lack) => {
                let fault = fault_of(alloc, lack);
                refuse(alloc, &mut self.host, path, &input, fault)
            }
        }
    }

    // Writes the bytes of the section that is named, or a line for each section.
    fn write_section(&mut self) -> Result<Verdict, Fault> {
        let asked = match self.given.operand(1) {
            Some(name) => Asked::Bytes(name),
            None => Asked::Lines,
        };
        let path = file_at(self.given, 0);
        let form = form_of(self.given, path);
        show_section(
            self.host.rt.alloc(),
            &mut self.host,
            path,
            asked,
            form,
            self.out,
        )
    }
}

// Annotates a text; where addresses are offsets, also frames of perf-script(1).
fn annotated<R: Read, W: Write>(
    given: &Arguments<'_>,
    alloc: Global,
    modules: &[Module<'_>],
    input: &mut R,
    out: &mut Output<W>,
) -> Result<Counts, StreamError> {
    let is_bare = given.has(Bare);
    if given.has(Offsets) {
        annotate_frames(alloc, modules, is_bare, input, out)
    } else {
        annotate_stream(alloc, modules, is_bare, input, out)
    }
}

// The fault of a file that has no line with its identity.
fn fault_of(alloc: Global, lack: Lack) -> Fault {
    match lack {
        Lack::UnknownFormat => Fault::Section(SectionError::Unknown),
        Lack::NoIdentity(kind) => match String::from_str(alloc, lacked(kind)) {
            Ok(words) => Fault::Unplaced(words),
            Err(e) => Fault::from(e),
        },
        Lack::Read(e) => Fault::from(e),
    }
}

// What the only file lacks that has none of these function symbols.
fn lack_of(
    alloc: Global,
    file: &Placed<FileOrStdin<File, Stdin>>,
    symbols: &Symbols<'_>,
    is_empty: bool,
) -> Option<Hint> {
    let symbols = Symbols {
        which: file.which,
        selection: symbols.selection,
    };
    match &file.alone {
        Some(file) => lack(alloc, file, &symbols, is_empty).unwrap_or(None),
        None => None,
    }
}

// The words, with commas between them.
fn joined(alloc: Global, words: &[&str]) -> Result<String, AllocError> {
    let mut text = String::new(alloc);
    for word in words {
        if !text.is_empty() {
            text.push_str(", ")?;
        }
        text.push_str(word)?;
    }
    Ok(text)
}

// The system around a command, and the objects of the files that were refused.
#[derive(Drop)]
struct Host<'a> {
    rt: &'a HostRuntime,
    refusals: String,
    // The name of the only section that is asked for.
    section: Option<String>,
}

impl Host<'_> {
    // Reports why a file is refused, and keeps its object.
    fn refuse(&mut self, name: &str, message: &Message) {
        report(self.rt, name, message);
        // Where an allocation fails, the message alone says it.
        let alloc = self.rt.alloc();
        if let Ok(words) = format!(in alloc; "{message}") {
            let _ = push_refusal(&mut self.refusals, name, words.as_str());
        }
    }

    // Reports that standard input can't be read.
    fn report_input<F>(&mut self, input: &OpenFile<F>) -> Verdict {
        self.report(
            "standard input",
            Fault::Section(SectionError::Unreadable),
            input.take_reason(),
        );
        Verdict::refused()
    }
}

impl System<FileOrStdin<File, Stdin>> for Host<'_> {
    fn open(&self, path: &str) -> io::Result<FileOrStdin<File, Stdin>> {
        if path == "-" {
            return Ok(FileOrStdin::Standard(self.rt.stdin()));
        }
        Ok(FileOrStdin::File(File::open(self.rt, path)?))
    }

    fn report(&mut self, path: &str, fault: Fault, reason: Option<Error>) {
        let alloc = self.rt.alloc();
        let section = match &self.section {
            Some(name) => Some(name.as_str()),
            None => None,
        };
        let message = message_of(alloc, fault, reason, section);
        self.refuse(path, &message);
    }

    fn hint(&mut self, path: &str, hint: Hint) {
        say(self.rt, Some(path), &hint);
    }
}
