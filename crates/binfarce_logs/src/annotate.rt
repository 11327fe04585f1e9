//! Annotates the addresses within a text.

ghost use Rattle.std.specs.Prelude.{◌≡◌, ◌++◌, ◌+◌, ◌<◌, ◌≤◌, ℕ, [], List, true, length, IfOk, OnOk};
ghost use Rattle.binfarce_logs.specs.Annotated.{AnnotatesAll, IsCounted, IsPieceOf, Piece, files_of, found_among, found_behind, found_by, longest_name, name_before};
ghost use Rattle.binfarce_addresses.specs.Counts.{AreCountsOf, AddsUp};
ghost use Rattle.binfarce_text.specs.Streams.{Fails};
ghost use Rattle.binfarce_text.specs.machine.Passing.{WritesAll};
ghost use Rattle.binfarce_logs.specs.machine.Annotating.{Annotates, IsFoundBy, IsFoundHere, IsSame, ShowsFirst, ShowsTo, reach};
ghost use Rattle.binfarce_addresses.specs.Lookup.{at_offset};
ghost use Rattle.binfarce_addresses.specs.Places.{IsFoundIn, IsNamedAt, IsShownAt};

use crate::maps::name_of;
use crate::module::{ends_with_plus, name_len, names_symbol};
use crate::modules::Module;
use crate::word::{address_len, is_decided, others_len};
use binfarce_addresses::at::Found;
use binfarce_addresses::counts::{Counts, Reply};
use binfarce_addresses::digits::push_offset;
use binfarce_addresses::names::Names;
use binfarce_addresses::stream::CHUNK;
use binfarce_rows::address::parse_address;
use binfarce_text::streams::{Pass, StreamError, pass_stream};
use binfarce_tools::list::Sink;
use binfarce_tools::writing::write_whole;
use std::alloc::{AllocError, Global};
use std::io::Read;
use std::marker::Model;

/// Appends the text with ` <name+0x1f>` after each address that a function symbol of these files holds: its readable
/// name, and the offset of the address into it. An address is `0x` or `0X` and 4 to 16 hexadecimal digits, in upper or
/// lower case, up to the next other byte; of bare words also 8 to 16 digits that no letter, digit, `_` or `-` comes
/// before or after. The first file with a function symbol that holds it answers. After `+` the number, of 1 to 16 digits,
/// is an offset, which is looked up only behind a file's name: `NAME+0x1f`, `NAME(+0x1f)` or `NAME + 0x1f`, after `/`,
/// `[`, a blank, a tab, a line feed or nothing, perhaps with a parenthesis between. NAME is the file's path or what comes
/// behind its last `/`. Where a function symbol of the file has the latter as its stored name, `NAME+0x1f` after a blank,
/// a tab, a line feed or nothing is an offset into that function, and not behind this file's name. The file with the
/// longest name there answers, and none where several have it: also not one that is given twice. All other bytes stay as
/// they are, and need not be UTF-8. Returns how many addresses there are, how many were found, and how many are offsets
/// that no file answers for this reason.
///
/// # Errors
///
/// `AllocError` if an allocation failed: `out` is then unspecified.
pub fn push_annotated(
    alloc: Global,
    modules: &[Module<'_>],
    is_bare: bool,
    text: &[u8],
    out: &mut Vec<u8>,
) -> Result<Counts, AllocError>
    ensures { IfOk result (λ counts. (annotated : List ℕ)
        × IsCounted (files_of modules.now) is_bare counts text.now annotated
        × (out.new.items ≡ out.old.items ++ annotated)) }
{
    let mut files = new_files(alloc, modules, is_bare)?;
    files.push_decided(true, text, 0, out)?;
    Ok(files.counts)
}

/// Annotates a stream: writes what `push_annotated` gives for all that the reader gives. Each line is written as soon
/// as its line feed has come: of an unfinished line at most 18 bytes at its end wait, an address that may go on. A read
/// that was interrupted is tried again. Returns the same counts.
///
/// # Errors
///
/// `Read` if the reader failed: what came before is annotated, as if the stream ended there. `Write` if a write
/// failed, and `OutOfMemory` if an allocation did: a beginning was written.
pub fn annotate_stream<R: Read, S: Sink>(
    alloc: Global,
    modules: &[Module<'_>],
    is_bare: bool,
    input: &mut R,
    out: &mut S,
) -> Result<Counts, StreamError>
    ensures annotates { AnnotatesAll (files_of modules.now) is_bare (R.remaining input.old) (R.remaining input.new)
        (S.taken out.old)
        (S.taken out.new) result }
    ensures fails { Fails (S.has_failed out.old) (S.has_failed out.new) result }
{
    let mut pass = Annotating {
        alloc,
        files: new_files(alloc, modules, is_bare)?,
        kept: Vec::new(alloc),
        from: 0,
    };
    pass_stream(alloc, &mut pass, CHUNK, input, out)?;
    Ok(pass.files.counts)
}

// The files that addresses are looked up in, with the names that were needed, and what was counted.
#[derive(Drop)]
pub(crate) struct Files<'a> {
    names: Vec<File<'a>>,
    is_bare: bool,
    pub(crate) counts: Counts,
}

// What annotates a text that comes in parts.
#[derive(Drop)]
pub(crate) struct Annotating<'a> {
    pub(crate) alloc: Global,
    pub(crate) files: Files<'a>,
    // The end of the text: what may matter of what was shown, and an address that may go on.
    pub(crate) kept: Vec<u8>,
    // How much of it was shown.
    pub(crate) from: usize,
}

impl Annotating<'_> {
    // Annotates the kept text and the next part, and keeps an address at its end that may go on, unless the text ends.
    pub(crate) fn push(
        &mut self,
        is_last: bool,
        part: &[u8],
        out: &mut Vec<u8>,
    ) -> Result<(), AllocError>
        ensures shows { OnOk result ((more : List ℕ) × Annotates self.old self.new is_last part.now more
            × (out.new.items ≡ out.old.items ++ more)) }
        ensures short { OnOk result (length self.new.kept.items ≤ reach self.old.files.names.items + 18) }
    {
        let from = self.from.min(self.kept.len());
        self.kept.extend_from_slice(part)?;
        let at = self.files.push_decided(is_last, &self.kept, from, out)?;
        let reach = reach_of(&self.files.names);
        self.from = at.min(reach);
        self.kept = Vec::from_slice(self.alloc, &self.kept[at - self.from..])?;
        Ok(())
    }
}

// A file that addresses are looked up in.
#[derive(Drop)]
struct File<'a> {
    names: Names<'a, 'a>,
    // Whether one of its functions has its name.
    is_function: bool,
}

impl<'a> Model for File<'a> {
    ghost use Rattle.std.specs.Prelude.{◌≡◌, List};
    ghost use Rattle.binfarce.specs.Symbol.{Entry};
    ghost use Rattle.binfarce_logs.specs.Annotated.{has_own_name};
    ghost use Rattle.binfarce_addresses.specs.declared.lookup.Lookup.{Lookup};

    ghost Value = { List Entry × Lookup };

    ghost view = { λ s. s.names };

    ghost invariant = { λ s. s.is_function ≡ has_own_name s.names };
}

impl File<'_> {
    // How many bytes before an address can matter: the path, and what may come before and after it.
    fn reach(&self) -> usize
        ensures { result ≡ length self.now.1.path.now + 5 }
    {
        self.names.path().len() + 5
    }

    // How many bytes the file's name has that is before an offset, which comes after this text. 0 if none is, and where
    // it may be that of a function of the file.
    fn name_before(&self, before: &[u8]) -> usize
        ensures { result ≡ name_before self.now before.now }
    {
        let path = self.names.path();
        if self.is_function && names_symbol(name_of(path), before) {
            return 0;
        }
        name_len(path, before)
    }

    // What is found at an offset from the file's origin.
    fn find_offset(&self, offset: u64) -> Option<Found>
        ensures { IsFoundIn self.now.0 self.now.1.is_return (at_offset self.now.1 offset) result }
    {
        self.names.find_offset(offset)
    }

    // What is found at an address.
    fn find_address(&self, address: u64) -> Option<Found>
        ensures { IsShownAt self.now.0 self.now.1 address result }
    {
        self.names.find_address(address)
    }

    // Appends the readable name of the function symbol at a place to the text, and keeps it.
    fn push_name(&mut self, text: &mut Vec<u8>, place: usize) -> Result<(), AllocError>
        requires { place < length self.old.0 }
        ensures name { OnOk result
            ((name : List ℕ) × IsNamedAt self.old.0 place name
            × (text.new.items ≡ text.old.items ++ name)) }
        ensures same { self.new ≡ self.old }
    {
        self.names.push_name(text, place)
    }
}

// How many bytes before an address can matter: the longest path, and what may come before and after it.
fn reach_of(names: &[File<'_>]) -> usize
    ensures { result ≡ reach names.now }
{
    let mut reach: usize = 5;
    for file in names {
        let own = file.reach();
        reach = reach.max(own);
    }
    reach
}

// What is found for a number that comes after `before`: the place of the file, and what is found there. An error if it
// isn't asked for, or several files are named.
fn find_by(
    names: &[File<'_>],
    before: &[u8],
    number: Option<u64>,
) -> Result<Option<(usize, Found)>, Reply>
    ensures { IsFoundBy names.now (found_by names.now before.now number) result }
{
    let Some(number) = number else {
        return Err(Reply::Unasked);
    };
    if ends_with_plus(before) {
        return find_behind(names, before, number);
    }
    Ok(find_among(names, number))
}

// What is found at an offset that comes after `before`.
fn find_behind(
    names: &[File<'_>],
    before: &[u8],
    offset: u64,
) -> Result<Option<(usize, Found)>, Reply>
    ensures { IsFoundBy names.now (found_behind names.now before.now offset) result }
{
    let longest = longest_name(names, before);
    if longest == 0 {
        return Err(Reply::Unasked);
    }
    let mut here = None;
    for at in 0..names.len() {
        if names[at].name_before(before) == longest {
            if here.is_some() {
                return Err(Reply::Unclear);
            }
            here = Some(at);
        }
    }
    let Some(at) = here else {
        return Err(Reply::Unasked);
    };
    match names[at].find_offset(offset) {
        Some(found) => Ok(Some((at, found))),
        None => Ok(None),
    }
}

// How many bytes the longest name of a file has that is before an offset, which comes after `before`. 0 if none is.
fn longest_name(names: &[File<'_>], before: &[u8]) -> usize
    ensures { result ≡ longest_name names.now before.now }
{
    let mut longest: usize = 0;
    for file in names {
        let own = file.name_before(before);
        longest = longest.max(own);
    }
    longest
}

// What is found at an address.
fn find_among(names: &[File<'_>], address: u64) -> Option<(usize, Found)>
    ensures { IsFoundHere names.now (found_among names.now address) result }
{
    for at in 0..names.len() {
        if let Some(found) = names[at].find_address(address) {
            return Some((at, found));
        }
    }
    None
}

// These files, without a name so far.
pub(crate) fn new_files<'a>(
    alloc: Global,
    modules: &[Module<'a>],
    is_bare: bool,
) -> Result<Files<'a>, AllocError>
    ensures { IfOk result (λ f. (f.names.items ≡ files_of modules.now) × (f.is_bare ≡ is_bare)
        × AreCountsOf [] f.counts) }
{
    let mut names = Vec::new(alloc);
    for module in modules {
        names.push(File {
            names: Names::with_room(alloc, module.places, module.lookup)?,
            is_function: module.places.has(name_of(module.lookup.path)),
        })?;
    }
    let counts = Counts::new();
    Ok(Files {
        names,
        is_bare,
        counts,
    })
}

impl Files<'_> {
    // Appends the annotated text from a position on, before an address at the text's end that may go on, and returns
    // where that begins. With nothing after the text, this is its end.
    fn push_decided(
        &mut self,
        is_last: bool,
        text: &[u8],
        from: usize,
        out: &mut Vec<u8>,
    ) -> Result<usize, AllocError>
        requires { from ≤ length text.now }
        ensures within { IfOk result (λ at. (from ≤ at) × (at ≤ length text.now)) }
        ensures short { IfOk result (λ at. length text.now ≤ at + 18) }
        ensures last { is_last ≡ true → IfOk result (λ at. at ≡ length text.now) }
        ensures shows { IfOk result (λ at. ShowsTo self.old.names.items self.old.is_bare is_last text.now from at
            out.old.items out.new.items self.old.counts self.new.counts) }
        ensures same { IsSame self.old self.new }
    {
        let mut at = from;
        while at < text.len() && is_decided(self.is_bare, is_last, &text[at..]) {
            let len = self.push_first(&text[..at], &text[at..], out)?;
            at += len;
        }
        Ok(at)
    }

    // Appends the annotated text of an address that the text begins with, or of bytes before the next one. Returns how
    // many bytes these are.
    fn push_first(
        &mut self,
        before: &[u8],
        text: &[u8],
        out: &mut Vec<u8>,
    ) -> Result<usize, AllocError>
        requires { 0 < length text.now }
        ensures within { IfOk result (λ n. (0 < n) × (n ≤ length text.now)) }
        ensures shows { IfOk result (λ n. ShowsFirst self.old.names.items self.old.is_bare before.now text.now n
            out.old.items out.new.items self.old.counts self.new.counts) }
        ensures same { IsSame self.old self.new }
    {
        let len = address_len(self.is_bare, before, text);
        if len == 0 {
            let others = others_len(self.is_bare, text);
            out.extend_from_slice(&text[..others])?;
            return Ok(others);
        }
        self.push_address(before, &text[..len], out)?;
        Ok(len)
    }

    // Appends an address, and what is added after it: the readable name of its function symbol and the offset, in angle
    // brackets.
    fn push_address(
        &mut self,
        before: &[u8],
        word: &[u8],
        out: &mut Vec<u8>,
    ) -> Result<(), AllocError>
        ensures piece { OnOk result ((piece : Piece) × IsPieceOf self.old.names.items before.now word.now piece
            × (out.new.items ≡ out.old.items ++ piece.0) × AddsUp self.old.counts self.new.counts piece.1) }
        ensures same { IsSame self.old self.new }
    {
        out.extend_from_slice(word)?;
        let found = match find_by(&self.names, before, parse_address(word)) {
            Ok(found) => found,
            Err(reply) => {
                self.counts.add(reply);
                return Ok(());
            }
        };
        self.counts.add(Reply::Held(found.is_some()));
        let Some((file, (place, offset))) = found else {
            return Ok(());
        };
        out.extend_from_slice(b" <")?;
        self.names[file].push_name(out, place)?;
        push_offset(out, offset, b'>')
    }
}

impl<S: Sink> Pass<S> for Annotating<'_> {
    ghost use Rattle.binfarce_logs.specs.machine.Annotating.{Holds, IsDone, MayBreakOff};

    ghost Holds = { Holds };

    ghost IsDone = { IsDone };

    ghost MayBreakOff = { MayBreakOff };

    ghost taken = { S.taken };

    ghost has_failed = { S.has_failed };

    fn take(&mut self, part: &[u8], out: &mut Vec<u8>) -> Result<(), AllocError> {
        self.push(false, part, out)
    }

    fn end(&mut self, _ended: bool, out: &mut Vec<u8>) -> Result<(), AllocError> {
        self.push(true, &[], out)
    }

    fn write(out: &mut S, bytes: &[u8]) -> Result<(), StreamError>
        ensures writes { WritesAll (S.taken out.old) (S.taken out.new) bytes.now result }
        ensures fails { Fails (S.has_failed out.old) (S.has_failed out.new) result }
    {
        write_whole(out, bytes).map_err(|_| StreamError::Write)
    }
}
