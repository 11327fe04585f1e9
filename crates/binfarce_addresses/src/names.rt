//! The readable names of function symbols, each made at most once.

ghost use Rattle.std.specs.Prelude.{◌≡◌, ◌<◌, ◌+◌, ◌++◌, [], ℕ, List, Option, Some, codes, length, slice_set, IfOk, IfSome, OnOk};
ghost use Rattle.std.specs.String.{string_bytes};
ghost use Rattle.binfarce.specs.Symbol.{Entry};
ghost use Rattle.binfarce_rows.specs.Json.{lines, objects, text_member};
ghost use Rattle.binfarce_addresses.specs.Counts.{is_held};
ghost use Rattle.binfarce_addresses.specs.Lines.{IsLineAt, address_value, symbol_members};
ghost use Rattle.binfarce_addresses.specs.Stream.{IsAnswerIn, IsAnswerOf};
ghost use Rattle.binfarce_addresses.specs.declared.lookup.Lookup.{Lookup};
ghost use Rattle.binfarce_addresses.specs.Lookup.{at_offset};
ghost use Rattle.binfarce_addresses.specs.Places.{IsFoundIn, IsNamedAt, IsShownAt};
ghost use Rattle.binfarce_addresses.specs.machine.Places.{AreKept, IsSymbolAt};
ghost use Rattle.binfarce_addresses.specs.machine.Answers.{AreAnswersTo, IsAnswerTo, reply_of};

use crate::at::{Found, Places};
use crate::counts::Reply;
use crate::digits::{push_address, push_offset};
use crate::lookup::Lookup;
use binfarce::demangle::Demangler;
use binfarce_rows::json::{
    Form, push_address_member, push_number_member, push_start, push_text_member,
};
use std::alloc::{AllocError, Global};
use std::marker::Model;

// The most bytes of names that are kept before one more: 32 MiB.
const MOST_KEPT: usize = 1 << 25;

/// The readable names of the function symbols of places that were needed so far, and what answers the addresses of one
/// lookup with them.
///
/// Contracts speak of the entries and of the lookup.
#[derive(Drop)]
pub struct Names<'b, 'a> {
    pub(crate) alloc: Global,
    pub(crate) places: &'b Places<'a>,
    pub(crate) lookup: Lookup<'b>,
    demangler: Demangler,
    // The names, one after the other.
    text: String,
    // Where in it the name of a place begins and ends. A name that ends where it begins is not there.
    kept: Vec<(usize, usize)>,
}

// What is answered to a line: its address, and what that symbolizes to.
#[derive(Clone, Copy)]
pub(crate) struct Answer {
    pub(crate) address: Option<u64>,
    pub(crate) found: Option<Found>,
}

impl Answer {
    // What is replied: whether a function symbol holds the address, if the line has one.
    #[inline(always)]
    pub(crate) fn reply(self) -> Reply
        ensures { result ≡ reply_of self }
    {
        match self.address {
            Some(_) => Reply::Held(self.found.is_some()),
            None => Reply::Unasked,
        }
    }
}

impl<'b, 'a> Model for Names<'b, 'a> {
    ghost Value = { List Entry × Lookup };

    ghost view = { λ s. (s.places.now, s.lookup) };

    ghost invariant = { λ s. AreKept s.places.now (string_bytes s.text) s.kept.items };
}

impl<'b, 'a> Names<'b, 'a> {
    /// No name so far, with room for so many.
    pub(crate) fn new(
        alloc: Global,
        places: &'b Places<'a>,
        lookup: Lookup<'b>,
        room: usize,
    ) -> Result<Names<'b, 'a>, AllocError>
        ensures { IfOk result (λ n. n ≡ (places.entry.now, lookup.entry)) }
    {
        Ok(Names {
            alloc,
            places,
            lookup,
            demangler: Demangler::new(alloc),
            text: String::new(alloc),
            kept: vec![in alloc; (0, 0); room]?,
        })
    }

    /// No name so far, with room for all.
    ///
    /// # Errors
    ///
    /// `AllocError` if an allocation failed.
    pub fn with_room(
        alloc: Global,
        places: &'b Places<'a>,
        lookup: Lookup<'b>,
    ) -> Result<Names<'b, 'a>, AllocError>
        ensures { IfOk result (λ n. n ≡ (places.entry.now, lookup.entry)) }
    {
        Names::new(alloc, places, lookup, places.functions.len())
    }

    /// The file's path in a text; nothing is copied.
    pub fn path(&self) -> &'b [u8]
        ensures { result.now ≡ self.now.1.path.now }
    {
        self.lookup.path
    }

    /// What an address symbolizes to.
    pub fn find_address(&self, address: u64) -> Option<Found>
        ensures { IsShownAt self.now.0 self.now.1 address result }
    {
        self.places.find_place(self.lookup, Some(address))
    }

    /// What an offset behind the file's name symbolizes to: one from the file's origin, or in the file, where offsets in
    /// it are looked up. Nothing if the address passes 64 bits.
    pub fn find_offset(&self, offset: u64) -> Option<Found>
        ensures { IsFoundIn self.now.0 self.now.1.is_return (at_offset self.now.1 offset) result }
    {
        let address = match self.lookup.size {
            Some(_) => self.lookup.in_file(offset),
            None => offset.checked_add(self.lookup.origin),
        };
        self.places.find_in(self.lookup.is_return, address)
    }

    // The answer to a line with the address, or with none.
    #[inline(always)]
    pub(crate) fn answer_to(&self, address: Option<u64>) -> Answer
        ensures is { IsAnswerTo self.now.0 self.now.1 result }
        ensures address { result.address ≡ address }
    {
        let found = self.places.find_place(self.lookup, address);
        Answer { address, found }
    }

    // The answers to lines with the addresses, or with none.
    pub(crate) fn answers_to(&self, addresses: &[Option<u64>]) -> Result<Vec<Answer>, AllocError>
        ensures { IfOk result (λ v. AreAnswersTo self.now.0 self.now.1 addresses.now v.items) }
    {
        addresses
            .iter()
            .map(|address| self.answer_to(*address))
            .collect(self.alloc)
    }

    // Reads the first and the last byte of each name, or of the symbol's own if none is kept: a prefetch, without
    // which random addresses take a fifth more.
    pub(crate) fn read_ahead(&self, answers: &[Answer]) -> Result<Vec<(u8, u8)>, AllocError> {
        answers
            .iter()
            .map(|answer| self.ends_at(answer.found).unwrap_or((0, 0)))
            .collect(self.alloc)
    }

    fn ends_at(&self, found: Option<Found>) -> Option<(u8, u8)> {
        let (place, _) = found?;
        let own = || Some(self.places.functions.get(place)?.name);
        let name = self.name_at(place).or_else(own)?.as_bytes();
        Some((*name.first()?, *name.last()?))
    }

    // Appends the line of an answer to the text.
    pub(crate) fn push_line(&mut self, text: &mut Vec<u8>, answer: Answer) -> Result<(), AllocError>
        requires { IsAnswerTo self.old.0 self.old.1 answer }
        ensures answer { OnOk result
            ((written : List ℕ) × IsAnswerOf self.old.0 self.old.1 answer.address written
            × (text.new.items ≡ text.old.items ++ written)) }
        ensures same { self.new ≡ self.old }
    {
        match self.lookup.form {
            Form::Lines => self.push_plain(text, answer),
            Form::Objects(file, _) => {
                text.extend_from_slice(self.object_of(file, answer)?.as_bytes())
            }
        }
    }

    // Appends the line of an address to the text. Returns whether a function symbol holds it.
    pub(crate) fn push_address_line(
        &mut self,
        text: &mut Vec<u8>,
        address: u64,
    ) -> Result<bool, AllocError>
        ensures line { IfOk result (λ _. (line : List ℕ) × IsLineAt self.old.0 self.old.1 address line
            × (text.new.items ≡ text.old.items ++ line)) }
        ensures held { IfOk result (λ held. held ≡ is_held self.old.0 self.old.1 address) }
        ensures same { self.new ≡ self.old }
    {
        let answer = self.answer_to(Some(address));
        self.push_line(text, answer)?;
        Ok(answer.found.is_some())
    }

    // Appends the line that is no object.
    fn push_plain(&mut self, text: &mut Vec<u8>, answer: Answer) -> Result<(), AllocError>
        requires { IsAnswerTo self.old.0 self.old.1 answer }
        ensures answer { OnOk result
            ((written : List ℕ) × IsAnswerIn lines self.old.0 self.old.1 answer.address written
            × (text.new.items ≡ text.old.items ++ written)) }
        ensures same { self.new ≡ self.old }
    {
        let Some(address) = answer.address else {
            return text.extend_from_slice(b"??\n");
        };
        push_address(text, address)?;
        match answer.found {
            Some((place, offset)) => {
                self.push_name(text, place)?;
                push_offset(text, offset, b'\n')
            }
            None => text.extend_from_slice(b"??\n"),
        }
    }

    // The answer as an object.
    fn object_of(&mut self, file: &str, answer: Answer) -> Result<String, AllocError>
        requires { IsAnswerTo self.old.0 self.old.1 answer }
        ensures answer { IfOk result (λ t. IsAnswerIn (objects file.now []) self.old.0 self.old.1 answer.address
            (string_bytes t)) }
        ensures same { self.new ≡ self.old }
    {
        let mut object = String::new(self.alloc);
        push_start(&mut object, file)?;
        push_given(&mut object, answer.address)?;
        self.push_symbol(&mut object, answer.found)?;
        object.push_str("}\n")?;
        Ok(object)
    }

    // Appends the members of the symbol that was found, or of none.
    fn push_symbol(&mut self, text: &mut String, found: Option<Found>) -> Result<(), AllocError>
        requires { IfSome found (λ f. f.0 < length self.old.0) }
        ensures symbol { OnOk result
            ((symbol : Option (List ℕ × ℕ)) × IsSymbolAt self.old.0 found symbol
            × (string_bytes text.new ≡ string_bytes text.old ++ symbol_members symbol)) }
        ensures same { self.new ≡ self.old }
    {
        let Some((place, offset)) = found else {
            push_text_member(text, "name", None)?;
            return push_text_member(text, "offset", None);
        };
        self.push_name_member(text, place)?;
        push_number_member(text, "offset", offset)
    }

    // Appends the member of the name of the function symbol at a place, and keeps the name, if there is room for it.
    fn push_name_member(&mut self, text: &mut String, place: usize) -> Result<(), AllocError>
        requires { place < length self.old.0 }
        ensures name { OnOk result
            ((name : List ℕ) × IsNamedAt self.old.0 place name
            × (string_bytes text.new ≡ string_bytes text.old ++ text_member (codes "name") (Some name))) }
        ensures same { self.new ≡ self.old }
    {
        if let Some(name) = self.name_at(place) {
            return push_text_member(text, "name", Some(name));
        }
        self.make_room();
        let mut name = String::new(self.alloc);
        self.demangler
            .push_shown(&mut name, self.places.at(place).name)?;
        let from = self.text.as_str().len();
        self.text.push_str(name.as_str())?;
        let to = self.text.as_str().len();
        keep(&mut self.kept, place, (from, to));
        push_text_member(text, "name", Some(name.as_str()))
    }

    /// Appends the readable name of the function symbol at a place to the text, and keeps it, if there is room for it.
    ///
    /// # Errors
    ///
    /// `AllocError` if an allocation failed: the text is then unspecified.
    #[inline(always)]
    pub fn push_name(&mut self, text: &mut Vec<u8>, place: usize) -> Result<(), AllocError>
        requires { place < length self.old.0 }
        ensures name { OnOk result
            ((name : List ℕ) × IsNamedAt self.old.0 place name
            × (text.new.items ≡ text.old.items ++ name)) }
        ensures same { self.new ≡ self.old }
    {
        if let Some(name) = self.name_at(place) {
            return text.extend_from_slice(name.as_bytes());
        }
        self.make_room();
        let from = self.text.as_str().len();
        self.demangler
            .push_shown(&mut self.text, self.places.at(place).name)?;
        let to = self.text.as_str().len();
        keep(&mut self.kept, place, (from, to));
        text.extend_from_slice(&self.text.as_bytes()[from..])
    }

    // Drops the names that are kept once they pass the most that may be: names that share an end take much more memory
    // than the file that has them.
    fn make_room(&mut self)
        ensures { self.new ≡ self.old }
    {
        if self.text.as_str().len() > MOST_KEPT {
            self.text.clear();
            self.kept.fill((0, 0));
        }
    }

    // The name that is kept at a place.
    #[inline(always)]
    fn name_at(&self, place: usize) -> Option<&str>
        ensures { IfSome result (λ name. IsNamedAt self.now.0 place name.now) }
    {
        match self.kept.get(place) {
            Some((from, to)) if from < to => self.text.as_str().get(*from..*to),
            _ => None,
        }
    }
}

// Keeps a part of the text as the name at a place, if there is room for it.
fn keep(kept: &mut Vec<(usize, usize)>, place: usize, part: (usize, usize))
    ensures { kept.new.items ≡ slice_set kept.old.items place part }
{
    if let Some(slot) = kept.get_mut(place) {
        *slot = part;
    }
}

// Appends the member `address`.
fn push_given(text: &mut String, address: Option<u64>) -> Result<(), AllocError>
    ensures { OnOk result (string_bytes text.new ≡ string_bytes text.old ++ address_value address) }
{
    match address {
        Some(address) => push_address_member(text, address),
        None => push_text_member(text, "address", None),
    }
}
