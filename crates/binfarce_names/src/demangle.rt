//! The readable form, the kind and the crate of a symbol's name.

ghost use Rattle.std.specs.Prelude.{◌≡◌, ◌++◌, ℕ, List, [], IfOk, OnOk, OnErr, option_map, encode_utf8_all, if◌then◌else◌};
ghost use Rattle.std.specs.Str.{IsAscii};
ghost use Rattle.std.specs.String.{string_bytes};
ghost use Rattle.binfarce_legacy.specs.Legacy.{Element, Reads, legacy_chars};
ghost use Rattle.binfarce_names.specs.Crates.{GrowsByCrate, crate_of, first_part, path_crate};
ghost use Rattle.binfarce_names.specs.Name.{Name, mangled_view, name_view, short_or, text_of};
ghost use Rattle.binfarce_names.specs.Named.{IsNamed, IsMangled, IsNotLegacy, IsRest, IsShown, legacy, unknown};
ghost use Rattle.binfarce_text.specs.Suffixes.{without_llvm};
ghost use Rattle.binfarce_v0.specs.machine.Outcome.{IsCandidate};
ghost use Rattle.binfarce_v0_state.specs.machine.Counted.{is_whole};

use binfarce_legacy::legacy;
use binfarce_text::suffixes::without_llvm;
use binfarce_v0::mangling as v0;
use binfarce_v0::mangling::Texts;
pub use binfarce_v0_grammar::limits::{MAX_LEVELS, MAX_STEPS};
use binfarce_v0_state::memory::Memory;
use binfarce_v0_state::state::Printer;
use std::alloc::{AllocError, Global};

/// How a name is mangled.
#[derive(Clone, Copy, PartialEq, Eq, Hash, Debug)]
pub enum Kind {
    /// Not mangled, in a form that isn't read, or beyond the limits: the name is unchanged.
    Unknown,
    /// The legacy mangling of `rustc`: `_ZN`, the elements of a path, each after its length, and `E`.
    Legacy,
    /// The v0 mangling (RFC 2603): `_R` and a path.
    V0,
}

/// A function symbol of a file.
#[derive(Drop)]
pub struct SymbolData {
    /// The symbol's name: in readable form if it is mangled, and otherwise as the file stores it.
    pub name: SymbolName,
    /// The symbol's address as the file stores it. In PE it is an offset in bytes within the symbol's section.
    pub address: u64,
    /// The symbol's size in bytes.
    pub size: u64,
}

/// A symbol's name in readable form.
#[derive(Drop)]
pub struct SymbolName {
    /// A legacy name's whole path, or a v0 name's path with the disambiguators of crates. An `Unknown` name is
    /// unchanged.
    pub complete: String,
    /// A legacy name's path without the last part, whether or not that is a hash, or a v0 name's path without the
    /// disambiguators of crates. An `Unknown` name is unchanged.
    pub trimmed: String,
    /// A v0 name's first crate root in reading order outside back references. It may be in the path
    /// of an impl, which isn't shown, and may be empty. `None` if there is no such root, and for other names.
    pub crate_name: Option<String>,
    /// How the name is mangled.
    pub kind: Kind,
}

/// A mangled name. It borrows a part of the given text: nothing is copied.
#[must_use]
#[derive(Drop)]
pub struct Demangled<'a> {
    kind: Kind,
    part: &'a str,
}

impl<'a> Demangled<'a> {
    /// How the name is mangled. `demangle` has decided it, so nothing is read here.
    ///
    /// `V0` means that the name is a v0 mangling. A name whose text would exceed the limits is `V0` here, and `Unknown`
    /// for `SymbolName::demangle`, which has to print it to know that.
    pub fn kind(&self) -> Kind
        ensures { result ≡ (mangled_view self.now).kind }
    {
        self.kind
    }

    /// The part of the name that is kept: what follows the mangling's prefix, without the `.llvm.` suffix; all of a
    /// name that isn't mangled. It is a slice of the text given to `demangle`, and is still mangled.
    pub fn part(&self) -> &'a str
        ensures { result.now ≡ (mangled_view self.now).part }
    {
        self.part
    }
}

impl SymbolName {
    ghost use Rattle.binfarce_names.specs.Name.{name_view};
    ghost use Rattle.binfarce_names.specs.Named.{IsNamed};

    /// The readable form of `name`. A name that isn't mangled is unchanged in both texts, with kind `Unknown`. So is a
    /// v0 name that nests deeper than `MAX_LEVELS` levels or takes more than `MAX_STEPS` steps.
    ///
    /// The texts are copies in memory of `alloc`.
    ///
    /// # Errors
    ///
    /// `AllocError` if an allocation failed.
    pub fn demangle(alloc: Global, name: &str) -> Result<SymbolName, AllocError>
        ensures named { IfOk result (λ n. IsNamed name.now (name_view n)) }
    {
        Demangler::new(alloc).demangle(name)
    }
}

/// Makes names readable, one after the other, in memory that it keeps for the next one.
///
/// Its results depend on the name alone, whatever came before: they are those of `SymbolName::demangle`, `push_trimmed`
/// and `crate_of`. Between names it keeps at most 1 MiB: larger buffers are freed.
#[derive(Drop)]
pub struct Demangler {
    memory: Memory,
}

impl Demangler {
    ghost use Rattle.binfarce_names.specs.Name.{name_view};
    ghost use Rattle.binfarce_names.specs.Named.{IsNamed};

    /// A demangler that keeps no memory yet. Nothing is allocated.
    pub fn new(alloc: Global) -> Demangler {
        Demangler {
            memory: Memory::new(alloc),
        }
    }

    /// The readable form of `name`, as `SymbolName::demangle` gives it.
    ///
    /// # Errors
    ///
    /// `AllocError` if an allocation failed.
    pub fn demangle(&mut self, name: &str) -> Result<SymbolName, AllocError>
        ensures named { IfOk result (λ n. IsNamed name.now (name_view n)) }
    {
        let stripped = without_llvm(name);
        if let Some((part, _)) = legacy::mangling(stripped) {
            return legacy_name(self.memory.alloc, part);
        }
        match v0::both_texts(&mut self.memory, stripped)? {
            Some(texts) => {
                let Texts {
                    complete,
                    trimmed,
                    crate_name,
                } = texts;
                Ok(SymbolName {
                    complete,
                    trimmed,
                    crate_name,
                    kind: Kind::V0,
                })
            }
            None => unknown(self.memory.alloc, name),
        }
    }

    /// Appends the trimmed text of `name` to `text`, as the function `push_trimmed` does.
    ///
    /// # Errors
    ///
    /// `AllocError` if an allocation failed. `text` is then unchanged.
    pub fn push_trimmed(&mut self, text: &mut String, name: &str) -> Result<(), AllocError>
        ensures trimmed { OnOk result
            ((n : Name) × IsNamed name.now n × (string_bytes text.new ≡ string_bytes text.old ++ n.trimmed)) }
        ensures unchanged { OnErr result (string_bytes text.new ≡ string_bytes text.old) }
    {
        let _ = self.push_and_rest(text, name)?;
        Ok(())
    }

    /// Appends the trimmed text of `name` and what follows its mangling to `text`, as the function `push_shown` does.
    ///
    /// # Errors
    ///
    /// `AllocError` if an allocation failed. `text` is then unchanged.
    pub fn push_shown(&mut self, text: &mut String, name: &str) -> Result<(), AllocError>
        ensures shown { OnOk result
            ((shown : List ℕ) × IsShown name.now shown × (string_bytes text.new ≡ string_bytes text.old ++ shown)) }
        ensures unchanged { OnErr result (string_bytes text.new ≡ string_bytes text.old) }
    {
        let mut shown = String::new(self.memory.alloc);
        let rest = self.push_and_rest(&mut shown, name)?;
        shown.push_str(rest)?;
        text.push_str(shown.as_str())
    }

    // Appends the trimmed text of `name` to `text`. Returns what follows the mangling in `name`.
    #[inline(always)]
    fn push_and_rest<'a>(&mut self, text: &mut String, name: &'a str) -> Result<&'a str, AllocError>
        ensures trimmed { IfOk result
            (λ rest. (n : Name) × IsNamed name.now n × IsRest n.kind name.now rest.now
            × (string_bytes text.new ≡ string_bytes text.old ++ n.trimmed)) }
        ensures unchanged { OnErr result (string_bytes text.new ≡ string_bytes text.old) }
    {
        let stripped = without_llvm(name);
        if let Some((part, rest)) = legacy::mangling(stripped) {
            legacy::push_trimmed(text, part)?;
            return Ok(rest);
        }
        let Some(part) = v0::candidate(stripped) else {
            text.push_str(name)?;
            return Ok("");
        };
        self.push_candidate(text, name, part, false, None)
    }

    /// Replaces `text` by the trimmed text of `name`, or if `full` by its complete text, as `demangle` gives them; by
    /// `name` itself where that has `below` bytes or more. Of such a text little more than `below` bytes are made, or
    /// of a legacy name at most one and a half times its length.
    ///
    /// # Errors
    ///
    /// `AllocError` if an allocation failed.
    pub fn short_text(
        &mut self,
        text: &mut String,
        name: &str,
        full: bool,
        below: usize,
    ) -> Result<(), AllocError>
        ensures { OnOk result
            ((n : Name) × IsNamed name.now n × (string_bytes text.new ≡ short_or below name.now (text_of full n))) }
    {
        text.clear();
        let stripped = without_llvm(name);
        if let Some((part, _)) = legacy::mangling(stripped) {
            return short_legacy(self.memory.alloc, text, name, part, full, below);
        }
        let Some(part) = v0::candidate(stripped) else {
            return text.push_str(name);
        };
        let _ = self.push_candidate(text, name, part, full, Some(below))?;
        Ok(())
    }

    // Appends the text of a name that isn't a legacy mangling and may be a v0 one; the name itself where its text has
    // `most` bytes or more. Returns what follows the mangling in the name. A printing is a large value, which is zeroed
    // at the beginning of a function: so other names don't get here.
    #[inline(never)]
    fn push_candidate<'a>(
        &mut self,
        text: &mut String,
        name: &str,
        part: &'a str,
        full: bool,
        most: Option<usize>,
    ) -> Result<&'a str, AllocError>
        requires not_legacy { IsNotLegacy name.now }
        requires candidate { IsCandidate (without_llvm name.now) part.now }
        ensures grown { IfOk result
            (λ rest. (n : Name) × IsNamed name.now n × IsRest n.kind name.now rest.now
            × (string_bytes text.new
            ≡ string_bytes text.old ++ (if is_whole most (text_of full n) then text_of full n else name.now))) }
        ensures unchanged { OnErr result (string_bytes text.new ≡ string_bytes text.old) }
    {
        let mut printer = Printer::new(self.memory.take(), part, full, false, most);
        let Some(rest) = v0::print_mangling(&mut printer)? else {
            self.memory.put_back(printer.into_buffers());
            text.push_str(name)?;
            return Ok("");
        };
        let pushed = printer.push_text(self.memory.alloc, text, name);
        self.memory.put_back(printer.into_buffers());
        pushed?;
        Ok(rest)
    }

    /// The crate of `name`, as the function `crate_of` gives it.
    ///
    /// # Errors
    ///
    /// `AllocError` if an allocation failed.
    pub fn crate_of(&mut self, name: &str) -> Result<Option<String>, AllocError>
        ensures crate_found { IfOk result
            (λ c. (n : Name) × IsNamed name.now n × (option_map string_bytes c ≡ crate_of n)) }
    {
        crate_of(self.memory.alloc, name)
    }
}

/// Appends the trimmed text of `name`, as `SymbolName::demangle` gives it, to `text`.
///
/// # Errors
///
/// `AllocError` if an allocation failed. `text` is then unchanged.
pub fn push_trimmed(alloc: Global, text: &mut String, name: &str) -> Result<(), AllocError>
    ensures trimmed { OnOk result
        ((n : Name) × IsNamed name.now n × (string_bytes text.new ≡ string_bytes text.old ++ n.trimmed)) }
    ensures unchanged { OnErr result (string_bytes text.new ≡ string_bytes text.old) }
{
    Demangler::new(alloc).push_trimmed(text, name)
}

/// Appends to `text` the trimmed text of `name` and then what follows its mangling, such as `.cold`, without the
/// `.llvm.` suffix. A name that `SymbolName::demangle` leaves unchanged is appended as it is.
///
/// # Errors
///
/// `AllocError` if an allocation failed. `text` is then unchanged.
pub fn push_shown(alloc: Global, text: &mut String, name: &str) -> Result<(), AllocError>
    ensures shown { OnOk result
        ((shown : List ℕ) × IsShown name.now shown × (string_bytes text.new ≡ string_bytes text.old ++ shown)) }
    ensures unchanged { OnErr result (string_bytes text.new ≡ string_bytes text.old) }
{
    Demangler::new(alloc).push_shown(text, name)
}

/// The crate of `name`: of a v0 name its `crate_name`, and of a legacy name the first part of its path, unless that
/// begins with `<`. `None` if there is no crate, and for other names.
///
/// # Errors
///
/// `AllocError` if an allocation failed.
pub fn crate_of(alloc: Global, name: &str) -> Result<Option<String>, AllocError>
    ensures crate_found { IfOk result
        (λ c. (n : Name) × IsNamed name.now n × (option_map string_bytes c ≡ crate_of n)) }
{
    let mut text = String::new(alloc);
    if push_crate(alloc, &mut text, name)? {
        Ok(Some(text))
    } else {
        Ok(None)
    }
}

/// Appends the crate that `crate_of` gives to `text`. Returns true if `name` has a crate; otherwise false, and nothing
/// is written. For many names, clear one text before each: it takes the memory of the longest crate alone.
///
/// # Errors
///
/// `AllocError` if an allocation failed. `text` is then unchanged.
pub fn push_crate(alloc: Global, text: &mut String, name: &str) -> Result<bool, AllocError>
    ensures crate_found { IfOk result
        (λ crate_found. (n : Name) × IsNamed name.now n × GrowsByCrate (crate_of n) crate_found (string_bytes text.old)
        (string_bytes text.new)) }
    ensures unchanged { OnErr result (string_bytes text.new ≡ string_bytes text.old) }
{
    let stripped = without_llvm(name);
    match legacy::mangling(stripped) {
        Some((part, _)) => push_path_crate(text, part),
        None => v0::push_crate_name(alloc, text, stripped),
    }
}

// Appends the crate that the path of a legacy mangling begins with to the text. Returns whether there is one. The path
// isn't read beyond its first element and the `::` after it: the crate ends before. A failed allocation leaves the text
// unchanged.
fn push_path_crate(text: &mut String, part: &str) -> Result<bool, AllocError>
    requires { IsAscii part.now }
    ensures crate_found { IfOk result
        (λ crate_found. (elements : List Element) (rest : List ℕ) → Reads part.now elements rest
        → GrowsByCrate (path_crate (encode_utf8_all (legacy_chars elements))) crate_found (string_bytes text.old)
        (string_bytes text.new)) }
    ensures unchanged { OnErr result (string_bytes text.new ≡ string_bytes text.old) }
{
    let start = text.as_str().len();
    match legacy::push_front(text, part) {
        Ok(()) => {
            let front = &text.as_str()[start..];
            if front.starts_with("<") {
                text.truncate(start);
                return Ok(false);
            }
            let kept = first_part(front).len();
            text.truncate(start + kept);
            Ok(true)
        }
        Err(refused) => {
            text.truncate(start);
            Err(refused)
        }
    }
}

// A path up to its first `::`, or all of it.
fn first_part(path: &str) -> &str
    ensures { result.now ≡ first_part path.now }
{
    match path.split_once("::") {
        Some((first, _)) => first,
        None => path,
    }
}

// The name of a legacy mangling; `part` is what follows its prefix.
fn legacy_name(alloc: Global, part: &str) -> Result<SymbolName, AllocError>
    requires { IsAscii part.now }
    ensures { IfOk result
        (λ n. (elements : List Element) (rest : List ℕ) → Reads part.now elements rest
        → name_view n ≡ legacy elements) }
{
    let complete = legacy::complete(alloc, part)?;
    let trimmed = legacy::trimmed(alloc, complete.as_str())?;
    Ok(SymbolName {
        complete,
        trimmed,
        crate_name: None,
        kind: Kind::Legacy,
    })
}

// Replaces an empty text by that of a legacy mangling, or by its name where that has `below` bytes or more.
#[tactic(auto, using(crate::proofs::Trimmed::short_stays, crate::proofs::Trimmed::long_goes))]
fn short_legacy(
    alloc: Global,
    text: &mut String,
    name: &str,
    part: &str,
    full: bool,
    below: usize,
) -> Result<(), AllocError>
    requires ascii { IsAscii part.now }
    requires empty { string_bytes text.old ≡ [] }
    ensures { OnOk result ((elements : List Element) (rest : List ℕ)
        → Reads part.now elements rest
        → string_bytes text.new ≡ short_or below name.now (text_of full (legacy elements))) }
{
    legacy_text(alloc, text, part, full)?;
    if text.as_str().len() < below {
        return Ok(());
    }
    text.clear();
    text.push_str(name)
}

// Replaces an empty text by that of a legacy mangling.
fn legacy_text(alloc: Global, text: &mut String, part: &str, full: bool) -> Result<(), AllocError>
    requires ascii { IsAscii part.now }
    requires empty { string_bytes text.old ≡ [] }
    ensures { OnOk result ((elements : List Element) (rest : List ℕ)
        → Reads part.now elements rest → string_bytes text.new ≡ text_of full (legacy elements)) }
{
    if full {
        *text = legacy::complete(alloc, part)?;
        return Ok(());
    }
    legacy::push_trimmed(text, part)
}

// A name that is unchanged.
fn unknown(alloc: Global, name: &str) -> Result<SymbolName, AllocError>
    ensures { IfOk result (λ n. name_view n ≡ unknown name.now) }
{
    Ok(SymbolName {
        complete: String::from_str(alloc, name)?,
        trimmed: String::from_str(alloc, name)?,
        crate_name: None,
        kind: Kind::Unknown,
    })
}

/// How `name` is mangled. Nothing is allocated or copied. The part that is kept follows the mangling's prefix, without
/// the `.llvm.` suffix that LLVM may have added. Of a name that isn't mangled, all is kept.
#[tactic(auto, unfolding(crate::specs::Named::IsMangled))]
pub fn demangle(name: &str) -> Demangled<'_>
    ensures mangled { IsMangled name.now (mangled_view result) }
{
    let text = without_llvm(name);
    if let Some((part, _)) = legacy::mangling(text) {
        return Demangled {
            kind: Kind::Legacy,
            part,
        };
    }
    match v0::mangled_part(text) {
        Some(part) => Demangled {
            kind: Kind::V0,
            part,
        },
        None => Demangled {
            kind: Kind::Unknown,
            part: name,
        },
    }
}
