//! A whole v0 mangling.

ghost use Rattle.std.specs.Prelude.{◌≡◌, ◌++◌, ℕ, List, [], IfOk, OnOk, OnErr, MatchBool, MatchOption, Option, is_some, option_map, unwrap_or, drop};
ghost use Rattle.std.specs.Option.{option_copied};
ghost use Rattle.std.specs.Str.{IsAscii};
ghost use Rattle.std.specs.String.{string_bytes};
ghost use Rattle.binfarce_v0_state.specs.LeafTexts.{identifier_text};
ghost use Rattle.binfarce_v0_grammar.specs.Tree.{PathTree};
ghost use Rattle.binfarce_v0_grammar.specs.Unfolding.{UnfoldsTo};
ghost use Rattle.binfarce_v0_grammar.specs.machine.View.{undisambiguated_view};
ghost use Rattle.binfarce_v0.specs.Mangling.{part_after_prefix, is_upper_at, IsMangling, IsV0, HasRest, HasNoTree};
ghost use Rattle.binfarce_v0.specs.machine.Mangling.{paths_end};
ghost use Rattle.binfarce_v0.specs.machine.Outcome.{ReadsUpTo, HasBegun, IsCandidate, IsOutcomeOf, IsCrateName, AreTexts};

use crate::paths::print_path;
use binfarce_text::prefixes::after_prefix;
use binfarce_text::suffixes::is_allowed_rest;
use binfarce_v0_grammar::identifiers::UndisambiguatedIdentifier;
use binfarce_v0_grammar::limits::MAX_LEVELS;
use binfarce_v0_grammar::numbers::byte_at;
use binfarce_v0_grammar::reading::read_path;
use binfarce_v0_state::memory::Memory;
use binfarce_v0_state::nesting::Nesting;
use binfarce_v0_state::position::Position;
use binfarce_v0_state::state::{Buffers, Printer};
use binfarce_v0_state::text::Leaf;
use std::alloc::{AllocError, Global};

// The part of a text after the prefix of a v0 mangling.
#[tactic(auto, unfolding(crate::specs::Mangling::part_after_prefix))]
fn part_after_prefix(text: &str) -> Option<&str>
    ensures { option_copied result ≡ part_after_prefix text.now }
{
    after_prefix(text, "_R", "R", "__R")
}

// Whether a path may begin at a position.
fn is_upper_at(part: &[u8], at: usize) -> bool
    ensures { result ≡ is_upper_at part.now at }
{
    byte_at(part, at).is_ascii_uppercase()
}

// The position after the paths of a name. The position after the first path may be known.
#[tactic(auto, using(crate::proofs::Manglings::first_path_known))]
fn paths_end(part: &str, first: Option<usize>) -> Option<usize>
    requires ascii { IsAscii part.now }
    requires known { ReadsUpTo part.now first }
    ensures { result ≡ paths_end part.now }
{
    let mid = match first {
        Some(mid) => mid,
        None => read_path(part, MAX_LEVELS, 0)?,
    };
    if is_upper_at(part.as_bytes(), mid) {
        read_path(part, MAX_LEVELS, mid)
    } else {
        Some(mid)
    }
}

/// The part after the prefix of a text that may begin with a v0 mangling. `None` if `text` begins with none: most
/// names that aren't mangled are ruled out by their first bytes. Nothing is allocated.
#[inline(always)]
pub fn candidate(text: &str) -> Option<&str>
    ensures { MatchOption result ((part : List ℕ) (after : ℕ) → IsMangling text.now part after → ⊥)
        (λ part. IsCandidate text.now part.now) }
{
    let part = part_after_prefix(text)?;
    if is_upper_at(part.as_bytes(), 0) && part.is_ascii() {
        Some(part)
    } else {
        None
    }
}

/// The v0 mangling that `text` begins with: the part after its prefix, and the position in that part after its paths.
/// `None` if `text` begins with no v0 mangling whose reading has at most `MAX_LEVELS` levels. Nothing is allocated.
pub fn read(text: &str) -> Option<(&str, usize)>
    ensures { MatchOption result ((part : List ℕ) (after : ℕ) → IsMangling text.now part after → ⊥)
        (λ r. IsMangling text.now r.0.now r.1) }
{
    let part = candidate(text)?;
    let after = paths_end(part, None)?;
    Some((part, after))
}

/// Prints what the part of a new printing unfolds to. Returns whether that is a tree of at most `MAX_LEVELS` levels and
/// `MAX_STEPS` steps. The printing then has the text of the tree without the disambiguators of crates; a full printing
/// has both texts, with and without them; of each only the bytes that the printing counts are the tree's. A muted
/// printing reads the same, and its texts are empty.
#[inline(always)]
pub fn print(printer: &mut Printer<'_>) -> Result<bool, AllocError>
    requires { HasBegun printer.now }
    ensures { IfOk result
        (λ within. MatchBool within (IsOutcomeOf printer.old printer.new)
        ((tree : PathTree) → UnfoldsTo printer.old.part tree → ⊥)) }
{
    printer.prepare()?;
    let whole = Nesting {
        levels_left: MAX_LEVELS,
        binder_depth: 0,
    };
    print_path(printer, whole, Position::InValue)?;
    Ok(!printer.limit_exceeded)
}

/// The part of `text` after the prefix of a v0 mangling, up to its end: back references may name positions in all of
/// it. `None` if `text` isn't a v0 mangling whose reading has at most `MAX_LEVELS` levels. Nothing is allocated.
pub fn mangled_part(text: &str) -> Option<&str>
    ensures { MatchOption result ((part : List ℕ) → IsV0 text.now part → ⊥) (λ p. IsV0 text.now p.now) }
{
    let (part, after) = read(text)?;
    if is_allowed_rest(rest_from(part, after).as_bytes()) {
        Some(part)
    } else {
        None
    }
}

// The part from a position on.
#[tactic(auto, using(binfarce_v0_grammar::proofs::TextLemmas::ascii_parts))]
fn rest_from(part: &str, at: usize) -> &str
    requires { IsAscii part.now }
    ensures { result.now ≡ drop at part.now }
{
    if at <= part.len() { &part[at..] } else { "" }
}

/// Prints what the part of a new printing unfolds to, as `print` does. `candidate` gave this part of a text. Returns
/// what follows the mangling in the text. `None` if the text isn't a v0 mangling whose reading has at most
/// `MAX_LEVELS` levels, and which unfolds to a tree of at most `MAX_LEVELS` levels and `MAX_STEPS` steps.
///
/// Printing without invalid syntax outside back references also reads the first path: then only a second path is left
/// to read.
#[inline(always)]
pub fn print_mangling<'a>(printer: &mut Printer<'a>) -> Result<Option<&'a str>, AllocError>
    requires { HasBegun printer.now }
    ensures { IfOk result
        (λ rest. (text : List ℕ) → IsCandidate text printer.old.part
        → MatchOption rest (HasNoTree text)
        (λ rest. HasRest text printer.old.part rest.now × IsOutcomeOf printer.old printer.new)) }
{
    if !print(printer)? {
        return Ok(None);
    }
    let Some(after) = paths_end(printer.part, printer.at) else {
        return Ok(None);
    };
    let rest = rest_from(printer.part, after);
    if !is_allowed_rest(rest.as_bytes()) {
        return Ok(None);
    }
    Ok(Some(rest))
}

/// Both texts of a name, and its crate.
#[derive(Drop)]
pub struct Texts {
    pub complete: String,
    pub trimmed: String,
    pub crate_name: Option<String>,
}

// The text of a crate's name.
fn root_text(
    alloc: Global,
    root: Option<UndisambiguatedIdentifier<'_>>,
) -> Result<Option<String>, AllocError>
    ensures { IfOk result
        (λ t. option_map string_bytes t ≡ option_map identifier_text (option_map undisambiguated_view root.entry)) }
{
    let Some(name) = root else {
        return Ok(None);
    };
    let mut text = String::new(alloc);
    name.push(&mut text)?;
    Ok(Some(text))
}

// Appends a crate's name to the text. Returns whether there is one. A failed allocation leaves the text unchanged.
#[tactic(auto, unfolding(binfarce_v0_state::specs::LeafTexts::identifier_text))]
fn push_root(
    alloc: Global,
    text: &mut String,
    root: Option<UndisambiguatedIdentifier<'_>>,
) -> Result<bool, AllocError>
    ensures crate_found { IfOk result (λ crate_found. crate_found ≡ is_some root.entry) }
    ensures grown { OnOk result
        (string_bytes text.new
        ≡ string_bytes text.old
        ++ unwrap_or (option_map identifier_text (option_map undisambiguated_view root.entry)) []) }
    ensures unchanged { OnErr result (string_bytes text.new ≡ string_bytes text.old) }
{
    let Some(name) = root else {
        return Ok(false);
    };
    if name.punycode.is_empty() {
        text.push_str(name.ascii)?;
        return Ok(true);
    }
    let mut decoded = String::new(alloc);
    name.push(&mut decoded)?;
    text.push_str(decoded.as_str())?;
    Ok(true)
}

/// Appends to `text` the name of the first crate root in the tree that the v0 mangling `name` unfolds to. Returns
/// whether there is one: there is none where the tree has no crate root, and where `name` isn't a v0 mangling that
/// unfolds to a tree within the limits. Nothing else is written. The only error is a failed allocation; `text` is then
/// unchanged.
pub fn push_crate_name(alloc: Global, text: &mut String, name: &str) -> Result<bool, AllocError>
    ensures crate_found { IfOk result
        (λ crate_found. (crate_name : Option (List ℕ)) × IsCrateName name.now crate_name
        × (crate_found ≡ is_some crate_name)
        × (string_bytes text.new ≡ string_bytes text.old ++ unwrap_or crate_name [])) }
    ensures unchanged { OnErr result (string_bytes text.new ≡ string_bytes text.old) }
{
    let Some(part) = candidate(name) else {
        return Ok(false);
    };
    let mut printer = Printer::new(Buffers::empty(alloc), part, false, true, None);
    match print_mangling(&mut printer)? {
        Some(_) => push_root(alloc, text, printer.root),
        None => Ok(false),
    }
}

/// Both texts of the tree that the v0 mangling `text` unfolds to, and its crate. `None` if `text` isn't a v0
/// mangling that unfolds to a tree within the limits.
///
/// The name is printed once. The texts are copies in memory of their lengths. The only error is a failed allocation.
pub fn both_texts(memory: &mut Memory, text: &str) -> Result<Option<Texts>, AllocError>
    ensures { IfOk result
        (λ t. MatchOption t (HasNoTree text.now) (λ t. AreTexts text.now (string_bytes t.complete)
        (string_bytes t.trimmed) (option_map string_bytes t.crate_name))) }
{
    let Some(part) = candidate(text) else {
        return Ok(None);
    };
    let alloc = memory.alloc;
    let mut printer = Printer::new(memory.take(), part, true, false, None);
    let Some(_rest) = print_mangling(&mut printer)? else {
        memory.put_back(printer.into_buffers());
        return Ok(None);
    };
    let crate_name = root_text(alloc, printer.root)?;
    let (complete, trimmed) = printer.texts(alloc)?;
    memory.put_back(printer.into_buffers());
    Ok(Some(Texts {
        complete,
        trimmed,
        crate_name,
    }))
}
