//! Names and their crates.

use binfarce_names::demangle::{
    Demangler, Kind, SymbolName, crate_of, demangle, push_shown, push_trimmed,
};
use std::alloc::{AllocError, Global};

/// One demangler of all names, and the names after which each is asked for.
#[derive(Drop)]
pub struct Names {
    alloc: Global,
    demangler: Demangler,
    before: Vec<String>,
}

impl Names {
    pub fn new(alloc: Global) -> Names {
        Names {
            alloc,
            demangler: Demangler::new(alloc),
            before: Vec::new(alloc),
        }
    }

    /// From here on each name is also asked of the demangler, after this one.
    pub fn ask_after(&mut self, before: &str) -> Result<(), AllocError> {
        self.before.push(String::from_str(self.alloc, before)?)?;
        Ok(())
    }

    /// Appends the answer of a name. In front of it is which other calls give another one.
    pub fn push_answer(&mut self, line: &mut String, name: &str) -> Result<(), AllocError> {
        let answer = SymbolName::demangle(self.alloc, name)?;
        if !is_given_alone(self.alloc, name, &answer)? {
            line.push_str("otherwise alone: ")?;
        }
        for before in &self.before {
            if !is_given_after(&mut self.demangler, before.as_str(), name, &answer)? {
                line.push_str("otherwise after ")?;
                line.push_str(before.as_str())?;
                line.push_str(": ")?;
            }
        }
        push_fields(line, &answer)
    }

    /// Appends the trimmed text of a name and what follows its mangling to an empty line, and whether a demangler gives
    /// another one.
    pub fn push_suffixed(&mut self, line: &mut String, name: &str) -> Result<(), AllocError> {
        push_shown(self.alloc, line, name)?;
        let mut text = String::new(self.alloc);
        self.demangler.push_shown(&mut text, name)?;
        if text.as_str() != line.as_str() {
            line.push_str(" otherwise after another name")?;
        }
        Ok(())
    }
}

// Whether the trimmed text alone, after another text, and the crate alone are those of an answer.
fn is_given_alone(alloc: Global, name: &str, answer: &SymbolName) -> Result<bool, AllocError> {
    let mut text = String::from_str(alloc, "a line ")?;
    push_trimmed(alloc, &mut text, name)?;
    let root = crate_of(alloc, name)?;
    let trimmed = text.as_str().strip_prefix("a line ");
    Ok(trimmed == Some(answer.trimmed.as_str()) && is_root(&root, answer))
}

// Whether each call of a demangler gives the answer, each after another name.
fn is_given_after(
    demangler: &mut Demangler,
    before: &str,
    name: &str,
    answer: &SymbolName,
) -> Result<bool, AllocError> {
    let mut text = demangler.demangle(before)?.trimmed;
    text.clear();
    demangler.push_trimmed(&mut text, name)?;
    let is_trimmed = text.as_str() == answer.trimmed.as_str();
    let is_short = is_shortened(demangler, &mut text, name, answer)?;
    demangler.push_trimmed(&mut text, before)?;
    let other = demangler.demangle(name)?;
    let _ = demangler.crate_of(before)?;
    let root = demangler.crate_of(name)?;
    Ok(is_trimmed && is_short && is_root(&root, answer) && is_same(&other, answer))
}

// Whether the complete text is given below any limit, and the name at the text's own length.
fn is_shortened(
    demangler: &mut Demangler,
    text: &mut String,
    name: &str,
    answer: &SymbolName,
) -> Result<bool, AllocError> {
    demangler.short_text(text, name, true, usize::MAX)?;
    let is_complete = text.as_str() == answer.complete.as_str();
    demangler.short_text(text, name, true, answer.complete.as_str().len())?;
    let is_name = text.as_str() == name;
    text.clear();
    Ok(is_complete && is_name)
}

fn is_same(other: &SymbolName, answer: &SymbolName) -> bool {
    other.kind == answer.kind
        && other.complete.as_str() == answer.complete.as_str()
        && other.trimmed.as_str() == answer.trimmed.as_str()
        && root_text(&other.crate_name) == root_text(&answer.crate_name)
}

// Whether the crate alone is that of an answer. A legacy name has one, but its answer has none.
fn is_root(root: &Option<String>, answer: &SymbolName) -> bool {
    answer.kind == Kind::Legacy || root_text(root) == root_text(&answer.crate_name)
}

// A crate, or `-` for none.
fn root_text(root: &Option<String>) -> &str {
    match root {
        Some(root) => root.as_str(),
        None => "-",
    }
}

fn push_kind(line: &mut String, kind: Kind) -> Result<(), AllocError> {
    line.push_str(match kind {
        Kind::Unknown => "Unknown|",
        Kind::Legacy => "Legacy|",
        Kind::V0 => "V0|",
    })
}

fn push_fields(line: &mut String, answer: &SymbolName) -> Result<(), AllocError> {
    push_kind(line, answer.kind)?;
    line.push_str(answer.complete.as_str())?;
    line.push('|')?;
    line.push_str(answer.trimmed.as_str())?;
    line.push('|')?;
    line.push_str(root_text(&answer.crate_name))
}

/// Appends the crate of a name, or `-` for none.
pub fn push_crate(alloc: Global, line: &mut String, name: &str) -> Result<(), AllocError> {
    line.push_str(root_text(&crate_of(alloc, name)?))
}

/// Appends how a name is mangled, by its mangling alone, and the part of it that is kept.
pub fn push_kept(line: &mut String, name: &str) -> Result<(), AllocError> {
    let mangling = demangle(name);
    push_kind(line, mangling.kind())?;
    line.push_str(mangling.part())
}
