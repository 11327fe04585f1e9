//! Printing the name of a nested path and a crate root.

ghost use Rattle.std.specs.Prelude.{◌≡◌, OnOk, true, false};
ghost use Rattle.std.specs.Char.{is_ascii_uppercase};
ghost use Rattle.binfarce_v0_grammar.specs.Identifiers.{identifier};
ghost use Rattle.binfarce_v0_grammar.specs.Forms.{identifier_at};
ghost use Rattle.binfarce_v0_state.specs.machine.Printing.{with_state, named_state, crate_state};

use binfarce_v0_grammar::identifiers::{identifier_at, identifier_name_at};
use binfarce_v0_state::state::Printer;
use binfarce_v0_state::text::{AfterMark, Nested};
use std::alloc::AllocError;

// The name of a nested path after its parent.
pub fn print_nested_name(printer: &mut Printer<'_>, namespace: u8) -> Result<(), AllocError>
    ensures { OnOk result
        (printer.new ≡ with_state
        (named_state namespace printer.old.state (identifier_at printer.old.part printer.old.state.at)) printer.old) }
{
    let Some(at) = printer.at else {
        return printer.invalid_syntax();
    };
    if namespace.is_ascii_uppercase() {
        print_special_name(printer, namespace, at)
    } else {
        print_plain_name(printer, namespace, at)
    }
}

// The name of a closure, or of an item in another special namespace, with its disambiguator.
fn print_special_name(printer: &mut Printer<'_>, namespace: u8, at: usize) -> Result<(), AllocError>
    ensures { OnOk result
        (printer.new ≡ with_state (named_state namespace printer.old.state (identifier printer.old.part at))
        printer.old) }
{
    match identifier_at(printer.part, at) {
        Some((identifier, after)) => {
            printer.seek(Some(after));
            printer.put(Nested(namespace, identifier))
        }
        None => printer.invalid_syntax(),
    }
}

// The name of any other nested path, whose disambiguator isn't shown.
#[tactic(auto, using(crate::proofs::Shown::plain_name))]
fn print_plain_name(printer: &mut Printer<'_>, namespace: u8, at: usize) -> Result<(), AllocError>
    requires { is_ascii_uppercase namespace ≡ false }
    ensures { OnOk result
        (printer.new ≡ with_state (named_state namespace printer.old.state (identifier printer.old.part at))
        printer.old) }
{
    match identifier_name_at(printer.part, at) {
        Some((name, after)) => {
            printer.seek(Some(after));
            printer.put(AfterMark("::", name))
        }
        None => printer.invalid_syntax(),
    }
}

// `"C" <identifier>`, by the position of the identifier.
pub fn print_crate_root(printer: &mut Printer<'_>, at: usize) -> Result<(), AllocError>
    ensures { OnOk result
        (printer.new ≡ with_state (crate_state (identifier printer.old.part at) printer.old.state) printer.old) }
{
    if printer.full {
        print_full_root(printer, at)
    } else {
        print_trimmed_root(printer, at)
    }
}

// A crate's name with its disambiguator.
fn print_full_root(printer: &mut Printer<'_>, at: usize) -> Result<(), AllocError>
    requires { printer.now.state.full ≡ true }
    ensures { OnOk result
        (printer.new ≡ with_state (crate_state (identifier printer.old.part at) printer.old.state) printer.old) }
{
    match identifier_at(printer.part, at) {
        Some((root, after)) => {
            printer.seek(Some(after));
            printer.keep_root(root.name);
            printer.put(root.name)?;
            printer.disambiguate(root.disambiguator)
        }
        None => printer.invalid_syntax(),
    }
}

// A crate's name without its disambiguator.
#[tactic(auto, using(crate::proofs::Shown::trimmed_root))]
fn print_trimmed_root(printer: &mut Printer<'_>, at: usize) -> Result<(), AllocError>
    requires { printer.now.state.full ≡ false }
    ensures { OnOk result
        (printer.new ≡ with_state (crate_state (identifier printer.old.part at) printer.old.state) printer.old) }
{
    match identifier_name_at(printer.part, at) {
        Some((name, after)) => {
            printer.seek(Some(after));
            printer.keep_root(name);
            printer.put(name)
        }
        None => printer.invalid_syntax(),
    }
}
