//! Printing a type, by the letter that its form begins with.

ghost use Rattle.std.specs.Prelude.{◌≡◌, ℕ, ◌+◌, ◌<◌, ◌==◌, OnOk, Some, None, codes, length, slice_index};
ghost use Rattle.std.specs.Option.{option_map_or};
ghost use Rattle.binfarce_v0_grammar.specs.Base62.{optional_base_62_number};
ghost use Rattle.binfarce_v0_grammar.specs.Forms.{SliceOf, DynOf, InvalidDyn, lifetime, reference_form, function_form, type_form_by, type_form};
ghost use Rattle.binfarce_v0_grammar.specs.Tree.{Items, NoType, Types};
ghost use Rattle.binfarce_v0_grammar.specs.machine.View.{signature_view};
ghost use Rattle.binfarce_v0_state.specs.machine.Printing.{WithinLevels, with_state, readers, type_rule, items_from, function_rule, dyn_rule, dyn_life, taking, seek, write, array_rule, tuple_end, invalid_function};

use crate::consts::print_const;
use crate::lists::print_items;
use crate::paths::print_path;
use crate::productions::{print, print_target};
use binfarce_v0_grammar::forms::{
    FunctionForm, Listed, Signature, basic_type, function_form, lifetime_form,
};
use binfarce_v0_grammar::numbers::{back_reference, byte_at, optional_base_62_number};
use binfarce_v0_grammar::positions::{bound_end, eat, required_end};
use binfarce_v0_state::fragments::Production;
use binfarce_v0_state::nesting::Nesting;
use binfarce_v0_state::position::Position;
use binfarce_v0_state::state::Printer;
use binfarce_v0_state::text::{Binder, DynLifetime, ReferenceLifetime};
use std::alloc::AllocError;

/// `<type>`. It is kept where a back reference may name it.
#[cycle(printing)]
pub fn print_type(printer: &mut Printer<'_>, here: Nesting) -> Result<(), AllocError>
    ensures { OnOk result
        (printer.new ≡ with_state (((readers printer.old.part here.levels_left).ty here.binder_depth
        printer.old.state).1)
        printer.old) }
{
    print(printer, here, Production::Type)?;
    Ok(())
}

// A type by the letter that it begins with.
#[cycle(printing)]
#[inline(always)]
#[tactic(auto, unfolding(binfarce_v0_state::specs::machine::Printing::type_rule, binfarce_v0_grammar::specs::Forms::type_form))]
pub(crate) fn print_type_by_letter(
    printer: &mut Printer<'_>,
    here: Nesting,
) -> Result<(), AllocError>
    requires entered { WithinLevels (here.levels_left + 1) here.binder_depth }
    ensures { OnOk result
        (printer.new ≡ with_state
        ((type_rule printer.old.part (readers printer.old.part here.levels_left) here.binder_depth printer.old.state
        (type_form printer.old.part printer.old.state.at)).1) printer.old) }
{
    let Some(at) = printer.at else {
        return printer.invalid_syntax();
    };
    if at >= printer.part.len() {
        return printer.invalid_syntax();
    }
    match basic_type(byte_at(printer.part.as_bytes(), at)) {
        Some(text) => {
            printer.seek(Some(at + 1));
            printer.write(text)
        }
        None => print_other_type(printer, here, at),
    }
}

// A type that isn't a basic type.
#[cycle(printing)]
#[inline(always)]
#[tactic(auto, unfolding(binfarce_v0_state::specs::machine::Printing::type_rule, binfarce_v0_grammar::specs::Forms::type_form_by))]
fn print_other_type(printer: &mut Printer<'_>, here: Nesting, at: usize) -> Result<(), AllocError>
    requires entered { WithinLevels (here.levels_left + 1) here.binder_depth }
    requires within { at < length printer.now.part }
    ensures { OnOk result
        (printer.new ≡ with_state
        ((type_rule printer.old.part (readers printer.old.part here.levels_left) here.binder_depth printer.old.state
        (type_form_by printer.old.part at (slice_index printer.old.part at))).1) printer.old) }
{
    let bytes = printer.part.as_bytes();
    let after = at + 1;
    match byte_at(bytes, at) {
        b'R' => print_reference(printer, here, false, after),
        b'Q' => print_reference(printer, here, true, after),
        b'P' => print_pointer(printer, here, "*const ", after),
        b'O' => print_pointer(printer, here, "*mut ", after),
        b'S' => print_slice(printer, here, after),
        b'A' => print_array(printer, here, after),
        b'T' => print_tuple(printer, here, after),
        b'F' => print_function_form(printer, here, after),
        b'D' => print_dyn_form(printer, here, after),
        b'B' => match back_reference(bytes, at) {
            Some((target, end)) => {
                let production = Production::Type;
                print_target(printer, here, production, target, end)?;
                Ok(())
            }
            None => printer.invalid_syntax(),
        },
        _ => {
            print_path(printer, here, Position::InType)?;
            Ok(())
        }
    }
}

// `"S" <type>`, after the letter.
#[cycle(printing)]
#[tactic(auto, unfolding(binfarce_v0_state::specs::machine::Printing::type_rule))]
fn print_slice(printer: &mut Printer<'_>, here: Nesting, after: usize) -> Result<(), AllocError>
    ensures { OnOk result
        (printer.new ≡ with_state
        ((type_rule printer.old.part (readers printer.old.part here.levels_left) here.binder_depth printer.old.state
        (SliceOf after)).1) printer.old) }
{
    printer.seek(Some(after));
    printer.write("[")?;
    print_type(printer, here)?;
    printer.write("]")
}

// `"D" ..`, after the letter.
#[cycle(printing)]
#[tactic(auto, unfolding(binfarce_v0_state::specs::machine::Printing::type_rule))]
fn print_dyn_form(printer: &mut Printer<'_>, here: Nesting, at: usize) -> Result<(), AllocError>
    requires entered { WithinLevels (here.levels_left + 1) here.binder_depth }
    ensures { OnOk result
        (printer.new ≡ with_state
        ((type_rule printer.old.part (readers printer.old.part here.levels_left) here.binder_depth printer.old.state
        (option_map_or (λ b. DynOf b.0 b.1) (optional_base_62_number printer.old.part 71 at) InvalidDyn)).1)
        printer.old) }
{
    match optional_base_62_number(printer.part.as_bytes(), b'G', at) {
        Some((binder, after)) => print_dyn(printer, here, binder, after),
        None => {
            printer.seek(None);
            printer.write("dyn ??")
        }
    }
}

// `"P" ..` and `"O" ..`, after the letter.
#[cycle(printing)]
fn print_pointer(
    printer: &mut Printer<'_>,
    here: Nesting,
    mark: &'static str,
    after: usize,
) -> Result<(), AllocError>
    ensures { OnOk result
        (printer.new ≡ with_state
        ((readers printer.old.part here.levels_left).ty here.binder_depth
        (write mark.now (seek (Some after) printer.old.state))).1 printer.old) }
{
    printer.seek(Some(after));
    printer.write(mark)?;
    print_type(printer, here)
}

// `"F" ..`, after the letter.
#[cycle(printing)]
#[tactic(auto, unfolding(binfarce_v0_state::specs::machine::Printing::type_rule))]
fn print_function_form(
    printer: &mut Printer<'_>,
    here: Nesting,
    at: usize,
) -> Result<(), AllocError>
    requires entered { WithinLevels (here.levels_left + 1) here.binder_depth }
    ensures { OnOk result
        (printer.new ≡ with_state
        ((type_rule printer.old.part (readers printer.old.part here.levels_left) here.binder_depth printer.old.state
        (function_form printer.old.part (optional_base_62_number printer.old.part 71 at))).1) printer.old) }
{
    match function_form(
        printer.part,
        optional_base_62_number(printer.part.as_bytes(), b'G', at),
    ) {
        FunctionForm::FunctionOf(signature, after) => {
            print_function(printer, here, signature, after)
        }
        FunctionForm::InvalidAbi(binder) => print_invalid_function(
            printer,
            here.binder_depth,
            binder,
        ),
        _ => printer.invalid_syntax(),
    }
}

// `"A" <type> <const>`
#[cycle(printing)]
fn print_array(printer: &mut Printer<'_>, here: Nesting, after: usize) -> Result<(), AllocError>
    ensures { OnOk result
        (printer.new ≡ with_state
        ((array_rule (readers printer.old.part here.levels_left)
        ((readers printer.old.part here.levels_left).ty here.binder_depth
        (write (codes "[") (seek (Some after) printer.old.state)))).1) printer.old) }
{
    printer.seek(Some(after));
    printer.write("[")?;
    print_type(printer, here)?;
    printer.write("; ")?;
    print_const(printer, here)?;
    printer.write("]")
}

// `"T" {<type>} "E"`
#[cycle(printing)]
#[tactic(auto, using(crate::proofs::ListLemmas::single_mark_count))]
fn print_tuple(printer: &mut Printer<'_>, here: Nesting, after: usize) -> Result<(), AllocError>
    ensures { OnOk result
        (printer.new ≡ with_state
        (tuple_end (items_from printer.old.part
        (readers printer.old.part here.levels_left) here.binder_depth Types (codes ", ")
        (write (codes "(") (seek (Some after) printer.old.state)))).1 printer.old) }
{
    printer.seek(Some(after));
    printer.write("(")?;
    let count = print_items(printer, here, Listed::Types, ", ")?;
    printer.write(if count == 1 { "," } else { "" })?;
    printer.write(")")
}

// `"R" ..` and `"Q" ..`, after the letter.
#[cycle(printing)]
#[tactic(auto, unfolding(binfarce_v0_state::specs::machine::Printing::type_rule))]
fn print_reference(
    printer: &mut Printer<'_>,
    here: Nesting,
    mutable: bool,
    at: usize,
) -> Result<(), AllocError>
    ensures { OnOk result
        (printer.new ≡ with_state
        ((type_rule printer.old.part (readers printer.old.part here.levels_left) here.binder_depth printer.old.state
        (reference_form mutable (lifetime printer.old.part (Some at)))).1) printer.old) }
{
    let (life, end) = lifetime_form(printer.part.as_bytes(), Some(at));
    let Some(after) = end else {
        if printer.take(1) {
            printer.seek(None);
            printer.write("&?")?;
        }
        return Ok(());
    };
    if !printer.take_lifetime(life) {
        return Ok(());
    }
    printer.seek(bound_end(here.binder_depth, life, Some(after)));
    printer.write("&")?;
    printer.put(ReferenceLifetime(here.binder_depth, life))?;
    printer.write(if mutable { "mut " } else { "" })?;
    print_type(printer, here)
}

// A function type.
#[cycle(printing)]
fn print_function<'a>(
    printer: &mut Printer<'a>,
    here: Nesting,
    signature: Signature<'a>,
    after: usize,
) -> Result<(), AllocError>
    requires entered { WithinLevels (here.levels_left + 1) here.binder_depth }
    ensures { OnOk result
        (printer.new ≡ with_state
        ((taking signature.entry.binder NoType printer.old.state
        (function_rule printer.old.part (readers printer.old.part here.levels_left) here.binder_depth
        (signature_view signature.entry) after)).1) printer.old) }
{
    if !printer.take(signature.binder) {
        return Ok(());
    }
    printer.seek(Some(after));
    printer.put(Binder {
        binder_depth: here.binder_depth,
        count: signature.binder as usize,
    })?;
    printer.put(signature)?;
    let inner = here.under(signature.binder as usize);
    print_items(printer, inner, Listed::Types, ", ")?;
    printer.write(")")?;
    match eat(printer.part.as_bytes(), b'u', printer.at) {
        Some(after) => {
            printer.seek(Some(after));
            Ok(())
        }
        None => {
            printer.write(" -> ")?;
            print_type(printer, inner)
        }
    }
}

// A dyn type.
#[cycle(printing)]
fn print_dyn(
    printer: &mut Printer<'_>,
    here: Nesting,
    binder: u64,
    after: usize,
) -> Result<(), AllocError>
    requires entered { WithinLevels (here.levels_left + 1) here.binder_depth }
    ensures { OnOk result
        (printer.new ≡ with_state
        ((taking binder NoType
        printer.old.state (dyn_rule printer.old.part
        (readers printer.old.part here.levels_left) here.binder_depth binder after)).1) printer.old) }
{
    if !printer.take(binder) {
        return Ok(());
    }
    printer.seek(Some(after));
    printer.write("dyn ")?;
    printer.put(Binder {
        binder_depth: here.binder_depth,
        count: binder as usize,
    })?;
    print_items(printer, here.under(binder as usize), Listed::Traits, " + ")?;
    print_dyn_lifetime(printer, here.binder_depth)
}

// The lifetime of a dyn type, which is outside its binder.
fn print_dyn_lifetime(printer: &mut Printer<'_>, binder_depth: usize) -> Result<(), AllocError>
    ensures { OnOk result
        ((binder : ℕ) (items : Items)
        → printer.new ≡ with_state
        ((dyn_life binder_depth binder items (lifetime printer.old.part printer.old.state.at) printer.old.state).1)
        printer.old) }
{
    let (life, end) = lifetime_form(printer.part.as_bytes(), printer.at);
    if printer.take_lifetime(life) {
        printer.seek(required_end(binder_depth, life, end));
        printer.put(DynLifetime(binder_depth, life))?;
    }
    Ok(())
}

// A function type whose ABI is invalid.
fn print_invalid_function(
    printer: &mut Printer<'_>,
    binder_depth: usize,
    binder: u64,
) -> Result<(), AllocError>
    requires { WithinLevels 1 binder_depth }
    ensures { OnOk result
        (printer.new ≡ with_state ((taking binder NoType printer.old.state (invalid_function binder_depth binder)).1)
        printer.old) }
{
    if printer.take(binder) {
        printer.put(Binder {
            binder_depth,
            count: binder as usize,
        })?;
        printer.invalid_syntax()?;
    }
    Ok(())
}
