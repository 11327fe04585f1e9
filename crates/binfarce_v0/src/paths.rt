//! Printing a v0 name: what a position unfolds to is written as it is read, by the letter that a form begins with.

ghost use Rattle.std.specs.Prelude.{◌≡◌, ◌+◌, ◌<◌, ◌==◌, IfOk, IsTrue, OnOk, Some, true, false, length, slice_index};
ghost use Rattle.std.specs.Option.{option_map_or};
ghost use Rattle.std.specs.Char.{is_ascii_alphabetic};
ghost use Rattle.binfarce_v0_grammar.specs.Base62.{optional_base_62_number};
ghost use Rattle.binfarce_v0_grammar.specs.Forms.{NoPathForm, InherentImpl, TraitImpl, nested_form, path_form};
ghost use Rattle.binfarce_v0_state.specs.TreeTexts.{parent_position, is_left_open};
ghost use Rattle.binfarce_v0_state.specs.machine.View.{position_view};
ghost use Rattle.binfarce_v0_state.specs.machine.Printing.{with_state, readers, path_rule, qualified, generic_rule, seek, set_muted};

use crate::identifiers::{print_crate_root, print_nested_name};
use crate::lists::print_items;
use crate::productions::{print, print_target};
use crate::types::print_type;
use binfarce_v0_grammar::forms::Listed;
use binfarce_v0_grammar::numbers::{back_reference, byte_at, skip_optional_base_62_number};
use binfarce_v0_state::fragments::Production;
use binfarce_v0_state::nesting::Nesting;
use binfarce_v0_state::position::{Position, closing, is_open_trait, parent, value_mark};
use binfarce_v0_state::state::Printer;
use std::alloc::AllocError;

// A letter that may be a namespace.
#[inline(always)]
fn is_namespace(letter: u8) -> bool
    ensures value { result ≡ is_ascii_alphabetic letter }
    ensures some { IsTrue result → 0 < letter }
{
    letter.is_ascii_alphabetic()
}

/// `<path>`. Returns whether it was left open. It is kept where a back reference may name it.
#[cycle(printing)]
pub fn print_path(
    printer: &mut Printer<'_>,
    here: Nesting,
    position: Position,
) -> Result<bool, AllocError>
    ensures printed { OnOk result
        (printer.new ≡ with_state
        (((readers printer.old.part here.levels_left).path
        (position_view position) here.binder_depth printer.old.state).1)
        printer.old) }
    ensures opened { IfOk result
        (λ opened. opened ≡ is_left_open
        ((readers printer.old.part here.levels_left).path
        (position_view position) here.binder_depth printer.old.state).0
        (position_view position)) }
{
    print(printer, here, Production::Path(position))
}

// A path by the letter that it begins with.
#[cycle(printing)]
#[inline(always)]
#[tactic(auto, unfolding(binfarce_v0_state::specs::machine::Printing::path_rule, binfarce_v0_grammar::specs::Forms::path_form))]
pub(crate) fn print_path_by_letter(
    printer: &mut Printer<'_>,
    here: Nesting,
    position: Position,
) -> Result<bool, AllocError>
    ensures printed { OnOk result
        (printer.new ≡ with_state
        ((path_rule printer.old.part (readers printer.old.part here.levels_left)
        (position_view position) here.binder_depth
        printer.old.state (path_form printer.old.part printer.old.state.at)).1) printer.old) }
    ensures opened { IfOk result
        (λ opened. opened ≡ is_left_open
        (path_rule printer.old.part (readers printer.old.part here.levels_left)
        (position_view position) here.binder_depth
        printer.old.state (path_form printer.old.part printer.old.state.at)).0 (position_view position)) }
{
    let Some(at) = printer.at else {
        printer.invalid_syntax()?;
        return Ok(false);
    };
    let bytes = printer.part.as_bytes();
    match byte_at(bytes, at) {
        b'I' => {
            print_generic(printer, here, position, at + 1)?;
            Ok(is_open_trait(position))
        }
        b'B' => match back_reference(bytes, at) {
            Some((target, after)) => {
                let production = Production::Path(position);
                print_target(printer, here, production, target, after)
            }
            None => {
                printer.invalid_syntax()?;
                Ok(false)
            }
        },
        _ => {
            print_closed_path(printer, here, position, at)?;
            Ok(false)
        }
    }
}

// A path that is never left open: it has no arguments and isn't a back reference.
#[cycle(printing)]
#[inline(always)]
#[tactic(auto, using(crate::proofs::Shown::root_state), unfolding(binfarce_v0_state::specs::machine::Printing::path_rule, binfarce_v0_grammar::specs::Forms::path_form))]
fn print_closed_path(
    printer: &mut Printer<'_>,
    here: Nesting,
    position: Position,
    at: usize,
) -> Result<(), AllocError>
    requires no_arguments { (slice_index printer.now.part at == 73) ≡ false }
    requires no_back_reference { (slice_index printer.now.part at == 66) ≡ false }
    ensures { OnOk result
        (printer.new ≡ with_state
        ((path_rule printer.old.part (readers printer.old.part here.levels_left)
        (position_view position) here.binder_depth
        printer.old.state (path_form printer.old.part (Some at))).1) printer.old) }
{
    match byte_at(printer.part.as_bytes(), at) {
        b'C' => print_crate_root(printer, at + 1),
        b'N' => print_nested(printer, here, position, at),
        b'M' => print_inherent_impl(printer, here, position, at),
        b'X' => print_trait_impl(printer, here, position, at),
        b'Y' => {
            printer.seek(Some(at + 1));
            print_qualified(printer, here)
        }
        _ => printer.invalid_syntax(),
    }
}

// `"N" <namespace> <path> <identifier>`, with its `N` at `at`.
#[cycle(printing)]
#[inline(always)]
#[tactic(auto, unfolding(binfarce_v0_state::specs::machine::Printing::path_rule))]
fn print_nested(
    printer: &mut Printer<'_>,
    here: Nesting,
    position: Position,
    at: usize,
) -> Result<(), AllocError>
    requires within { at < length printer.now.part }
    ensures { OnOk result
        (printer.new ≡ with_state
        ((path_rule printer.old.part (readers printer.old.part here.levels_left)
        (position_view position) here.binder_depth
        printer.old.state (nested_form (slice_index printer.old.part (at + 1)) (at + 2))).1) printer.old) }
{
    let namespace = byte_at(printer.part.as_bytes(), at + 1);
    if !is_namespace(namespace) {
        return printer.invalid_syntax();
    }
    printer.seek(Some(at + 2));
    print_path(printer, here, parent(position))?;
    print_nested_name(printer, namespace)
}

// `"M" <impl-path> <type>`, with its `M` at `at`.
#[cycle(printing)]
#[tactic(auto, unfolding(binfarce_v0_state::specs::machine::Printing::path_rule))]
fn print_inherent_impl(
    printer: &mut Printer<'_>,
    here: Nesting,
    position: Position,
    at: usize,
) -> Result<(), AllocError>
    requires within { at < length printer.now.part }
    ensures { OnOk result
        (printer.new ≡ with_state
        ((path_rule printer.old.part (readers printer.old.part here.levels_left)
        (position_view position) here.binder_depth
        printer.old.state (option_map_or
        (λ d. InherentImpl d.1) (optional_base_62_number printer.old.part 115 (at + 1)) NoPathForm)).1) printer.old) }
{
    let bytes = printer.part.as_bytes();
    let Some(after) = skip_optional_base_62_number(bytes, b's', at + 1) else {
        return printer.invalid_syntax();
    };
    print_impl_path(printer, here, position, after)?;
    printer.write("<")?;
    print_type(printer, here)?;
    printer.write(">")
}

// `"X" <impl-path> <type> <path>`, with its `X` at `at`.
#[cycle(printing)]
#[tactic(auto, unfolding(binfarce_v0_state::specs::machine::Printing::path_rule))]
fn print_trait_impl(
    printer: &mut Printer<'_>,
    here: Nesting,
    position: Position,
    at: usize,
) -> Result<(), AllocError>
    requires within { at < length printer.now.part }
    ensures { OnOk result
        (printer.new ≡ with_state
        ((path_rule printer.old.part (readers printer.old.part here.levels_left)
        (position_view position) here.binder_depth
        printer.old.state (option_map_or
        (λ d. TraitImpl d.1) (optional_base_62_number printer.old.part 115 (at + 1)) NoPathForm)).1) printer.old) }
{
    let bytes = printer.part.as_bytes();
    let Some(after) = skip_optional_base_62_number(bytes, b's', at + 1) else {
        return printer.invalid_syntax();
    };
    print_impl_path(printer, here, position, after)?;
    print_qualified(printer, here)
}

// The path of an impl, which is read and not written.
#[cycle(printing)]
fn print_impl_path(
    printer: &mut Printer<'_>,
    here: Nesting,
    position: Position,
    after: usize,
) -> Result<(), AllocError>
    ensures { OnOk result
        (printer.new ≡ with_state
        (set_muted printer.old.state.muted
        ((readers printer.old.part here.levels_left).path (parent_position (position_view position)) here.binder_depth
        (set_muted true (seek (Some after) printer.old.state))).1) printer.old) }
{
    let muted = printer.muted;
    printer.seek(Some(after));
    printer.set_muted(true);
    print_path(printer, here, parent(position))?;
    printer.set_muted(muted);
    Ok(())
}

// `<T as Trait>`
#[cycle(printing)]
fn print_qualified(printer: &mut Printer<'_>, here: Nesting) -> Result<(), AllocError>
    ensures { OnOk result
        (printer.new ≡ with_state ((qualified
        (readers printer.old.part here.levels_left) here.binder_depth printer.old.state).1)
        printer.old) }
{
    printer.write("<")?;
    print_type(printer, here)?;
    printer.write(" as ")?;
    print_path(printer, here, Position::InType)?;
    printer.write(">")
}

// A path with its arguments.
#[cycle(printing)]
fn print_generic(
    printer: &mut Printer<'_>,
    here: Nesting,
    position: Position,
    after: usize,
) -> Result<(), AllocError>
    ensures { OnOk result
        (printer.new ≡ with_state
        ((generic_rule printer.old.part (readers printer.old.part here.levels_left)
        (position_view position) here.binder_depth
        ((readers printer.old.part here.levels_left).path (parent_position (position_view position)) here.binder_depth
        (seek (Some after) printer.old.state))).1) printer.old) }
{
    printer.seek(Some(after));
    print_path(printer, here, parent(position))?;
    printer.write(value_mark(position))?;
    printer.write("<")?;
    print_items(printer, here, Listed::Arguments, ", ")?;
    printer.write(closing(position))
}
