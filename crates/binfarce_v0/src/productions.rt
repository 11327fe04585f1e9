//! Printing a path, a type or a const, once for every production: it is kept where a back reference may name it.

ghost use Rattle.std.specs.Prelude.{◌≡◌, ◌+◌, IfOk, OnOk, Some};
ghost use Rattle.binfarce_v0_state.specs.machine.Kept.{production_view, left_open_of, read};
ghost use Rattle.binfarce_v0.specs.machine.ByLetter.{production_rule};
ghost use Rattle.binfarce_v0_state.specs.machine.Printing.{WithinLevels, with_state, readers, into, back_to};

use crate::consts::print_const_by_letter;
use crate::paths::print_path_by_letter;
use crate::types::print_type_by_letter;
use binfarce_v0_state::fragments::{FragmentKey, Production};
use binfarce_v0_state::nesting::Nesting;
use binfarce_v0_state::state::Printer;
use std::alloc::AllocError;

// A production. Returns whether it was left open.
#[cycle(printing)]
#[inline(always)]
pub fn print(
    printer: &mut Printer<'_>,
    here: Nesting,
    production: Production,
) -> Result<bool, AllocError>
    ensures printed { OnOk result
        (printer.new ≡ with_state
        ((read (readers printer.old.part here.levels_left)
        (production_view production) here.binder_depth printer.old.state).1)
        printer.old) }
    ensures opened { IfOk result
        (λ opened. opened ≡ left_open_of (production_view production)
        (read (readers printer.old.part here.levels_left)
        (production_view production) here.binder_depth printer.old.state).0) }
{
    match printer.keeps_at() {
        Some(at) => print_and_keep(printer, here, production, at),
        None => print_anew(printer, here, production),
    }
}

// A production that is kept.
#[cycle(printing)]
#[inline(never)]
#[tactic(auto, using(crate::proofs::Anew::read_anew))]
fn print_and_keep(
    printer: &mut Printer<'_>,
    here: Nesting,
    production: Production,
    at: usize,
) -> Result<bool, AllocError>
    requires at { printer.old.state.at ≡ Some at }
    ensures printed { OnOk result
        (printer.new ≡ with_state
        ((read (readers printer.old.part here.levels_left)
        (production_view production) here.binder_depth printer.old.state).1)
        printer.old) }
    ensures opened { IfOk result
        (λ opened. opened ≡ left_open_of (production_view production)
        (read (readers printer.old.part here.levels_left)
        (production_view production) here.binder_depth printer.old.state).0) }
{
    let mark = printer.mark(here.levels_left, at);
    let opened = print_anew(printer, here, production)?;
    printer.keep(
        mark,
        here.levels_left,
        here.binder_depth,
        production,
        opened,
    )?;
    Ok(opened)
}

// A production from its position.
#[cycle(printing)]
#[inline(always)]
#[tactic(auto, using(crate::proofs::Anew::read_at, crate::proofs::Anew::nothing_closed))]
fn print_anew(
    printer: &mut Printer<'_>,
    here: Nesting,
    production: Production,
) -> Result<bool, AllocError>
    ensures printed { OnOk result
        (printer.new ≡ with_state
        ((read (readers printer.old.part here.levels_left)
        (production_view production) here.binder_depth printer.old.state).1)
        printer.old) }
    ensures opened { IfOk result
        (λ opened. opened ≡ left_open_of (production_view production)
        (read (readers printer.old.part here.levels_left)
        (production_view production) here.binder_depth printer.old.state).0) }
{
    let Some(below) = printer.enter(here) else {
        return Ok(false);
    };
    print_by_letter(printer, below, production)
}

// A production by the letter that it begins with.
#[cycle(printing)]
#[inline(always)]
fn print_by_letter(
    printer: &mut Printer<'_>,
    here: Nesting,
    production: Production,
) -> Result<bool, AllocError>
    requires entered { WithinLevels (here.levels_left + 1) here.binder_depth }
    ensures printed { OnOk result
        (printer.new ≡ with_state
        ((production_rule printer.old.part (readers printer.old.part here.levels_left)
        (production_view production) here.binder_depth printer.old.state).1) printer.old) }
    ensures opened { IfOk result
        (λ opened. opened ≡ left_open_of (production_view production)
        (production_rule printer.old.part (readers printer.old.part here.levels_left)
        (production_view production) here.binder_depth printer.old.state).0) }
{
    match production {
        Production::Path(position) => {
            return print_path_by_letter(printer, here, position);
        }
        Production::Type => print_type_by_letter(printer, here)?,
        Production::Const => print_const_by_letter(printer, here)?,
    }
    Ok(false)
}

// The target of a back reference: a production, printed from the position that it names.
#[cycle(printing)]
pub fn print_target(
    printer: &mut Printer<'_>,
    here: Nesting,
    production: Production,
    target: usize,
    after: usize,
) -> Result<bool, AllocError>
    ensures printed { OnOk result
        (printer.new ≡ with_state
        (back_to after printer.old.state.in_back_reference
        (read (readers printer.old.part here.levels_left) (production_view production) here.binder_depth
        (into target printer.old.state)).1) printer.old) }
    ensures opened { IfOk result
        (λ opened. opened ≡ left_open_of (production_view production)
        (read (readers printer.old.part here.levels_left) (production_view production) here.binder_depth
        (into target printer.old.state)).0) }
{
    let key = FragmentKey {
        production,
        at: target,
        binder_depth: here.binder_depth,
    };
    if let Some(opened) = printer.print_kept(here.levels_left, key, after)? {
        return Ok(opened);
    }
    printer.look_for_targets()?;
    let in_back_reference = printer.in_back_reference;
    printer.enter_target(target);
    let opened = print(printer, here, production)?;
    printer.leave_target(after, in_back_reference);
    Ok(opened)
}
