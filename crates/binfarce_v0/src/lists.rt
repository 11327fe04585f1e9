//! Printing the lists of a v0 name: arguments, types, and traits with their bindings.

ghost use Rattle.std.specs.Prelude.{◌≡◌, IfOk, OnOk, suc};
ghost use Rattle.binfarce_v0_grammar.specs.Tree.{Arguments};
ghost use Rattle.binfarce_v0_grammar.specs.machine.View.{listed_view};
ghost use Rattle.binfarce_v0_state.specs.machine.Printing.{with_state, readers, item_rule, items_from, items_count, bindings_rule};

use crate::consts::print_const;
use crate::paths::print_path;
use crate::types::print_type;
use binfarce_v0_grammar::forms::{Listed, lifetime_form};
use binfarce_v0_grammar::identifiers::undisambiguated_at;
use binfarce_v0_grammar::positions::{eat, list_end, required_end};
use binfarce_v0_state::nesting::Nesting;
use binfarce_v0_state::position::Position;
use binfarce_v0_state::state::Printer;
use binfarce_v0_state::text::ArgumentLifetime;
use std::alloc::AllocError;

// A list up to its `E`: how many items it has.
#[cycle(printing)]
#[tactic(auto, using(crate::proofs::ListLemmas::items_step, crate::proofs::ListLemmas::items_none))]
pub fn print_items(
    printer: &mut Printer<'_>,
    here: Nesting,
    listed: Listed,
    between: &'static str,
) -> Result<usize, AllocError>
    ensures printed { OnOk result
        (printer.new ≡ with_state
        ((items_from printer.old.part (readers printer.old.part here.levels_left) here.binder_depth (listed_view listed)
        between.entry.now printer.old.state).1) printer.old) }
    ensures counted { IfOk result
        (λ count. count ≡ items_count
        (items_from printer.old.part (readers printer.old.part here.levels_left) here.binder_depth (listed_view listed)
        between.entry.now printer.old.state).0) }
{
    let most = printer.steps_left + 1;
    for count in 0..most {
        if let Some(after) = list_end(printer.part.as_bytes(), printer.at) {
            printer.seek(after);
            return Ok(count);
        }
        printer.write(if count == 0 { "" } else { between })?;
        print_item(printer, here, listed)?;
    }
    printer.stop();
    Ok(most)
}

// An item of a list.
#[cycle(printing)]
#[tactic(auto, unfolding(binfarce_v0_state::specs::machine::Printing::item_rule))]
fn print_item(printer: &mut Printer<'_>, here: Nesting, listed: Listed) -> Result<(), AllocError>
    ensures { OnOk result
        (printer.new ≡ with_state
        ((item_rule printer.old.part (readers printer.old.part here.levels_left) here.binder_depth (listed_view listed)
        printer.old.state).1) printer.old) }
{
    match listed {
        Listed::Types => print_type(printer, here),
        Listed::Arguments => print_argument(printer, here),
        Listed::Traits => {
            let opened = print_path(printer, here, Position::OpenTrait)?;
            print_bindings(printer, here, opened)
        }
    }
}

// `<generic-arg>`
#[cycle(printing)]
#[tactic(auto, unfolding(binfarce_v0_state::specs::machine::Printing::item_rule))]
fn print_argument(printer: &mut Printer<'_>, here: Nesting) -> Result<(), AllocError>
    ensures { OnOk result
        (printer.new ≡ with_state
        ((item_rule printer.old.part (readers printer.old.part here.levels_left) here.binder_depth Arguments
        printer.old.state).1)
        printer.old) }
{
    let bytes = printer.part.as_bytes();
    if eat(bytes, b'L', printer.at).is_some() {
        let (life, after) = lifetime_form(bytes, printer.at);
        printer.visit();
        if printer.take(1) {
            printer.seek(required_end(here.binder_depth, life, after));
            printer.put(ArgumentLifetime(here.binder_depth, life))?;
        }
        return Ok(());
    }
    match eat(bytes, b'K', printer.at) {
        Some(after) => {
            printer.seek(Some(after));
            print_const(printer, here)
        }
        None => print_type(printer, here),
    }
}

// The bindings of a trait.
#[cycle(printing)]
#[tactic(auto, using(crate::proofs::ListLemmas::bindings_step, crate::proofs::ListLemmas::bindings_none))]
fn print_bindings(
    printer: &mut Printer<'_>,
    here: Nesting,
    mut opened: bool,
) -> Result<(), AllocError>
    ensures { OnOk result
        (printer.new ≡ with_state
        ((bindings_rule printer.old.part (readers printer.old.part here.levels_left) here.binder_depth
        (suc printer.old.state.steps_left) opened printer.old.state).1) printer.old) }
{
    let most = printer.steps_left + 1;
    for _turn in 0..most {
        let Some(start) = eat(printer.part.as_bytes(), b'p', printer.at) else {
            return printer.write(if opened { ">" } else { "" });
        };
        printer.write(if opened { ", " } else { "<" })?;
        let Some((binding, after)) = undisambiguated_at(printer.part, start) else {
            return printer.invalid_syntax();
        };
        printer.seek(Some(after));
        printer.put(binding)?;
        printer.write(" = ")?;
        print_type(printer, here)?;
        opened = true;
    }
    printer.stop();
    Ok(())
}
