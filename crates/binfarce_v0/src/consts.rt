//! Printing a const.

ghost use Rattle.std.specs.Prelude.{◌≡◌, OnOk, Some, None, codes};
ghost use Rattle.binfarce_v0_grammar.specs.Forms.{const_form};
ghost use Rattle.binfarce_v0_state.specs.machine.Printing.{with_state, readers, const_rule, write};

use crate::productions::{print, print_target};
use binfarce_v0_grammar::forms::{ConstForm, ConstValue, const_form};
use binfarce_v0_state::fragments::Production;
use binfarce_v0_state::nesting::Nesting;
use binfarce_v0_state::state::Printer;
use std::alloc::AllocError;

/// `<const>`. It is kept where a back reference may name it.
#[cycle(printing)]
pub fn print_const(printer: &mut Printer<'_>, here: Nesting) -> Result<(), AllocError>
    ensures { OnOk result
        (printer.new ≡ with_state ((readers printer.old.part here.levels_left).constant printer.old.state).1
        printer.old) }
{
    print(printer, here.outside(), Production::Const)?;
    Ok(())
}

// A const by the letter that it begins with.
#[cycle(printing)]
#[tactic(auto, unfolding(binfarce_v0_state::specs::machine::Printing::const_rule))]
pub(crate) fn print_const_by_letter(
    printer: &mut Printer<'_>,
    here: Nesting,
) -> Result<(), AllocError>
    ensures { OnOk result
        (printer.new ≡ with_state
        ((const_rule (readers printer.old.part here.levels_left) printer.old.state
        (const_form printer.old.part printer.old.state.at)).1)
        printer.old) }
{
    match const_form(printer.part, printer.at) {
        ConstForm::Nothing => printer.invalid_syntax(),
        ConstForm::UntypedPlaceholder(after) => {
            printer.seek(Some(after));
            printer.write("_")
        }
        ConstForm::Placeholder(type_name, after) => {
            printer.seek(Some(after));
            printer.write("_")?;
            print_type_name(printer, type_name)
        }
        ConstForm::Value(type_name, value, after) => {
            printer.seek(Some(after));
            printer.put(value)?;
            print_type_name(printer, type_name)
        }
        ConstForm::Invalid(negative, type_name) => {
            printer.seek(None);
            printer.write(if negative { "-?" } else { "?" })?;
            print_type_name(printer, type_name)
        }
        ConstForm::Back(target, after) => {
            print_target(printer, here.outside(), Production::Const, target, after)?;
            Ok(())
        }
    }
}

// The type of a const, after its value.
fn print_type_name(printer: &mut Printer<'_>, type_name: &'static str) -> Result<(), AllocError>
    ensures { OnOk result
        (printer.new ≡ with_state (write type_name.entry.now (write (codes ": ") printer.old.state)) printer.old) }
{
    printer.write(": ")?;
    printer.write(type_name)
}
