//! The order of rows.

ghost use Rattle.std.specs.Prelude.{◌≡◌, map, OnOk};
ghost use Rattle.std.specs.Cmp.Lexicographic.{slice_cmp};
ghost use Rattle.std.specs.Ordering.{nat_cmp};
ghost use Rattle.binfarce.specs.SymbolViews.{section_function_view};
ghost use Rattle.binfarce_figures.specs.Order.{IsByKey};
ghost use Rattle.binfarce_figures.specs.machine.Listings.{IsPlaced, is_by_name};

use binfarce::SectionFunction;
use std::alloc::AllocError;
use std::cmp::Reverse;

/// What a listing is sorted by.
#[derive(Debug, Clone, Copy, PartialEq)]
#[non_exhaustive]
pub enum Order {
    /// By rising address.
    Address,
    /// By falling size.
    Size,
    /// By name, in the order of its bytes.
    Name,
}

/// A function symbol with the text of its name.
#[derive(Clone, Copy)]
pub(crate) struct Row<'b, 'a> {
    /// The function symbol.
    pub function: SectionFunction<'a>,
    /// What is shown of its name.
    pub name: &'b str,
}

/// Whether it is the order of names.
pub(crate) fn is_by_name(order: Option<Order>) -> bool
    ensures { result ≡ is_by_name order }
{
    matches!(order, Some(Order::Name))
}

/// Sorts function symbols; without an order they stay as they are. Those of one key are in the order of their
/// addresses, and those of one address in their given order. By name they are sorted by address alone.
///
/// # Errors
///
/// `AllocError` if an allocation failed: their order is then unspecified.
pub(crate) fn sort(
    functions: &mut Vec<SectionFunction<'_>>,
    order: Option<Order>,
) -> Result<(), AllocError>
    ensures { OnOk result (IsPlaced order (map section_function_view functions.old.items)
        (map section_function_view functions.new.items)) }
{
    let Some(order) = order else {
        return Ok(());
    };
    functions.sort_by_key(|it| it.function.address)?;
    match order {
        Order::Size => functions.sort_by_key(|it| Reverse(it.function.size)),
        Order::Address => Ok(()),
        Order::Name => Ok(()),
    }
}

/// Sorts rows by the bytes of their names' texts. Rows of one text keep their order.
///
/// # Errors
///
/// `AllocError` if an allocation failed: their order is then unspecified.
pub(crate) fn sort_by_name(rows: &mut Vec<Row<'_, '_>>) -> Result<(), AllocError>
    ensures { OnOk result (IsByKey (λ r. r.name.now) (slice_cmp nat_cmp) rows.old.items rows.new.items) }
{
    rows.sort_by_key(|row| row.name)
}
