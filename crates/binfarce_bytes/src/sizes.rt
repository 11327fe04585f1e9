//! Sizes where a format stores none: rows arranged by address, and the least address above each.

ghost use Rattle.std.specs.Prelude.{◌≡◌, length, map, IfOk, IsPermutation};
ghost use Rattle.std.specs.List.Sorted.{IsNonDecreasingBy};
ghost use Rattle.binfarce_bytes.specs.Sizes.{arranged, addresses_of, least_above};
ghost use Rattle.binfarce_bytes.specs.RowViews.{rows_view};

use std::alloc::{AllocError, Global};

/// The address of a row of a symbol table, and the row's index.
#[derive(Clone, Copy, PartialEq, Eq, PartialOrd, Ord)]
pub struct RowAddress {
    pub address: u64,
    /// The row's index: in Mach-O in the symbol table, in PE among the rows that are kept. Rows later in the table have
    /// greater ones.
    pub index: usize,
}

/// Rows in the order of their addresses.
#[derive(Drop)]
pub struct Arranged {
    /// The rows, in the order of (address, index).
    pub rows: Vec<RowAddress>,
    /// For each row, the least address above its own, if any.
    pub above: Vec<Option<u64>>,
    /// How many rows the search for these addresses visited.
    pub visited: usize,
}

/// Puts the rows in the order of their addresses, and finds the least address above each. The only error is a failed
/// allocation.
pub fn arrange(alloc: Global, rows: Vec<RowAddress>) -> Result<Arranged, AllocError>
    ensures arranged { IfOk result (λ a. rows_view a.rows.items ≡ arranged (rows_view rows.items)) }
    ensures same { IfOk result (λ a. IsPermutation rows.items a.rows.items) }
    ensures above { IfOk result
        (λ a. a.above.items ≡ map (λ r. least_above (addresses_of (rows_view a.rows.items)) r.address) a.rows.items) }
    ensures visited { IfOk result (λ a. a.visited ≡ length a.rows.items) }
{
    let mut rows = rows;
    put_in_order(&mut rows);
    let Swept { above, visited } = sweep(alloc, &rows)?;
    Ok(Arranged {
        rows,
        above,
        visited,
    })
}

// Puts the rows in the order of (address, index). Nothing is allocated.
fn put_in_order(rows: &mut Vec<RowAddress>)
    ensures arranged { rows_view rows.new.items ≡ arranged (rows_view rows.old.items) }
    ensures same { IsPermutation rows.old.items rows.new.items }
    ensures rises { IsNonDecreasingBy (λ r. r.address) rows.new.items }
{
    rows.sort_unstable();
}

// The result of one walk over arranged rows.
#[derive(Drop)]
struct Swept {
    above: Vec<Option<u64>>,
    visited: usize,
}

// The least address above each of the rising addresses, in one walk from the back.
//
// The walk keeps the least address above the current one.
fn sweep(alloc: Global, rows: &[RowAddress]) -> Result<Swept, AllocError>
    requires { IsNonDecreasingBy (λ r. r.address) rows.now }
    ensures above { IfOk result
        (λ s. s.above.items ≡ map (λ r. least_above (addresses_of (rows_view rows.now)) r.address) rows.now) }
    ensures visited { IfOk result (λ s. s.visited ≡ length rows.now) }
{
    let mut above = vec![in alloc; None; rows.len()]?;
    let mut visited = 0;
    let mut greater = None;
    for place in (0..rows.len()).rev() {
        if place + 1 < rows.len() && rows[place].address < rows[place + 1].address {
            greater = Some(rows[place + 1].address);
        }
        above[place] = greater;
        visited += 1;
    }
    Ok(Swept { above, visited })
}
