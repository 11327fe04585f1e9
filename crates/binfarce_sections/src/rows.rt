//! How many bytes of two files count for each name of their sections.

ghost use Rattle.std.specs.Prelude.{◌≡◌, ◌+◌, ◌<◌, ◌^◌, ℕ, List, Some, IfOk, OnOk};
ghost use Rattle.std.specs.Map.{update};
ghost use Rattle.std.specs.Str.{bytes_eq};
ghost use Rattle.binfarce_sections.specs.ByName.{at_name, bytes_at};
ghost use Rattle.binfarce_sections.specs.Changes.{parts_of};
ghost use Rattle.binfarce_sections.specs.machine.Added.{bytes_in, or_none};
ghost use Rattle.binfarce_sections.specs.machine.Changed.{Fit};

use crate::changes::{Change, given_of};
use crate::sums::SectionSums;
use std::alloc::{AllocError, Global};
use std::collections::BTreeMap;

/// How many bytes of an old file and of a new one count for each name of sections, and for `[headers and gaps]`. A name is
/// as `sum_sections` shows it, and the numbers of all sections of one name are added.
///
/// # Errors
///
/// `AllocError` if an allocation failed.
pub fn bytes_by_name<'a>(
    alloc: Global,
    old: &'a SectionSums<'a>,
    new: &'a SectionSums<'a>,
) -> Result<BTreeMap<&'a str, (u64, u64)>, AllocError>
    ensures { IfOk result (λ rows. (name : List ℕ)
        → at_name rows name ≡ bytes_at (parts_of old.entry.now) (parts_of new.entry.now) name) }
{
    let given = given_of(alloc, old, new)?;
    added(alloc, &given)
}

// The bytes of changes, by their names.
fn added<'a>(
    alloc: Global,
    changes: &[Change<'a>],
) -> Result<BTreeMap<&'a str, (u64, u64)>, AllocError>
    requires { Fit changes.now }
    ensures { IfOk result (λ rows. (name : List ℕ) → at_name rows name ≡ bytes_in changes.now name) }
{
    let mut rows = BTreeMap::new(alloc);
    for change in changes {
        add(&mut rows, change.name, change.old, change.new)?;
    }
    Ok(rows)
}

// Adds bytes of both files to those of a name, each number up to 2^64 - 1.
fn add<'a>(
    rows: &mut BTreeMap<&'a str, (u64, u64)>,
    name: &'a str,
    old: u64,
    new: u64,
) -> Result<(), AllocError>
    ensures { (or_none (at_name rows.old name.entry.now)).0 + old < 2 ^ 64
        → (or_none (at_name rows.old name.entry.now)).1 + new < 2 ^ 64
        → OnOk result ((other : List ℕ) → at_name rows.new other ≡ update bytes_eq (at_name rows.old) name.entry.now
        (Some ((or_none (at_name rows.old name.entry.now)).0 + old, (or_none (at_name rows.old name.entry.now)).1 + new)) other) }
{
    match rows.get_mut(name) {
        Some(bytes) => *bytes = (bytes.0.saturating_add(old), bytes.1.saturating_add(new)),
        None => {
            let _ = rows.insert(name, (old, new))?;
        }
    }
    Ok(())
}
