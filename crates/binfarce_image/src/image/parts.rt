//! Checks and lengths of an image's parts.

ghost use Rattle.std.specs.Prelude.{◌≡◌, ◌-◌, ◌^◌, is_some, min, count_by};
ghost use Rattle.std.specs.List.{list_any};
ghost use Rattle.binfarce_image.specs.Image.{bodies_end, body_length, entry_length, name_offset, part_kind, part_link};
ghost use Rattle.binfarce_image.specs.ImageRefusal.{has_one_table, is_table, claims_table, names_of};
ghost use Rattle.binfarce_image.specs.machine.Views.{class_view};

use super::tables::Class;
use super::{Image, Part};

const SHT_SYMTAB: u32 = 2;

/// Exactly one symbol table, and no byte section of its kind.
pub(super) fn has_one_table(parts: &[Part]) -> bool
    ensures { result ≡ has_one_table parts.now }
{
    count_tables(parts) == 1 && !any_claims_table(parts)
}

fn count_tables(parts: &[Part]) -> usize
    ensures { result ≡ count_by is_table parts.now }
{
    parts.iter().filter(|part| is_table(part)).count()
}

fn any_claims_table(parts: &[Part]) -> bool
    ensures { result ≡ list_any claims_table parts.now }
{
    parts.iter().any(|part| claims_table(part))
}

fn is_table(part: &Part) -> bool
    ensures { result ≡ is_table part.now }
{
    match part {
        Part::Bytes { .. } => false,
        Part::Table { .. } => true,
    }
}

fn claims_table(part: &Part) -> bool
    ensures { result ≡ claims_table part.now }
{
    match part {
        Part::Bytes { kind, .. } => *kind == SHT_SYMTAB,
        Part::Table { .. } => false,
    }
}

/// The section names are in a byte section.
pub(super) fn has_names(image: &Image) -> bool
    ensures { result ≡ is_some (names_of image.now) }
{
    match image.parts.get(image.names_at as usize) {
        Some(Part::Bytes { .. }) => true,
        _ => false,
    }
}

/// Where the bodies end, or `usize::MAX` on overflow.
pub(super) fn bodies_end(parts: &[Part], class: Class) -> usize
    ensures { result ≡ min (bodies_end (class_view class) class.header_length parts.now) (2 ^ 64 - 1) }
{
    let mut end = class.header_length;
    for part in parts {
        end = end.saturating_add(body_length(part, class));
    }
    end
}

/// How many bytes a part has in a file, or `usize::MAX` on overflow.
pub(super) fn body_length(part: &Part, class: Class) -> usize
    ensures { result ≡ min (body_length (class_view class) part.now) (2 ^ 64 - 1) }
{
    match part {
        Part::Bytes { body, .. } => body.len(),
        Part::Table { rows, .. } => rows.len().saturating_mul(class.symbol_length),
    }
}

/// The length of a table's row, and else 0.
pub(super) fn entry_length(part: &Part, class: Class) -> usize
    ensures { result ≡ entry_length (class_view class) part.now }
{
    match part {
        Part::Bytes { .. } => 0,
        Part::Table { .. } => class.symbol_length,
    }
}

pub(super) fn name(part: &Part) -> u32
    ensures { result ≡ name_offset part.now }
{
    match part {
        Part::Bytes { name, .. } => *name,
        Part::Table { name, .. } => *name,
    }
}

pub(super) fn kind(part: &Part) -> u32
    ensures { result ≡ part_kind part.now }
{
    match part {
        Part::Bytes { kind, .. } => *kind,
        Part::Table { .. } => SHT_SYMTAB,
    }
}

pub(super) fn link(part: &Part) -> u32
    ensures { result ≡ part_link part.now }
{
    match part {
        Part::Bytes { link, .. } => *link,
        Part::Table { link, .. } => *link,
    }
}
