//! How the bytes of the sections of two files differ.

ghost use Rattle.std.specs.Prelude.{◌≡◌, ◌+◌, ◌<◌, ◌^◌, ◌++◌, ◌∷◌, [], ℕ, List, codes, filter, map, Some, IfOk, OnOk};
ghost use Rattle.std.specs.List.{flat_map};
ghost use Rattle.std.specs.Option.{option_map};
ghost use Rattle.std.specs.String.{string_bytes};
ghost use Rattle.binfarce_rows.specs.Json.{style_of};
ghost use Rattle.binfarce_rows.specs.Columns.{difference};
ghost use Rattle.binfarce_sections.specs.Changes.{AreChangesFrom, AreChangesOf, change_line, change_object, change_row, change_rows, differs, name_given, new_row, old_row, others_row, parts_of, row_view, shown_row};
ghost use Rattle.binfarce_sections.specs.Results.{TakesText, Fails};
ghost use Rattle.binfarce_sections.specs.machine.Changed.{Fit, added, joined};

use crate::error::SectionError;
use crate::sums::{REST, SectionSums, push_long_member};
use binfarce_rows::columns::{
    count_of, push_change, push_growth, push_growth_member, push_signed_member, push_size,
};
use binfarce_rows::json::{Form, push_number_member, push_start, push_text_member};
use binfarce_tools::list::Sink;
use binfarce_tools::writing::write_whole;
use std::alloc::{AllocError, Global};
use std::cmp::Reverse;
use std::fmt::Write;

/// A name of sections, with its bytes in two files.
#[derive(Debug, Clone, Copy)]
pub struct Change<'a> {
    /// The name, as `sum_sections` shows it.
    pub name: &'a str,
    /// How many bytes of the old file count for it.
    pub old: u64,
    /// How many bytes of the new file count for it.
    pub new: u64,
    /// How many bytes it has in memory by the old file.
    pub old_memory: u128,
    /// How many bytes it has in memory by the new file.
    pub new_memory: u128,
}

/// Writes a row for each name of sections, and for `[headers and gaps]`, whose bytes in the file or in memory differ
/// between two files, and one for the whole files.
///
/// A name is as `sum_sections` shows it, and the numbers of all sections of one name are added: also those of a section
/// that is named `[headers and gaps]`. The greatest difference of bytes in the file comes first, of one difference the
/// greatest in memory, and those of one rank are in the order of the names' bytes.
///
/// A line is `{old:>10} {new:>10} {change:>11} {memory change:>11} {name}`; a change has its sign. Before the name it
/// has, if that is wanted, the change of the bytes in the file in per cent of the old number, with two decimals and to
/// the right of 10 columns, as `+12.50%`: rounded toward zero, and `new` if the old number is 0. `[N others]` is the
/// name of the line that sums up those past the first; the last line, `[total]`, has the lengths of the files, and the
/// memory of all sections. An object has the members `file`, which is the new one's name, `section`, which is `null`
/// without a name, `old`, `new`, `change`, `old_memory`, `new_memory`, `memory_change` and, if that is wanted, `percent`,
/// which is `null` if the old number is 0.
///
/// # Errors
///
/// Those of `sum_sections`.
pub fn diff_sections<S: Sink>(
    alloc: Global,
    old: &SectionSums<'_>,
    new: &SectionSums<'_>,
    first: Option<usize>,
    has_percent: bool,
    form: Form<'_>,
    out: &mut S,
) -> Result<(), SectionError>
    ensures takes { TakesText (AreChangesOf has_percent (style_of form.entry) first old.now new.now) (S.taken out.old)
        (S.taken out.new) result }
    ensures fails { Fails (S.has_failed out.old) (S.has_failed out.new) result }
{
    let layout = Layout {
        alloc,
        form,
        has_percent,
    };
    let text = layout.text_of(first, old, new)?;
    write_whole(out, text.as_bytes()).map_err(|_| SectionError::Write)
}

// The changes from the sums of a file to those of another.
fn changes_of<'a>(
    alloc: Global,
    old: &'a SectionSums<'a>,
    new: &'a SectionSums<'a>,
) -> Result<Vec<Change<'a>>, AllocError>
    ensures from { IfOk result (λ v. AreChangesFrom (parts_of old.entry.now) (parts_of new.entry.now) v.items) }
    ensures fit { IfOk result (λ v. Fit v.items) }
{
    let mut given = given_of(alloc, old, new)?;
    given.sort_by_key(|change| change.name)?;
    let mut changes = joined_of(alloc, &given)?;
    changes.sort_by_key(|change| Reverse(distance(change.old_memory, change.new_memory)))?;
    changes.sort_by_key(|change| Reverse(distance(
        u128::from(change.old),
        u128::from(change.new),
    )))?;
    Ok(changes)
}

// How much two numbers differ.
fn distance(old: u128, new: u128) -> u128
    ensures { result ≡ difference old new }
{
    old.abs_diff(new)
}

// A change for each part.
pub(crate) fn given_of<'a>(
    alloc: Global,
    old: &'a SectionSums<'a>,
    new: &'a SectionSums<'a>,
) -> Result<Vec<Change<'a>>, AllocError>
    ensures rows { IfOk result (λ v. map row_view v.items
        ≡ map old_row (parts_of old.entry.now) ++ map new_row (parts_of new.entry.now)) }
    ensures fit { IfOk result (λ v. Fit v.items) }
{
    let mut given = Vec::new(alloc);
    for share in &old.shares {
        given.push(old_change(share.name(), share.bytes, share.section.memory_size))?;
    }
    given.push(old_change(REST, old.rest, 0))?;
    for share in &new.shares {
        given.push(new_change(share.name(), share.bytes, share.section.memory_size))?;
    }
    given.push(new_change(REST, new.rest, 0))?;
    Ok(given)
}

// The change that a part of the old file makes alone.
fn old_change(name: &str, bytes: u64, memory: u64) -> Change<'_>
    ensures { row_view result ≡ old_row (record { name = name.entry.now; bytes = bytes; memory = memory }) }
{
    Change {
        name,
        old: bytes,
        new: 0,
        old_memory: u128::from(memory),
        new_memory: 0,
    }
}

// The change that a part of the new file makes alone.
fn new_change(name: &str, bytes: u64, memory: u64) -> Change<'_>
    ensures { row_view result ≡ new_row (record { name = name.entry.now; bytes = bytes; memory = memory }) }
{
    Change {
        name,
        old: 0,
        new: bytes,
        old_memory: 0,
        new_memory: u128::from(memory),
    }
}

// Changes whose neighbours of one name are made one, without those that change nothing.
fn joined_of<'a>(alloc: Global, changes: &[Change<'a>]) -> Result<Vec<Change<'a>>, AllocError>
    requires { Fit changes.now }
    ensures { IfOk result (λ v. v.items ≡ filter differs (joined changes.now)) }
{
    let mut joined = Vec::new(alloc);
    let Some((first, others)) = changes.split_first() else {
        return Ok(joined);
    };
    let mut last = *first;
    for next in others {
        if last.name == next.name {
            last = added(last, *next);
        } else {
            push_differing(&mut joined, last)?;
            last = *next;
        }
    }
    push_differing(&mut joined, last)?;
    Ok(joined)
}

// The sum of two changes.
fn added<'a>(a: Change<'a>, b: Change<'a>) -> Change<'a>
    requires { Fit (a ∷ b ∷ []) }
    ensures { result ≡ added a.entry b.entry }
{
    Change {
        name: a.name,
        old: a.old + b.old,
        new: a.new + b.new,
        old_memory: a.old_memory + b.old_memory,
        new_memory: a.new_memory + b.new_memory,
    }
}

// Adds a change, if it changes something.
fn push_differing<'a>(kept: &mut Vec<Change<'a>>, change: Change<'a>) -> Result<(), AllocError>
    ensures { OnOk result (kept.new.items ≡ kept.old.items ++ filter differs (change.entry ∷ [])) }
{
    if change.old == change.new && change.old_memory == change.new_memory {
        return Ok(());
    }
    kept.push(change)?;
    Ok(())
}

// How changes are shown.
#[derive(Drop)]
pub(crate) struct Layout<'a> {
    pub alloc: Global,
    pub form: Form<'a>,
    pub has_percent: bool,
}

impl Layout<'_> {
    // The whole text.
    fn text_of(
        &self,
        first: Option<usize>,
        old: &SectionSums<'_>,
        new: &SectionSums<'_>,
    ) -> Result<String, AllocError>
        ensures { IfOk result (λ t. AreChangesOf self.now.has_percent (style_of self.now.form) first old.now new.now
            (string_bytes t)) }
    {
        let changes = changes_of(self.alloc, old, new)?;
        let mut text = self.first_rows(first, &changes)?;
        let total = Change {
            name: "[total]",
            old: old.file_length,
            new: new.file_length,
            old_memory: old.memory,
            new_memory: new.memory,
        };
        self.push_row(&mut text, total)?;
        Ok(text)
    }

    // The rows of the first changes, and the one that sums up all others.
    #[tactic(auto, using(crate::proofs::ChangeSums::rows_split, crate::proofs::ChangeSums::rows_whole))]
    fn first_rows(&self, first: Option<usize>, changes: &[Change<'_>]) -> Result<String, AllocError>
        requires { Fit changes.now }
        ensures { IfOk result (λ t. string_bytes t
            ≡ change_rows self.now.has_percent (style_of self.now.form) first changes.now) }
    {
        let count = count_of(first, changes.len());
        let mut text = self.each_row(&changes[..count])?;
        if count >= changes.len() {
            return Ok(text);
        }
        self.push_others(&mut text, &changes[count..])?;
        Ok(text)
    }

    // The rows of changes.
    fn each_row(&self, changes: &[Change<'_>]) -> Result<String, AllocError>
        ensures { IfOk result (λ t. string_bytes t
            ≡ flat_map (shown_row self.now.has_percent (style_of self.now.form)) changes.now) }
    {
        let mut text = String::new(self.alloc);
        for change in changes {
            self.push_row(&mut text, *change)?;
        }
        Ok(text)
    }

    // Appends the row that sums up these changes.
    fn push_others(&self, text: &mut String, others: &[Change<'_>]) -> Result<(), AllocError>
        requires { Fit others.now }
        ensures { OnOk result (string_bytes text.new ≡ string_bytes text.old
            ++ change_row self.now.has_percent (style_of self.now.form) (others_row others.now)) }
    {
        let mut label = String::new(self.alloc);
        write!(label, "[{} others]", others.len())?;
        let row = Change {
            name: label.as_str(),
            old: others.iter().map(|change| change.old).sum(),
            new: others.iter().map(|change| change.new).sum(),
            old_memory: others.iter().map(|change| change.old_memory).sum(),
            new_memory: others.iter().map(|change| change.new_memory).sum(),
        };
        self.push_row(text, row)
    }

    // Appends the row of a change.
    fn push_row(&self, text: &mut String, change: Change<'_>) -> Result<(), AllocError>
        ensures { OnOk result (string_bytes text.new ≡ string_bytes text.old
            ++ change_row self.now.has_percent (style_of self.now.form) (row_view change.entry)) }
    {
        match self.form {
            Form::Lines => self.push_line(text, change),
            Form::Objects(file, _) => self.push_object(text, file, change),
        }
    }

    fn push_line(&self, text: &mut String, change: Change<'_>) -> Result<(), AllocError>
        ensures { OnOk result (string_bytes text.new ≡ string_bytes text.old
            ++ change_line self.now.has_percent (row_view change.entry)) }
    {
        push_size(text, change.old)?;
        push_size(text, change.new)?;
        push_change(
            self.alloc,
            text,
            u128::from(change.old),
            u128::from(change.new),
        )?;
        push_change(self.alloc, text, change.old_memory, change.new_memory)?;
        push_growth(self.alloc, text, self.has_percent, change.old, change.new)?;
        text.push_str(change.name)?;
        text.push_str("\n")?;
        Ok(())
    }

    fn push_object(
        &self,
        text: &mut String,
        file: &str,
        change: Change<'_>,
    ) -> Result<(), AllocError>
        ensures { OnOk result (string_bytes text.new ≡ string_bytes text.old
            ++ change_object self.now.has_percent file.now (row_view change.entry)) }
    {
        push_start(text, file)?;
        push_text_member(text, "section", name_given(change.name))?;
        push_number_member(text, "old", change.old)?;
        push_number_member(text, "new", change.new)?;
        push_signed_member(
            text,
            "change",
            u128::from(change.old),
            u128::from(change.new),
        )?;
        push_long_member(text, "old_memory", change.old_memory)?;
        push_long_member(text, "new_memory", change.new_memory)?;
        push_signed_member(text, "memory_change", change.old_memory, change.new_memory)?;
        push_growth_member(text, self.has_percent, change.old, change.new)?;
        text.push_str("}\n")?;
        Ok(())
    }
}

// A name as a member of an object; sections without one have none.
fn name_given(name: &str) -> Option<&str>
    ensures { option_map (λ t. t.now) result ≡ name_given name.now }
{
    if name.is_empty() { None } else { Some(name) }
}
