//! Two numbers for each key, and the rows that show them.

ghost use Rattle.std.specs.Prelude.{◌≡◌, ◌++◌, ◌<◌, ◌^◌, ℕ, List, codes, filter, map, IfOk, OnOk};
ghost use Rattle.std.specs.List.{sum_by};
ghost use Rattle.std.specs.String.{string_bytes};
ghost use Rattle.binfarce_tools.specs.Report.{Share, AreCratesOf, sum_of};
ghost use Rattle.binfarce_figures.specs.Figures.{copies_part, figure_row, figure_rows, figure_view, numbers_of, others_row, percent_part, share_member};
ghost use Rattle.binfarce_figures.specs.machine.Columns.{AreRowsFor, columns_text, has_row, members_text, rank, row_text};
ghost use Rattle.binfarce_figures.specs.machine.Counts.{AreNumbersOf};

use crate::key::Key;
use crate::sums::{Figures, Numbers};
use binfarce_rows::columns::{
    count_of, hundredths, push_change, push_growth, push_growth_member, push_percent_member,
    push_signed_member, push_size,
};
use binfarce_rows::json::{Form, push_number_member, push_start, push_text_member};
use std::alloc::{AllocError, Global};
use std::cmp::Reverse;
use std::collections::BTreeMap;

/// A key, with two numbers that are counted for it.
#[derive(Debug, Clone, Copy)]
pub struct Figure<'a> {
    /// The key.
    pub name: &'a str,
    /// The sum of the sizes of its function symbols; of two files, in the old one.
    pub sum: u64,
    /// How many function symbols have it; of two files, the sum of their sizes in the new one.
    pub other: u64,
}

/// What the numbers of figures are, and so what their rows show.
#[derive(Debug, Clone, Copy, PartialEq)]
pub enum Columns {
    /// A sum, which is a share of this whole, and a number of function symbols.
    Sums(u64),
    /// The sums in two files.
    Changes,
}

/// How figures are shown.
#[derive(Drop)]
pub(crate) struct Layout<'a> {
    pub alloc: Global,
    pub figures: &'a Figures,
    pub form: Form<'a>,
    pub columns: Columns,
}

impl Layout<'_> {
    /// The rows of the first figures of keys with these numbers, and the one that sums up all others.
    pub(crate) fn rows(&self, numbers: &BTreeMap<String, Numbers>) -> Result<String, AllocError>
        requires { (first : List Share) × (second : List Share) × AreNumbersOf first second numbers.now }
        ensures { IfOk result (λ t. (first second : List Share) → AreNumbersOf first second numbers.now
            → AreRowsFor self.now first second (string_bytes t)) }
    {
        let mut rows = self.figures_of(numbers)?;
        rows.sort_by_key(|row| Reverse(rank(self.columns, row.sum, row.other)))?;
        self.first_rows(&rows)
    }

    // The figures of keys with these numbers, in the order of the keys' bytes.
    fn figures_of<'b>(
        &self,
        numbers: &'b BTreeMap<String, Numbers>,
    ) -> Result<Vec<Figure<'b>>, AllocError>
        ensures { IfOk result (λ v. (first second : List Share) → AreNumbersOf first second numbers.entry.now
            → (names : List (List ℕ)) × AreCratesOf first names × (map figure_view v.items ≡ filter
            (λ n. has_row self.now.columns n.1.0 n.1.1) (numbers_of (sum_of first) (sum_of second) names))) }
    {
        let mut figures = Vec::new(self.alloc);
        for (name, pair) in numbers.iter() {
            let name = name.as_str();
            let Numbers { sum, other } = *pair;
            if has_row(self.columns, sum, other) {
                figures.push(Figure { name, sum, other })?;
            }
        }
        Ok(figures)
    }

    // The rows of the first figures, and the one that sums up all others.
    fn first_rows(&self, rows: &[Figure<'_>]) -> Result<String, AllocError>
        requires { (sum_by (λ f. f.sum) rows.now < 2 ^ 64) × (sum_by (λ f. f.other) rows.now < 2 ^ 64) }
        ensures { IfOk result (λ t. string_bytes t
            ≡ figure_rows (row_text self.now) self.now.figures.now.first rows.now) }
    {
        let count = count_of(self.figures.first, rows.len());
        let mut text = String::new(self.alloc);
        for row in &rows[..count] {
            self.push_row(&mut text, *row)?;
        }
        if count < rows.len() {
            self.push_others(&mut text, &rows[count..])?;
        }
        Ok(text)
    }

    // Appends the row that sums up these figures.
    fn push_others(&self, text: &mut String, rows: &[Figure<'_>]) -> Result<(), AllocError>
        requires { (sum_by (λ f. f.sum) rows.now < 2 ^ 64) × (sum_by (λ f. f.other) rows.now < 2 ^ 64) }
        ensures { OnOk result (string_bytes text.new
            ≡ string_bytes text.old ++ others_row (row_text self.now) rows.now) }
    {
        let mut label = String::new(self.alloc);
        write!(label, "[{} others]", rows.len())?;
        let name = label.as_str();
        let sum = rows.iter().map(|row| row.sum).sum();
        let other = rows.iter().map(|row| row.other).sum();
        self.push_row(text, Figure { name, sum, other })
    }

    /// Appends the row of a figure.
    pub(crate) fn push_row(&self, text: &mut String, figure: Figure<'_>) -> Result<(), AllocError>
        ensures { OnOk result (string_bytes text.new
            ≡ string_bytes text.old ++ figure_row (row_text self.now) figure.entry) }
    {
        let Figure { name, sum, other } = figure;
        match self.form {
            Form::Lines => {
                self.push_columns(text, sum, other)?;
                text.push_str(name)?;
                text.push_str("\n")
            }
            Form::Objects(file, _) => {
                push_start(text, file)?;
                push_text_member(text, "name", Some(name))?;
                self.push_members(text, sum, other)?;
                text.push_str("}\n")
            }
        }
    }

    // Appends what a line shows of two numbers.
    fn push_columns(&self, text: &mut String, sum: u64, other: u64) -> Result<(), AllocError>
        ensures { OnOk result (string_bytes text.new
            ≡ string_bytes text.old ++ columns_text self.now.figures.now self.now.columns sum other) }
    {
        push_size(text, sum)?;
        match self.columns {
            Columns::Sums(whole) => {
                self.push_percent(text, sum, whole)?;
                push_copies(text, self.figures.grouping.key, other)
            }
            Columns::Changes => {
                push_size(text, other)?;
                push_change(self.alloc, text, u128::from(sum), u128::from(other))?;
                push_growth(self.alloc, text, self.figures.has_percent, sum, other)
            }
        }
    }

    // Appends the share of a size in the whole, if it is wanted.
    #[tactic(auto, using(binfarce_rows::proofs::Pads::padded_to))]
    fn push_percent(&self, text: &mut String, size: u64, whole: u64) -> Result<(), AllocError>
        ensures { OnOk result (string_bytes text.new
            ≡ string_bytes text.old ++ percent_part self.now.figures.now.has_percent size whole) }
    {
        if self.figures.has_percent {
            let share = hundredths(size, whole);
            let per_cent = share / 100;
            write!(text, "{per_cent:>3}.{}{}% ", share / 10 % 10, share % 10)?;
        }
        Ok(())
    }

    // Appends the members of two numbers.
    fn push_members(&self, text: &mut String, sum: u64, other: u64) -> Result<(), AllocError>
        ensures { OnOk result (string_bytes text.new
            ≡ string_bytes text.old ++ members_text self.now.figures.now self.now.columns sum other) }
    {
        match self.columns {
            Columns::Sums(whole) => {
                push_number_member(text, "size", sum)?;
                push_number_member(text, "copies", other)?;
                self.push_share_member(text, sum, whole)
            }
            Columns::Changes => {
                push_number_member(text, "old", sum)?;
                push_number_member(text, "new", other)?;
                push_signed_member(text, "change", u128::from(sum), u128::from(other))?;
                push_growth_member(text, self.figures.has_percent, sum, other)
            }
        }
    }

    // Appends the member of the share of a size in the whole, if it is wanted.
    fn push_share_member(&self, text: &mut String, size: u64, whole: u64) -> Result<(), AllocError>
        ensures { OnOk result (string_bytes text.new
            ≡ string_bytes text.old ++ share_member self.now.figures.now.has_percent size whole) }
    {
        if !self.figures.has_percent {
            return Ok(());
        }
        push_percent_member(text, "", hundredths(size, whole))
    }
}

// Whether a figure has a row: of changes, whether its sums differ.
fn has_row(columns: Columns, sum: u64, other: u64) -> bool
    ensures { result ≡ has_row columns sum other }
{
    columns != Columns::Changes || sum != other
}

// What figures are sorted by: their sums; those of changes by how much they differ.
fn rank(columns: Columns, sum: u64, other: u64) -> u64
    ensures { result ≡ rank columns sum other }
{
    match columns {
        Columns::Sums(_) => sum,
        Columns::Changes => sum.abs_diff(other),
    }
}

// Appends the count of copies, where generic functions are summed.
#[tactic(auto, using(binfarce_rows::proofs::Pads::padded_to))]
fn push_copies(text: &mut String, key: Key, copies: u64) -> Result<(), AllocError>
    ensures { OnOk result (string_bytes text.new ≡ string_bytes text.old ++ copies_part key copies) }
{
    match key {
        Key::Generic => write!(text, "{copies:>6} "),
        _ => Ok(()),
    }
}
