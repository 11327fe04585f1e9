//! Function symbols as stacks.

ghost use Rattle.std.specs.Prelude.{◌≡◌, ◌⊎◌, ◌++◌, ℕ, List, Option, codes, IfErr, IfOk, OnOk};
ghost use Rattle.std.specs.Fmt.{decimal};
ghost use Rattle.std.specs.List.{flat_map};
ghost use Rattle.std.specs.String.{string_bytes};
ghost use Rattle.binfarce.specs.declared.SymbolTable.{SymbolTable};
ghost use Rattle.binfarce_tools.specs.Report.{Share};
ghost use Rattle.binfarce_tools.specs.ReportWords.{outcome_of};
ghost use Rattle.binfarce_tools.specs.Answer.{selected_answer};
ghost use Rattle.binfarce_tools.specs.Writing.{Takes, Fails, Leaves};
ghost use Rattle.binfarce_tools.specs.declared.report.ReportError.TheVariants.{OutOfMemory, Write};
ghost use Rattle.binfarce_figures.specs.Claimed.{AreClaimsIn};
ghost use Rattle.binfarce_figures.specs.Figures.{AreStacksIn, claim_line};
ghost use Rattle.binfarce_figures.specs.Stacks.{stack, stack_of};
ghost use Rattle.binfarce_figures.specs.declared.key.Key.TheVariants.{Stack};
ghost use Rattle.binfarce_figures.specs.machine.Shares.{AreSharesWith};

use crate::claims::Claims;
use crate::generic::{Shape, push_rewritten};
use crate::key::{Grouping, Key, KeyMaker, put_key};
use binfarce_tools::list::Sink;
use binfarce_tools::report::{ReportError, write_made};
use std::alloc::{AllocError, Global};

/// Writes a line for each function symbol that adds bytes, as tools for flame graphs read it: a stack, a blank, and the
/// number of these bytes.
///
/// A stack is the crate that `sum_by` counts the function symbol for, and the parts of the trimmed name, which `::`
/// outside of brackets separates, with `;` between them. The first part is left out where it is the crate: of a crate
/// `foo` the function `foo::bar` is `foo;bar`, and `foo` is `foo`, as `foo;foo` is `foo::foo`. A `;` in a name is shown
/// as `:`. With `joins_std` the stack of all functions of Rust's standard library is `[std]`. Inner function symbols come
/// before outer ones. The lines are made before the first byte is written.
///
/// # Errors
///
/// As `sum_by`.
pub fn fold_claims<S: Sink>(
    alloc: Global,
    claims: &Claims<'_, '_>,
    joins_std: bool,
    out: &mut S,
) -> Result<(), ReportError>
    ensures outcome { IfErr result (λ e. (e ≡ OutOfMemory) ⊎ (e ≡ Write)) }
    ensures takes { (which : SymbolTable) (file : List ℕ) (section : Option (List ℕ))
        → AreClaimsIn which file section claims.now → Takes (AreStacksIn joins_std)
        (selected_answer which section file) (S.taken out.old) (S.taken out.new) (outcome_of result) }
    ensures fails { Fails (S.has_failed out.old) (S.has_failed out.new) (outcome_of result) }
    ensures leaves { Leaves out.old out.new (outcome_of result) }
{
    write_made(out, stacks_of(alloc, claims, joins_std))
}

// The lines of function symbols with their stacks.
fn stacks_of(alloc: Global, claims: &Claims<'_, '_>, joins_std: bool) -> Result<String, AllocError>
    ensures { IfOk result (λ t. (shares : List Share)
        × AreSharesWith (record { key = Stack; joins_std = joins_std }) claims.now shares
        × (string_bytes t ≡ flat_map claim_line shares)) }
{
    let grouping = Grouping {
        key: Key::Stack,
        joins_std,
    };
    let mut maker = KeyMaker::new(alloc);
    let mut stack = String::new(alloc);
    let mut text = String::new(alloc);
    for claim in &claims.list {
        put_key(
            &mut maker,
            &mut stack,
            claims.tables,
            *claim,
            claims.size,
            grouping,
        )?;
        push_claim(&mut text, stack.as_str(), claim.function.size)?;
    }
    Ok(text)
}

// Appends the line of a function symbol with this stack, if it adds bytes.
fn push_claim(text: &mut String, stack: &str, size: u64) -> Result<(), AllocError>
    ensures { OnOk result (string_bytes text.new
        ≡ string_bytes text.old ++ claim_line (record { name = stack.now; size = size })) }
{
    if size == 0 {
        return Ok(());
    }
    text.push_str(stack)?;
    text.push_str(" ")?;
    push_decimal(text, size)?;
    text.push_str("\n")
}

// Appends a number, as `{}` writes it.
fn push_decimal(text: &mut String, n: u64) -> Result<(), AllocError>
    ensures { OnOk result (string_bytes text.new ≡ string_bytes text.old ++ decimal n) }
{
    if n >= 10 {
        push_decimal(text, n / 10)?;
    }
    text.push(char::from(b'0' + (n % 10) as u8))
}

/// Appends the stack of a function with this crate and this trimmed name. `root` and `parts` are overwritten.
pub(crate) fn push_stack(
    text: &mut String,
    root: &mut String,
    parts: &mut String,
    crate_name: &str,
    trimmed: &str,
) -> Result<(), AllocError>
    ensures { OnOk result (string_bytes text.new ≡ string_bytes text.old ++ stack crate_name.now trimmed.now) }
{
    root.clear();
    push_rewritten(root, Shape::Stack, crate_name)?;
    parts.clear();
    push_rewritten(parts, Shape::Stack, trimmed)?;
    push_below(text, root, parts.as_str())
}

// Appends the crate and the parts of a name, unless the first of these is the crate. `root` is overwritten.
fn push_below(text: &mut String, root: &mut String, parts: &str) -> Result<(), AllocError>
    ensures { OnOk result (string_bytes text.new
        ≡ string_bytes text.old ++ stack_of (string_bytes root.old) parts.now) }
{
    let is_crate = parts == root.as_str();
    root.push_str(";")?;
    if !is_crate && !parts.as_bytes().starts_with(root.as_bytes()) {
        text.push_str(root.as_str())?;
    }
    text.push_str(parts)
}

/// A function in a crate; one whose name is the crate's alone; one of another path that begins with the same letters;
/// and one of no known crate.
fn worked_stacks()
    ensures below { stack_of (codes "foo") (codes "foo;bar") ≡ codes "foo;bar" }
    ensures alone { stack_of (codes "foo") (codes "foo") ≡ codes "foo" }
    ensures other { stack_of (codes "foo") (codes "foot;bar") ≡ codes "foo;foot;bar" }
    ensures unknown { stack_of (codes "[unknown]") (codes "foo") ≡ codes "[unknown];foo" }
{}
