//! Function symbols as symbols with readable names.

ghost use Rattle.std.specs.Prelude.{◌≡◌, ◌≢◌, List, [], Some, map, IfOk, OnErr};
ghost use Rattle.std.specs.Iterator.{IsFinite, Drains};
ghost use Rattle.binfarce_bytes.specs.SymbolViews.{function_view, section_function_view};
ghost use Rattle.binfarce_bytes.specs.declared.functions.FunctionSymbol.{FunctionSymbol};
ghost use Rattle.binfarce_elf_memory.specs.SelectionViews.{functions_left};
ghost use Rattle.binfarce.specs.Symbol.{IsSymbolOf, AreSymbolsOf};

use crate::elf::Functions;
use binfarce_bytes::functions::{FunctionSymbol, SectionFunction};
use binfarce_elf_memory::selection::Functions as AllFunctions;
use binfarce_names::demangle::{Demangler, SymbolData};
use std::alloc::{AllocError, Global};

/// One symbol for each function symbol that an ELF file's iterator has left, in order, with its name in readable form.
/// Names are copied; nothing borrows from the file.
///
/// # Errors
///
/// A failed allocation, only if a function symbol is left.
pub fn symbols_of_elf(
    alloc: Global,
    functions: AllFunctions<'_>,
) -> Result<Vec<SymbolData>, AllocError>
    ensures symbols { IfOk result (λ v. AreSymbolsOf (map (λ e. e.entry) (functions_left functions.entry)) v.items) }
    ensures memory { OnErr result (map (λ e. e.entry) (functions_left functions.entry) ≢ []) }
{
    symbols_of(alloc, Functions { all: functions })
}

/// One symbol for each function symbol of a list, in order, with its name in readable form. Names are copied; nothing
/// borrows from the list.
///
/// # Errors
///
/// A failed allocation, only if the list isn't empty.
pub(crate) fn symbols_of_list(
    alloc: Global,
    functions: &[FunctionSymbol<'_>],
) -> Result<Vec<SymbolData>, AllocError>
    ensures symbols { IfOk result (λ v. AreSymbolsOf (map function_view functions.now) v.items) }
    ensures memory { OnErr result (functions.now ≢ []) }
{
    symbols_of(alloc, functions.iter().copied())
}

/// The function symbols of a list, in order, without their sections.
///
/// # Errors
///
/// A failed allocation, only if the list isn't empty.
pub(crate) fn without_sections<'a>(
    alloc: Global,
    functions: &[SectionFunction<'a>],
) -> Result<Vec<FunctionSymbol<'a>>, AllocError>
    ensures alone { IfOk result
        (λ v. map function_view v.items ≡ map (λ e. e.entry) (map section_function_view functions.entry.now)) }
    ensures memory { OnErr result (functions.entry.now ≢ []) }
{
    let mut alone = Vec::new(alloc);
    for function in functions {
        alone.push(function.function)?;
    }
    Ok(alone)
}

// One symbol for each function symbol that comes, in order.
fn symbols_of<'a, I: Iterator<Item = FunctionSymbol<'a>> + Drop>(
    alloc: Global,
    functions: I,
) -> Result<Vec<SymbolData>, AllocError>
    requires can { I.can_next functions }
    requires ends { IsFinite (I.remaining functions) }
    ensures symbols { IfOk result
        (λ v. (given : List FunctionSymbol) × Drains I.next_gives functions given
        × AreSymbolsOf (map function_view given) v.items) }
    ensures memory { OnErr result ((first : FunctionSymbol) × (after : I)
        × I.next_gives functions (Some first) after) }
{
    let mut symbols = Vec::new(alloc);
    let mut demangler = Demangler::new(alloc);
    for function in functions {
        symbols.push(symbol_of(&mut demangler, function)?)?;
    }
    Ok(symbols)
}

#[inline(always)]
fn symbol_of(
    demangler: &mut Demangler,
    function: FunctionSymbol<'_>,
) -> Result<SymbolData, AllocError>
    ensures { IfOk result (IsSymbolOf (function_view function.entry)) }
{
    Ok(SymbolData {
        name: demangler.demangle(function.name)?,
        address: function.address,
        size: function.size,
    })
}
