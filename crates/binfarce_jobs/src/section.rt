//! The sections of a file: the bytes of one, or a line for each.

ghost use Rattle.std.specs.Prelude.{◌≡◌, ℕ, List, Some};
ghost use Rattle.binfarce_sections.specs.Results.{Fails};
ghost use Rattle.binfarce_rows.specs.Json.{style_of};
ghost use Rattle.binfarce_jobs.specs.Section.{TakesAsked};

use binfarce_bytes::source::Source;
use binfarce_rows::json::Form;
use binfarce_sections::bytes::write_section_of;
use binfarce_sections::error::SectionError;
use binfarce_sections::list::list_source;
use binfarce_tools::list::Sink;
use std::alloc::Global;

/// What is written of a file's sections.
#[derive(Debug, Clone, Copy)]
pub enum Asked<'a> {
    /// The bytes of the first section of this name.
    Bytes(&'a str),
    /// A line for each section.
    Lines,
}

/// Writes what is asked for of the sections. Only the section headers, the section names, and the bytes of the named
/// section are read.
///
/// # Errors
///
/// Those of `write_section_of` and `list_source`.
pub fn write_sections<S: Source<Log = ()>, K: Sink>(
    alloc: Global,
    source: &S,
    asked: Asked<'_>,
    form: Form<'_>,
    out: &mut K,
) -> Result<(), SectionError>
    ensures takes { (file : List ℕ) → S.bytes source.now ≡ Some file
        → TakesAsked (style_of form.entry) (S.may_fail source.now) file asked.entry
        (K.taken out.old) (K.taken out.new) result }
    ensures fails { Fails (K.has_failed out.old) (K.has_failed out.new) result }
{
    match asked {
        Asked::Bytes(name) => write_section_of(alloc, source, &mut (), name, out),
        Asked::Lines => list_source(alloc, source, &mut (), form, out),
    }
}
