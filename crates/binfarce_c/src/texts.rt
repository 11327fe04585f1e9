//! Listings and reports of files.

ghost use Rattle.std.specs.Prelude.{◌≡◌, Err};
ghost use Rattle.binfarce_tools.specs.Listing.{ListingFits};
ghost use Rattle.binfarce_tools.specs.ReportWords as reporting;
ghost use Rattle.binfarce_tools.specs.SectionAnswer.{readers_answer, NeedsMemory, IsListingOf, IsReportOf, ReportFits};
ghost use Rattle.binfarce_c.specs.Texts.{GivesText, no_text};

use crate::buffer::{Text, give};
use crate::names::none;
use crate::status::{NOT_UTF8, OUT_OF_MEMORY, TOO_LARGE, UNKNOWN_FORMAT, detail_of, status_of};
use binfarce_tools::list::{Out, list};
use binfarce_tools::report::{ReportError, report};
use std::alloc::Global;
use std::str;

/// The listing of a file's function symbols, in a buffer. See `binfarce.h`.
#[unsafe(no_mangle)]
#[tactic(auto, unfolding(crate::specs::Texts::GivesText))]
pub extern "C" fn binfarce_list(alloc: Global, file: &[u8], section: &[u8], out: &mut [u8]) -> Text
    ensures { GivesText ListingFits (NeedsMemory file.now) IsListingOf section.now
        (readers_answer file.now section.now) out.old out.new result }
{
    let Ok(section) = str::from_utf8(section) else {
        return none(NOT_UTF8);
    };
    let mut sink = Out::new(Vec::new(alloc));
    match list(alloc, file, section, &mut sink) {
        Ok(()) => give(sink.into_inner().as_slice(), out),
        Err(e) => no_report(ReportError::from(e)),
    }
}

/// The report of how much of a file each crate takes, in a buffer. See `binfarce.h`.
#[unsafe(no_mangle)]
#[tactic(auto, unfolding(crate::specs::Texts::GivesText))]
pub extern "C" fn binfarce_report(
    alloc: Global,
    file: &[u8],
    section: &[u8],
    out: &mut [u8],
) -> Text
    ensures { GivesText ReportFits (NeedsMemory file.now) IsReportOf section.now
        (readers_answer file.now section.now) out.old out.new result }
{
    let Ok(section) = str::from_utf8(section) else {
        return none(NOT_UTF8);
    };
    let mut sink = Out::new(Vec::new(alloc));
    match report(alloc, file, section, &mut sink) {
        Ok(()) => give(sink.into_inner().as_slice(), out),
        Err(e) => no_report(e),
    }
}

fn no_report(error: ReportError) -> Text
    ensures { result ≡ no_text (reporting.outcome_of (Err error)) }
{
    match error {
        ReportError::Unknown => none(UNKNOWN_FORMAT),
        ReportError::Parse(e) => Text {
            detail: detail_of(e),
            ..none(status_of(e))
        },
        ReportError::OutOfMemory | ReportError::Write => none(OUT_OF_MEMORY),
        ReportError::TooLarge => none(TOO_LARGE),
    }
}
