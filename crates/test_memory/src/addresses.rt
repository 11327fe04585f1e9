//! Symbolized addresses: all lines, or `OutOfMemory` and nothing or a beginning of them written.

use binfarce_addresses::Lookup;
use binfarce_addresses::at::{Places, at};
use binfarce_addresses::stream::{StreamError, answer_lines};
use binfarce_rows::json::Form;
use binfarce_tools::list::{ListError, Out};
use std::alloc::{AllocError, Global};
use test_image_samples::tally::{Row, Tally};
use test_samples::elf::ELF64_LITTLE;
use test_samples::expected::Expected;
use test_samples::streams::Source;

const LINES: &str = "0000000000001000 foo+0x0\n000000000000100f foo+0xf\n0000000000001010 ??\n";

const OBJECTS: &str = "\
{\"file\":\"a\",\"address\":\"0x0000000000001000\",\"name\":\"foo\",\"offset\":0}
{\"file\":\"a\",\"address\":\"0x000000000000100f\",\"name\":\"foo\",\"offset\":15}
{\"file\":\"a\",\"address\":\"0x0000000000001010\",\"name\":null,\"offset\":null}
";

// Addresses of the file.
const AS_THEY_ARE: Lookup<'static> = Lookup {
    base: None,
    linked: 0,
    size: None,
    origin: 0,
    is_return: false,
    form: Form::Lines,
    path: b"a",
};

const AS_OBJECTS: Lookup<'static> = Lookup {
    base: None,
    linked: 0,
    size: None,
    origin: 0,
    is_return: false,
    form: Form::Objects("a", ""),
    path: b"a",
};

fn are_lines(alloc: Global) -> Row {
    let mut out = Out::new(Expected::new(LINES.as_bytes()));
    let addresses = [0x1000, 0x100f, 0x1010];
    let result = at(
        alloc,
        &ELF64_LITTLE,
        ".text",
        AS_THEY_ARE,
        &addresses,
        &mut out,
    );
    let written = out.into_inner();
    match result {
        Ok(_) => Ok(written.is_whole()),
        Err(ListError::OutOfMemory) if written.is_empty => Err(AllocError),
        Err(_) => Ok(false),
    }
}

fn is_answered(alloc: Global, lookup: Lookup<'_>, answers: &str, text: &[u8]) -> Row {
    let places = match Places::of_file(alloc, &ELF64_LITTLE, ".text") {
        Ok(places) => places,
        Err(ListError::OutOfMemory) => return Err(AllocError),
        Err(_) => return Ok(false),
    };
    let mut input = Source::of(text);
    let mut out = Out::new(Expected::new(answers.as_bytes()));
    let result = answer_lines(alloc, &places, lookup, &mut input, &mut out);
    let written = out.into_inner();
    match result {
        Ok(counts) => Ok(counts.found == 2 && counts.missing == 0 && written.is_whole()),
        Err(StreamError::OutOfMemory) if written.is_beginning() => Err(AllocError),
        Err(_) => Ok(false),
    }
}

pub(crate) fn add_addresses(alloc: Global, tally: &mut Tally) {
    tally.add("addresses", are_lines(alloc));
    for (what, lookup, answers, text) in [
        ("lines", AS_THEY_ARE, LINES, "1000\n100f\n1010\n"),
        ("a last line", AS_THEY_ARE, LINES, "1000\n100f\n1010"),
        ("objects", AS_OBJECTS, OBJECTS, "1000\n100f\n1010\n"),
    ] {
        tally.add(what, is_answered(alloc, lookup, answers, text.as_bytes()));
    }
}
