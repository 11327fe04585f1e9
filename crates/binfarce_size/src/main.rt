//! `binfarce-size FILE [SECTION]`: reports how much of an executable each crate takes.
#![tactic(auto)]

mod program;
#[cfg(test)]
mod tests;

use crate::program::{Fault, run_file, words};
use binfarce_tools::list::Out;
use binfarce_tools::program::{arguments, exit, finish, open};
use std::io::{self, Write};
use std::process::ExitCode;

fn main(rt: HostRuntime) -> ExitCode {
    exit(&rt, report_file(&rt))
}

fn report_file(rt: &HostRuntime) -> Result<(), Fault> {
    let arguments = arguments(rt)?;
    let (path, section) = words(arguments.as_slice())?;
    let mut file = open(rt, path)?;
    let mut out = Out::new(io::writer(rt));
    let reported = run_file(rt.alloc(), &mut file, section, &mut out);
    let flushed = out.into_inner().flush();
    finish(flushed, reported)
}
