//! `binfarce-list FILE [SECTION]`: lists the function symbols of an executable.
#![tactic(auto)]

mod program;
#[cfg(test)]
mod tests;

use crate::program::{Fault, run_file, words};
use binfarce_tools::list::Out;
use binfarce_tools::program::{arguments, exit, finish, open};
use std::io::{self, Write};
use std::process::ExitCode;

fn main(rt: HostRuntime) -> ExitCode {
    exit(&rt, list_file(&rt))
}

fn list_file(rt: &HostRuntime) -> Result<(), Fault> {
    let arguments = arguments(rt)?;
    let (path, section) = words(arguments.as_slice())?;
    let mut file = open(rt, path)?;
    let mut out = Out::new(io::writer(rt));
    let listed = run_file(rt.alloc(), &mut file, section, &mut out);
    let flushed = out.into_inner().flush();
    finish(flushed, listed)
}
