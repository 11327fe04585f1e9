//! The program's exit status, by what its work came to.

ghost use Rattle.std.specs.Prelude.{◌≡◌};
ghost use Rattle.std.specs.IoError.{error_kind};
ghost use Rattle.std.specs.Option.{option_map};
ghost use Rattle.binfarce_calls.specs.Status.{fault_status, is_broken_pipe, status_of, wrong_status};

use binfarce_io::fault::Fault;
use binfarce_jobs::limit::Verdict;
use binfarce_words::wrong::Wrong;
use std::io::{Error, ErrorKind};

/// The status of a wrong call.
pub fn wrong_status(wrong: &Wrong<'_>) -> u8
    ensures { result ≡ wrong_status wrong.now }
{
    match wrong {
        Wrong::OutOfMemory => 1,
        _ => 2,
    }
}

/// The status of a call, by what its work came to, or why it ended early. A reader that closes the output is no failure,
/// unless sums have a limit: whether they exceed it isn't known then. `reason` is that of a failed write.
pub fn status_of(done: &Result<Verdict, Fault>, has_limit: bool, reason: &Option<Error>) -> u8
    ensures { result ≡ status_of done.now has_limit (option_map error_kind reason.now) }
{
    match done {
        Ok(
            Verdict {
                is_done: true,
                is_above: true,
            },
        ) => 3,
        Ok(verdict) => u8::from(!verdict.is_done),
        Err(fault) if !fault.is_write() => fault_status(fault),
        Err(_) => u8::from(has_limit || !is_broken_pipe(reason)),
    }
}

// That of a fault other than a failed write.
fn fault_status(fault: &Fault) -> u8
    ensures { result ≡ fault_status fault.now }
{
    match fault {
        Fault::Missing(_) => 2,
        _ => 1,
    }
}

// Whether the reader of the output has closed it.
fn is_broken_pipe(reason: &Option<Error>) -> bool
    ensures { result ≡ is_broken_pipe (option_map error_kind reason.now) }
{
    matches!(reason, Some(e) if e.kind() == ErrorKind::BrokenPipe)
}
