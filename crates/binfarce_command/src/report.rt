//! Messages for refused calls and files, and the program's exit status.

ghost use Rattle.std.specs.Prelude.{◌≡◌};
ghost use Rattle.std.specs.IoError.{error_kind};
ghost use Rattle.std.specs.Option.{option_map};
ghost use Rattle.binfarce_calls.specs.Status.{status_of, wrong_status};

use binfarce_calls::status::{status_of, wrong_status};
use binfarce_io::fault::Fault;
use binfarce_io::message::{Message, line_of, message_of};
use binfarce_jobs::limit::Verdict;
use binfarce_words::wrong::Wrong;
use std::fmt;
use std::io::Error;

/// Prints why a call is wrong, and returns the program's exit status.
pub fn refuse(rt: &HostRuntime, wrong: &Wrong<'_>) -> u8
    ensures { result ≡ wrong_status wrong.now }
{
    say(rt, None, wrong);
    wrong_status(wrong)
}

/// Prints why the work failed, if it did, and returns the program's exit status. `reason` is that of a failed write.
pub fn ended(
    rt: &HostRuntime,
    done: Result<Verdict, Fault>,
    has_limit: bool,
    reason: Option<Error>,
) -> u8
    ensures { result ≡ status_of done has_limit (option_map error_kind reason) }
{
    let status = status_of(&done, has_limit, &reason);
    match done {
        Err(fault) if !fault.is_write() => say(rt, None, &fault),
        Err(fault) if status != 0 => {
            let message = message_of(rt.alloc(), fault, reason, None);
            report(rt, "standard output", &message);
        }
        _ => {}
    }
    status
}

/// Prints why a file is refused.
pub fn report(rt: &HostRuntime, name: &str, message: &Message) {
    say(rt, Some(name), message);
}

/// Prints the line that says these words, of the file at this path if there is one.
pub fn say<T: fmt::Display>(rt: &HostRuntime, path: Option<&str>, words: &T) {
    let alloc = rt.alloc();
    let line = match format!(in alloc; "{words}") {
        Ok(words) => line_of(alloc, path, words.as_str()),
        Err(e) => Err(e),
    };
    let _ = match line {
        Ok(line) => eprintln!(rt; "{line}"),
        Err(_) => eprintln!(rt; "binfarce: out of memory"),
    };
}
