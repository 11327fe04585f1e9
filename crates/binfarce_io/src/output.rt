//! The output of a command: a sink that writes a heading before the first byte that follows it.

ghost use Rattle.std.specs.Prelude.{◌≡◌, [], true, false, IfErr, OnOk};
ghost use Rattle.std.specs.Io.KnownBytes.{Keeps};
ghost use Rattle.binfarce_io.specs.Output.{writer_of, pending, has_failed, taken};
ghost use Rattle.binfarce_io.specs.Faults.{failure};
ghost use Rattle.binfarce_tools.specs.Writing.{write_failed};

use crate::fault::Fault;
use binfarce_tools::list::Sink;
use binfarce_tools::report::ReportError;
use std::alloc::Global;
use std::io::{self, Error, ErrorKind, Write};

/// A sink over a writer. A heading is written with the first byte after it, or never. The system's reason is kept where
/// a write fails.
#[derive(Drop)]
pub struct Output<W> {
    writer: W,
    heading: Vec<u8>,
    // How much of the heading is written.
    done: usize,
    reason: Option<Error>,
}

impl<W: Write> Output<W> {
    /// A sink over this writer, with no heading.
    pub fn new(alloc: Global, writer: W) -> Output<W>
        ensures writer { writer_of result ≡ writer }
        ensures pending { pending result ≡ [] }
        ensures failed { has_failed result ≡ false }
    {
        Output {
            writer,
            heading: Vec::new(alloc),
            done: 0,
            reason: None,
        }
    }

    /// Begins a part with this heading.
    pub fn begin(&mut self, heading: Vec<u8>)
        ensures pending { pending self.new ≡ heading.items }
        ensures writer { writer_of self.new ≡ writer_of self.old }
        ensures failed { has_failed self.new ≡ has_failed self.old }
    {
        self.heading = heading;
        self.done = 0;
    }

    /// Writes the rest of the heading.
    ///
    /// # Errors
    ///
    /// `Write` if a write fails.
    pub fn end(&mut self) -> Result<(), Fault>
        ensures kept { Keeps (taken W.contents self.old) (taken W.contents self.new) }
        ensures written { OnOk result ((pending self.new ≡ []) × (has_failed self.new ≡ has_failed self.old)) }
        ensures fails { IfErr result (λ e. (failure e ≡ write_failed) × (has_failed self.new ≡ true)) }
    {
        while self.done < self.heading.len() {
            match self.writer.write(&self.heading[self.done..]) {
                Ok(n) if n > 0 => self.done += n,
                Ok(_) => {
                    self.reason = Some(Error::from(ErrorKind::WriteZero));
                    return Err(Fault::Report(ReportError::Write));
                }
                Err(e) => {
                    self.reason = Some(e);
                    return Err(Fault::Report(ReportError::Write));
                }
            }
        }
        Ok(())
    }

    /// The writer, and the reason of the last failed write, if any.
    pub fn into_parts(self) -> (W, Option<Error>)
        ensures { result.0 ≡ writer_of self }
    {
        (self.writer, self.reason)
    }
}

impl<W: Write> Sink for Output<W> {
    ghost use Rattle.binfarce_io.specs.Output.{taken, has_failed};

    ghost taken = { taken W.contents };

    ghost has_failed = { has_failed };

    fn write(&mut self, bytes: &[u8]) -> Option<usize> {
        self.end().ok()?;
        match self.writer.write(bytes) {
            Ok(n) if n > 0 => Some(n),
            Ok(_) => {
                self.reason = Some(Error::from(ErrorKind::WriteZero));
                None
            }
            Err(e) => {
                self.reason = Some(e);
                None
            }
        }
    }

    fn failed(&self) -> bool {
        self.reason.is_some()
    }
}

/// Writes without a heading.
impl<W: Write> Write for Output<W> {
    ghost use Rattle.binfarce_io.specs.Output.{writer_of};

    ghost contents = { λ s. W.contents (writer_of s) };

    fn write(&mut self, bytes: &[u8]) -> io::Result<usize> {
        match self.writer.write(bytes) {
            Ok(n) => Ok(n),
            Err(e) => {
                let kind = e.kind();
                self.reason = Some(e);
                Err(Error::from(kind))
            }
        }
    }

    fn flush(&mut self) -> io::Result<()> {
        match self.writer.flush() {
            Ok(()) => Ok(()),
            Err(e) => {
                let kind = e.kind();
                self.reason = Some(e);
                Err(Error::from(kind))
            }
        }
    }
}
