//! Annotates the offsets of frames of perf-script(1), whose files come behind them.

ghost use Rattle.std.specs.Prelude.{◌≡◌, IfOk, map};
ghost use Rattle.binfarce_text.specs.Streams.{Fails};
ghost use Rattle.binfarce_text.specs.machine.Passing.{WritesAll};
ghost use Rattle.binfarce_logs.specs.Annotated.{files_of};
ghost use Rattle.binfarce_logs.specs.Framed.{AnnotatesFrames, names_of};

use crate::annotate::{Annotating, new_files};
use crate::maps::name_of;
use crate::modules::Module;
use binfarce_addresses::counts::Counts;
use binfarce_addresses::stream::CHUNK;
use binfarce_frames::Frames;
use binfarce_text::streams::{Pass, StreamError, pass_stream};
use binfarce_tools::list::Sink;
use binfarce_tools::writing::write_whole;
use std::alloc::{AllocError, Global};
use std::io::Read;

/// As `annotate_stream`, of a text in which the offset of each frame of perf-script(1) in one of these files is behind its
/// file: a line of at most 4,096 bytes that begins with a tab, blanks, a hexadecimal number of 1 to 16 digits and a blank,
/// and that ends with the name of a file, without folders, and `)`, has `+0x` and the number before this. So
/// `(/usr/bin/app)` becomes `(/usr/bin/app+0x18b23 <app::main+0x13>)`. Only a `)` waits for the next byte.
///
/// # Errors
///
/// Those of `annotate_stream`.
pub fn annotate_frames<R: Read, S: Sink>(
    alloc: Global,
    modules: &[Module<'_>],
    is_bare: bool,
    input: &mut R,
    out: &mut S,
) -> Result<Counts, StreamError>
    ensures annotates { AnnotatesFrames (files_of modules.now) is_bare (R.remaining input.old)
        (R.remaining input.new) (S.taken out.old) (S.taken out.new) result }
    ensures fails { Fails (S.has_failed out.old) (S.has_failed out.new) result }
{
    let names = names_of(alloc, modules)?;
    let mut pass = Framing {
        frames: Frames::new(alloc, &names),
        pass: Annotating {
            alloc,
            files: new_files(alloc, modules, is_bare)?,
            kept: Vec::new(alloc),
            from: 0,
        },
    };
    pass_stream(alloc, &mut pass, CHUNK, input, out)?;
    Ok(pass.pass.files.counts)
}

// The names of these files, without folders.
fn names_of<'a>(alloc: Global, modules: &[Module<'a>]) -> Result<Vec<&'a [u8]>, AllocError>
    ensures { IfOk result (λ v. map (λ name. name.now) v.items ≡ names_of (files_of modules.now)) }
{
    let mut names = Vec::new(alloc);
    for module in modules {
        names.push(name_of(module.lookup.path))?;
    }
    Ok(names)
}

// What annotates a text with frames that comes in parts.
#[derive(Drop)]
struct Framing<'b, 'a> {
    frames: Frames<'b>,
    pass: Annotating<'a>,
}

impl<S: Sink> Pass<S> for Framing<'_, '_> {
    ghost use Rattle.binfarce_logs.specs.machine.Framing.{Holds, IsDone, MayBreakOff};

    ghost Holds = { Holds };

    ghost IsDone = { IsDone };

    ghost MayBreakOff = { MayBreakOff };

    ghost taken = { S.taken };

    ghost has_failed = { S.has_failed };

    fn take(&mut self, part: &[u8], out: &mut Vec<u8>) -> Result<(), AllocError> {
        let mut framed = Vec::new(self.pass.alloc);
        self.frames.take(part, &mut framed)?;
        self.pass.push(false, &framed, out)?;
        Ok(())
    }

    fn end(&mut self, _ended: bool, out: &mut Vec<u8>) -> Result<(), AllocError> {
        let mut framed = Vec::new(self.pass.alloc);
        self.frames.end(&mut framed)?;
        self.pass.push(false, &framed, out)?;
        self.pass.push(true, &[], out)?;
        Ok(())
    }

    fn write(out: &mut S, bytes: &[u8]) -> Result<(), StreamError>
        ensures writes { WritesAll (S.taken out.old) (S.taken out.new) bytes.now result }
        ensures fails { Fails (S.has_failed out.old) (S.has_failed out.new) result }
    {
        write_whole(out, bytes).map_err(|_| StreamError::Write)
    }
}
