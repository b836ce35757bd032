//! The program's files and standard output. All runs call it.
ghost use Rattle.std.specs.Io.KnownBytes.{Appends, Keeps};
ghost use Rattle.std.specs.Prelude.{◌≡◌, OnOk, OnErr, IfErr};
ghost use Rattle.street_runs.specs.Ends.{IsTaped, StopsTape, TellsWriting};
ghost use Rattle.street_runs.specs.Faults.{IsFileFault, LacksMemory};
ghost use Rattle.street_runs.specs.Outputs.{IsBegun, TellsOutput};
ghost use Rattle.street_runs.specs.declared.fault.ProgramFault.TheVariants.{OutOfMemory, Read, Write};
ghost use Rattle.street_stream.specs.Streams.{HasFailed, IsFlushed, IsFresh};
ghost use Rattle.street_tape.specs.Tapes.{tape_text};

use crate::ProgramFault;
use crate::one_file::{FileMark, is_one_of};
use std::alloc::Global;
use std::fs::{File, OpenOptions};
use std::io;
use std::io::Write;
use std::rt::Files;
use street_desk::{Desk, Journal, Pass};
use street_engine::Unwatched;
use street_line::Counted;
use street_tape::write_tape;

/// The name of standard input in faults.
pub const STANDARD_INPUT: &str = "standard input";

/// The name of standard output in faults.
pub const STANDARD_OUTPUT: &str = "standard output";

/// The name of standard error in faults.
pub const STANDARD_ERROR: &str = "standard error";

/// Writes a text to standard output, with no flush.
///
/// # Errors
///
/// `Write` of standard output: the text is written up to some byte.
pub fn write_out<W: Write>(
    writer: &mut Counted<W>,
    text: &[u8],
) -> Result<(), ProgramFault<'static>>
    ensures written { OnOk result (Appends (W.contents writer.old.stream) (W.contents writer.new.stream) text.now) }
    ensures part { OnErr result (IsBegun (W.contents writer.old.stream) (W.contents writer.new.stream) text.now) }
    ensures failed { IfErr result (λ fault. HasFailed writer.new × TellsOutput fault) }
{
    if street_stream::write_text(writer, text).is_err() {
        return Err(ProgramFault::Write(STANDARD_OUTPUT));
    }
    Ok(())
}

/// Flushes standard output.
///
/// # Errors
///
/// `Write` of standard output.
pub fn pass_on<W: Write>(writer: &mut Counted<W>) -> Result<(), ProgramFault<'static>>
    ensures kept { Keeps (W.contents writer.old.stream) (W.contents writer.new.stream) }
    ensures flushed { OnOk result (IsFlushed writer.new) }
    ensures failed { IfErr result (λ fault. HasFailed writer.new × TellsOutput fault) }
{
    if street_stream::flush_out(writer).is_err() {
        return Err(ProgramFault::Write(STANDARD_OUTPUT));
    }
    Ok(())
}

/// Writes a text to standard output, and flushes.
///
/// # Errors
///
/// `Write` of standard output: the text is written up to some byte.
pub fn print_text<W: Write>(
    writer: &mut Counted<W>,
    text: &[u8],
) -> Result<(), ProgramFault<'static>>
    ensures written { OnOk result (Appends (W.contents writer.old.stream) (W.contents writer.new.stream) text.now) }
    ensures flushed { OnOk result (IsFlushed writer.new) }
    ensures part { OnErr result (IsBegun (W.contents writer.old.stream) (W.contents writer.new.stream) text.now) }
    ensures failed { IfErr result (λ fault. HasFailed writer.new × TellsOutput fault) }
{
    write_out(writer, text)?;
    pass_on(writer)
}

/// Ends the desk by the pass that has seen all, and writes its journal as a tape; faults tell this name. A desk that was left
/// within a turn, as a thread of it ended there, is told as a tape that could not be written.
pub fn end_with_tape<'a, W: Write>(
    alloc: Global,
    desk: Desk<Unwatched>,
    pass: Pass<Unwatched>,
    writer: &mut Counted<W>,
    name: &'a str,
) -> Result<(), ProgramFault<'a>>
    requires desk { pass.desk ≡ desk }
    requires writer { IsFresh writer.old }
    ensures written { OnOk result (IsTaped pass (W.contents writer.old.stream) (W.contents writer.new.stream)) }
    ensures flushed { OnOk result (IsFlushed writer.new) }
    ensures stops { IfErr result (λ fault. StopsTape pass (W.contents writer.old.stream) (W.contents writer.new.stream)
        writer.old writer.new name.entry fault) }
{
    match desk.finish(pass) {
        Ok((_engine, journal)) => write_journal(alloc, &journal, writer, name),
        Err(_torn) => Err(ProgramFault::Write(name)),
    }
}

/// Writes a journal as a tape; faults tell this name.
fn write_journal<'a, W: Write>(
    alloc: Global,
    journal: &Journal,
    writer: &mut Counted<W>,
    name: &'a str,
) -> Result<(), ProgramFault<'a>>
    requires { IsFresh writer.old }
    ensures written { OnOk result (Appends (W.contents writer.old.stream) (W.contents writer.new.stream) (tape_text journal.now)) }
    ensures flushed { OnOk result (IsFlushed writer.new) }
    ensures part { OnErr result (IsBegun (W.contents writer.old.stream) (W.contents writer.new.stream) (tape_text journal.now)) }
    ensures told { IfErr result (λ fault. TellsWriting fault name.entry writer.new) }
{
    match write_tape(alloc, journal, writer) {
        Ok(_bytes) => Ok(()),
        Err(fault) => Err(ProgramFault::of_run(fault.kind, name, name)),
    }
}

/// Makes a file of this name to be written, empty, in the place of one that is there; or opens the FIFO or the device of this name.
///
/// # Errors
///
/// `Write` with its name, also where it is a standard stream or one of these others: it is then as it was, but for one that was made;
/// or `OutOfMemory`.
pub(crate) fn create_file<'a, R: Files<File = File>>(
    rt: &R,
    name: &'a str,
    others: &[&str],
) -> Result<File, ProgramFault<'a>>
    ensures { IfErr result (IsFileFault (Write name.entry)) }
{
    let streams = FileMark::of_streams(rt);
    let file = match OpenOptions::new().write(true).create(true).open(rt, name) {
        Ok(file) => file,
        Err(error) => return Err(of_file(&error, ProgramFault::Write(name))),
    };
    match empty_file(rt, &file, &streams, others) {
        Ok(true) => Ok(file),
        Ok(false) => Err(ProgramFault::Write(name)),
        Err(error) => Err(of_file(&error, ProgramFault::Write(name))),
    }
}

/// Empties an open file, and answers true; does nothing to what is no file. Answers false, and leaves it, where it is one of these
/// streams, or has one of these names, too.
///
/// # Errors
///
/// That of the file.
fn empty_file<R: Files<File = File>>(
    rt: &R,
    file: &File,
    streams: &[Option<FileMark>],
    others: &[&str],
) -> io::Result<bool> {
    let found = file.metadata()?;
    let mark = FileMark::of(&found);
    if is_one_of(mark, streams) {
        return Ok(false);
    }
    for other in others {
        if is_one_of(mark, &[FileMark::named(rt, other)]) {
            return Ok(false);
        }
    }
    if mark.is_some() && found.len() > 0 {
        file.set_len(0)?;
    }
    Ok(true)
}

/// Opens the file of this name to be read.
///
/// # Errors
///
/// `Read` with its name, or `OutOfMemory`.
pub fn open_file<'a, R: Files<File = File>>(rt: &R, name: &'a str) -> Result<File, ProgramFault<'a>>
    ensures { IfErr result (IsFileFault (Read name.entry)) }
{
    File::open(rt, name).map_err(|error| of_file(&error, ProgramFault::Read(name)))
}

/// The fault of a file where this error came: `OutOfMemory` where memory ran out, else the one that is given.
pub(crate) fn of_file<'a>(error: &io::Error, otherwise: ProgramFault<'a>) -> ProgramFault<'a>
    ensures starved { LacksMemory error.now → result ≡ OutOfMemory }
    ensures other { (LacksMemory error.now → ⊥) → result ≡ otherwise.entry }
    ensures either { IsFileFault otherwise.entry result }
{
    match error.kind() {
        io::ErrorKind::OutOfMemory => ProgramFault::OutOfMemory,
        _ => otherwise,
    }
}
