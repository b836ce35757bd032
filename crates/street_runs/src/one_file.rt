//! Which names are those of one file: no file is both read and written, or written by two words. `main` has [`check_files`] look
//! before a run, and `outputs.rt` looks once more before it empties a file.
ghost use Rattle.std.specs.Prelude.{◌≡◌, ◌≢◌, All, Contains, IsSome, false, true};

use crate::outputs::{STANDARD_ERROR, STANDARD_OUTPUT};
use crate::{ProgramFault, ProgramOptions};
use std::fs;
use std::fs::{File, Metadata};
use std::os::unix::fs::MetadataExt;
use std::rt::Files;

/// The name that the system has for standard input.
pub(crate) const INPUT: &str = "/dev/stdin";

/// The name that the system has for standard output.
pub(crate) const OUTPUT: &str = "/dev/stdout";

/// The name that the system has for standard error.
pub(crate) const ERROR: &str = "/dev/stderr";

/// What tells a file from all others, whatever its names are: the device that it is on, and its number there.
#[derive(Clone, Copy)]
pub(crate) struct FileMark {
    device: u64,
    number: u64,
}

impl FileMark {
    /// The mark of what was found; none of a folder, a FIFO or a device.
    pub(crate) fn of(found: &Metadata) -> Option<FileMark> {
        if !found.is_file() {
            return None;
        }
        let (device, number) = (found.dev(), found.ino());
        Some(FileMark { device, number })
    }

    /// The mark of the file of this name; none where no file has it.
    pub(crate) fn named<R: Files<File = File>>(rt: &R, name: &str) -> Option<FileMark> {
        match fs::metadata(rt, name) {
            Ok(found) => FileMark::of(&found),
            Err(_) => None,
        }
    }

    /// The marks of standard input, standard output and standard error, as far as these are files.
    pub(crate) fn of_streams<R: Files<File = File>>(rt: &R) -> [Option<FileMark>; 3] {
        [
            FileMark::named(rt, INPUT),
            FileMark::named(rt, OUTPUT),
            FileMark::named(rt, ERROR),
        ]
    }
}

/// Whether both are one file, by their marks.
fn is_one(first: Option<FileMark>, second: Option<FileMark>) -> bool
    ensures is { result ≡ true → IsSome first × (first ≡ second) }
    ensures not { result ≡ false → IsSome first → first ≢ second }
{
    match (first, second) {
        (Some(one), Some(other)) => one.device == other.device && one.number == other.number,
        _ => false,
    }
}

/// Whether a file is one of several, by their marks. What is no file is none.
pub(crate) fn is_one_of(mark: Option<FileMark>, others: &[Option<FileMark>]) -> bool
    ensures is { result ≡ true → IsSome mark × Contains others.now mark }
    ensures not { result ≡ false → IsSome mark → All (λ other. mark ≢ other) others.now }
{
    for other in others {
        if is_one(mark, *other) {
            return true;
        }
    }
    false
}

/// Whether what has this name is this file.
pub(crate) fn is_named<R: Files<File = File>>(rt: &R, name: &str, found: &Metadata) -> bool {
    is_one_of(FileMark::of(found), &[FileMark::named(rt, name)])
}

/// Whether a name is that of a file which is standard input, standard output or standard error, too.
pub(crate) fn is_stream<R: Files<File = File>>(rt: &R, name: &str) -> bool {
    is_one_of(FileMark::named(rt, name), &FileMark::of_streams(rt))
}

/// Whether two names are those of one file. Where nothing has one of them yet, the names tell.
pub(crate) fn is_same_file<R: Files<File = File>>(rt: &R, first: &str, second: &str) -> bool {
    match (fs::metadata(rt, first), fs::metadata(rt, second)) {
        (Ok(one), Ok(_)) => is_named(rt, second, &one),
        _ => first == second,
    }
}

/// Sees that the run which is asked for writes no file that it reads, and no file for two of its words or standard streams. A FIFO, a
/// device and a terminal are no files. Scripts may be one file, as may standard output and standard error.
///
/// # Errors
///
/// `Write` of standard output or of standard error, where that is a file which is read: it is appended to then, or was opened to be
/// read too, as a file that is only written would be empty; `BadArguments` where the record is the kept file, or the tape a script;
/// `Write` with the name of the record or of the tape, where that is a standard stream. The kept file is looked at where it is opened.
pub fn check_files<'a, R: Files<File = File>>(
    rt: &R,
    options: &ProgramOptions<'a>,
) -> Result<(), ProgramFault<'a>> {
    check_inputs(rt, options)?;
    if is_one_file(rt, options) {
        return Err(ProgramFault::BadArguments);
    }
    for output in [options.record_file, options.tape] {
        if let Some(name) = output {
            if is_stream(rt, name) {
                return Err(ProgramFault::Write(name));
            }
        }
    }
    Ok(())
}

/// Sees that nothing which is read is written, too: the tape that is replayed or upgraded, the scripts, or standard input.
///
/// # Errors
///
/// Those of [`check_input`].
fn check_inputs<'a, R: Files<File = File>>(
    rt: &R,
    options: &ProgramOptions<'_>,
) -> Result<(), ProgramFault<'a>> {
    if let Some(tape) = options.replay.or(options.upgrade) {
        return check_input(rt, tape);
    }
    if options.scripts.is_empty() {
        return check_input(rt, INPUT);
    }
    for script in options.scripts.as_slice() {
        check_input(rt, script)?;
    }
    Ok(())
}

/// Sees that what is read is neither standard output nor standard error. A file with no bytes is: nothing is read of it.
///
/// # Errors
///
/// `Write` of the stream.
fn check_input<'a, R: Files<File = File>>(rt: &R, name: &str) -> Result<(), ProgramFault<'a>> {
    let found = match fs::metadata(rt, name) {
        Ok(found) if found.len() > 0 => found,
        _ => return Ok(()),
    };
    if is_named(rt, OUTPUT, &found) {
        return Err(ProgramFault::Write(STANDARD_OUTPUT));
    }
    if is_named(rt, ERROR, &found) {
        return Err(ProgramFault::Write(STANDARD_ERROR));
    }
    Ok(())
}

/// Whether two of the words name one file: the kept file and the record, or the tape and a script.
fn is_one_file<R: Files<File = File>>(rt: &R, options: &ProgramOptions<'_>) -> bool {
    if let (Some(kept), Some(record)) = (options.keep, options.record_file) {
        return is_same_file(rt, kept, record);
    }
    let Some(tape) = options.tape else {
        return false;
    };
    for script in options.scripts.as_slice() {
        if is_same_file(rt, tape, script) {
            return true;
        }
    }
    false
}
