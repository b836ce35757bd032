//! The file of a kept session is opened, and who is told of it. `kept.rt` calls it.
use crate::ProgramFault;
use crate::one_file::{ERROR, INPUT, OUTPUT, is_named, is_stream};
use crate::outputs::{STANDARD_ERROR, STANDARD_INPUT, STANDARD_OUTPUT, of_file};
use crate::places::Place;
use std::fs;
use std::fs::{File, OpenOptions, TryLockError};
use std::rt::Files;
use street_line::{KeptNotices, RedoneLines};

/// Opens the file of this name to be read and written behind its end, or makes it, and locks it. It returns the file, and where it
/// stands.
///
/// # Errors
///
/// `Read` where something else than a file has the name, or it is standard input too; `InUse` where another program keeps a session
/// there, or has just replaced it; `Write` where it can not be opened, made or locked, is standard output or
/// standard error too, or a file beside it is a standard stream.
pub(crate) fn open_kept<'a, R: AllocGlobal + Files<File = File>>(
    rt: &R,
    name: &'a str,
) -> Result<(File, Place<'a>), ProgramFault<'a>> {
    let is_other = match fs::metadata(rt, name) {
        Ok(found) => !found.is_file(),
        Err(_) => false,
    };
    if is_other {
        return Err(ProgramFault::Read(name));
    }
    let file = OpenOptions::new()
        .read(true)
        .append(true)
        .create(true)
        .open(rt, name)
        .map_err(|error| of_file(&error, ProgramFault::Write(name)))?;
    let place = Place::of(rt, name)?;
    check_place(rt, &place, &file)?;
    Ok((file, place))
}

/// Locks an open file, and sees that it is neither standard input, standard output nor standard error, nor are those beside it, and that its
/// name is still its own.
///
/// # Errors
///
/// Those of [`open_kept`].
fn check_place<'a, R: Files<File = File>>(
    rt: &R,
    place: &Place<'a>,
    file: &File,
) -> Result<(), ProgramFault<'a>> {
    let Ok(found) = file.metadata() else {
        return Err(ProgramFault::Write(place.told));
    };
    if is_named(rt, INPUT, &found) {
        return Err(ProgramFault::Read(STANDARD_INPUT));
    }
    if is_named(rt, OUTPUT, &found) {
        return Err(ProgramFault::Write(STANDARD_OUTPUT));
    }
    if is_named(rt, ERROR, &found) {
        return Err(ProgramFault::Write(STANDARD_ERROR));
    }
    if is_stream(rt, place.fresh.as_str()) || is_stream(rt, place.lost.as_str()) {
        return Err(ProgramFault::Write(place.told));
    }
    match file.try_lock() {
        Ok(()) if place.is_of(rt, &found) => Ok(()),
        Ok(()) | Err(TryLockError::WouldBlock) => Err(ProgramFault::InUse(place.told)),
        Err(TryLockError::Error(_)) => Err(ProgramFault::Write(place.told)),
    }
}

/// Tells on standard error what is done with the file of this name.
#[derive(Drop)]
pub(crate) struct Teller<'a, R> {
    pub(crate) rt: &'a R,
    pub(crate) name: &'a str,
}

impl<'a, R: Eprint> KeptNotices for Teller<'a, R> {
    ghost use Rattle.std.specs.Prelude.{⊤};

    ghost noted = { λ teller redo. ⊤ };

    /// Tells how many lines were done again, where there were some.
    fn note_redone(&self, redo: RedoneLines) {
        if redo.lines > 0 {
            let lines = redo.lines;
            let name = self.name;
            let _ = eprintln!(self.rt; "streetsim: {lines} lines of {name} were done again");
        }
    }
}
