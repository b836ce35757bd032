//! The end of a run at a desk: its tape, if one is asked for, and the first thing that went wrong. `clients.rt` calls it.
ghost use Rattle.std.specs.Prelude.{◌≡◌};
ghost use Rattle.street_runs.specs.Taped.{EndsTaped, IsToldOf, TapeEnds};

use crate::ProgramFault;
use crate::outputs::{STANDARD_INPUT, STANDARD_OUTPUT, create_file, end_with_tape};
use std::alloc::Global;
use std::fs::File;
use std::io::Write;
use std::rt::Files;
use street_desk::{Desk, Pass};
use street_engine::Unwatched;
use street_line::{Counted, RunFault, Tally};

/// Who opens what a tape is written to, once its session has ended.
pub trait TapeOpener<T: Write + Drop> {
    ghost use Rattle.std.specs.Borrow.{Bor};
    ghost use Rattle.std.specs.Prelude.{◌≡◌, List, ℕ, Option, IfErr, IfOk};
    ghost use Rattle.street_runs.specs.declared.fault.ProgramFault.{ProgramFault as Fault};
    ghost use Rattle.street_stream.specs.Streams.{IsFresh};

    /// What the stream holds as it is opened.
    ghost start: { Self → Option (List ℕ) };

    /// What is known where that of this name could not be opened, and by nothing else.
    ghost fails: { Self → Bor (List ℕ) → Fault → Type 0 };

    /// Opens that of this name.
    ///
    /// # Errors
    ///
    /// Why it could not.
    fn open<'a>(&self, name: &'a str) -> Result<Counted<T>, ProgramFault<'a>>
        ensures opened { IfOk result (λ w. IsFresh w × (T.contents w.stream ≡ start self.now)) }
        ensures failed { IfErr result (fails self.now name.entry) };
}

/// Makes a new file for a tape, in the place of one that is there, but of none of these scripts, whose calls are on it.
#[derive(Drop)]
pub(crate) struct TapeFile<'r, R> {
    pub(crate) rt: &'r R,
    pub(crate) scripts: &'r [&'r str],
}

impl<'r, R: Files<File = File>> TapeOpener<File> for TapeFile<'r, R> {
    ghost use Rattle.std.specs.Prelude.{None};
    ghost use Rattle.street_runs.specs.Faults.{IsFileFault};
    ghost use Rattle.street_runs.specs.declared.fault.ProgramFault.TheVariants.{Write as Unwritten};

    ghost start = { λ _. None };

    ghost fails = { λ _ name. IsFileFault (Unwritten name) };

    fn open<'a>(&self, name: &'a str) -> Result<Counted<File>, ProgramFault<'a>> {
        match create_file(self.rt, name, self.scripts) {
            Ok(file) => Ok(Counted::new(file)),
            Err(fault) => Err(fault),
        }
    }
}

/// How a run of standard input ended, as the program tells it.
pub(crate) fn told_run(run: &Result<Tally, RunFault>) -> Result<(), ProgramFault<'static>>
    ensures { IsToldOf run.now result }
{
    match run {
        Ok(_tally) => Ok(()),
        Err(fault) => Err(ProgramFault::of_run(fault.kind, STANDARD_INPUT, STANDARD_OUTPUT)),
    }
}

/// Ends the desk, and writes its tape where one of this name is asked for, else none. What it was written to is given back.
fn keep_tape<'a, T: Write + Drop, O: TapeOpener<T>>(
    alloc: Global,
    desk: Desk<Unwatched>,
    pass: Pass<Unwatched>,
    opener: &O,
    name: Option<&'a str>,
) -> (Result<(), ProgramFault<'a>>, Option<Counted<T>>)
    requires { pass.desk ≡ desk }
    ensures { TapeEnds T.contents (O.start opener.now) (O.fails opener.now) pass name.entry result.0 result.1 }
{
    let Some(name) = name else {
        return (Ok(()), None);
    };
    let mut tape = match opener.open(name) {
        Ok(tape) => tape,
        Err(fault) => return (Err(fault), None),
    };
    let taped = end_with_tape(alloc, desk, pass, &mut tape, name);
    (taped, Some(tape))
}

/// Ends a desk's session that went so, and writes its tape where one of this name is asked for. The fault is the session's, else the
/// tape's. What the tape was written to is given back.
pub(crate) fn end_session<'a, T: Write + Drop, O: TapeOpener<T>>(
    alloc: Global,
    served: Result<(), ProgramFault<'a>>,
    desk: Desk<Unwatched>,
    pass: Pass<Unwatched>,
    opener: &O,
    name: Option<&'a str>,
) -> (Result<(), ProgramFault<'a>>, Option<Counted<T>>)
    requires { pass.desk ≡ desk }
    ensures { EndsTaped T.contents (O.start opener.now) (O.fails opener.now) served.entry pass name.entry result.0 result.1 }
{
    let (taped, tape) = keep_tape(alloc, desk, pass, opener, name);
    (served.and(taped), tape)
}
