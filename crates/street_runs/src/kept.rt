//! Standard input as a session that is kept in a file. The file is plain lines of commands. `main` calls it for `--keep`.
ghost use Rattle.std.specs.Prelude.{◌≡◌, ◌≤◌, None, IfErr, IfOk, OnOk};
ghost use Rattle.street_base.specs.Prelude.{most_reads, most_workers};
ghost use Rattle.street_engine.specs.Prelude.{StandsFor};
ghost use Rattle.street_line.specs.KeptFiles.{IsServeCaused};
ghost use Rattle.street_line.specs.KeptStreams.{MachineServesOn, MachineServesOnFirst};
ghost use Rattle.street_runs.specs.Faults.{IsKeptFault, IsRecordedFault, IsServeFault, redo_fault, begin_fault};
ghost use Rattle.street_runs.specs.Words.{IsInRange};
ghost use Rattle.street_stream.specs.Streams.{IsFlushed, IsFresh, IsPrompt};

use crate::engines::staying_engine;
use crate::kept_open::{Teller, open_kept};
use crate::kept_records::{OpenFault, RecordedFault, keep_recorded};
use crate::log_file::LogFile;
use crate::one_file::is_same_file;
use crate::outputs::{STANDARD_INPUT, STANDARD_OUTPUT};
use crate::places::Place;
use crate::recorded::{RecordFile, has_failed};
use crate::streams::hold_error;
use crate::{ProgramFault, ProgramOptions};
use std::alloc::Global;
use std::fs::File;
use std::io;
use std::io::{Read, Write};
use std::rt::Files;
use std::sync::Wait;
use std::thread::Threads;
use street_engine::{Crew, Engine, StartedCrew, StayingCrew, Unrecorded, Unwatched};
use street_line::{
    BeginFault, Counted, KeptFault, KeptFile, KeptNotices, RedoFault, RedoneLines, ServeFault,
    Session, run_session_on,
};

/// Opens the file of this name, does its lines first, and then serves standard input as a session that is kept there, as [`keep_session`]
/// does: synced unless the options say otherwise. Where a record is asked for, it is that of the steps that standard input makes, and it
/// is written before the replies, too.
///
/// # Errors
///
/// `BadArguments` where the record is to be written to the file of the session: nothing was served then, and the file has what it had,
/// one that is new nothing. `Read` with the file's name where something else than a file has that name, or a read of it failed; `InUse`
/// where another program keeps a session there; `Write` where it can not be opened, made, locked or written anew, or where a write or
/// sync fails later; `BadTape` at its first line that is no command, or is refused, and at line 1 where it is no session's file: nothing
/// was served then, and the file is as it was. Else the fault of the session, or of the record.
pub fn serve_kept<
    'a,
    R: Threads + Wait + Sync + Input + Print + Eprint + AllocGlobal + Files<File = File>,
>(rt: &R, options: &ProgramOptions<'a>, name: &'a str) -> Result<(), ProgramFault<'a>>
    requires { IsInRange options.now }
{
    let _held = hold_error(rt);
    let (file, place) = open_kept(rt, name)?;
    // The file of the session is there by now: so a second name of it is seen to be one.
    check_record(rt, options, &place)?;
    let mut file = LogFile::new(rt, &place, file, !options.unsynced);
    let notes = Teller { rt, name };
    let mut reader = Counted::new(rt.reader());
    let mut writer = Counted::new(io::writer(rt));
    let workers = options.workers;
    let alloc = rt.alloc();
    if let Some(record) = options.record_file {
        let opener = RecordFile {
            rt,
            name: record,
            place: &place,
        };
        let (run, recorder) = keep_recorded(
            rt,
            alloc,
            workers,
            &mut file,
            &notes,
            &opener,
            &mut reader,
            &mut writer,
        );
        if has_failed(&recorder) {
            return Err(ProgramFault::Write(record));
        }
        return match run {
            Ok(_again) => Ok(()),
            Err(fault) => Err(fault_of_recorded(fault, name, record)),
        };
    }
    match keep_session(
        rt,
        alloc,
        workers,
        &mut file,
        &notes,
        &mut reader,
        &mut writer,
    ) {
        Ok(_again) => Ok(()),
        Err(fault) => Err(fault_of_serve(fault, name)),
    }
}

/// Sees that no record is asked for, or one that has another file than that of this place and those beside it.
///
/// # Errors
///
/// `BadArguments` where the record is one of these.
fn check_record<'a, R: Files<File = File>>(
    rt: &R,
    options: &ProgramOptions<'_>,
    place: &Place<'_>,
) -> Result<(), ProgramFault<'a>> {
    let Some(record) = options.record_file else {
        return Ok(());
    };
    for name in place.names() {
        if is_same_file(rt, name, record) {
            return Err(ProgramFault::BadArguments);
        }
    }
    Ok(())
}

/// Goes on from the lines that a file has, from nothing loaded, by so many workers: what is written is what the machine says to the lines
/// of a text from the state that those of the file lead to; and before any of it is written, the file holds what is kept of those lines,
/// and that stays. After a fault the same holds of the lines that were served, and of the bytes that were written of their output. By
/// several workers this holds if it returns.
///
/// # Errors
///
/// Those of [`run_session_on`].
pub fn keep_session<R: Threads + Wait + Sync, K: KeptFile, N: KeptNotices, D: Read, W: Write>(
    rt: &R,
    alloc: Global,
    workers: u32,
    file: &mut K,
    notes: &N,
    reader: &mut Counted<D>,
    writer: &mut Counted<W>,
) -> Result<RedoneLines, ServeFault>
    requires workers { (1 ≤ workers) × (workers ≤ most_workers) }
    requires sound { K.has_failed file.old → ⊥ }
    requires reader { IsFresh reader.old }
    ensures whole { IfOk result (MachineServesOn K.held K.synced D.remaining W.contents None file.old reader.old writer.old file.new reader.new writer.new) }
    ensures noted { IfOk result (N.noted notes.now) }
    ensures broken { IfErr result (MachineServesOnFirst K.held K.synced D.remaining W.contents None file.old reader.old writer.old file.new reader.new writer.new) }
    ensures caused { IfErr result (λ fault. IsServeCaused K.has_failed K.withdrawn fault reader.new file.new writer.new most_reads) }
    ensures bounded { reader.new.calls ≤ most_reads }
    ensures prompt { IsPrompt reader.new }
    ensures flushed { OnOk result (IsFlushed writer.new) }
{
    if workers == 1 {
        let engine = Engine::new(alloc, 1, Unwatched::new());
        keep_by(
            alloc,
            StartedCrew::new(rt),
            engine,
            file,
            notes,
            reader,
            writer,
        )
    } else {
        let engine = staying_engine(rt, alloc, workers);
        keep_by(
            alloc,
            StayingCrew::new(rt),
            engine,
            file,
            notes,
            reader,
            writer,
        )
    }
}

/// Goes on so by an engine with nothing loaded, whose steps this crew makes.
///
/// # Errors
///
/// Those of [`run_session_on`].
fn keep_by<C: Crew + Drop, K: KeptFile, N: KeptNotices, D: Read, W: Write>(
    alloc: Global,
    crew: C,
    engine: Engine<Unwatched>,
    file: &mut K,
    notes: &N,
    reader: &mut Counted<D>,
    writer: &mut Counted<W>,
) -> Result<RedoneLines, ServeFault>
    requires ready { C.ready }
    requires empty { StandsFor engine None }
    requires sound { K.has_failed file.old → ⊥ }
    requires reader { IsFresh reader.old }
    ensures whole { IfOk result (MachineServesOn K.held K.synced D.remaining W.contents None file.old reader.old writer.old file.new reader.new writer.new) }
    ensures noted { IfOk result (N.noted notes.now) }
    ensures broken { IfErr result (MachineServesOnFirst K.held K.synced D.remaining W.contents None file.old reader.old writer.old file.new reader.new writer.new) }
    ensures caused { IfErr result (λ fault. IsServeCaused K.has_failed K.withdrawn fault reader.new file.new writer.new most_reads) }
    ensures bounded { reader.new.calls ≤ most_reads }
    ensures prompt { IsPrompt reader.new }
    ensures flushed { OnOk result (IsFlushed writer.new) }
{
    let mut session = Session::new(crew, engine, Unrecorded);
    run_session_on(alloc, &mut session, file, notes, reader, writer)
}

/// The fault of the program where a session that goes on from the file of this name ended so.
fn fault_of_serve<'a>(fault: ServeFault, name: &'a str) -> ProgramFault<'a>
    ensures { IsServeFault fault name.entry result }
{
    match fault {
        ServeFault::Begin(fault) => fault_of_begin(fault, name),
        ServeFault::Session(fault) => fault_of_kept(fault, name),
    }
}

/// The fault of the program where a session that goes on from the file of this name, with a record in a second one, ended so.
fn fault_of_recorded<'a>(fault: RecordedFault, name: &'a str, second: &'a str) -> ProgramFault<'a>
    ensures { IsRecordedFault fault name.entry second.entry result }
{
    match fault {
        RecordedFault::Begin(fault) => fault_of_begin(fault, name),
        RecordedFault::Open(OpenFault::Output) => ProgramFault::Write(second),
        RecordedFault::Open(OpenFault::Starved) => ProgramFault::OutOfMemory,
        RecordedFault::Session(fault) => fault_of_kept(fault, name),
    }
}

/// The fault of the program where a session does not go on from the file of this name.
fn fault_of_begin<'a>(fault: BeginFault, name: &'a str) -> ProgramFault<'a>
    ensures { result ≡ begin_fault fault name.entry }
{
    match fault {
        BeginFault::Recover(fault) => fault_of_redo(fault, name),
        BeginFault::Foreign => ProgramFault::BadTape { line: 1 },
        BeginFault::Settle => ProgramFault::Write(name),
    }
}

/// The fault of the program where the lines of the file of this name were not all done again.
fn fault_of_redo<'a>(fault: RedoFault, name: &'a str) -> ProgramFault<'a>
    ensures { result ≡ redo_fault fault name.entry }
{
    match fault {
        RedoFault::Run(kind) => ProgramFault::of_run(kind, name, name),
        RedoFault::BadLine { line } => ProgramFault::BadTape { line },
    }
}

/// The fault of the program where a session that is kept in the file of this name ended so.
fn fault_of_kept<'a>(fault: KeptFault, name: &'a str) -> ProgramFault<'a>
    ensures { IsKeptFault fault name.entry result }
{
    match fault {
        KeptFault::Run(kind) => ProgramFault::of_run(kind, STANDARD_INPUT, STANDARD_OUTPUT),
        KeptFault::Log => ProgramFault::Write(name),
    }
}
