//! Standard input without a desk, and a record of its steps. `main` calls it for `--record`.
ghost use Rattle.std.specs.Prelude.{◌≡◌, ◌≤◌, IfOk, IfErr, MatchOption, None, OnOk, false};
ghost use Rattle.street_base.specs.Prelude.{most_reads, most_workers};
ghost use Rattle.street_engine.specs.Prelude.{StandsFor};
ghost use Rattle.street_line.specs.Recorded.{MachineRecordsAll, MachineRecordsFirst};
ghost use Rattle.street_record.specs.Given.{IsFresh as HasNothing};
ghost use Rattle.street_stream.specs.Faults.{IsCaused};
ghost use Rattle.street_stream.specs.Streams.{IsFlushed, IsFresh, IsPrompt};

use crate::ProgramFault;
use crate::engines::staying_engine;
use crate::kept_records::{OpenFault, RecordOpener};
use crate::outputs::create_file;
use crate::places::Place;
use crate::streams::hold_streams;
use crate::taped::told_run;
use std::alloc::Global;
use std::fs::File;
use std::io;
use std::io::{BufWriter, Read, Write};
use std::rt::Files;
use std::sync::Wait;
use std::thread::Threads;
use street_base::Starved;
use street_engine::{Crew, Engine, StartedCrew, StayingCrew, Unwatched};
use street_line::{Counted, RunFault, Session, Tally, run_session};
use street_record::RecordWriter;

/// Serves standard input by an engine alone, with up to so many workers, 1 to 64, and writes the record of its steps to a new file of
/// this name, or to a FIFO. Each reply is written once the blocks of all steps up to it are. No call is kept, so there is no end of
/// calls.
///
/// # Errors
///
/// `Write` with the file's name, where it can not be made, opened or written; else the fault of the session.
pub fn serve_recorded<
    'a,
    R: Threads + Wait + Sync + Input + Print + AllocGlobal + Files<File = File>,
>(rt: &R, workers: u32, name: &'a str) -> Result<(), ProgramFault<'a>>
    requires { (1 ≤ workers) × (workers ≤ most_workers) }
{
    let alloc = rt.alloc();
    let Ok(output) = BufWriter::new(alloc, io::writer(rt)) else {
        return Err(Starved.into());
    };
    let _held = hold_streams(rt);
    let recorder = open_record(rt, alloc, name, &[])?;
    let mut reader = Counted::new(rt.reader());
    let mut writer = Counted::new(output);
    let (run, recorder) = if workers == 1 {
        let engine = Engine::new(alloc, 1, Unwatched::new());
        let crew = StartedCrew::new(rt);
        record_by(alloc, crew, engine, recorder, &mut reader, &mut writer)
    } else {
        let engine = staying_engine(rt, alloc, workers);
        let crew = StayingCrew::new(rt);
        record_by(alloc, crew, engine, recorder, &mut reader, &mut writer)
    };
    // After a fault it holds the replies to the lines that came in the last read.
    let _ = writer.flush();
    if has_failed(&recorder) {
        return Err(ProgramFault::Write(name));
    }
    told_run(&run)
}

/// What writes a record to a new file of this name, in the place of one that is there, or to a FIFO, which waits for its reader. It
/// may be none of these others.
///
/// # Errors
///
/// `Write` with the file's name, or `OutOfMemory`.
fn open_record<'a, R: Files<File = File>>(
    rt: &R,
    alloc: Global,
    name: &'a str,
    others: &[&str],
) -> Result<RecordWriter<File>, ProgramFault<'a>>
    ensures { IfOk result HasNothing }
{
    let file = create_file(rt, name, others)?;
    match RecordWriter::new(alloc, file) {
        Ok(writer) => Ok(writer),
        Err(_) => Err(ProgramFault::OutOfMemory),
    }
}

/// A file, or a FIFO, that a record is to be written to, by its name, beside a session that is kept in this place.
#[derive(Drop)]
pub(crate) struct RecordFile<'r, 'a, R> {
    pub(crate) rt: &'r R,
    pub(crate) name: &'a str,
    pub(crate) place: &'r Place<'a>,
}

impl<'r, 'a, R: Files<File = File>> RecordOpener<File> for RecordFile<'r, 'a, R> {
    ghost use Rattle.std.specs.Prelude.{None, ⊤};

    ghost start = { λ _. None };

    ghost fails = { λ file fault. ⊤ };

    /// Makes the file anew, or opens the FIFO.
    fn open(&self, alloc: Global) -> Result<RecordWriter<File>, OpenFault> {
        match open_record(self.rt, alloc, self.name, &self.place.names()) {
            Ok(writer) => Ok(writer),
            Err(ProgramFault::OutOfMemory) => Err(OpenFault::Starved),
            Err(_) => Err(OpenFault::Output),
        }
    }
}

/// Whether a write of the record has failed.
pub(crate) fn has_failed<F: Write + Drop>(recorder: &Option<RecordWriter<F>>) -> bool
    ensures { MatchOption recorder.now (result ≡ false) (λ w. result ≡ w.has_failed) }
{
    match recorder {
        Some(writer) => writer.has_failed(),
        None => false,
    }
}

/// Serves lines to their end by an engine with nothing loaded, whose steps this crew makes, and writes the record of the steps: what is written is what the
/// machine says to the lines, and what it records. After a fault the same holds of the lines that
/// were served, and of the bytes that were written of their output. By a crew whose workers wait for each other this holds if it
/// returns. The writer of the record is given back.
///
/// # Errors
///
/// Those of [`run_session`].
pub fn record_by<C: Crew + Drop, F: Write + Drop, D: Read, W: Write>(
    alloc: Global,
    crew: C,
    engine: Engine<Unwatched>,
    recorder: RecordWriter<F>,
    reader: &mut Counted<D>,
    writer: &mut Counted<W>,
) -> (Result<Tally, RunFault>, Option<RecordWriter<F>>)
    requires ready { C.ready }
    requires empty { StandsFor engine None }
    requires recorder { HasNothing recorder }
    requires reader { IsFresh reader.old }
    requires writer { IsFresh writer.old }
    ensures served { IfOk result.0 (MachineRecordsAll F.contents D.remaining W.contents (F.contents recorder.writer.stream)
        reader.old writer.old result.1 reader.new writer.new) }
    ensures broken { IfErr result.0 (MachineRecordsFirst F.contents D.remaining W.contents (F.contents recorder.writer.stream)
        reader.old writer.old result.1 reader.new writer.new) }
    ensures caused { IfErr result.0 (λ fault. IsCaused fault.kind reader.new writer.new most_reads) }
    ensures prompt { IsPrompt reader.new }
    ensures flushed { OnOk result.0 (IsFlushed writer.new) }
{
    let mut session = Session::new(crew, engine, recorder);
    let run = run_session(alloc, &mut session, reader, writer);
    let (_, _, recorder) = session.into_parts();
    (run, recorder)
}
