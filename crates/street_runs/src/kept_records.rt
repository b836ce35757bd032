//! Standard input as a session that is kept in a file, and a record of its steps. The record is that of the steps behind the
//! lines that are done again, which write nothing. `kept.rt` calls it for `--keep` with `--record`.
ghost use Rattle.std.specs.Prelude.{◌≤◌, IfErr, IfOk, None, OnOk};
ghost use Rattle.street_base.specs.Prelude.{most_reads, most_workers};
ghost use Rattle.street_engine.specs.Prelude.{StandsFor};
ghost use Rattle.street_runs.specs.KeptRecords.{IsRecordedCaused, KeepsRecorded, KeepsRecordedFirst};
ghost use Rattle.street_stream.specs.Streams.{IsFlushed, IsFresh, IsPrompt};

use crate::engines::staying_engine;
use std::alloc::Global;
use std::io::{Read, Write};
use std::sync::Wait;
use std::thread::Threads;
use street_engine::{Crew, Engine, StartedCrew, StayingCrew, Unrecorded, Unwatched};
use street_line::{
    BeginFault, Counted, KeptFault, KeptFile, KeptNotices, RedoneLines, Session, begin_on, run_on,
};
use street_record::RecordWriter;

/// Why the stream of a record could not be opened.
#[derive(Debug, Clone, Copy, PartialEq, Eq)]
pub enum OpenFault {
    /// It could not be made, or opened.
    Output,
    /// Memory ran out.
    Starved,
}

/// Who opens the stream that a record is written to.
pub trait RecordOpener<F: Write + Drop> {
    ghost use Rattle.std.specs.Prelude.{◌≡◌, List, ℕ, Option, IfErr, IfOk};
    ghost use Rattle.street_record.specs.Given.{IsFresh as HasNothing};
    ghost use Rattle.street_runs.specs.declared.kept_records.OpenFault.{OpenFault as Fault};

    /// What the stream holds as it is opened.
    ghost start: { Self → Option (List ℕ) };

    /// What is known where it could not be opened for this cause, and by nothing else.
    ghost fails: { Self → Fault → Type 0 };

    /// Opens it.
    ///
    /// # Errors
    ///
    /// Why it could not.
    fn open(&self, alloc: Global) -> Result<RecordWriter<F>, OpenFault>
        ensures opened { IfOk result (λ w. HasNothing w × (F.contents w.writer.stream ≡ start self.now)) }
        ensures failed { IfErr result (fails self.now) };
}

/// Why a session that goes on from a file, and of which a record is written, ended before its text did.
#[derive(Debug, Clone, Copy, PartialEq, Eq)]
pub enum RecordedFault {
    /// It did not begin. No line was served.
    Begin(BeginFault),
    /// The stream of the record could not be opened. No line was served.
    Open(OpenFault),
    /// The session ended so.
    Session(KeptFault),
}

/// Goes on from the lines that a file has, from nothing loaded, and serves those of a text, by so many workers, as
/// [`keep_session`](crate::keep_session) does; of the steps of these a record is written, before the replies. Its stream is opened once
/// the lines of the file are done, which write no record. What writes the record is given back. By several workers what is said holds
/// if it returns.
///
/// # Errors
///
/// Those of [`begin_on`], of the opener, and of [`run_on`]: `Run` with `Starved` also where a write of the record has failed, which what
/// writes it then tells.
pub fn keep_recorded<
    R: Threads + Wait + Sync,
    K: KeptFile,
    N: KeptNotices,
    F: Write + Drop,
    O: RecordOpener<F>,
    D: Read,
    W: Write,
>(
    rt: &R,
    alloc: Global,
    workers: u32,
    file: &mut K,
    notes: &N,
    opener: &O,
    reader: &mut Counted<D>,
    writer: &mut Counted<W>,
) -> (Result<RedoneLines, RecordedFault>, Option<RecordWriter<F>>)
    requires workers { (1 ≤ workers) × (workers ≤ most_workers) }
    requires sound { K.has_failed file.old → ⊥ }
    requires reader { IsFresh reader.old }
    ensures whole { IfOk result.0 (KeepsRecorded K.held K.synced D.remaining W.contents F.contents (O.start opener.now)
        file.old reader.old writer.old file.new result.1 reader.new writer.new) }
    ensures noted { IfOk result.0 (N.noted notes.now) }
    ensures broken { IfErr result.0 (KeepsRecordedFirst K.held K.synced D.remaining W.contents F.contents (O.start opener.now)
        file.old reader.old writer.old file.new result.1 reader.new writer.new) }
    ensures caused { IfErr result.0 (λ fault. IsRecordedCaused K.has_failed K.withdrawn (O.fails opener.now) fault reader.new file.new writer.new most_reads) }
    ensures bounded { reader.new.calls ≤ most_reads }
    ensures prompt { IsPrompt reader.new }
    ensures flushed { OnOk result.0 (IsFlushed writer.new) }
{
    if workers == 1 {
        let engine = Engine::new(alloc, 1, Unwatched::new());
        let crew = StartedCrew::new(rt);
        keep_by(alloc, crew, engine, file, notes, opener, reader, writer)
    } else {
        let engine = staying_engine(rt, alloc, workers);
        let crew = StayingCrew::new(rt);
        keep_by(alloc, crew, engine, file, notes, opener, reader, writer)
    }
}

/// Goes on so by an engine with nothing loaded, whose steps this crew makes.
///
/// # Errors
///
/// Those of [`keep_recorded`].
fn keep_by<
    C: Crew + Drop,
    K: KeptFile,
    N: KeptNotices,
    F: Write + Drop,
    O: RecordOpener<F>,
    D: Read,
    W: Write,
>(
    alloc: Global,
    crew: C,
    engine: Engine<Unwatched>,
    file: &mut K,
    notes: &N,
    opener: &O,
    reader: &mut Counted<D>,
    writer: &mut Counted<W>,
) -> (Result<RedoneLines, RecordedFault>, Option<RecordWriter<F>>)
    requires ready { C.ready }
    requires empty { StandsFor engine None }
    requires sound { K.has_failed file.old → ⊥ }
    requires reader { IsFresh reader.old }
    ensures whole { IfOk result.0 (KeepsRecorded K.held K.synced D.remaining W.contents F.contents (O.start opener.now)
        file.old reader.old writer.old file.new result.1 reader.new writer.new) }
    ensures noted { IfOk result.0 (N.noted notes.now) }
    ensures broken { IfErr result.0 (KeepsRecordedFirst K.held K.synced D.remaining W.contents F.contents (O.start opener.now)
        file.old reader.old writer.old file.new result.1 reader.new writer.new) }
    ensures caused { IfErr result.0 (λ fault. IsRecordedCaused K.has_failed K.withdrawn (O.fails opener.now) fault reader.new file.new writer.new most_reads) }
    ensures bounded { reader.new.calls ≤ most_reads }
    ensures prompt { IsPrompt reader.new }
    ensures flushed { OnOk result.0 (IsFlushed writer.new) }
{
    let mut session = Session::new(crew, engine, Unrecorded);
    let redo = match begin_on(alloc, &mut session, file, notes) {
        Ok(redo) => redo,
        Err(fault) => return (Err(RecordedFault::Begin(fault)), None),
    };
    let recorder = match opener.open(alloc) {
        Ok(recorder) => recorder,
        Err(fault) => return (Err(RecordedFault::Open(fault)), None),
    };
    let (crew, engine, _) = session.into_parts();
    let mut session = Session::new(crew, engine, recorder);
    let run = run_on(alloc, &mut session, file, reader, writer);
    let (_, _, recorder) = session.into_parts();
    match run {
        Ok(()) => (Ok(redo), recorder),
        Err(fault) => (Err(RecordedFault::Session(fault)), recorder),
    }
}
