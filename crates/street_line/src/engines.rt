//! Lines served by an engine, whose advances a crew makes, and a sink is told of their steps. Each run with no desk calls it: a sink that
//! writes a record lets a reply out once the blocks of all steps up to it are written.
ghost use Rattle.std.specs.Prelude.{◌≡◌, ◌≤◌, IfOk, IfErr, OnOk, Some};
ghost use Rattle.street_base.specs.Prelude.{most_reads};
ghost use Rattle.street_stream.specs.Streams.{IsFlushed, IsFresh, IsPrompt};
ghost use Rattle.street_stream.specs.Faults.{IsCaused};
ghost use Rattle.street_line.specs.KeptFiles.{IsServeCaused};
ghost use Rattle.street_line.specs.KeptStreams.{ServesOnAs, ServesOnFirstAs};
ghost use Rattle.street_line.specs.Streams.{ServesAllAs, ServesFirstAs};

use crate::kept_file::{KeptFile, KeptNotices, ServeFault, serve_on};
use crate::redo::RedoneLines;
use crate::runs::run_lines;
use crate::service::{Served, Service};
use crate::sinks::ReplySink;
use std::alloc::Global;
use std::io::{Read, Write};
use std::marker::Model;
use street_base::Command;
use street_engine::{Crew, Engine, Unwatched};
use street_stream::{Counted, RunFault, Tally};

/// An engine as a service, with who makes its steps, and what is told of them.
#[derive(Drop)]
pub struct Session<C: Crew + Drop, S: ReplySink + Drop> {
    crew: C,
    engine: Engine<Unwatched>,
    sink: Option<S>,
}

impl<C: Crew + Drop, S: ReplySink + Drop> Model for Session<C, S> {
    ghost use Rattle.street_line.specs.Sinks.{SessionView};

    ghost Value = { SessionView S };

    ghost view = { λ s. record { engine = s.engine; sink = s.sink } };
}

impl<C: Crew + Drop, S: ReplySink + Drop> Session<C, S> {
    /// The engine as a service, whose steps this crew makes, and this sink is told. Takes no memory.
    pub fn new(crew: C, engine: Engine<Unwatched>, sink: S) -> Session<C, S>
        ensures engine { result.engine ≡ engine }
        ensures sink { result.sink ≡ Some sink }
    {
        Session {
            crew,
            engine,
            sink: Some(sink),
        }
    }

    /// Gives back the crew, the engine, and the sink, which is there between any two calls. Takes no memory.
    pub fn into_parts(self) -> (C, Engine<Unwatched>, Option<S>)
        ensures { (result.1 ≡ self.engine) × (result.2 ≡ self.sink) }
    {
        let Session { crew, engine, sink } = self;
        (crew, engine, sink)
    }
}

impl<C: Crew + Drop, S: ReplySink + Drop> Service for Session<C, S> {
    ghost use Rattle.street_line.specs.Sinks.{SessionServes};

    ghost serves = { SessionServes S.notes S.stopped S.lets_out };

    ghost ready = { C.ready };

    /// Has the engine apply the command, the sink told of its steps, and the reply let out. Once the sink has stopped it does nothing.
    fn serve(&mut self, command: Command) -> Served {
        let Some(sink) = self.sink.take() else {
            return Served::Unrecorded;
        };
        if sink.has_stopped() {
            self.sink = Some(sink);
            return Served::Unrecorded;
        }
        let (reply, _outcome, mut sink) = self.crew.apply(&mut self.engine, sink, &command);
        let served = sink.let_out(reply);
        self.sink = Some(sink);
        served
    }
}

/// Serves the lines of a text by an engine, as [`run_lines`] does: whatever machine the session stood for, what is written is what that
/// says to these lines, and the session then stands for what they lead to. Where a record is written, replies are those to commands
/// whose blocks the record has whole. After a fault the same holds of the lines that were served, and of the bytes that were written of
/// their output.
///
/// # Errors
///
/// Those of [`run_lines`]; `Starved` also where a write of the record has failed, which the session then tells.
pub fn run_session<C: Crew + Drop, S: ReplySink + Drop, D: Read, W: Write>(
    alloc: Global,
    session: &mut Session<C, S>,
    reader: &mut Counted<D>,
    writer: &mut Counted<W>,
) -> Result<Tally, RunFault>
    requires ready { C.ready }
    requires reader { IsFresh reader.old }
    requires writer { IsFresh writer.old }
    ensures served { IfOk result (ServesAllAs S.answers S.stands D.remaining W.contents
        session.old reader.old writer.old session.new reader.new writer.new) }
    ensures broken { IfErr result (ServesFirstAs S.answers S.stands D.remaining W.contents
        session.old reader.old writer.old session.new reader.new writer.new) }
    ensures caused { IfErr result (λ fault. IsCaused fault.kind reader.new writer.new most_reads) }
    ensures bounded { reader.new.calls ≤ most_reads }
    ensures prompt { IsPrompt reader.new }
    ensures flushed { OnOk result (IsFlushed writer.new) }
{
    S::stands_on();
    run_lines(alloc, session, reader, writer)
}

/// Goes on from the lines that a file has, by an engine, as [`serve_on`] does: whatever machine the session stood for, what is written is
/// what that says to the lines of the text behind those of the file, and the session then stands for what they lead to. After a fault
/// the same holds of the lines that were served, and of the bytes that were written of their output.
///
/// # Errors
///
/// Those of [`serve_on`].
pub fn run_session_on<
    C: Crew + Drop,
    S: ReplySink + Drop,
    K: KeptFile,
    N: KeptNotices,
    D: Read,
    W: Write,
>(
    alloc: Global,
    session: &mut Session<C, S>,
    file: &mut K,
    notes: &N,
    reader: &mut Counted<D>,
    writer: &mut Counted<W>,
) -> Result<RedoneLines, ServeFault>
    requires ready { C.ready }
    requires sound { K.has_failed file.old → ⊥ }
    requires reader { IsFresh reader.old }
    ensures whole { IfOk result (ServesOnAs S.answers S.stands K.held K.synced D.remaining W.contents
        session.old file.old reader.old writer.old session.new file.new reader.new writer.new) }
    ensures broken { IfErr result (ServesOnFirstAs S.answers S.stands K.held K.synced D.remaining W.contents
        session.old file.old reader.old writer.old session.new file.new reader.new writer.new) }
    ensures noted { IfOk result (N.noted notes.now) }
    ensures caused { IfErr result (λ fault. IsServeCaused K.has_failed K.withdrawn fault reader.new file.new writer.new most_reads) }
    ensures bounded { reader.new.calls ≤ most_reads }
    ensures prompt { IsPrompt reader.new }
    ensures flushed { OnOk result (IsFlushed writer.new) }
{
    S::stands_on();
    serve_on(alloc, session, file, notes, reader, writer)
}
