//! Standard input without a desk: no journal, and no end of calls. `main` calls it for `--endless`.
ghost use Rattle.std.specs.Prelude.{◌≤◌, None, IfOk, IfErr, OnOk};
ghost use Rattle.street_base.specs.Prelude.{most_reads, most_workers};
ghost use Rattle.street_engine.specs.Prelude.{StandsFor};
ghost use Rattle.street_line.specs.Streams.{MachineServesAll, MachineServesFirst};
ghost use Rattle.street_stream.specs.Faults.{IsCaused};
ghost use Rattle.street_stream.specs.Streams.{IsFlushed, IsFresh, IsPrompt};

use crate::ProgramFault;
use crate::engines::staying_engine;
use crate::taped::told_run;
use std::alloc::Global;
use std::io;
use std::io::{BufWriter, Read, Write};
use std::sync::Wait;
use std::thread::Threads;
use street_base::Starved;
use street_engine::{Crew, Engine, StartedCrew, StayingCrew, Unrecorded, Unwatched};
use street_line::{Counted, RunFault, Session, Tally, run_session};

/// Serves standard input by an engine alone, with up to so many workers, 1 to 64, and writes each reply as it comes. No call is
/// kept, so there is no end of calls.
///
/// # Errors
///
/// The fault of the session.
pub fn serve_endless<R: Threads + Wait + Sync + Input + Print + AllocGlobal>(
    rt: &R,
    workers: u32,
) -> Result<(), ProgramFault<'static>>
    requires { (1 ≤ workers) × (workers ≤ most_workers) }
{
    let alloc = rt.alloc();
    let Ok(output) = BufWriter::new(alloc, io::writer(rt)) else {
        return Err(Starved.into());
    };
    let mut reader = Counted::new(rt.reader());
    let mut writer = Counted::new(output);
    let run = if workers == 1 {
        let engine = Engine::new(alloc, 1, Unwatched::new());
        serve_by(
            alloc,
            StartedCrew::new(rt),
            engine,
            &mut reader,
            &mut writer,
        )
    } else {
        let engine = staying_engine(rt, alloc, workers);
        serve_by(
            alloc,
            StayingCrew::new(rt),
            engine,
            &mut reader,
            &mut writer,
        )
    };
    // After a fault it holds the replies to the lines that came in the last read.
    let _ = writer.flush();
    told_run(&run)
}

/// Serves lines to their end by an engine with nothing loaded, whose steps this crew makes: what is written is what the machine says to
/// them. After a fault the same holds of the lines that were served, and of the bytes that were written of their output. By a crew whose
/// workers wait for each other this holds if it returns.
///
/// # Errors
///
/// Those of [`run_session`].
pub fn serve_by<C: Crew + Drop, D: Read, W: Write>(
    alloc: Global,
    crew: C,
    engine: Engine<Unwatched>,
    reader: &mut Counted<D>,
    writer: &mut Counted<W>,
) -> Result<Tally, RunFault>
    requires ready { C.ready }
    requires empty { StandsFor engine None }
    requires reader { IsFresh reader.old }
    requires writer { IsFresh writer.old }
    ensures served { IfOk result (MachineServesAll D.remaining W.contents None reader.old writer.old reader.new writer.new) }
    ensures broken { IfErr result (MachineServesFirst D.remaining W.contents None reader.old writer.old reader.new writer.new) }
    ensures caused { IfErr result (λ fault. IsCaused fault.kind reader.new writer.new most_reads) }
    ensures prompt { IsPrompt reader.new }
    ensures flushed { OnOk result (IsFlushed writer.new) }
{
    let mut session = Session::new(crew, engine, Unrecorded);
    run_session(alloc, &mut session, reader, writer)
}
