//! An engine with nothing loaded between streams in memory.

use crate::memory_streams::{FailingReader, FailingWriter};
use std::alloc::Global;
use std::thread::Threads;
use street_base::Command;
use street_engine::{Engine, StartedCrew, Unrecorded, Unwatched};
use street_line::{
    Counted, FaultKind, RunFault, Served, Service, Session, Tally, run_lines_within, run_session,
};

/// An engine with a place for so many commands, and how many it was asked to serve.
#[derive(Drop)]
struct Watched<'a, R: Threads + Sync> {
    engine: Session<StartedCrew<'a, R>, Unrecorded>,
    places: u128,
    commands: u128,
}

impl<'a, R: Threads + Sync> Service for Watched<'a, R> {
    ghost use Rattle.std.specs.Thread.{IsSync};

    ghost serves = { λ old command served new. Unit {0} };

    ghost ready = { IsSync R.row };

    fn serve(&mut self, command: Command) -> Served {
        let is_full = self.commands >= self.places;
        self.commands = self.commands.saturating_add(1);
        if is_full {
            return Served::Full;
        }
        self.engine.serve(command)
    }
}

/// How a run ended, and what it left.
#[derive(Drop)]
pub(super) struct Ran {
    pub(super) kind: Option<FaultKind>,
    pub(super) tally: Tally,
    pub(super) commands: u128,
    pub(super) taken: Vec<u8>,
    pub(super) flushed: usize,
    pub(super) reads: u64,
    pub(super) failed_reads: u64,
    pub(super) failed_writes: u64,
    pub(super) empty_writes: u64,
}

/// What a run came to.
fn outcome(run: Result<Tally, RunFault>) -> (Option<FaultKind>, Tally) {
    match run {
        Ok(tally) => (None, tally),
        Err(fault) => (Some(fault.kind), fault.tally),
    }
}

/// Runs an engine with a place for so many commands over these streams.
pub(super) fn run<R: Threads + Sync>(
    rt: &R,
    alloc: Global,
    reader: FailingReader<'_>,
    writer: FailingWriter,
    places: u128,
    reads: u32,
) -> Ran {
    let mut reader = Counted::new(reader);
    let mut writer = Counted::new(writer);
    let mut service = Watched {
        engine: Session::new(
            StartedCrew::new(rt),
            Engine::new(alloc, 1, Unwatched::new()),
            Unrecorded,
        ),
        places,
        commands: 0,
    };
    let run = run_lines_within(alloc, &mut service, &mut reader, &mut writer, reads);
    let (kind, tally) = outcome(run);
    let (failed_writes, empty_writes) = (writer.failures(), writer.empty_writes());
    let FailingWriter { flushed, taken, .. } = writer.into_inner();
    Ran {
        kind,
        tally,
        commands: service.commands,
        reads: reader.calls(),
        failed_reads: reader.failures(),
        failed_writes,
        empty_writes,
        flushed,
        taken,
    }
}

/// Runs an engine over a text to its end, as the program does: how the run ended, its tally, and what was taken.
pub(super) fn run_whole<R: Threads + Sync>(
    rt: &R,
    alloc: Global,
    text: &[u8],
    writer: FailingWriter,
) -> (Option<FaultKind>, Tally, Vec<u8>) {
    let mut reader = Counted::new(text);
    let mut writer = Counted::new(writer);
    let mut engine = Session::new(
        StartedCrew::new(rt),
        Engine::new(alloc, 1, Unwatched::new()),
        Unrecorded,
    );
    let (kind, tally) = outcome(run_session(alloc, &mut engine, &mut reader, &mut writer));
    (kind, tally, writer.into_inner().taken)
}
