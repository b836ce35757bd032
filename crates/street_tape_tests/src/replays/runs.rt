//! A replay on an engine with nothing loaded, or an upgrade, between streams in memory.

use crate::memory_streams::{FailingReader, FailingWriter};
use std::alloc::Global;
use std::thread::Threads;
use street_engine::{Engine, Unwatched};
use street_stream::{Counted, Tally};
use street_tape::{TapeFault, replay_within, upgrade_within};

/// How a replay or an upgrade ended, and what it left.
#[derive(Drop)]
pub(super) struct Ran {
    pub(super) fault: Option<TapeFault>,
    pub(super) tally: Option<Tally>,
    pub(super) taken: Vec<u8>,
    pub(super) flushed: usize,
}

/// Replays a text from a reader.
pub(super) fn replayed_from<R: Threads + Sync>(
    rt: &R,
    alloc: Global,
    reader: FailingReader<'_>,
    writer: FailingWriter,
    reads: u32,
) -> Ran {
    let mut reader = Counted::new(reader);
    let mut writer = Counted::new(writer);
    let mut engine = Engine::new(alloc, 1, Unwatched::new());
    let (fault, tally) = match replay_within(
        rt,
        alloc,
        &mut reader,
        &mut engine,
        &mut writer,
        reads,
    ) {
        Ok(tally) => (None, Some(tally)),
        Err(fault) => (Some(fault), None),
    };
    let FailingWriter { flushed, taken, .. } = writer.into_inner();
    Ran {
        fault,
        tally,
        flushed,
        taken,
    }
}

/// Replays a text that is read in pieces.
pub(super) fn replayed<R: Threads + Sync>(
    rt: &R,
    alloc: Global,
    text: &[u8],
    piece: usize,
    writer: FailingWriter,
    reads: u32,
) -> Ran {
    let reader = FailingReader {
        text,
        at: 0,
        piece,
        is_endless: false,
        reads_left: 1_000_000,
    };
    replayed_from(rt, alloc, reader, writer, reads)
}

/// Upgrades a text from a reader.
pub(super) fn upgraded_from(
    reader: FailingReader<'_>,
    alloc: Global,
    writer: FailingWriter,
    reads: u32,
) -> Ran {
    let mut reader = Counted::new(reader);
    let mut writer = Counted::new(writer);
    let (fault, tally) = match upgrade_within(alloc, &mut reader, &mut writer, reads) {
        Ok(tally) => (None, Some(tally)),
        Err(fault) => (Some(fault), None),
    };
    let FailingWriter { flushed, taken, .. } = writer.into_inner();
    Ran {
        fault,
        tally,
        flushed,
        taken,
    }
}

/// Upgrades a text that is read in pieces.
pub(super) fn upgraded(
    alloc: Global,
    text: &[u8],
    piece: usize,
    writer: FailingWriter,
    reads: u32,
) -> Ran {
    let reader = FailingReader {
        text,
        at: 0,
        piece,
        is_endless: false,
        reads_left: 1_000_000,
    };
    upgraded_from(reader, alloc, writer, reads)
}
