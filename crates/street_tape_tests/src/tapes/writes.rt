//! Each write of a tape, and its flush, fails in turn.

use super::{TAPE, journal_of};
use crate::memory_streams::FailingWriter;
use std::alloc::Global;
use std::process::Abort;
use street_desk::Journal;
use street_stream::{Counted, FaultKind, RunFault, Tally};
use street_tape::write_tape;

/// How the writing of a tape ended, and what the writer then had.
#[derive(Drop)]
struct Written {
    fault: Option<RunFault>,
    taken: Vec<u8>,
    flushed: usize,
    /// Calls of the writer that failed, and writes that took no byte.
    failed: (u64, u64),
}

/// Writes the tape of a journal.
fn written_to(alloc: Global, journal: &Journal, writer: FailingWriter) -> Written {
    let mut writer = Counted::new(writer);
    let fault = write_tape(alloc, journal, &mut writer).err();
    let failed = (writer.failures(), writer.empty_writes());
    let FailingWriter { flushed, taken, .. } = writer.into_inner();
    Written {
        fault,
        failed,
        flushed,
        taken,
    }
}

/// A fault of a write after so many bytes of a tape.
fn write_fault(bytes: usize) -> Option<RunFault> {
    Some(RunFault {
        kind: FaultKind::Write,
        tally: Tally {
            lines: 0,
            calls: 0,
            replies: 0,
            bytes: bytes as u128,
        },
    })
}

/// So many first bytes of the tape were taken and none was flushed, and this call of the writer is told, which was counted.
fn check(rt: &impl Abort, written: &Written, bytes: usize, failed: (u64, u64)) {
    assert_eq!(rt; written.fault, write_fault(bytes), "at {bytes}");
    assert_eq!(rt;
        Some(written.taken.as_slice()),
        TAPE.as_bytes().get(..bytes),
        "at {bytes}"
    );
    assert_eq!(rt; written.flushed, 0, "at {bytes}");
    assert!(rt; written.failed == failed, "at {bytes}");
}

/// The write after so many bytes fails, or takes none; the others take so many bytes at most.
fn check_write(rt: &(impl Abort + AllocGlobal), journal: &Journal, piece: usize, room: usize) {
    let alloc = rt.alloc();
    let failing = FailingWriter::new(alloc, piece, room, true);
    check(rt, &written_to(alloc, journal, failing), room, (1, 0));
    let empty = FailingWriter::new(alloc, piece, room, false);
    check(rt, &written_to(alloc, journal, empty), room, (0, 1));
}

/// Lines written whole, byte by byte, and in pieces that end anywhere in them.
#[test]
fn each_write_fails_in_turn(rt: HostRuntime) {
    let journal = journal_of(&rt);
    for room in 0..TAPE.len() {
        check_write(&rt, &journal, 4096, room);
        check_write(&rt, &journal, 5, room);
        check_write(&rt, &journal, 1, room);
    }
}

#[test]
fn its_flush_fails(rt: HostRuntime) {
    let journal = journal_of(&rt);
    let writer = FailingWriter::failing_to_flush(rt.alloc(), 0);
    let written = written_to(rt.alloc(), &journal, writer);
    check(&rt, &written, TAPE.len(), (1, 0));
}

#[test]
fn all_is_flushed(rt: HostRuntime) {
    let journal = journal_of(&rt);
    let written = written_to(rt.alloc(), &journal, FailingWriter::all(rt.alloc()));
    assert_eq!(rt; written.fault, None);
    assert_eq!(rt; written.taken.as_slice(), TAPE.as_bytes());
    assert_eq!(rt; written.flushed, TAPE.len());
}
