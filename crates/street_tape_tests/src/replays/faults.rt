//! Each read, each write and each flush of a replay and of an upgrade fails in turn, and the reads run out after each.

use crate::memory_streams::{FailingReader, FailingWriter};
use crate::replays::ARRIVES_OUTPUT;
use crate::replays::runs::{Ran, replayed_from, upgraded_from};
use crate::replays::texts::{HEAD, OLD_HEAD, arrives_after, first, lines_in, replies_to};
use std::alloc::{AllocError, Global};
use std::process::Abort;
use std::test::Fail;
use std::thread::Threads;
use street_stream::{FaultKind, RunFault, Tally};
use street_tape::TapeFault;

/// More reads than a tape has bytes.
const MANY: usize = 1000;

/// A call of an end that fails, after so many others of its kind.
#[derive(Clone, Copy)]
enum Broken {
    Read(usize),
    /// A read too many.
    Endless(usize),
    Flush(usize),
}

/// What is told of it.
fn kind_of(broken: Broken) -> FaultKind {
    match broken {
        Broken::Read(_) => FaultKind::Read,
        Broken::Endless(_) => FaultKind::Endless,
        Broken::Flush(_) => FaultKind::Write,
    }
}

/// How many bytes were read by then, and how many when all was flushed for the last time: before each read but the first.
fn bytes_before(broken: Broken) -> (usize, usize) {
    match broken {
        Broken::Read(at) | Broken::Endless(at) => (at, at),
        Broken::Flush(at) => (at.saturating_add(1), at),
    }
}

/// Ends so broken, by which a text is read byte by byte, and the most reads.
fn streams(alloc: Global, text: &[u8], broken: Broken) -> (FailingReader<'_>, FailingWriter, u32) {
    let (reads_left, flushes_left, reads) = match broken {
        Broken::Read(at) => (at, MANY, MANY),
        Broken::Endless(at) => (MANY, MANY, at),
        Broken::Flush(at) => (MANY, at, MANY),
    };
    let reader = FailingReader {
        text,
        at: 0,
        piece: 1,
        is_endless: false,
        reads_left,
    };
    let writer = FailingWriter::failing_to_flush(alloc, flushes_left);
    (reader, writer, u32::try_from(reads).unwrap_or(0))
}

/// A fault of a run after so many lines of the tape, with so many replies, and so many bytes written.
fn run_fault(kind: FaultKind, lines: usize, replies: usize, bytes: usize) -> Option<TapeFault> {
    Some(TapeFault::Run(RunFault {
        kind,
        tally: Tally {
            lines: lines as u128,
            calls: lines.saturating_sub(1) as u128,
            replies: replies as u128,
            bytes: bytes as u128,
        },
    }))
}

/// The run ended so, exactly these bytes were taken, and so many of them flushed.
fn check(
    rt: &impl Abort,
    ran: &Ran,
    fault: Option<TapeFault>,
    taken: &[u8],
    flushed: usize,
    at: usize,
) {
    let holds = ran.fault == fault && ran.taken.as_slice() == taken && ran.flushed == flushed;
    assert!(rt; holds, "at {at}");
}

/// The tape is replayed between such ends.
fn check_replay(rt: &(impl Threads + Abort + AllocGlobal + Sync), tape: &[u8], broken: Broken) {
    let (reader, writer, reads) = streams(rt.alloc(), tape, broken);
    let ran = replayed_from(rt, rt.alloc(), reader, writer, reads);
    let (seen, before) = bytes_before(broken);
    let lines = lines_in(first(tape, seen));
    let want = replies_to(lines);
    let flushed = replies_to(lines_in(first(tape, before))).len();
    let replies = lines.saturating_sub(1);
    let fault = run_fault(kind_of(broken), lines, replies, want.len());
    check(rt, &ran, fault, want, flushed, before);
}

/// The tape is upgraded between such ends. Where the read that finds the end did not fail, and the flush behind it neither,
/// all is written, and then flushed.
fn check_upgrade(rt: &(impl Abort + AllocGlobal), tape: &[u8], wanted: &[u8], broken: Broken) {
    let (reader, writer, reads) = streams(rt.alloc(), tape, broken);
    let ran = upgraded_from(reader, rt.alloc(), writer, reads);
    let (seen, before) = bytes_before(broken);
    let lines = lines_in(first(tape, seen));
    let want: &[u8] = if before > tape.len() { wanted } else { b"" };
    let fault = run_fault(kind_of(broken), lines, 0, want.len());
    check(rt, &ran, fault, want, 0, before);
}

/// The read or the flush after so many others fails.
fn check_ends(
    rt: &(impl Threads + Abort + AllocGlobal + Sync),
    tape: &[u8],
    wanted: &[u8],
    at: usize,
) {
    check_replay(rt, tape, Broken::Read(at));
    check_replay(rt, tape, Broken::Endless(at));
    check_replay(rt, tape, Broken::Flush(at));
    check_upgrade(rt, tape, wanted, Broken::Read(at));
    check_upgrade(rt, tape, wanted, Broken::Endless(at));
    check_upgrade(rt, tape, wanted, Broken::Flush(at));
}

/// Each read and each flush of a tape with this first line fails, the read that finds the end and the flush behind it too.
fn check_tape(
    rt: &(impl Threads + Abort + AllocGlobal + Sync),
    head: &str,
) -> Result<(), AllocError> {
    let tape = arrives_after(rt.alloc(), head)?;
    let wanted = arrives_after(rt.alloc(), HEAD)?;
    for at in 0..=tape.len() {
        check_ends(rt, tape.as_slice(), wanted.as_slice(), at);
    }
    let last = Broken::Flush(tape.len().saturating_add(1));
    check_upgrade(rt, tape.as_slice(), wanted.as_slice(), last);
    Ok(())
}

#[test]
fn each_read_and_each_flush_fails_in_turn(rt: HostRuntime) -> Result<(), Fail> {
    check_tape(&rt, OLD_HEAD)?;
    check_tape(&rt, HEAD)?;
    Ok(())
}

/// The whole text, byte by byte.
fn whole(text: &[u8]) -> FailingReader<'_> {
    FailingReader {
        text,
        at: 0,
        piece: 1,
        is_endless: false,
        reads_left: MANY,
    }
}

/// The tape is replayed into so much room.
fn check_write(
    rt: &(impl Threads + Abort + AllocGlobal + Sync),
    tape: &[u8],
    room: usize,
    fails: bool,
) {
    let writer = FailingWriter::new(rt.alloc(), 5, room, fails);
    let ran = replayed_from(rt, rt.alloc(), whole(tape), writer, 1000);
    let want = first(ARRIVES_OUTPUT.as_bytes(), room);
    let replies = lines_in(want);
    let lines = replies.saturating_add(2);
    let flushed = replies_to(replies.saturating_add(1)).len();
    let fault = run_fault(FaultKind::Write, lines, replies, room);
    check(rt, &ran, fault, want, flushed, room);
}

/// A write fails, or takes no byte, after each byte of the replies.
#[test]
fn each_write_of_a_replay_fails_in_turn(rt: HostRuntime) -> Result<(), Fail> {
    let tape = arrives_after(rt.alloc(), HEAD)?;
    for room in 0..ARRIVES_OUTPUT.len() {
        check_write(&rt, tape.as_slice(), room, true);
        check_write(&rt, tape.as_slice(), room, false);
    }
    Ok(())
}

/// The tape is upgraded into so much room, which is less than it needs.
fn check_kept(
    rt: &(impl Abort + AllocGlobal),
    tape: &[u8],
    wanted: &[u8],
    room: usize,
    fails: bool,
) {
    let writer = FailingWriter::new(rt.alloc(), 5, room, fails);
    let ran = upgraded_from(whole(tape), rt.alloc(), writer, 1000);
    let fault = run_fault(FaultKind::Write, 5, 0, room);
    check(rt, &ran, fault, first(wanted, room), 0, room);
}

/// So with an upgrade.
#[test]
fn each_write_of_an_upgrade_fails_in_turn(rt: HostRuntime) -> Result<(), Fail> {
    let tape = arrives_after(rt.alloc(), OLD_HEAD)?;
    let wanted = arrives_after(rt.alloc(), HEAD)?;
    for room in 0..wanted.len() {
        check_kept(&rt, tape.as_slice(), wanted.as_slice(), room, true);
        check_kept(&rt, tape.as_slice(), wanted.as_slice(), room, false);
    }
    Ok(())
}
