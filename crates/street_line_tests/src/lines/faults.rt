//! Each read, each write and each flush fails in turn, and the text ends after each byte.

use crate::lines::cases::{ARRIVES, ARRIVES_OUTPUT, CASES, Case};
use crate::lines::runs::{Ran, run, run_whole};
use crate::memory_streams::{FailingReader, FailingWriter};
use std::alloc::{AllocError, AllocGlobal, Global};
use std::process::Abort;
use std::test::Fail;
use std::thread::Threads;
use street_line::{FaultKind, Tally};

/// The lines that end in a text.
fn lines_in(text: &[u8]) -> usize {
    text.iter().filter(|byte| **byte == b'\n').count()
}

/// So many first lines of a text.
fn first_lines(text: &[u8], lines: usize) -> &[u8] {
    let mut left = lines;
    for (at, byte) in text.iter().enumerate() {
        if left == 0 {
            return text.get(..at).unwrap_or(text);
        }
        if *byte == b'\n' {
            left -= 1;
        }
    }
    text
}

/// A text as a case reads it.
fn given<'a>(case: &Case, text: &'a [u8], reads_left: usize) -> FailingReader<'a> {
    FailingReader {
        text,
        at: 0,
        piece: case.piece,
        is_endless: case.is_endless,
        reads_left,
    }
}

/// Whether a run ended and counted so, the service had the calls, and exactly these bytes were taken.
fn is_ended(ran: &Ran, kind: Option<FaultKind>, tally: Tally, taken: &[u8]) -> bool {
    ran.kind == kind
        && ran.tally == tally
        && ran.commands == tally.calls
        && ran.taken.as_slice() == taken
        && ran.tally.bytes == taken.len() as u128
}

/// Whether so many bytes were flushed, and the reader was called and failed so often.
fn is_read(ran: &Ran, flushed: usize, reads: u64, failed_reads: u64) -> bool {
    ran.flushed == flushed && ran.reads == reads && ran.failed_reads == failed_reads
}

/// What is wanted of a run holds.
fn check(rt: &impl Abort, holds: bool, name: &str, at: usize) {
    assert!(rt; holds, "{name} at {at}");
}

/// The tally after so many lines of a case.
fn tally_after(case: &Case, lines: usize, replies: usize, bytes: usize) -> Tally {
    let lines = lines as u128;
    let faulty = case.tally.lines.saturating_sub(case.tally.calls);
    Tally {
        lines,
        calls: lines.saturating_sub(faulty),
        replies: replies as u128,
        bytes: bytes as u128,
    }
}

/// Read number `reads` of a case fails.
fn check_read(
    rt: &(impl Threads + Abort + AllocGlobal + Sync),
    case: &Case,
    all: &[u8],
    reads: usize,
) {
    let writer = FailingWriter::new(rt.alloc(), 4096, 4096, true);
    let reader = given(case, all, reads);
    let ran = run(rt, rt.alloc(), reader, writer, case.places, case.most_reads);
    let lines = lines_in(all.get(..reads.saturating_mul(case.piece)).unwrap_or(all));
    let want = first_lines(case.output, lines);
    let tally = tally_after(case, lines, lines, want.len());
    let kind = Some(FaultKind::Read);
    let all_reads = (reads as u64).saturating_add(1);
    let holds = is_ended(&ran, kind, tally, want) && is_read(&ran, want.len(), all_reads, 1);
    check(rt, holds, case.name, reads);
}

/// No read of a case fails.
fn check_all_reads(rt: &(impl Threads + Abort + AllocGlobal + Sync), case: &Case, all: &[u8]) {
    let writer = FailingWriter::new(rt.alloc(), 4096, 4096, true);
    let reader = given(case, all, case.reads);
    let ran = run(rt, rt.alloc(), reader, writer, case.places, case.most_reads);
    let holds = is_ended(&ran, case.kind, case.tally, case.output)
        && is_read(&ran, case.output.len(), case.reads as u64, 0);
    check(rt, holds, case.name, case.reads);
}

/// Each read of a case fails in turn, and then none.
fn check_reads(rt: &(impl Threads + Abort + AllocGlobal + Sync), case: &Case) -> Result<(), Fail> {
    let text = case.whole_text(rt.alloc())?;
    for reads in 0..case.reads {
        check_read(rt, case, text.as_slice(), reads);
    }
    check_all_reads(rt, case, text.as_slice());
    Ok(())
}

#[test]
fn each_read_fails_in_turn(rt: HostRuntime) -> Result<(), Fail> {
    for case in &CASES {
        check_reads(&rt, case)?;
    }
    Ok(())
}

/// How many lines of a case have ended after so many reads, of which the last finds the end.
fn lines_after(case: &Case, all: &[u8], reads: usize) -> usize {
    if reads >= case.reads {
        return usize::try_from(case.tally.lines).unwrap_or(0);
    }
    lines_in(all.get(..reads.saturating_mul(case.piece)).unwrap_or(all))
}

/// The flush behind this read of a case fails.
fn check_flush(
    rt: &(impl Threads + Abort + AllocGlobal + Sync),
    case: &Case,
    all: &[u8],
    flushes: usize,
) {
    let writer = FailingWriter::failing_to_flush(rt.alloc(), flushes);
    let reader = given(case, all, case.reads);
    let ran = run(rt, rt.alloc(), reader, writer, case.places, case.most_reads);
    let reads = flushes.saturating_add(1);
    let flushed = first_lines(case.output, lines_after(case, all, flushes)).len();
    let lines = lines_after(case, all, reads);
    let want = first_lines(case.output, lines);
    let tally = tally_after(case, lines, lines, want.len());
    let holds = is_ended(&ran, Some(FaultKind::Write), tally, want)
        && is_read(&ran, flushed, reads as u64, 0)
        && ran.failed_writes == 1;
    check(rt, holds, case.name, flushes);
}

/// Each flush of a case fails in turn.
fn check_flushes(
    rt: &(impl Threads + Abort + AllocGlobal + Sync),
    case: &Case,
) -> Result<(), Fail> {
    let text = case.whole_text(rt.alloc())?;
    for flushes in 0..case.reads {
        check_flush(rt, case, text.as_slice(), flushes);
    }
    Ok(())
}

#[test]
fn each_flush_fails_in_turn(rt: HostRuntime) -> Result<(), Fail> {
    for case in &CASES {
        check_flushes(&rt, case)?;
    }
    Ok(())
}

/// A case is written into so much room.
fn check_write(
    rt: &(impl Threads + Abort + AllocGlobal + Sync),
    case: &Case,
    all: &[u8],
    room: usize,
    writer: FailingWriter,
    failures: (u64, u64),
) {
    let reader = given(case, all, case.reads);
    let ran = run(rt, rt.alloc(), reader, writer, case.places, case.most_reads);
    let want = case.output.get(..room).unwrap_or(case.output);
    let replies = lines_in(want);
    let tally = tally_after(case, replies.saturating_add(1), replies, room);
    let kind = Some(FaultKind::Write);
    let (failed_writes, empty_writes) = failures;
    let holds = is_ended(&ran, kind, tally, want)
        && ran.failed_writes == failed_writes
        && ran.empty_writes == empty_writes;
    check(rt, holds, case.name, room);
}

/// Each write of a case fails in turn, by an error or by taking no byte.
fn check_writes(
    rt: &(impl Threads + Abort + AllocGlobal + Sync),
    case: &Case,
    piece: usize,
    fails: bool,
) -> Result<(), Fail> {
    let text = case.whole_text(rt.alloc())?;
    let failures = if fails { (1, 0) } else { (0, 1) };
    for at in 0..case.writers {
        let room = at.saturating_mul(case.step);
        let writer = FailingWriter::new(rt.alloc(), piece, room, fails);
        check_write(rt, case, text.as_slice(), room, writer, failures);
    }
    Ok(())
}

#[test]
fn each_write_fails_in_turn(rt: HostRuntime) -> Result<(), Fail> {
    for case in &CASES {
        check_writes(&rt, case, 1, true)?;
        check_writes(&rt, case, 4096, false)?;
    }
    Ok(())
}

static NOT_JSON: &[u8] = b"{\"error\":20,\"name\":\"NotJson\"}\n";

/// What is wanted where the text ends after so many bytes: the lines, the calls, and what is written after the replies to
/// those. The lines that ended are served, and a last one with no line end.
fn wanted_at(bytes: usize) -> (usize, usize, &'static [u8]) {
    let text = ARRIVES.get(..bytes).unwrap_or(ARRIVES);
    let ended = lines_in(text);
    let begun = ended.saturating_add(1);
    match (text.last(), ARRIVES.get(bytes)) {
        (None | Some(b'\n'), _) => (ended, ended, b""),
        (_, Some(b'\n')) => (begun, begun, b""),
        _ => (begun, ended, NOT_JSON),
    }
}

/// The first so many bytes are served.
fn check_cut(rt: &(impl Threads + Abort + AllocGlobal + Sync), bytes: usize) -> Result<(), Fail> {
    let text = ARRIVES.get(..bytes).unwrap_or(ARRIVES);
    let (lines, calls, rest) = wanted_at(bytes);
    let mut want = Vec::from_slice(rt.alloc(), first_lines(ARRIVES_OUTPUT, calls))?;
    want.extend_from_slice(rest)?;
    let (kind, tally, taken) = run_whole(rt, rt.alloc(), text, FailingWriter::all(rt.alloc()));
    let wanted = Tally {
        lines: lines as u128,
        calls: calls as u128,
        replies: lines as u128,
        bytes: want.len() as u128,
    };
    let holds = kind.is_none() && tally == wanted && taken.as_slice() == want.as_slice();
    check(rt, holds, "a cut text", bytes);
    Ok(())
}

#[test]
fn the_text_ends_after_each_byte(rt: HostRuntime) -> Result<(), Fail> {
    for bytes in 0..=ARRIVES.len() {
        check_cut(&rt, bytes)?;
    }
    Ok(())
}

#[test]
fn a_writer_is_full_in_the_second_reply(rt: HostRuntime) {
    let (kind, tally, taken) = run_whole(
        &rt,
        rt.alloc(),
        b"{\"cmd\":\"count\"}\n{\"cmd\":\"count\"}\n",
        FailingWriter::new(rt.alloc(), 4096, 40, true),
    );
    let wanted = Tally {
        lines: 2,
        calls: 2,
        replies: 1,
        bytes: 40,
    };
    assert!(rt; kind == Some(FaultKind::Write) && tally == wanted);
    let want = b"{\"error\":1,\"name\":\"NotLoaded\"}\n{\"error\":";
    assert!(rt; taken.as_slice() == want.as_slice());
}

/// Puts so many times a byte behind a text.
fn push_times(text: &mut Vec<u8>, byte: u8, times: usize) -> Result<(), AllocError> {
    text.resize(text.len().saturating_add(times), byte)
}

/// Lists as deep as the parser reads and deeper, and the longest line that is read.
fn deep_and_wide(alloc: Global) -> Result<Vec<u8>, AllocError> {
    let mut text = Vec::new(alloc);
    push_times(&mut text, b'[', 100)?;
    push_times(&mut text, b']', 100)?;
    text.push(b'\n')?;
    push_times(&mut text, b'[', 1_000)?;
    push_times(&mut text, b']', 1_000)?;
    text.push(b'\n')?;
    push_times(&mut text, b' ', 1_048_561)?;
    text.extend_from_slice(b"{\"cmd\":\"count\"}")?;
    Ok(text)
}

#[test]
fn deep_and_wide_lines(rt: HostRuntime) -> Result<(), Fail> {
    let text = deep_and_wide(rt.alloc())?;
    let want =
        b"{\"error\":21,\"name\":\"BadCommand\"}\n{\"error\":20,\"name\":\"NotJson\"}\n{\"error\":1,\"name\":\"NotLoaded\"}\n";
    let writer = FailingWriter::all(rt.alloc());
    let (kind, tally, taken) = run_whole(&rt, rt.alloc(), text.as_slice(), writer);
    let wanted = Tally {
        lines: 3,
        calls: 1,
        replies: 3,
        bytes: 94,
    };
    assert!(rt; kind.is_none() && tally == wanted);
    assert!(rt; taken.as_slice() == want.as_slice());
    Ok(())
}
