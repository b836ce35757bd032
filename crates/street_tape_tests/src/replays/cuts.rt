//! The tape of the vehicle that arrives, cut off after each byte.

use crate::memory_streams::FailingWriter;
use crate::replays::runs::{Ran, replayed, upgraded};
use crate::replays::texts::{HEAD, OLD_HEAD, arrives_after, calls, first, first_lines, replies_to};
use std::alloc::{AllocError, Global};
use std::process::Abort;
use std::test::Fail;
use std::thread::Threads;
use street_stream::Tally;
use street_tape::TapeFault;

/// How many whole lines the first bytes of a tape have, and whether they are all; a line is whole without its LF too.
fn whole_lines(text: &[u8], cut: usize) -> (usize, bool) {
    let mut lines: usize = 0;
    let mut all = true;
    for (byte, next) in text.iter().zip(text.iter().skip(1)).take(cut) {
        all = *byte == b'\n' || *next == b'\n';
        if *next == b'\n' {
            lines = lines.saturating_add(1);
        }
    }
    (lines, all)
}

/// What is told of a tape that is cut there; where its first line does not count the calls, a cut between two lines is not
/// noticed.
fn fault_at(text: &[u8], counts: bool, cut: usize) -> Option<TapeFault> {
    let (lines, all) = whole_lines(text, cut);
    match lines {
        0 => Some(TapeFault::NotTape),
        5 => None,
        _ if all && !counts => None,
        _ => Some(TapeFault::BadEntry {
            line: lines.saturating_add(1) as u128,
        }),
    }
}

/// The tally of so many lines, replies and bytes.
fn tally_of(lines: usize, replies: usize, bytes: usize) -> Tally {
    Tally {
        lines: lines as u128,
        calls: lines.saturating_sub(1) as u128,
        replies: replies as u128,
        bytes: bytes as u128,
    }
}

/// The fault is told, or this tally, and exactly this text was written and flushed.
fn check(
    rt: &impl Abort,
    ran: &Ran,
    fault: Option<TapeFault>,
    tally: Tally,
    text: &[u8],
    cut: usize,
) {
    let told = match fault {
        Some(_) => None,
        None => Some(tally),
    };
    let holds = ran.fault == fault && ran.tally == told && ran.taken.as_slice() == text;
    assert!(rt; holds && ran.flushed == text.len(), "at {cut}");
}

/// The tape of version 2 of so many first calls.
fn tape_of(alloc: Global, lines: usize) -> Result<Vec<u8>, AllocError> {
    let heads = [
        "{\"calls\":0,\"tape\":2}\n",
        "{\"calls\":1,\"tape\":2}\n",
        "{\"calls\":2,\"tape\":2}\n",
        "{\"calls\":3,\"tape\":2}\n",
    ];
    let count = lines.saturating_sub(1);
    let head = heads.get(count).copied().unwrap_or(HEAD);
    let mut tape = Vec::from_slice(alloc, head.as_bytes())?;
    tape.extend_from_slice(first_lines(calls(), count))?;
    Ok(tape)
}

/// The tape is cut off after so many bytes: the calls of the whole lines are done, and replied to; an upgrade writes nothing
/// where a fault is told.
fn check_cut(
    rt: &(impl Threads + Abort + AllocGlobal + Sync),
    text: &[u8],
    counts: bool,
    cut: usize,
) -> Result<(), AllocError> {
    let alloc = rt.alloc();
    let (fault, lines) = (fault_at(text, counts, cut), whole_lines(text, cut).0);
    let ran = replayed(
        rt,
        alloc,
        first(text, cut),
        40,
        FailingWriter::all(alloc),
        1000,
    );
    let want = replies_to(lines);
    let tally = tally_of(lines, lines.saturating_sub(1), want.len());
    check(rt, &ran, fault, tally, want, cut);
    let ran = upgraded(alloc, first(text, cut), 40, FailingWriter::all(alloc), 1000);
    let mut want = tape_of(alloc, lines)?;
    if fault.is_some() {
        want.clear();
    }
    let tally = tally_of(lines, 0, want.len());
    check(rt, &ran, fault, tally, want.as_slice(), cut);
    Ok(())
}

/// The tape with this first line is cut off after each byte.
fn check_cuts(
    rt: &(impl Threads + Abort + AllocGlobal + Sync),
    head: &str,
    counts: bool,
) -> Result<(), AllocError> {
    let text = arrives_after(rt.alloc(), head)?;
    for cut in 0..=text.len() {
        check_cut(rt, text.as_slice(), counts, cut)?;
    }
    Ok(())
}

#[test]
fn a_tape_is_cut_after_each_byte(rt: HostRuntime) -> Result<(), Fail> {
    check_cuts(&rt, OLD_HEAD, false)?;
    check_cuts(&rt, HEAD, true)?;
    Ok(())
}
