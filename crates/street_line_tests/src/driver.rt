//! Lines that are cut out of reads, handled and answered.

use std::alloc::Global;
use std::cell::Cell;
use std::io;
use std::io::{Read, Write};
use std::process::Abort;
use std::test::Fail;
use street_stream::{
    Counted, FaultKind, Halt, LineAnswer, LineHandler, PartialLine, RunLimits, StopCause, Tally,
    drive_lines,
};

/// A line that ended a run: how many came before it.
#[derive(Clone, Copy, PartialEq, Eq)]
struct Stopped {
    before: u8,
}

/// Answers each line that is not blank by `ok`, and ends with a line `x`. A line has three bytes at most.
#[derive(Drop)]
struct Answerer {
    lines: u8,
}

/// What is answered to a line.
fn reply_to(alloc: Global, line: &PartialLine) -> Result<Option<Vec<u8>>, street_base::Starved> {
    if line.is_blank() {
        return Ok(None);
    }
    let mut text = Vec::new(alloc);
    for byte in b"ok\n" {
        text.push(*byte)?;
    }
    Ok(Some(text))
}

impl LineHandler for Answerer {
    type Stop = Stopped;

    ghost meaning = { record { longest = 3; takes = λ old line effect new. Unit {0}; stops = λ old line stop new. Unit {0} } };

    ghost ready = { Unit {0} };

    fn take(&mut self, alloc: Global, line: &PartialLine) -> Result<LineAnswer, Stopped> {
        if line.as_slice() == b"x".as_slice() {
            return Err(Stopped { before: self.lines });
        }
        self.lines = self.lines.saturating_add(1);
        Ok(LineAnswer {
            is_call: line.as_slice().len() <= 3 && !line.is_blank(),
            reply: reply_to(alloc, line),
        })
    }
}

/// The counts of a tally.
fn counts(tally: &Tally) -> (u128, u128, u128, u128) {
    (tally.lines, tally.calls, tally.replies, tally.bytes)
}

/// What a run of these lines came to, with so many reads at most, and what it wrote.
fn drive(alloc: Global, text: &[u8], reads: u32) -> (Result<Tally, Halt<Stopped>>, Vec<u8>) {
    let mut reader = Counted::new(text);
    let mut writer = Counted::new(Vec::new(alloc));
    let mut handler = Answerer { lines: 0 };
    let limits = RunLimits { line: 3, reads };
    let run = drive_lines(alloc, &mut handler, &mut reader, &mut writer, limits);
    (run, writer.into_inner())
}

#[test]
fn lines_are_answered(rt: HostRuntime) -> Result<(), Fail> {
    let (run, out) = drive(rt.alloc(), b"a\n \nabc\nabcd\nlast", 2);
    let Ok(tally) = run else {
        return Err(Fail::from("the run broke"));
    };
    assert!(rt; counts(&tally) == (5, 2, 4, 12));
    assert!(rt; out.as_slice() == b"ok\nok\nok\nok\n".as_slice());
    Ok(())
}

#[test]
fn a_line_ends_the_run(rt: HostRuntime) -> Result<(), Fail> {
    let (run, out) = drive(rt.alloc(), b"a\n\nb\nx\nc\n", 9);
    let Err(halt) = run else {
        return Err(Fail::from("the run did not break"));
    };
    let StopCause::Line(stopped) = halt.cause else {
        return Err(Fail::from("the run failed"));
    };
    assert!(rt; stopped == Stopped { before: 3 });
    assert!(rt; counts(&halt.tally) == (4, 2, 2, 6));
    assert!(rt; out.as_slice() == b"ok\nok\n".as_slice());
    Ok(())
}

#[test]
fn reads_run_out(rt: HostRuntime) -> Result<(), Fail> {
    let (run, out) = drive(rt.alloc(), b"a\nb", 1);
    let Err(halt) = run else {
        return Err(Fail::from("the run did not break"));
    };
    let StopCause::Run(kind) = halt.cause else {
        return Err(Fail::from("a line ended it"));
    };
    assert!(rt; kind == FaultKind::Endless);
    assert!(rt; counts(&halt.tally) == (1, 1, 1, 3));
    assert!(rt; out.as_slice() == b"ok\n".as_slice());
    Ok(())
}

/// Gives the line `a` at each read, so many times, and keeps whether at one of them the replies to all lines before had not
/// been passed on.
#[derive(Drop)]
struct AskingReader<'a> {
    given: usize,
    most: usize,
    passed: &'a Cell<usize>,
    is_late: bool,
}

impl<'a> Read for AskingReader<'a> {
    fn read(&mut self, buffer: &mut [u8]) -> io::Result<usize> {
        if self.passed.get() != self.given.saturating_mul(3) {
            self.is_late = true;
        }
        if self.given >= self.most {
            return Ok(0);
        }
        self.given += 1;
        let line = b"a\n".as_slice();
        let count = line.len().min(buffer.len());
        buffer[..count].copy_from_slice(&line[..count]);
        Ok(count)
    }
}

/// Takes all, and tells the reader beside it how much was passed on.
#[derive(Drop)]
struct PassingWriter<'a> {
    taken: usize,
    passed: &'a Cell<usize>,
}

impl<'a> Write for PassingWriter<'a> {
    fn write(&mut self, bytes: &[u8]) -> io::Result<usize> {
        self.taken = self.taken.saturating_add(bytes.len());
        Ok(bytes.len())
    }

    fn flush(&mut self) -> io::Result<()> {
        self.passed.set(self.taken);
        Ok(())
    }
}

#[test]
fn replies_are_out_before_the_next_read(rt: HostRuntime) -> Result<(), Fail> {
    let passed = Cell::new(0usize);
    let mut reader = Counted::new(AskingReader {
        given: 0,
        most: 5,
        passed: &passed,
        is_late: false,
    });
    let mut writer = Counted::new(PassingWriter {
        taken: 0,
        passed: &passed,
    });
    let mut handler = Answerer { lines: 0 };
    let limits = RunLimits { line: 3, reads: 9 };
    let run = drive_lines(rt.alloc(), &mut handler, &mut reader, &mut writer, limits);
    let Ok(tally) = run else {
        return Err(Fail::from("the run broke"));
    };
    assert!(rt; counts(&tally) == (5, 5, 5, 15));
    assert!(rt; reader.is_prompt() && !reader.into_inner().is_late);
    Ok(())
}
