//! The lines of a text, cut out of reads and handled one after another. Each reply is written, and passed on, before the next
//! read. `street_line` and `street_tape` call it with a handler of lines.
ghost use Rattle.std.specs.Prelude.{◌≡◌, ◌+◌, ◌^◌, ◌<◌, [], ◌∷◌, ◌++◌, IfOk, OnOk, IfErr, OnErr, length};
ghost use Rattle.street_stream.specs.Calls.{OnlyWrites, PassesOn, IsCutShort, AreRounds, BreaksOff};
ghost use Rattle.street_stream.specs.Streams.{IsFlushed, IsFresh, IsPrompt};
ghost use Rattle.street_stream.specs.HandledLines.{Drives, IsTally};
ghost use Rattle.street_stream.specs.Lines.{IsInsideLine, IsPart};
ghost use Rattle.street_stream.specs.Progress.{IsWithin, TakesLine, FeedsBytes, FinishesText, ended};

use crate::answer::{Halt, LineAnswer, StopCause};
use crate::counted::Counted;
use crate::ends::{Sink, Source};
use crate::handler::LineHandler;
use crate::part::PartialLine;
use crate::tally::{FaultKind, Tally};
use crate::writes::{flush_out, write_reply};
use memchr::memchr;
use std::alloc::Global;

/// The most bytes that a run takes by one read.
pub const READ_SIZE: usize = 4096;

/// What a run may come to.
#[derive(Debug, Clone, Copy, PartialEq, Eq)]
pub struct RunLimits {
    /// The most bytes of a line, its LF not counted.
    pub line: usize,
    /// The most calls of `read`.
    pub reads: u32,
}

/// A run as far as it has come: the line that has not ended, and the tally of those that have.
#[derive(Drop)]
pub(crate) struct Progress {
    pub(crate) part: PartialLine,
    pub(crate) tally: Tally,
}

/// Handles a line that has ended, of which `part` has the bytes, and writes its reply, with no flush. Counts in the tally the line,
/// a call, the reply and the bytes written; a line that ends the run is counted too.
///
/// # Errors
///
/// Those of [`drive_lines`] but of its reads and flushes.
fn end_line<H: LineHandler, W: Sink>(
    alloc: Global,
    handler: &mut H,
    writer: &mut Counted<W>,
    part: &PartialLine,
    tally: &mut Tally,
) -> Result<(), StopCause<H::Stop>>
    requires ready { H.ready }
    requires within { IsWithin tally.old }
    requires room { tally.old.lines < 2 ^ 62 }
    ensures takes { TakesLine H.meaning W.contents
        handler.old writer.old part.now tally.old result handler.new writer.new tally.new }
    ensures calls { OnlyWrites W.takes writer.old.stream writer.new.stream }
{
    tally.lines += 1;
    let answer = match handler.take(alloc, part) {
        Ok(answer) => answer,
        Err(stop) => return Err(StopCause::Line(stop)),
    };
    let LineAnswer { is_call, reply } = answer;
    if is_call {
        tally.calls += 1;
    }
    if let Some(text) = reply? {
        write_reply(writer, text.as_slice(), tally)?;
    }
    Ok(())
}

/// Takes up the last bytes of a line, up to its LF, handles the line as `end_line` does, and empties the part for the next line.
///
/// # Errors
///
/// Those of `end_line`, and `Starved` where there was no memory for the bytes.
fn take_line<H: LineHandler, W: Sink>(
    alloc: Global,
    handler: &mut H,
    writer: &mut Counted<W>,
    progress: &mut Progress,
    bytes: &[u8],
) -> Result<(), StopCause<H::Stop>>
    requires ready { H.ready }
    requires inside { IsInsideLine bytes.now }
    requires within { IsWithin progress.old.tally }
    requires room { progress.old.tally.lines < 2 ^ 62 }
    ensures feeds { FeedsBytes H.meaning W.contents
        handler.old writer.old progress.old (bytes.now ++ 10 ∷ []) 1 result handler.new writer.new progress.new }
    ensures calls { OnlyWrites W.takes writer.old.stream writer.new.stream }
{
    progress.part.extend(bytes)?;
    end_line(alloc, handler, writer, &progress.part, &mut progress.tally)?;
    progress.part.clear();
    Ok(())
}

/// Takes up the next bytes of the text: each line that ends in them is handled and its reply written, with no flush, and what comes
/// after the last LF is kept as the part of the next line.
///
/// # Errors
///
/// Those of [`drive_lines`] but of its reads and flushes; `progress` then tells what was done.
pub(crate) fn feed<H: LineHandler, W: Sink>(
    alloc: Global,
    handler: &mut H,
    writer: &mut Counted<W>,
    progress: &mut Progress,
    bytes: &[u8],
) -> Result<(), StopCause<H::Stop>>
    requires ready { H.ready }
    requires within { IsWithin progress.old.tally }
    requires room { progress.old.tally.lines + length bytes.now < 2 ^ 62 }
    ensures feeds { FeedsBytes H.meaning W.contents
        handler.old writer.old progress.old bytes.now (length bytes.now) result handler.new writer.new progress.new }
    ensures calls { OnlyWrites W.takes writer.old.stream writer.new.stream }
{
    let mut at = 0;
    'lines: while let Some(size) = memchr(b'\n', &bytes[at..]) {
        take_line(alloc, handler, writer, progress, &bytes[at..at + size])?;
        at += size + 1;
    }
    progress.part.extend(&bytes[at..])?;
    Ok(())
}

/// Takes up the next bytes of the text, as [`feed`] does, and then flushes the writer, so that the replies go out.
fn feed_through<H: LineHandler, W: Sink>(
    alloc: Global,
    handler: &mut H,
    writer: &mut Counted<W>,
    progress: &mut Progress,
    bytes: &[u8],
) -> Result<(), StopCause<H::Stop>>
    requires ready { H.ready }
    requires within { IsWithin progress.old.tally }
    requires room { progress.old.tally.lines + length bytes.now < 2 ^ 62 }
    ensures feeds { FeedsBytes H.meaning W.contents
        handler.old writer.old progress.old bytes.now (length bytes.now) result handler.new writer.new progress.new }
    ensures done { OnOk result (PassesOn W.takes W.passes writer.old.stream writer.new.stream) }
    ensures undone { OnErr result (IsCutShort W.takes W.passes writer.old.stream writer.new.stream) }
    ensures passed { OnOk result (IsFlushed writer.new) }
{
    feed(alloc, handler, writer, progress, bytes)?;
    flush_out(writer)?;
    Ok(())
}

/// Handles the last line of a text that has ended, where bytes stand behind its last LF, and writes its reply, with no flush.
///
/// # Errors
///
/// Those of [`drive_lines`] but of its reads and flushes; `progress` then tells what was done.
pub(crate) fn finish<H: LineHandler, W: Sink>(
    alloc: Global,
    handler: &mut H,
    writer: &mut Counted<W>,
    progress: &mut Progress,
) -> Result<(), StopCause<H::Stop>>
    requires ready { H.ready }
    requires within { IsWithin progress.old.tally }
    requires room { progress.old.tally.lines < 2 ^ 62 }
    ensures finishes { FinishesText H.meaning W.contents
        handler.old writer.old progress.old result handler.new writer.new progress.new }
    ensures calls { OnlyWrites W.takes writer.old.stream writer.new.stream }
{
    if progress.part.as_slice().is_empty() {
        return Ok(());
    }
    end_line(alloc, handler, writer, &progress.part, &mut progress.tally)?;
    Ok(())
}

/// Handles the last line of a text that has ended, as [`finish`] does, and then flushes the writer.
fn finish_through<H: LineHandler, W: Sink>(
    alloc: Global,
    handler: &mut H,
    writer: &mut Counted<W>,
    progress: &mut Progress,
) -> Result<(), StopCause<H::Stop>>
    requires ready { H.ready }
    requires within { IsWithin progress.old.tally }
    requires room { progress.old.tally.lines < 2 ^ 62 }
    ensures finishes { FinishesText H.meaning W.contents
        handler.old writer.old progress.old result handler.new writer.new progress.new }
    ensures done { OnOk result (PassesOn W.takes W.passes writer.old.stream writer.new.stream) }
    ensures undone { OnErr result (IsCutShort W.takes W.passes writer.old.stream writer.new.stream) }
    ensures passed { OnOk result (IsFlushed writer.new) }
{
    finish(alloc, handler, writer, progress)?;
    flush_out(writer)?;
    Ok(())
}

/// Reads the text to its end, by at most so many reads, and handles its lines. `progress` begins empty, and tells what was done,
/// after a fault too.
///
/// # Errors
///
/// Those of [`drive_lines`].
fn drive_all<H: LineHandler, R: Source, W: Sink>(
    alloc: Global,
    handler: &mut H,
    reader: &mut Counted<R>,
    writer: &mut Counted<W>,
    reads: u32,
    progress: &mut Progress,
) -> Result<(), StopCause<H::Stop>>
    requires ready { H.ready }
    requires fresh { IsFresh reader.old }
    requires begun { IsPart H.meaning.longest progress.old.part [] × IsTally progress.old.tally [] [] }
    ensures runs { Drives H.meaning R.remaining W.contents reads
        handler.old reader.old writer.old (ended result progress.new) handler.new reader.new writer.new }
    ensures few { OnOk result (progress.new.tally.lines < 2 ^ 62) }
    ensures prompt { IsPrompt reader.new }
    ensures flushed { OnOk result (IsFlushed writer.new) }
    ensures rounds { OnOk result (AreRounds R.gives W.takes W.passes reader.new.calls
        reader.old.stream writer.old.stream reader.new.stream writer.new.stream) }
    ensures broken_off { IfErr result (λ cause. BreaksOff R.gives W.takes W.passes cause reader.new.calls
        reader.old.stream writer.old.stream reader.new.stream writer.new.stream) }
{
    let mut buffer = [0u8; READ_SIZE];
    for _ in 0..reads {
        let count = match reader.read_behind(writer, &mut buffer) {
            Ok(count) => count,
            Err(_) => return Err(StopCause::Run(FaultKind::Read)),
        };
        if count == 0 {
            finish_through(alloc, handler, writer, progress)?;
            return Ok(());
        }
        feed_through(alloc, handler, writer, progress, &buffer[..count])?;
    }
    Err(StopCause::Run(FaultKind::Endless))
}

/// Hands each line of a text to the handler, in order and once, and writes each reply, and passes it on, before the next
/// read. Reads up to [`READ_SIZE`] bytes at a time.
///
/// Each read but the first comes right behind a flush that did not fail. Where a read failed, the whole output of the lines
/// that were read to their end was written before it, and the writer was not called behind it. Whether a read will fail is not
/// known before it is made, so each finds the same: the flush before it held the output of all that was read till then. A run
/// without a fault ends with such a flush, too.
///
/// Of the reader and the writer no call is made but these, as `specs/Calls` says: rounds of one read each, and behind it writes
/// and a flush.
///
/// A line ends with LF or where the text ends; a last part of no bytes is no line. Of a line no more is kept than one byte
/// above the most that it may have. The ends are fresh: nothing was called of them yet.
///
/// # Errors
///
/// `Line` where a line ended the run. `Run` with `Read` where a read failed; `Write` where a write or a flush failed, or a
/// write took no bytes; `Starved` where memory ran out to keep a line or for the text of a reply; `Endless` after so many
/// reads. After either no more is read or handled; what was done till then is `Broke` of `specs/HandledLines`.
pub fn drive_lines<H: LineHandler, R: Source, W: Sink>(
    alloc: Global,
    handler: &mut H,
    reader: &mut Counted<R>,
    writer: &mut Counted<W>,
    limits: RunLimits,
) -> Result<Tally, Halt<H::Stop>>
    requires ready { H.ready }
    requires longest { limits.line ≡ H.meaning.longest }
    requires fresh { IsFresh reader.old × IsFresh writer.old }
    ensures runs { Drives H.meaning R.remaining W.contents limits.reads
        handler.old reader.old writer.old result handler.new reader.new writer.new }
    ensures few { IfOk result (λ tally. tally.lines < 2 ^ 62) }
    ensures prompt { IsPrompt reader.new }
    ensures flushed { OnOk result (IsFlushed writer.new) }
    ensures rounds { OnOk result (AreRounds R.gives W.takes W.passes reader.new.calls
        reader.old.stream writer.old.stream reader.new.stream writer.new.stream) }
    ensures broken_off { IfErr result (λ halt. BreaksOff R.gives W.takes W.passes halt.cause reader.new.calls
        reader.old.stream writer.old.stream reader.new.stream writer.new.stream) }
{
    let mut progress = Progress {
        part: PartialLine::new(alloc, limits.line),
        tally: Tally {
            lines: 0,
            calls: 0,
            replies: 0,
            bytes: 0,
        },
    };
    match drive_all(alloc, handler, reader, writer, limits.reads, &mut progress) {
        Ok(()) => Ok(progress.tally),
        Err(cause) => Err(Halt {
            cause,
            tally: progress.tally,
        }),
    }
}
