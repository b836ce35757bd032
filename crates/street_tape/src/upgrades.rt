//! A tape, written anew in version 2. Nothing is written before the tape was read to its end. `street_runs` calls it for
//! `--upgrade`.
ghost use Rattle.std.specs.Prelude.{◌≡◌, ◌≤◌, ◌<◌, ◌^◌, ◌++◌, OnOk, IfOk, IfErr};
ghost use Rattle.street_base.specs.Prelude.{most_reads};
ghost use Rattle.street_stream.specs.Streams.{IsFlushed, IsFresh};
ghost use Rattle.street_stream.specs.Faults.{IsCausedByWriting};
ghost use Rattle.street_tape.specs.Faults.{IsTapeCaused};
ghost use Rattle.street_tape.specs.Streams.{UpgradesAll, UpgradesFirst};
ghost use Rattle.street_tape.specs.Upgrades.{CutShort, IsKept, with_bytes};
ghost use Rattle.street_tape.specs.Tapes.{entry_line, head_line};
ghost use Rattle.street_tape.specs.Written.{WritesAll, WritesFirst};

use crate::fault::{TapeFault, check_end, fault_of};
use crate::journal_tape::write_line;
use crate::{LONGEST_TAPE_LINE, Stop, Tape, entry_text, head_text};
use std::alloc::Global;
use std::io::{Read, Write};
use street_base::{MOST_READS, Starved};
use street_desk::Entry;
use street_stream::{
    Counted, FaultKind, LineAnswer, LineHandler, PartialLine, RunFault, RunLimits, Tally,
    drive_lines, flush_out,
};

/// A tape as far as it was read, and the lines of its calls in version 2.
#[derive(Drop)]
struct Upgrader {
    tape: Tape,
    lines: Vec<u8>,
}

/// Adds the line of a call, as version 2 has it, to those that are kept.
///
/// # Errors
///
/// `Starved` where there was no memory for it.
fn keep_line(alloc: Global, lines: &mut Vec<u8>, call: &Entry) -> Result<(), Starved>
    ensures { OnOk result (lines.new.items ≡ lines.old.items ++ entry_line call.now) }
{
    let text = entry_text(alloc, call)?;
    lines.extend_from_slice(text.as_slice())?;
    Ok(())
}

impl LineHandler for Upgrader {
    ghost use Rattle.std.specs.Prelude.{⊤};
    ghost use Rattle.street_tape.specs.Upgrades.{UpgradesLine, RefusesLine};
    ghost use Rattle.street_tape.specs.Entries.{longest_tape_line};

    type Stop = Stop;

    ghost meaning = { record { longest = longest_tape_line; takes = UpgradesLine; stops = RefusesLine } };

    ghost ready = { ⊤ };

    /// The first line tells what follows; the line of each call is kept.
    fn take(&mut self, alloc: Global, line: &PartialLine) -> Result<LineAnswer, Stop> {
        let taken = self.tape.take(alloc, line.as_slice())?;
        match taken {
            None => Ok(LineAnswer {
                is_call: false,
                reply: Ok(None),
            }),
            Some(call) => {
                keep_line(alloc, &mut self.lines, &call)?;
                Ok(LineAnswer {
                    is_call: true,
                    reply: Ok(None),
                })
            }
        }
    }
}

/// Writes the tape of version 2 of so many calls from their lines: its first line, and then these. Flushes, and counts in `bytes`,
/// which is 0 at first, what went out of it.
///
/// # Errors
///
/// `Write` where a write or a flush failed, or a write took no bytes; `Starved` where memory ran out for the first line.
fn write_lines<W: Write>(
    alloc: Global,
    calls: u64,
    lines: &[u8],
    writer: &mut Counted<W>,
    bytes: &mut u128,
) -> Result<(), FaultKind>
    requires { bytes.old ≡ 0 }
    ensures written { OnOk result (WritesAll W.contents writer.old (head_line calls ++ lines.now) writer.new bytes.new) }
    ensures flushed { OnOk result (IsFlushed writer.new) }
    ensures part { IfErr result (λ kind. WritesFirst W.contents writer.old (head_line calls ++ lines.now) writer.new bytes.new kind) }
{
    write_line(writer, head_text(alloc, calls)?.as_slice(), bytes)?;
    write_line(writer, lines, bytes)?;
    flush_out(writer)?;
    Ok(())
}

/// Writes the tape of so many calls as the tally has, from their lines, and answers the tally with the bytes of this tape.
///
/// # Errors
///
/// The fault of the write, with the bytes that went out.
fn write_kept<W: Write>(
    alloc: Global,
    lines: &[u8],
    writer: &mut Counted<W>,
    tally: Tally,
) -> Result<Tally, RunFault>
    requires { tally.calls < 2 ^ 64 }
    ensures written { IfOk result (λ all. IsKept tally (W.contents writer.old.stream) (head_line tally.calls ++ lines.now)
        (W.contents writer.new.stream) all) }
    ensures part { IfErr result (λ fault. CutShort tally (W.contents writer.old.stream) (head_line tally.calls ++ lines.now)
        (W.contents writer.new.stream) fault) }
    ensures caused { IfErr result (λ fault. IsCausedByWriting fault.kind writer.new) }
    ensures flushed { OnOk result (IsFlushed writer.new) }
{
    let mut bytes = 0;
    match write_lines(alloc, tally.calls as u64, lines, writer, &mut bytes) {
        Ok(()) => Ok(with_bytes(tally, bytes)),
        Err(kind) => Err(RunFault {
            kind,
            tally: with_bytes(tally, bytes),
        }),
    }
}

/// The tally, with so many bytes in place of its own.
fn with_bytes(tally: Tally, bytes: u128) -> Tally
    ensures { result ≡ with_bytes tally bytes }
{
    Tally {
        lines: tally.lines,
        calls: tally.calls,
        replies: tally.replies,
        bytes,
    }
}

/// Upgrades a tape as [`upgrade`] does, with so many calls of `read` at most.
///
/// # Errors
///
/// Those of [`upgrade`], but `Run` of kind `FaultKind::Endless` after `reads` calls of `read`.
pub fn upgrade_within<D: Read, W: Write>(
    alloc: Global,
    reader: &mut Counted<D>,
    writer: &mut Counted<W>,
    reads: u32,
) -> Result<Tally, TapeFault>
    requires reader { IsFresh reader.old }
    requires writer { IsFresh writer.old }
    ensures upgraded { IfOk result (UpgradesAll D.remaining W.contents reader.old writer.old reader.new writer.new) }
    ensures stops { IfErr result (UpgradesFirst D.remaining W.contents reader.old writer.old reader.new writer.new) }
    ensures caused { IfErr result (λ fault. IsTapeCaused fault reader.new writer.new reads) }
    ensures flushed { OnOk result (IsFlushed writer.new) }
    ensures bounded { reader.new.calls ≤ reads }
{
    let tape = Tape::new();
    let lines = Vec::new(alloc);
    let mut upgrader = Upgrader { tape, lines };
    let limits = RunLimits {
        line: LONGEST_TAPE_LINE,
        reads,
    };
    let tally = match drive_lines(alloc, &mut upgrader, reader, writer, limits) {
        Ok(tally) => tally,
        Err(halt) => return Err(fault_of(halt.cause, halt.tally)),
    };
    match check_end(&upgrader.tape, &tally) {
        Ok(()) => match write_kept(alloc, upgrader.lines.as_slice(), writer, tally) {
            Ok(all) => Ok(all),
            Err(fault) => Err(TapeFault::Run(fault)),
        },
        Err(fault) => Err(fault),
    }
}

/// Reads a whole tape of version 1 or 2, and then writes the tape of version 2 of the same calls. Of a tape of version 1 no
/// size is kept: each vehicle that enters has size 1 there. No engine is asked, so an advance that the machine would refuse is
/// no fault. In the tally `lines` and `calls` are those that were read, `bytes` those that were written, and no reply is counted.
///
/// A line ends with LF or where the tape ends, and may have 2,097,152 bytes. The ends are fresh: nothing was called of them
/// yet. It takes memory for the lines of the tape, all at once.
///
/// # Errors
///
/// `NotTape` and `BadEntry` as [`replay`](crate::replay) has them, but for what only the machine tells of an advance:
/// nothing was written. `Run` where a read failed, a write or a flush failed or a write took no bytes, memory ran out, or
/// after 1,000,000,000 reads: of the new tape the first `tally.bytes` bytes are written, and none before the old one was
/// read to its end.
pub fn upgrade<D: Read, W: Write>(
    alloc: Global,
    reader: &mut Counted<D>,
    writer: &mut Counted<W>,
) -> Result<Tally, TapeFault>
    requires reader { IsFresh reader.old }
    requires writer { IsFresh writer.old }
    ensures upgraded { IfOk result (UpgradesAll D.remaining W.contents reader.old writer.old reader.new writer.new) }
    ensures stops { IfErr result (UpgradesFirst D.remaining W.contents reader.old writer.old reader.new writer.new) }
    ensures caused { IfErr result (λ fault. IsTapeCaused fault reader.new writer.new most_reads) }
    ensures flushed { OnOk result (IsFlushed writer.new) }
    ensures bounded { reader.new.calls ≤ most_reads }
{
    upgrade_within(alloc, reader, writer, MOST_READS)
}
