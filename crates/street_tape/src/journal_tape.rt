//! The tape of a journal, written. `street_runs` calls it at the end of a run with `--tape`.
ghost use Rattle.std.specs.Prelude.{◌≡◌, ◌≤◌, ◌+◌, ◌-◌, ◌^◌, OnOk, OnErr, IfOk, IfErr, length};
ghost use Rattle.std.specs.Io.KnownBytes.{Appends};
ghost use Rattle.street_stream.specs.Streams.{HasFailed, IsFlushed, IsFresh};
ghost use Rattle.street_stream.specs.Faults.{IsCausedByWriting};
ghost use Rattle.street_stream.specs.declared.tally.FaultKind.TheVariants as kinds;
ghost use Rattle.street_tape.specs.Tapes.{tape_text};
ghost use Rattle.street_tape.specs.Written.{IsPrefix, WritesAll, WritesFirst};

use crate::texts::{entry_text, head_text};
use std::alloc::Global;
use std::io::Write;
use street_desk::Journal;
use street_stream::{Counted, FaultKind, RunFault, Tally, flush_out, write_text};

/// Writes the bytes of one line or of several, and adds to `bytes` how many went out.
///
/// # Errors
///
/// `Write` where a write failed, or took no bytes; what went out before is counted.
pub(crate) fn write_line<W: Write>(
    writer: &mut Counted<W>,
    line: &[u8],
    bytes: &mut u128,
) -> Result<(), FaultKind>
    requires { bytes.old ≤ 2 ^ 128 - 2 ^ 64 }
    ensures written { OnOk result ((bytes.new ≡ bytes.old + length line.now)
        × Appends (W.contents writer.old.stream) (W.contents writer.new.stream) line.now) }
    ensures part { OnErr result (IsPrefix (W.contents writer.old.stream) bytes.old line.now (W.contents writer.new.stream) bytes.new) }
    ensures failed { IfErr result (λ kind. (kind ≡ kinds.Write) × HasFailed writer.new) }
{
    match write_text(writer, line) {
        Ok(()) => {
            *bytes += line.len() as u128;
            Ok(())
        }
        Err(sent) => {
            *bytes += sent as u128;
            Err(FaultKind::Write)
        }
    }
}

/// Writes the first line and the line of each call, and flushes. Counts in `bytes`, which is 0 at first, how many went out.
///
/// # Errors
///
/// The kinds of fault that [`write_tape`] has.
fn write_calls<W: Write>(
    alloc: Global,
    journal: &Journal,
    writer: &mut Counted<W>,
    bytes: &mut u128,
) -> Result<(), FaultKind>
    requires { bytes.old ≡ 0 }
    ensures written { OnOk result (WritesAll W.contents writer.old (tape_text journal.now) writer.new bytes.new) }
    ensures flushed { OnOk result (IsFlushed writer.new) }
    ensures part { IfErr result (λ kind. WritesFirst W.contents writer.old (tape_text journal.now) writer.new bytes.new kind) }
{
    write_line(
        writer,
        head_text(alloc, journal.len() as u64)?.as_slice(),
        bytes,
    )?;
    for at in 0..journal.len() {
        let Some(entry) = journal.entry(at) else {
            unreachable!();
        };
        write_line(writer, entry_text(alloc, entry)?.as_slice(), bytes)?;
    }
    flush_out(writer)?;
    Ok(())
}

/// A fault after so many bytes were written; the other numbers of its tally are 0, as nothing is read.
fn fault_after(kind: FaultKind, bytes: u128) -> RunFault
    ensures { result ≡ record { kind = kind; tally = record { lines = 0; calls = 0; replies = 0; bytes = bytes } } }
{
    RunFault {
        kind,
        tally: Tally {
            lines: 0,
            calls: 0,
            replies: 0,
            bytes,
        },
    }
}

/// Writes the tape of a journal and nothing else, and answers its number of bytes: a first line with the version and the
/// number of calls, and then a line for each call, in the journal's order. The writer is fresh: nothing was called of it yet.
///
/// # Errors
///
/// `Write` where a write or a flush failed, or a write took no bytes; `Starved` where memory ran out for a line. Of the
/// tape the first `tally.bytes` bytes are then written; the other numbers of the tally are 0.
pub fn write_tape<W: Write>(
    alloc: Global,
    journal: &Journal,
    writer: &mut Counted<W>,
) -> Result<u128, RunFault>
    requires writer { IsFresh writer.old }
    ensures written { IfOk result (λ bytes. WritesAll W.contents writer.old (tape_text journal.now) writer.new bytes) }
    ensures flushed { OnOk result (IsFlushed writer.new) }
    ensures part { IfErr result (λ fault. IsPrefix (W.contents writer.old.stream) 0 (tape_text journal.now)
        (W.contents writer.new.stream) fault.tally.bytes) }
    ensures caused { IfErr result (λ fault. IsCausedByWriting fault.kind writer.new) }
    ensures tally { IfErr result (λ fault. (fault.tally.lines ≡ 0) × (fault.tally.calls ≡ 0) × (fault.tally.replies ≡ 0)) }
{
    let mut bytes = 0;
    match write_calls(alloc, journal, writer, &mut bytes) {
        Ok(()) => Ok(bytes),
        Err(kind) => Err(fault_after(kind, bytes)),
    }
}
