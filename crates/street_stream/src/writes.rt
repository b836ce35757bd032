//! Bytes that go out in parts. A write that takes no bytes is a fault. All that writes replies, tapes and records calls it.
ghost use Rattle.std.specs.Prelude.{◌≡◌, ◌<◌, ◌+◌, ◌^◌, OnOk, OnErr, IfErr, Ok, Err, length, take};
ghost use Rattle.std.specs.Io.KnownBytes.{Appends, Keeps};
ghost use Rattle.std.specs.declared.io.Error.{Error};
ghost use Rattle.street_stream.specs.Calls.{OnlyWrites};
ghost use Rattle.street_stream.specs.Streams.{one_more, HasFailed, IsFlushed, IsWritten, IsCut};
ghost use Rattle.street_stream.specs.declared.tally.FaultKind.TheVariants as kinds;

use crate::counted::Counted;
use crate::ends::Sink;
use crate::tally::{FaultKind, Tally};
use std::io::Write;

/// Writes all these bytes, by as many calls as that takes, with no flush.
///
/// # Errors
///
/// How many of them, the first, were written before a write failed or took none.
pub fn write_text<W: Sink>(writer: &mut Counted<W>, text: &[u8]) -> Result<(), usize>
    ensures written { OnOk result (Appends (W.contents writer.old.stream) (W.contents writer.new.stream) text.now) }
    ensures part { IfErr result (λ sent. (sent < length text.now)
        × Appends (W.contents writer.old.stream) (W.contents writer.new.stream) (take sent text.now)) }
    ensures failed { OnErr result (HasFailed writer.new) }
    ensures calls { OnlyWrites W.takes writer.old.stream writer.new.stream }
{
    let mut at = 0;
    while at < text.len() {
        match writer.write(&text[at..]) {
            Ok(0) | Err(_) => return Err(at),
            Ok(n) => at += n,
        }
    }
    Ok(())
}

/// Writes a reply, and counts it and its bytes in the tally; of one that went out in part the bytes alone. Does not flush.
///
/// # Errors
///
/// `Write` where a write failed, or took no bytes.
pub fn write_reply<W: Sink>(
    writer: &mut Counted<W>,
    text: &[u8],
    tally: &mut Tally,
) -> Result<(), FaultKind>
    requires count { tally.old.replies < 2 ^ 64 }
    requires room { tally.old.bytes < 2 ^ 127 }
    ensures written { OnOk result (IsWritten (W.contents writer.old.stream) (W.contents writer.new.stream) text.now tally.old tally.new) }
    ensures part { OnErr result (IsCut (W.contents writer.old.stream) (W.contents writer.new.stream) text.now tally.old tally.new) }
    ensures failed { IfErr result (λ kind. (kind ≡ kinds.Write) × HasFailed writer.new) }
    ensures calls { OnlyWrites W.takes writer.old.stream writer.new.stream }
{
    match write_text(writer, text) {
        Ok(()) => {
            tally.bytes += text.len() as u128;
            tally.replies += 1;
            Ok(())
        }
        Err(sent) => {
            tally.bytes += sent as u128;
            Err(FaultKind::Write)
        }
    }
}

/// Passes on what a buffered writer still holds, by one flush.
///
/// # Errors
///
/// `Write` where that failed.
pub fn flush_out<W: Sink>(writer: &mut Counted<W>) -> Result<(), FaultKind>
    ensures called { writer.new.calls ≡ one_more writer.old.calls }
    ensures kept { Keeps (W.contents writer.old.stream) (W.contents writer.new.stream) }
    ensures passed { OnOk result (IsFlushed writer.new) }
    ensures failed { IfErr result (λ kind. (kind ≡ kinds.Write) × HasFailed writer.new) }
    ensures done { OnOk result (W.passes writer.old.stream (Ok tt) writer.new.stream) }
    ensures undone { OnErr result ((error : Error) × W.passes writer.old.stream (Err error) writer.new.stream) }
{
    if writer.flush().is_err() {
        return Err(FaultKind::Write);
    }
    Ok(())
}
