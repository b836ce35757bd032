//! A text of lines: read, served (`kept.rt`), kept in the log, and answered, in this order. What is kept of the lines of a read stays
//! in the log before any reply to them goes out. `kept_file.rt` calls it.
ghost use Rattle.std.specs.Prelude.{◌≡◌, ◌<◌, ◌≤◌, ◌^◌, ◌++◌, [], List, ℕ, OnOk, IfErr, length};
ghost use Rattle.street_base.specs.Prelude.{most_reads};
ghost use Rattle.street_stream.specs.Lines.{cut, if_any};
ghost use Rattle.street_stream.specs.OpenTexts.{IsOpen};
ghost use Rattle.street_stream.specs.Streams.{IsFlushed, IsFresh, IsPrompt};
ghost use Rattle.street_text.specs.LineCommands.{longest_line};
ghost use Rattle.street_line.specs.Kept.{IsKeptCaused, IsPassCaused, KeptFirst, KeptUpTo, KeptWhole, PassStops, Passed, fault_of};

use crate::kept::{serve_last, serve_more};
use crate::service::Service;
use std::alloc::Global;
use std::io::{Read, Write};
use street_base::MOST_READS;
use street_stream::{
    Counted, FaultKind, KeepFault, OpenText, READ_SIZE, WriteAheadLog, keep_first,
};
use street_text::{LONGEST_LINE, LineReader};

/// Why a session that is kept ended before its text did.
#[derive(Debug, Clone, Copy, PartialEq, Eq)]
pub enum KeptFault {
    /// A read or a write failed, memory ran out, or the reads ran out.
    Run(FaultKind),
    /// The log failed.
    Log,
}

/// The fault of a session that is kept, where the log or the writer failed.
fn fault_of(fault: KeepFault) -> KeptFault
    ensures { result ≡ fault_of fault }
{
    match fault {
        KeepFault::Log => KeptFault::Log,
        KeepFault::Output => KeptFault::Run(FaultKind::Write),
    }
}

/// Serves the lines that end in the next bytes of a text: what is kept of them is in the log, and stays, before their replies go
/// out.
///
/// # Errors
///
/// `Run` with `Starved` where memory ran out: the first lines were served, and nothing went out. `Log` where the log failed: no reply went out. `Run` with `Write`
/// where the writer failed: the log holds what is kept.
fn serve_and_keep_more<S: Service, L: WriteAheadLog, W: Write>(
    alloc: Global,
    service: &mut S,
    lines: &mut LineReader,
    text: &mut OpenText,
    log: &mut L,
    writer: &mut Counted<W>,
    bytes: &[u8],
) -> Result<(), KeptFault>
    requires ready { S.ready }
    requires few { length bytes.now < 2 ^ 62 }
    requires synced { L.synced log.old ≡ L.held log.old }
    requires sound { L.has_failed log.old → ⊥ }
    ensures passed { (line : List ℕ) → IsOpen longest_line text.old line → OnOk result (Passed S.serves service.old (L.held log.old)
        (W.contents writer.old.stream) (cut (line ++ bytes.now)).0 service.new (L.held log.new) (L.synced log.new) (W.contents writer.new.stream)) }
    ensures open { (line : List ℕ) → IsOpen longest_line text.old line → OnOk result (IsOpen longest_line text.new (cut (line ++ bytes.now)).1) }
    ensures stops { (line : List ℕ) → IsOpen longest_line text.old line → IfErr result (λ fault. PassStops S.serves service.old (L.held log.old)
        (L.synced log.old) (W.contents writer.old.stream) (cut (line ++ bytes.now)).0 (if_any (cut (line ++ bytes.now)).1) fault service.new (L.held log.new) (L.synced log.new) (W.contents writer.new.stream)) }
    ensures flushed { OnOk result (IsFlushed writer.new) }
    ensures sound { OnOk result (L.has_failed log.new → L.has_failed log.old) }
    ensures caused { IfErr result (λ fault. IsPassCaused L.has_failed fault log.new writer.new) }
{
    let pending = match serve_more(alloc, service, lines, text, bytes) {
        Ok(pending) => pending,
        Err(_starved) => return Err(KeptFault::Run(FaultKind::Starved)),
    };
    match keep_first(
        log,
        writer,
        pending.entries.as_slice(),
        pending.replies.as_slice(),
    ) {
        Ok(()) => Ok(()),
        Err(fault) => Err(fault_of(fault)),
    }
}

/// Serves what stands behind the last LF of a text that has ended, as a line, and keeps and answers it as [`serve_and_keep_more`]
/// does: none is served where nothing stands there.
///
/// # Errors
///
/// Those of [`serve_and_keep_more`].
fn serve_and_keep_last<S: Service, L: WriteAheadLog, W: Write>(
    alloc: Global,
    service: &mut S,
    lines: &mut LineReader,
    text: OpenText,
    log: &mut L,
    writer: &mut Counted<W>,
) -> Result<(), KeptFault>
    requires ready { S.ready }
    requires synced { L.synced log.old ≡ L.held log.old }
    requires sound { L.has_failed log.old → ⊥ }
    ensures passed { (line : List ℕ) → IsOpen longest_line text line → OnOk result (Passed S.serves service.old (L.held log.old)
        (W.contents writer.old.stream) (if_any line) service.new (L.held log.new) (L.synced log.new) (W.contents writer.new.stream)) }
    ensures stops { (line : List ℕ) → IsOpen longest_line text line → IfErr result (λ fault. PassStops S.serves service.old (L.held log.old)
        (L.synced log.old) (W.contents writer.old.stream) (if_any line) [] fault service.new (L.held log.new) (L.synced log.new) (W.contents writer.new.stream)) }
    ensures flushed { OnOk result (IsFlushed writer.new) }
    ensures sound { OnOk result (L.has_failed log.new → L.has_failed log.old) }
    ensures caused { IfErr result (λ fault. IsPassCaused L.has_failed fault log.new writer.new) }
{
    let pending = match serve_last(alloc, service, lines, text) {
        Ok(pending) => pending,
        Err(_starved) => return Err(KeptFault::Run(FaultKind::Starved)),
    };
    match keep_first(
        log,
        writer,
        pending.entries.as_slice(),
        pending.replies.as_slice(),
    ) {
        Ok(()) => Ok(()),
        Err(fault) => Err(fault_of(fault)),
    }
}

/// Serves the lines of a text, in order and each once. What is kept of the lines that end in a read, each that was done and may
/// change the traffic, as it came, is in the log, and stays, before any reply to them goes out; and all replies are passed on before the next read.
///
/// # Errors
///
/// `Log` where the log failed; `Run` with the kinds of `run_lines_within`, `Starved` also where memory ran out for what is kept, for
/// the replies to one read or for the last steps of an advance. Only replies to lines are out then of which all that is kept is in
/// the log and stays.
pub fn run_kept<S: Service, R: Read, L: WriteAheadLog, W: Write>(
    alloc: Global,
    service: &mut S,
    reader: &mut Counted<R>,
    log: &mut L,
    writer: &mut Counted<W>,
) -> Result<(), KeptFault>
    requires ready { S.ready }
    requires reader { IsFresh reader.old }
    requires synced { L.synced log.old ≡ L.held log.old }
    requires sound { L.has_failed log.old → ⊥ }
    ensures whole { OnOk result (KeptWhole S.serves service.old (R.remaining reader.old.stream) (L.held log.old) (W.contents writer.old.stream)
        service.new (R.remaining reader.new.stream) (L.held log.new) (L.synced log.new) (W.contents writer.new.stream)) }
    ensures exact { IfErr result (λ fault. KeptUpTo S.serves service.old (R.remaining reader.old.stream) (L.held log.old)
        (W.contents writer.old.stream) fault service.new (R.remaining reader.new.stream) (L.held log.new) (L.synced log.new) (W.contents writer.new.stream)) }
    ensures broken { IfErr result (λ fault. KeptFirst S.serves service.old (R.remaining reader.old.stream) (L.held log.old)
        (W.contents writer.old.stream) (R.remaining reader.new.stream) (L.held log.new) (L.synced log.new) (W.contents writer.new.stream)) }
    ensures caused { IfErr result (λ fault. IsKeptCaused L.has_failed fault reader.new log.new writer.new most_reads) }
    ensures prompt { IsPrompt reader.new }
    ensures bounded { reader.new.calls ≤ most_reads }
    ensures flushed { OnOk result (IsFlushed writer.new) }
    ensures sound { OnOk result (L.has_failed log.new → L.has_failed log.old) }
{
    let mut lines = LineReader::new(alloc);
    let mut text = OpenText::new(alloc, LONGEST_LINE);
    let mut buffer = [0u8; READ_SIZE];
    for _ in 0..MOST_READS {
        let count = match reader.read_behind(writer, &mut buffer) {
            Ok(count) => count,
            Err(_) => return Err(KeptFault::Run(FaultKind::Read)),
        };
        if count == 0 {
            return serve_and_keep_last(alloc, service, &mut lines, text, log, writer);
        }
        let bytes = &buffer[..count];
        match serve_and_keep_more(alloc, service, &mut lines, &mut text, log, writer, bytes) {
            Ok(()) => {}
            Err(fault) => return Err(fault),
        }
    }
    Err(KeptFault::Run(FaultKind::Endless))
}
