//! A write-ahead log: what outlives the program is written, and synced, before anything else goes out. A kept session of
//! `street_line` calls it.
ghost use Rattle.std.specs.Prelude.{◌≡◌, ◌<◌, ◌≤◌, ℕ, OnOk, OnErr, IfErr, length, take};
ghost use Rattle.std.specs.Io.KnownBytes.{Appends};
ghost use Rattle.street_stream.specs.Logs.{Extends, KeepStops};
ghost use Rattle.street_stream.specs.Streams.{IsFlushed};

use crate::counted::Counted;
use crate::writes::{flush_out, write_text};
use std::io;
use std::io::Write;

/// What outlives the program. `held` is the text that it was given, and `synced` the first part of it, which stays whatever happens;
/// both may be unknown. `has_failed` tells that a call failed, or that one took no byte of some.
pub trait WriteAheadLog {
    ghost use Rattle.std.specs.Prelude.{◌≡◌, ◌<◌, List, ℕ, Option, OnOk, OnErr, IfOk, length};
    ghost use Rattle.std.specs.Io.KnownBytes.{Keeps, WriteAppends};
    ghost use Rattle.std.specs.Io.{WritesAtMost};
    ghost use Rattle.street_stream.specs.Logs.{Extends};

    ghost held: { Self → Option (List ℕ) };

    ghost synced: { Self → Option (List ℕ) };

    ghost has_failed: { Self → Type 0 };

    /// Takes the first of these bytes behind what it holds, and answers how many. They are not synced yet.
    ///
    /// # Errors
    ///
    /// That of the log, which took none of them.
    fn append(&mut self, bytes: &[u8]) -> io::Result<usize>
        ensures bound { WritesAtMost result bytes.now }
        ensures bytes { WriteAppends (held self.old) (held self.new) result bytes.now }
        ensures synced { Extends (synced self.old) (synced self.new) }
        ensures within { Extends (synced self.new) (held self.new) }
        ensures empty { IfOk result (λ n. n ≡ 0 → 0 < length bytes.now → has_failed self.new) }
        ensures sound { IfOk result (λ n. 0 < n → has_failed self.new → has_failed self.old) }
        ensures failed { OnErr result (has_failed self.new) };

    /// Has all that it holds stay, whatever happens, where no call has failed before. Behind a failure it promises nothing more.
    ///
    /// # Errors
    ///
    /// That of the log: what was synced before stays.
    fn sync(&mut self) -> io::Result<()>
        ensures bytes { Keeps (held self.old) (held self.new) }
        ensures synced { Extends (synced self.old) (synced self.new) }
        ensures within { Extends (synced self.new) (held self.new) }
        ensures whole { (has_failed self.old → ⊥) → OnOk result (synced self.new ≡ held self.new) }
        ensures sound { OnOk result (has_failed self.new → has_failed self.old) }
        ensures failed { OnErr result (has_failed self.new) };
}

/// What stopped a text from going out behind what the log owes.
#[derive(Debug, Clone, Copy, PartialEq, Eq)]
pub enum KeepFault {
    /// The log failed, or took no byte: nothing of the text went out.
    Log,
    /// The writer failed, or took no byte: the log has all that it was owed.
    Output,
}

/// Gives a log all these bytes, by as many calls as that takes. They are not synced yet.
///
/// # Errors
///
/// How many of them, the first, the log took before a call failed or took none.
fn append_all<L: WriteAheadLog>(log: &mut L, text: &[u8]) -> Result<(), usize>
    ensures written { OnOk result (Appends (L.held log.old) (L.held log.new) text.now) }
    ensures part { IfErr result (λ sent. (sent < length text.now) × Appends (L.held log.old) (L.held log.new) (take sent text.now)) }
    ensures synced { Extends (L.synced log.old) (L.synced log.new) }
    ensures within { Extends (L.synced log.old) (L.held log.old) → Extends (L.synced log.new) (L.held log.new) }
    ensures failed { OnErr result (L.has_failed log.new) }
    ensures sound { OnOk result (L.has_failed log.new → L.has_failed log.old) }
{
    let mut at = 0;
    while at < text.len() {
        match log.append(&text[at..]) {
            Ok(0) | Err(_) => return Err(at),
            Ok(n) => at += n,
        }
    }
    Ok(())
}

/// Has a log take these entries, and syncs it. Where there are none it is not called.
///
/// # Errors
///
/// How many bytes of the entries the log took: all where the sync failed. They may be lost.
fn keep<L: WriteAheadLog>(log: &mut L, entries: &[u8]) -> Result<(), usize>
    requires synced { L.synced log.old ≡ L.held log.old }
    requires sound { L.has_failed log.old → ⊥ }
    ensures kept { OnOk result (Appends (L.held log.old) (L.held log.new) entries.now × (L.synced log.new ≡ L.held log.new)) }
    ensures part { IfErr result (λ sent. Appends (L.held log.old) (L.held log.new) (take sent entries.now)) }
    ensures synced { IfErr result (λ sent. (stayed : ℕ) × (stayed ≤ sent) × Appends (L.synced log.old) (L.synced log.new) (take stayed entries.now)) }
    ensures failed { OnErr result (L.has_failed log.new) }
    ensures sound { OnOk result (L.has_failed log.new → L.has_failed log.old) }
{
    if entries.is_empty() {
        return Ok(());
    }
    match append_all(log, entries) {
        Ok(()) => {}
        Err(sent) => return Err(sent),
    }
    if log.sync().is_err() {
        return Err(entries.len());
    }
    Ok(())
}

/// Has a log hold these entries, and stay so, and only then writes the replies, and passes them on. It is the only way out for
/// replies of a session that is kept: at each call of the writer the log holds the entries and is synced.
///
/// # Errors
///
/// `Log` where the log failed: the writer was not called. `Output` where the writer did: the log holds all entries, synced, and
/// the writer has the first bytes of the replies.
pub fn keep_first<L: WriteAheadLog, W: Write>(
    log: &mut L,
    writer: &mut Counted<W>,
    entries: &[u8],
    replies: &[u8],
) -> Result<(), KeepFault>
    requires synced { L.synced log.old ≡ L.held log.old }
    requires sound { L.has_failed log.old → ⊥ }
    ensures kept { OnOk result (Appends (L.held log.old) (L.held log.new) entries.now × (L.synced log.new ≡ L.held log.new)) }
    ensures replied { OnOk result (Appends (W.contents writer.old.stream) (W.contents writer.new.stream) replies.now) }
    ensures flushed { OnOk result (IsFlushed writer.new) }
    ensures sound { OnOk result (L.has_failed log.new → L.has_failed log.old) }
    ensures stops { IfErr result (KeepStops L.held L.synced L.has_failed W.contents log.old writer.old entries.now replies.now log.new writer.new) }
{
    match keep(log, entries) {
        Ok(()) => {}
        Err(_sent) => return Err(KeepFault::Log),
    }
    match write_text(writer, replies) {
        Ok(()) => {}
        Err(_sent) => return Err(KeepFault::Output),
    }
    match flush_out(writer) {
        Ok(()) => Ok(()),
        Err(_) => Err(KeepFault::Output),
    }
}
