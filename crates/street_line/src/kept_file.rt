//! A file that a session is kept in, and a session that goes on from what it has. `engines.rt` calls it, and for a session
//! with a record `street_runs`.
ghost use Rattle.std.specs.Prelude.{◌≡◌, ◌≤◌, ◌==◌, ◌||◌, List, ℕ, Option, OnOk, IfErr, IfOk, not, true};
ghost use Rattle.street_base.specs.Prelude.{most_reads};
ghost use Rattle.street_stream.specs.Lines.{is_space};
ghost use Rattle.street_stream.specs.Streams.{IsFlushed, IsFresh, IsPrompt};
ghost use Rattle.street_line.specs.Redo.{RedoBroke};
ghost use Rattle.street_line.specs.Kept.{KeptUpTo, KeptWhole};
ghost use Rattle.street_line.specs.KeptFiles.{BeginBreaks, IsBeginCaused, IsRunCaused, IsForeignText, IsServeCaused, Recovered, Redone, ServeBreaks, ServesOn, begins_foreign, sound_len, sound_of};

use crate::kept_runs::{KeptFault, run_kept};
use crate::redo::{RedoFault, RedoneLines, redo_log};
use crate::service::Service;
use memchr::memchr;
use std::alloc::Global;
use std::io;
use std::io::{Read, Write};
use street_stream::{Counted, READ_SIZE, WriteAheadLog};
use street_text::LONGEST_LINE;

/// A file that a session is kept in: a log that can be read from its begin, and written anew. `held` is the text that it has, and
/// `synced` the first part of it, which stays whatever happens.
pub trait KeptFile: WriteAheadLog {
    ghost use Rattle.std.specs.Prelude.{◌≡◌, ◌+◌, ◌<◌, ◌⊎◌, OnErr, OnOk, IfOk, length, take};
    ghost use Rattle.std.specs.Io.KnownBytes.{Consumes, IsAtEnd, Keeps};
    ghost use Rattle.std.specs.Io.{ReadsAtMost};
    ghost use Rattle.street_stream.specs.Logs.{Extends};
    ghost use Rattle.street_line.specs.KeptFiles.{first_of, left_from};

    /// What is known of it behind [`withdraw`](KeptFile::withdraw), and by nothing else.
    ghost withdrawn: { Self → Type 0 };

    /// Fills the first bytes of a buffer with those that it has from a place on, and answers how many: none only at its end.
    ///
    /// # Errors
    ///
    /// That of the file.
    fn read_at(&self, at: u64, buffer: &mut [u8]) -> io::Result<usize>
        ensures bound { ReadsAtMost result buffer.new }
        ensures bytes { IfOk result (λ n. Consumes (left_from at (Self.held self.now)) (left_from (at + n) (Self.held self.now)) (take n buffer.new)
            × (n ≡ 0 → 0 < length buffer.new → IsAtEnd (left_from at (Self.held self.now)))) };

    /// Has it hold its first bytes alone, written anew, and stay so. What stands behind them is kept elsewhere first.
    ///
    /// # Errors
    ///
    /// That of the file: it is as it was, or holds its first bytes alone. Of what was synced of these nothing is lost.
    fn renew(&mut self, size: u64) -> io::Result<()>
        ensures sound { OnOk result (Self.has_failed self.new → Self.has_failed self.old) }
        ensures renewed { OnOk result (Keeps (first_of size (Self.held self.old)) (Self.held self.new) × (Self.synced self.new ≡ Self.held self.new)) }
        ensures stays { Extends (first_of size (Self.synced self.old)) (Self.synced self.new) }
        ensures unrenewed { OnErr result (Keeps (Self.held self.old) (Self.held self.new) ⊎ Keeps (first_of size (Self.held self.old)) (Self.held self.new)) }
        ensures failed { OnErr result (Self.has_failed self.new) };

    /// Cuts off what is not synced, where that can be done: after a failure it may not be there.
    fn withdraw(&mut self)
        ensures held { (Self.held self.new ≡ Self.held self.old) ⊎ (Self.held self.new ≡ Self.synced self.old) }
        ensures synced { Self.synced self.new ≡ Self.synced self.old }
        ensures failed { Self.has_failed self.old → Self.has_failed self.new }
        ensures withdrawn { withdrawn self.new };
}

/// Who is told what is done with a file before a session goes on from it.
pub trait KeptNotices {
    ghost use Rattle.street_line.specs.declared.redo.RedoneLines.{RedoneLines as RedoneSeen};

    /// What is known once it was told of these lines, and by nothing else.
    ghost noted: { Self → RedoneSeen → Type 0 };

    /// Tells that the lines of the file were done again.
    fn note_redone(&self, redo: RedoneLines)
        ensures { noted self.now redo };
}

/// Why a session does not go on from a file.
#[derive(Debug, Clone, Copy, PartialEq, Eq)]
pub enum BeginFault {
    /// The lines of the file were not all done again. Nothing was written or cut off.
    Recover(RedoFault),
    /// No line of the file has ended, and what it has is no begin of one. Nothing was written or cut off.
    Foreign,
    /// The file was not written anew.
    Settle,
}

/// Why a session that goes on from a file ended before its text did.
#[derive(Debug, Clone, Copy, PartialEq, Eq)]
pub enum ServeFault {
    /// It did not begin. No line was served.
    Begin(BeginFault),
    /// The session ended so.
    Session(KeptFault),
}

/// How many of these bytes stand before the first NUL, or all.
fn sound_count(bytes: &[u8]) -> usize
    ensures { result ≡ sound_len bytes.now }
{
    memchr(0, bytes).unwrap_or(bytes.len())
}

/// A file that is read from its begin, to its first NUL or its end. No line that is kept has a NUL; a disk may leave them where a
/// crash came.
#[derive(Drop)]
struct KeptReader<'a, K> {
    file: &'a K,
    at: u64,
}

impl<'a, K: KeptFile> Read for KeptReader<'a, K> {
    ghost use Rattle.street_line.specs.KeptFiles.{left_from, sound_of};

    ghost remaining = { λ reader. sound_of (left_from reader.at (K.held reader.file.now)) };

    /// Reads on behind what was read.
    fn read(&mut self, buffer: &mut [u8]) -> io::Result<usize> {
        let count = match self.file.read_at(self.at, buffer) {
            Ok(count) => count,
            Err(error) => return Err(error),
        };
        let sound = sound_count(&buffer[..count]);
        match self.at.checked_add(sound as u64) {
            Some(at) => {
                self.at = at;
                Ok(sound)
            }
            None => Err(io::Error::from(io::ErrorKind::FileTooLarge)),
        }
    }
}

/// Whether a file of which no line has ended is another's than a session's: it has more bytes than a line, or a first byte that no
/// line begins with. It is not where it can not be read.
fn is_foreign<K: KeptFile>(file: &K) -> bool
    ensures { result ≡ true → IsForeignText (K.held file.now) }
{
    let mut buffer = [0u8; READ_SIZE];
    if let Ok(count) = file.read_at(LONGEST_LINE as u64, &mut buffer) {
        if count > 0 {
            return true;
        }
    }
    match file.read_at(0, &mut buffer) {
        Ok(count) => has_foreign_begin(&buffer[..count]),
        Err(_) => false,
    }
}

/// Whether a byte is a space, a tab or a CR.
fn is_space(byte: u8) -> bool
    ensures { result ≡ is_space byte }
{
    byte == b' ' || byte == b'\t' || byte == b'\r'
}

/// Whether no command begins with a byte, and it is no NUL, before which a file ends.
fn is_foreign_byte(byte: u8) -> bool
    ensures { result ≡ not ((byte == 123) || (byte == 0)) }
{
    !(byte == b'{' || byte == 0)
}

/// Whether the first of these bytes that is not blank is one that no command begins with, and no NUL, where the file ends.
fn has_foreign_begin(bytes: &[u8]) -> bool
    ensures { result ≡ begins_foreign bytes.now }
{
    for byte in bytes {
        if !is_space(*byte) {
            return is_foreign_byte(*byte);
        }
    }
    false
}

/// Does the lines that a file has, and that have ended before its first NUL. The file is only read.
///
/// # Errors
///
/// Those of [`redo_log`].
fn recover<S: Service, K: KeptFile>(
    alloc: Global,
    service: &mut S,
    file: &K,
) -> Result<RedoneLines, RedoFault>
    requires { S.ready }
    ensures done { IfOk result (λ redo. Redone S.serves service.old (K.held file.now) service.new redo) }
    ensures broken { IfErr result (λ fault. (rest : Option (List ℕ)) × RedoBroke S.serves service.old (sound_of (K.held file.now)) fault service.new rest) }
{
    let mut reader = Counted::new(KeptReader { file, at: 0 });
    redo_log(alloc, service, &mut reader)
}

/// Does the lines that a file has again, writes the file anew without what a crash has left behind them, and tells how many they are.
///
/// # Errors
///
/// Where the lines were not all done, or the file was not written anew: what it then has, `BeginBreaks` says.
pub fn begin_on<S: Service, K: KeptFile, N: KeptNotices>(
    alloc: Global,
    service: &mut S,
    file: &mut K,
    notes: &N,
) -> Result<RedoneLines, BeginFault>
    requires ready { S.ready }
    requires sound { K.has_failed file.old → ⊥ }
    ensures recovered { IfOk result (λ redo. Recovered S.serves service.old (K.held file.old) service.new (K.held file.new) redo) }
    ensures noted { IfOk result (N.noted notes.now) }
    ensures stays { OnOk result (K.synced file.new ≡ K.held file.new) }
    ensures broken { IfErr result (λ fault. BeginBreaks S.serves service.old (K.held file.old) (K.synced file.old) service.new (K.held file.new)
        (K.synced file.new) fault) }
    ensures caused { IfErr result (λ fault. IsBeginCaused K.has_failed fault file.new) }
    ensures sound { OnOk result (K.has_failed file.new → K.has_failed file.old) }
{
    let redo = match recover(alloc, service, file) {
        Ok(redo) => redo,
        Err(fault) => return Err(BeginFault::Recover(fault)),
    };
    if redo.bytes == 0 && is_foreign(file) {
        return Err(BeginFault::Foreign);
    }
    match file.renew(redo.bytes) {
        Ok(()) => {}
        Err(_error) => return Err(BeginFault::Settle),
    }
    notes.note_redone(redo);
    Ok(redo)
}

/// Serves the lines of a text as [`run_kept`] does. Where the log fails, what is not synced is cut off it.
///
/// # Errors
///
/// Those of [`run_kept`].
pub fn run_on<S: Service, K: KeptFile, R: Read, W: Write>(
    alloc: Global,
    service: &mut S,
    file: &mut K,
    reader: &mut Counted<R>,
    writer: &mut Counted<W>,
) -> Result<(), KeptFault>
    requires ready { S.ready }
    requires reader { IsFresh reader.old }
    requires synced { K.synced file.old ≡ K.held file.old }
    requires sound { K.has_failed file.old → ⊥ }
    ensures whole { OnOk result (KeptWhole S.serves service.old (R.remaining reader.old.stream) (K.held file.old) (W.contents writer.old.stream)
        service.new (R.remaining reader.new.stream) (K.held file.new) (K.synced file.new) (W.contents writer.new.stream)) }
    ensures exact { IfErr result (λ fault. KeptUpTo S.serves service.old (R.remaining reader.old.stream) (K.held file.old)
        (W.contents writer.old.stream) fault service.new (R.remaining reader.new.stream) (K.held file.new) (K.synced file.new) (W.contents writer.new.stream)) }
    ensures caused { IfErr result (λ fault. IsRunCaused K.has_failed K.withdrawn fault reader.new file.new writer.new most_reads) }
    ensures prompt { IsPrompt reader.new }
    ensures bounded { reader.new.calls ≤ most_reads }
    ensures flushed { OnOk result (IsFlushed writer.new) }
    ensures sound { OnOk result (K.has_failed file.new → K.has_failed file.old) }
{
    match run_kept(alloc, service, reader, file, writer) {
        Ok(()) => Ok(()),
        Err(KeptFault::Log) => {
            file.withdraw();
            Err(KeptFault::Log)
        }
        Err(KeptFault::Run(kind)) => Err(KeptFault::Run(kind)),
    }
}

/// Goes on from the lines that a file has, as [`begin_on`] does, and then serves the lines of a text as [`run_on`] does, and keeps them in
/// the file. What was done again is answered.
///
/// # Errors
///
/// Where the file, the text or the writer failed, or memory ran out: what is held and written then, `ServeBreaks` says.
pub fn serve_on<S: Service, K: KeptFile, N: KeptNotices, R: Read, W: Write>(
    alloc: Global,
    service: &mut S,
    file: &mut K,
    notes: &N,
    reader: &mut Counted<R>,
    writer: &mut Counted<W>,
) -> Result<RedoneLines, ServeFault>
    requires ready { S.ready }
    requires sound { K.has_failed file.old → ⊥ }
    requires reader { IsFresh reader.old }
    ensures whole { IfOk result (λ redo. ServesOn S.serves service.old (K.held file.old) (R.remaining reader.old.stream) (W.contents writer.old.stream)
        redo service.new (R.remaining reader.new.stream) (K.held file.new) (K.synced file.new) (W.contents writer.new.stream)) }
    ensures noted { IfOk result (N.noted notes.now) }
    ensures broken { IfErr result (λ fault. ServeBreaks S.serves service.old (K.held file.old) (K.synced file.old) (R.remaining reader.old.stream)
        (W.contents writer.old.stream) service.new (R.remaining reader.new.stream) (K.held file.new) (K.synced file.new) (W.contents writer.new.stream) fault) }
    ensures caused { IfErr result (λ fault. IsServeCaused K.has_failed K.withdrawn fault reader.new file.new writer.new most_reads) }
    ensures prompt { IsPrompt reader.new }
    ensures bounded { reader.new.calls ≤ most_reads }
    ensures flushed { OnOk result (IsFlushed writer.new) }
    ensures sound { OnOk result (K.has_failed file.new → K.has_failed file.old) }
{
    let redo = match begin_on(alloc, service, file, notes) {
        Ok(redo) => redo,
        Err(fault) => return Err(ServeFault::Begin(fault)),
    };
    match run_on(alloc, service, file, reader, writer) {
        Ok(()) => Ok(redo),
        Err(fault) => Err(ServeFault::Session(fault)),
    }
}
