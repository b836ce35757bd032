//! Readers and writers that count their calls, and keep whether each read came behind a flush. Counts stop at the greatest
//! `u64`. Each call makes one call of the stream that is counted, and gives its result: see [`crate::Source`] and
//! [`crate::Sink`]. Every run of lines reads and writes by it.
ghost use Rattle.std.specs.Prelude.{◌≡◌, ◌==◌, ◌||◌, ◌&&◌, OnOk, OnErr, IfOk, if◌then◌else◌, true, false};
ghost use Rattle.std.specs.Io.KnownBytes.{Keeps, ReadConsumes, WriteAppends};
ghost use Rattle.std.specs.Io.{ReadsAtMost, WritesAtMost};
ghost use Rattle.street_stream.specs.Streams.{one_more, IsFresh};

use crate::ends::{Sink, Source};
use std::io;
use std::io::{Read, Write};

/// A reader or a writer with the numbers of its calls, of those that failed, and of writes that took no byte.
///
/// A writer keeps whether its last call was a flush that did not fail. A reader keeps of the writer that it is read behind
/// whether that was so at each read but the first, and how often the writer had been called when it was last read.
#[derive(Drop)]
pub struct Counted<T> {
    stream: T,
    calls: u64,
    failures: u64,
    empty_writes: u64,
    is_flushed: bool,
    is_prompt: bool,
    writer_calls: u64,
}

impl<T> Counted<T> {
    /// A stream of which nothing was called yet. It takes no memory.
    pub fn new(stream: T) -> Counted<T>
        ensures stream { result.stream ≡ stream }
        ensures fresh { IsFresh result }
    {
        Counted {
            stream,
            calls: 0,
            failures: 0,
            empty_writes: 0,
            is_flushed: false,
            is_prompt: false,
            writer_calls: 0,
        }
    }

    /// Gives back the reader or writer, as its calls have left it. The counts are dropped.
    pub fn into_inner(self) -> T
        ensures { result ≡ self.stream }
    {
        self.stream
    }

    /// How often it was called to read, to write or to flush.
    pub fn calls(&self) -> u64
        ensures { result ≡ self.now.calls }
    {
        self.calls
    }

    /// How many of these calls failed.
    pub fn failures(&self) -> u64
        ensures { result ≡ self.now.failures }
    {
        self.failures
    }

    /// How many writes took no byte.
    pub fn empty_writes(&self) -> u64
        ensures { result ≡ self.now.empty_writes }
    {
        self.empty_writes
    }

    /// Of a reader: whether each read was made by [`read_behind`](Self::read_behind), and each but the first right behind a flush
    /// of the writer that did not fail. False before the first read.
    pub fn is_prompt(&self) -> bool
        ensures { result ≡ self.now.is_prompt }
    {
        self.is_prompt
    }
}

impl<R: Source> Counted<R> {
    /// Reads as `read` does, and keeps of the writer how often it had been called, and whether its last call was a flush that did
    /// not fail, at this read and at each before it but the first.
    pub fn read_behind<W>(&mut self, writer: &Counted<W>, buffer: &mut [u8]) -> io::Result<usize>
        ensures bound { ReadsAtMost result buffer.new }
        ensures bytes { ReadConsumes (R.remaining self.old.stream) (R.remaining self.new.stream) result buffer.new }
        ensures once { R.gives self.old.stream buffer.old result self.new.stream buffer.new }
        ensures calls { self.new.calls ≡ one_more self.old.calls }
        ensures given { OnOk result (self.new.failures ≡ self.old.failures) }
        ensures failed { OnErr result (self.new.failures ≡ one_more self.old.failures) }
        ensures empty { self.new.empty_writes ≡ self.old.empty_writes }
        ensures prompt { self.new.is_prompt ≡ ((self.old.calls == 0) || (self.old.is_prompt && writer.now.is_flushed)) }
        ensures place { self.new.writer_calls ≡ writer.now.calls }
    {
        let is_prompt = (self.calls == 0) | (self.is_prompt & writer.is_flushed);
        let result = self.read(buffer);
        self.is_prompt = is_prompt;
        self.writer_calls = writer.calls;
        result
    }
}

impl<R: Source> Read for Counted<R> {
    ghost remaining = { λ c. R.remaining c.stream };

    /// Reads once into the buffer, and counts the call, and its failure. The read stands behind no writer: from then on the reader
    /// is not prompt.
    fn read(&mut self, buffer: &mut [u8]) -> io::Result<usize>
        ensures bound { ReadsAtMost result buffer.new }
        ensures bytes { ReadConsumes (R.remaining self.old.stream) (R.remaining self.new.stream) result buffer.new }
        ensures once { R.gives self.old.stream buffer.old result self.new.stream buffer.new }
        ensures calls { self.new.calls ≡ one_more self.old.calls }
        ensures given { OnOk result (self.new.failures ≡ self.old.failures) }
        ensures failed { OnErr result (self.new.failures ≡ one_more self.old.failures) }
        ensures empty { self.new.empty_writes ≡ self.old.empty_writes }
        ensures prompt { self.new.is_prompt ≡ false }
    {
        self.calls = self.calls.saturating_add(1);
        self.is_prompt = false;
        let result = self.stream.read_once(buffer);
        if result.is_err() {
            self.failures = self.failures.saturating_add(1);
        }
        result
    }
}

impl<W: Sink> Write for Counted<W> {
    ghost contents = { λ c. W.contents c.stream };

    /// Writes once, and counts the call, its failure, and that it took no byte. What was taken may wait in the writer until a
    /// flush.
    fn write(&mut self, bytes: &[u8]) -> io::Result<usize>
        ensures bound { WritesAtMost result bytes.now }
        ensures bytes { WriteAppends (W.contents self.old.stream) (W.contents self.new.stream) result bytes.now }
        ensures once { W.takes self.old.stream bytes.now result self.new.stream }
        ensures calls { self.new.calls ≡ one_more self.old.calls }
        ensures taken { OnOk result (self.new.failures ≡ self.old.failures) }
        ensures empty { IfOk result (λ n. self.new.empty_writes
            ≡ (if n == 0 then one_more self.old.empty_writes else self.old.empty_writes)) }
        ensures failed { OnErr result (self.new.failures ≡ one_more self.old.failures) }
        ensures none { OnErr result (self.new.empty_writes ≡ self.old.empty_writes) }
        ensures flushed { self.new.is_flushed ≡ false }
    {
        self.calls = self.calls.saturating_add(1);
        self.is_flushed = false;
        let result = self.stream.write_once(bytes);
        match result {
            Ok(0) => self.empty_writes = self.empty_writes.saturating_add(1),
            Ok(_) => {}
            Err(_) => self.failures = self.failures.saturating_add(1),
        }
        result
    }

    /// Flushes once, counts the call and its failure, and keeps whether it went well.
    fn flush(&mut self) -> io::Result<()>
        ensures bytes { Keeps (W.contents self.old.stream) (W.contents self.new.stream) }
        ensures once { W.passes self.old.stream result self.new.stream }
        ensures calls { self.new.calls ≡ one_more self.old.calls }
        ensures done { OnOk result (self.new.failures ≡ self.old.failures) }
        ensures failed { OnErr result (self.new.failures ≡ one_more self.old.failures) }
        ensures empty { self.new.empty_writes ≡ self.old.empty_writes }
        ensures passed { OnOk result (self.new.is_flushed ≡ true) }
        ensures held { OnErr result (self.new.is_flushed ≡ false) }
    {
        self.calls = self.calls.saturating_add(1);
        let result = self.stream.flush_once();
        self.is_flushed = result.is_ok();
        if result.is_err() {
            self.failures = self.failures.saturating_add(1);
        }
        result
    }
}
