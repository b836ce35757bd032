//! Rows that are written out, and the heads before them. A write that takes no bytes is a fault. `street_engine` gives it the
//! head and the rows of each step.
ghost use Rattle.std.specs.Prelude.{◌≡◌, ℕ, List, [], ◌++◌, Option, false, true, IfErr, IfOk, OnErr, OnOk, take, vec_capacity, vec_len};
ghost use Rattle.std.specs.Int.{w32, to_le_bytes};
ghost use Rattle.std.specs.Io.KnownBytes.{Appends};
ghost use Rattle.street_base.specs.Prelude.{head_bytes, row_bytes};
ghost use Rattle.street_record.specs.Given.{Adds, HasNoRest, IsFresh, IsGiven};
ghost use Rattle.street_stream.specs.Streams.{HasFailed};

use crate::sink::RowSink;
use std::alloc::{AllocError, Global};
use std::io::Write;
use std::marker::Model;
use street_base::{RecordHead, RecordRow};
use street_stream::{Counted, write_text};

/// How many bytes wait at most before they are written.
const BUFFER: usize = 1 << 16;

/// Writes rows, many at a time, by one buffer that is taken as it is made. Once a write has failed it writes no more.
#[derive(Drop)]
pub struct RecordWriter<W> {
    writer: Counted<W>,
    buffer: Vec<u8>,
    has_failed: bool,
}

impl<W> Model for RecordWriter<W> {
    ghost use Rattle.std.specs.Prelude.{◌≡◌, ◌≤◌, true, vec_capacity};
    ghost use Rattle.street_record.specs.Given.{WriterView};
    ghost use Rattle.street_stream.specs.Streams.{HasFailed};

    ghost Value = { WriterView W };

    ghost view = { λ w. record { writer = w.writer; waiting = w.buffer.items; has_failed = w.has_failed } };

    ghost invariant = { λ w. (16 ≤ vec_capacity w.buffer) × (w.has_failed ≡ true → HasFailed w.writer) };
}

/// Writes all bytes of a buffer, and empties it.
///
/// # Errors
///
/// How many of them, the first, were written before a write failed or took none.
fn empty<W: Write>(writer: &mut Counted<W>, buffer: &mut Vec<u8>) -> Result<(), usize>
    ensures written { OnOk result (Appends (W.contents writer.old.stream) (W.contents writer.new.stream) buffer.old.items) }
    ensures emptied { OnOk result ((buffer.new.items ≡ []) × (vec_len buffer.new ≡ 0)) }
    ensures part { IfErr result (λ sent. Appends (W.contents writer.old.stream) (W.contents writer.new.stream) (take sent buffer.old.items)) }
    ensures failed { OnErr result (HasFailed writer.new) }
    ensures capacity { vec_capacity buffer.new ≡ vec_capacity buffer.old }
{
    write_text(writer, buffer)?;
    buffer.clear();
    Ok(())
}

impl<W: Write + Drop> RecordWriter<W> {
    /// A writer of records to which nothing was given yet.
    ///
    /// # Errors
    /// Memory for the buffer was refused.
    pub fn new(alloc: Global, writer: W) -> Result<RecordWriter<W>, AllocError>
        ensures given { IfOk result (IsGiven W.contents (W.contents writer) []) }
        ensures fresh { IfOk result (λ made. IsFresh made × (made.writer.stream ≡ writer)) }
    {
        let buffer = Vec::with_capacity(alloc, BUFFER)?;
        Ok(RecordWriter {
            writer: Counted::new(writer),
            buffer,
            has_failed: false,
        })
    }

    /// Writes what waits. It is to be called before any reply to the steps whose rows were given goes out.
    pub fn write_out(&mut self)
        ensures keeps { (start : Option (List ℕ)) → (given : List ℕ) → IsGiven W.contents start given self.old → IsGiven W.contents start given self.new }
        ensures out { (start : Option (List ℕ)) → (given : List ℕ) → IsGiven W.contents start given self.old
            → self.new.has_failed ≡ false → Appends start (W.contents self.new.writer.stream) given }
        ensures emptied { HasNoRest self.new }
        ensures stays { self.old.has_failed ≡ true → self.new ≡ self.old }
        ensures caused { self.new.has_failed ≡ true → HasFailed self.new.writer }
    {
        if self.has_failed {
            return;
        }
        match empty(&mut self.writer, &mut self.buffer) {
            Ok(()) => {}
            Err(_sent) => self.has_failed = true,
        }
    }

    /// Whether a write has failed, or taken no byte. What was given before is then written in part, from the first byte on.
    pub fn has_failed(&self) -> bool
        ensures failed { result ≡ self.now.has_failed }
        ensures caused { result ≡ true → HasFailed self.now.writer }
    {
        self.has_failed
    }

    /// Takes the head of a block.
    pub fn head(&mut self, head: RecordHead)
        ensures { Adds W.contents (head_bytes head) self.old self.new }
    {
        self.put(&record_bytes(head.clock, head.rows, head.arrived, head.taken));
    }

    /// Takes bytes. Those that wait are written first where there is no room for these.
    fn put(&mut self, bytes: &[u8; 16])
        ensures { Adds W.contents bytes.now self.old self.new }
    {
        if self.has_failed {
            return;
        }
        let room = self.buffer.capacity() - self.buffer.len();
        if room < bytes.len() {
            if let Err(_sent) = empty(&mut self.writer, &mut self.buffer) {
                self.has_failed = true;
                return;
            }
        }
        self.buffer.extend_from_slice(bytes).unwrap();
    }
}

/// The bytes of a head or of a row: its four numbers of 32 bits, each with the least byte first.
fn record_bytes(first: u32, second: u32, third: u32, fourth: u32) -> [u8; 16]
    ensures { result ≡ to_le_bytes w32 first ++ to_le_bytes w32 second ++ to_le_bytes w32 third ++ to_le_bytes w32 fourth }
{
    let a = first.to_le_bytes();
    let b = second.to_le_bytes();
    let c = third.to_le_bytes();
    let d = fourth.to_le_bytes();
    [
        a[0], a[1], a[2], a[3], b[0], b[1], b[2], b[3], c[0], c[1], c[2], c[3], d[0], d[1], d[2],
        d[3],
    ]
}

impl<W: Write + Drop> RowSink for RecordWriter<W> {
    ghost takes = { λ old row new. Adds W.contents (row_bytes row) old new };

    /// Takes a row: 16 bytes at once.
    fn row(&mut self, row: RecordRow) {
        self.put(&record_bytes(row.car, row.slot, row.spot, row.speed));
    }
}
