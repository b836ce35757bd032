//! Streams in memory that fail when they are told to.

use std::alloc::Global;
use std::io;
use std::io::{Read, Write};

/// Gives a text, so many bytes a read at most, and where it is endless from its start again. Fails at a read, after so many
/// others.
#[derive(Drop)]
pub(crate) struct FailingReader<'a> {
    pub(crate) text: &'a [u8],
    pub(crate) at: usize,
    pub(crate) piece: usize,
    pub(crate) is_endless: bool,
    pub(crate) reads_left: usize,
}

impl<'a> Read for FailingReader<'a> {
    fn read(&mut self, buffer: &mut [u8]) -> io::Result<usize> {
        if self.reads_left == 0 {
            return Err(io::Error::from(io::ErrorKind::BrokenPipe));
        }
        self.reads_left -= 1;
        if self.is_endless && self.at >= self.text.len() {
            self.at = 0;
        }
        let rest = self.text.get(self.at..).unwrap_or(&[]);
        let count = rest.len().min(self.piece).min(buffer.len());
        buffer[..count].copy_from_slice(&rest[..count]);
        self.at = self.at.saturating_add(count);
        Ok(count)
    }
}

/// Takes so many bytes a write at most while there is room, and then fails or takes none. Fails at a flush, after so many
/// others.
#[derive(Drop)]
pub(crate) struct FailingWriter {
    pub(crate) taken: Vec<u8>,
    pub(crate) flushed: usize,
    pub(crate) piece: usize,
    pub(crate) room: usize,
    pub(crate) fails: bool,
    pub(crate) flushes_left: usize,
}

impl FailingWriter {
    /// Nothing taken yet.
    pub(crate) fn new(alloc: Global, piece: usize, room: usize, fails: bool) -> FailingWriter {
        FailingWriter {
            taken: Vec::new(alloc),
            flushed: 0,
            piece,
            room,
            fails,
            flushes_left: usize::MAX,
        }
    }

    /// Takes all.
    pub(crate) fn all(alloc: Global) -> FailingWriter {
        FailingWriter::new(alloc, 4096, 1_000_000, true)
    }

    /// Takes all, and fails at a flush after so many others.
    pub(crate) fn failing_to_flush(alloc: Global, flushes_left: usize) -> FailingWriter {
        let mut writer = FailingWriter::all(alloc);
        writer.flushes_left = flushes_left;
        writer
    }
}

impl Write for FailingWriter {
    fn write(&mut self, bytes: &[u8]) -> io::Result<usize> {
        let count = bytes.len().min(self.piece).min(self.room);
        if count == 0 && self.fails {
            return Err(io::Error::from(io::ErrorKind::BrokenPipe));
        }
        self.taken.extend_from_slice(&bytes[..count])?;
        self.room -= count;
        Ok(count)
    }

    fn flush(&mut self) -> io::Result<()> {
        if self.flushes_left == 0 {
            return Err(io::Error::from(io::ErrorKind::BrokenPipe));
        }
        self.flushes_left -= 1;
        self.flushed = self.taken.len();
        Ok(())
    }
}
