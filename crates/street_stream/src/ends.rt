//! Readers and writers of which a contract can say that they were called. The traits of std say what a call does to the bytes,
//! where those are known, and not that a call was made. The relations here are each stream's own: only a call of it shows that
//! they hold. `counted.rt` calls them.

use std::io;
use std::io::{Read, Write};

/// A reader: `gives` stands between it, the buffer, what one read gave, and both behind that read.
pub trait Source: Read {
    ghost use Rattle.std.specs.Prelude.{List, ℕ, Result};
    ghost use Rattle.std.specs.Io.KnownBytes.{ReadConsumes};
    ghost use Rattle.std.specs.Io.{ReadsAtMost};
    ghost use Rattle.std.specs.declared.io.Error.{Error};

    ghost gives: { Self → List ℕ → Result ℕ Error → Self → List ℕ → Type 0 };

    /// Reads once, into the buffer from its begin: how many bytes, 0 at the end of the text.
    ///
    /// # Errors
    ///
    /// That of the read.
    fn read_once(&mut self, buffer: &mut [u8]) -> io::Result<usize>
        ensures bound { ReadsAtMost result buffer.new }
        ensures bytes { ReadConsumes (Self.remaining self.old) (Self.remaining self.new) result buffer.new }
        ensures once { gives self.old buffer.old result self.new buffer.new };
}

/// A writer: `takes` stands between it, the bytes, what one write gave, and the writer behind it; `passes` between it, what one
/// flush gave, and the writer behind it.
pub trait Sink: Write {
    ghost use Rattle.std.specs.Prelude.{List, ℕ, Result};
    ghost use Rattle.std.specs.Io.KnownBytes.{Keeps, WriteAppends};
    ghost use Rattle.std.specs.Io.{WritesAtMost};
    ghost use Rattle.std.specs.declared.io.Error.{Error};

    ghost takes: { Self → List ℕ → Result ℕ Error → Self → Type 0 };

    ghost passes: { Self → Result (Unit {0}) Error → Self → Type 0 };

    /// Writes once: how many of these bytes, from the first on, were taken.
    ///
    /// # Errors
    ///
    /// That of the write.
    fn write_once(&mut self, bytes: &[u8]) -> io::Result<usize>
        ensures bound { WritesAtMost result bytes.now }
        ensures bytes { WriteAppends (Self.contents self.old) (Self.contents self.new) result bytes.now }
        ensures once { takes self.old bytes.now result self.new };

    /// Flushes once: passes on what the writer still holds.
    ///
    /// # Errors
    ///
    /// That of the flush.
    fn flush_once(&mut self) -> io::Result<()>
        ensures bytes { Keeps (Self.contents self.old) (Self.contents self.new) }
        ensures once { passes self.old result self.new };
}

/// What std says of a read.
impl<R: Read> Source for R {
    ghost use Rattle.std.specs.Io.KnownBytes.{ReadConsumes};

    ghost gives = { λ old buffer result new filled. ReadConsumes (R.remaining old) (R.remaining new) result filled };

    /// By one `read` of std.
    fn read_once(&mut self, buffer: &mut [u8]) -> io::Result<usize> {
        self.read(buffer)
    }
}

/// What std says of a write and of a flush.
impl<W: Write> Sink for W {
    ghost use Rattle.std.specs.Io.KnownBytes.{Keeps, WriteAppends};

    ghost takes = { λ old bytes result new. WriteAppends (W.contents old) (W.contents new) result bytes };

    ghost passes = { λ old result new. Keeps (W.contents old) (W.contents new) };

    /// By one `write` of std.
    fn write_once(&mut self, bytes: &[u8]) -> io::Result<usize> {
        self.write(bytes)
    }

    /// By one `flush` of std.
    fn flush_once(&mut self) -> io::Result<()> {
        self.flush()
    }
}
