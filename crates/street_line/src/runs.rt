//! A text of lines, served one after another. Each reply is written, and passed on, before the next read. Each kind of session
//! calls it with its service.
ghost use Rattle.std.specs.Prelude.{◌≡◌, OnOk};
ghost use Rattle.street_base.specs.Prelude.{most_reads};
ghost use Rattle.street_stream.specs.Streams.{IsFlushed, IsFresh, IsPrompt};
ghost use Rattle.street_line.specs.Faults.{kind_of};
ghost use Rattle.street_line.specs.Streams.{ServesLines};

use crate::server::LineServer;
use crate::service::Service;
use std::alloc::Global;
use std::io::{Read, Write};
use street_base::{MOST_READS, Starved};
use street_stream::{Counted, FaultKind, RunFault, RunLimits, StopCause, Tally, drive_lines};
use street_text::{LONGEST_LINE, LineReader};

/// The fault of a run of lines that this ended: a line ends it only where memory ran out.
fn kind_of(cause: StopCause<Starved>) -> FaultKind
    ensures { result ≡ kind_of cause }
{
    match cause {
        StopCause::Run(kind) => kind,
        StopCause::Line(_) => FaultKind::Starved,
    }
}

/// Serves the lines of a text, in order and each once, and writes each reply, and passes it on, before the next read.
///
/// A line ends with LF or where the text ends. A line of spaces, tabs and CR alone is blank: it gets no reply. A line
/// that is too long or does not read is answered by its fault, and makes no call. Of a line no more is kept than one
/// byte above 1,048,576. The ends are fresh: nothing was called of them yet.
///
/// # Errors
///
/// `Read` where a read failed; `Write` where a write or a flush failed, or a write took no bytes; `Starved` where memory
/// ran out in reading a line or in printing its reply; `Endless` after so many reads. After a fault no more is read or
/// served; what was served and written till then is `Breaks` of `specs/Faults`.
pub fn run_lines_within<S: Service, R: Read, W: Write>(
    alloc: Global,
    service: &mut S,
    reader: &mut Counted<R>,
    writer: &mut Counted<W>,
    reads: u32,
) -> Result<Tally, RunFault>
    requires ready { S.ready }
    requires reader { IsFresh reader.old }
    requires writer { IsFresh writer.old }
    ensures runs { ServesLines S.serves R.remaining W.contents reads
        service.old reader.old writer.old result service.new reader.new writer.new }
    ensures prompt { IsPrompt reader.new }
    ensures flushed { OnOk result (IsFlushed writer.new) }
{
    let mut lines = LineReader::new(alloc);
    let mut server = LineServer {
        service,
        reader: &mut lines,
    };
    let limits = RunLimits {
        line: LONGEST_LINE,
        reads,
    };
    match drive_lines(alloc, &mut server, reader, writer, limits) {
        Ok(tally) => Ok(tally),
        Err(halt) => Err(RunFault {
            kind: kind_of(halt.cause),
            tally: halt.tally,
        }),
    }
}

/// Serves the lines of a text as [`run_lines_within`] does, with 1,000,000,000 reads at most.
///
/// # Errors
///
/// Those of [`run_lines_within`].
pub fn run_lines<S: Service, R: Read, W: Write>(
    alloc: Global,
    service: &mut S,
    reader: &mut Counted<R>,
    writer: &mut Counted<W>,
) -> Result<Tally, RunFault>
    requires ready { S.ready }
    requires reader { IsFresh reader.old }
    requires writer { IsFresh writer.old }
    ensures runs { ServesLines S.serves R.remaining W.contents most_reads
        service.old reader.old writer.old result service.new reader.new writer.new }
    ensures prompt { IsPrompt reader.new }
    ensures flushed { OnOk result (IsFlushed writer.new) }
{
    run_lines_within(alloc, service, reader, writer, MOST_READS)
}
