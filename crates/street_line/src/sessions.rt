//! Lines served through a desk. `street_runs` calls it for standard input.
ghost use Rattle.std.specs.Prelude.{◌≡◌, OnOk};
ghost use Rattle.street_base.specs.Prelude.{most_reads};
ghost use Rattle.street_stream.specs.Streams.{IsFlushed, IsFresh, IsPrompt};
ghost use Rattle.street_line.specs.Sessions.{IsAlone};
ghost use Rattle.street_line.specs.Streams.{AloneServesLines};

use crate::session::DeskSession;
use crate::{Counted, RunFault, Tally, run_lines};
use std::alloc::Global;
use std::io::{Read, Write};
use std::sync::Wait;
use std::thread::Threads;

/// Serves the lines of a text through a desk that has one session alone: what is written is what the machine says to these
/// lines, each command being applied as long as the desk has a place for it, and told as full from then on. The history
/// is that of the calls, and nobody else's. After a fault the same holds of the lines that were served.
///
/// # Errors
///
/// Those of `run_lines`.
pub fn run_alone<R: Threads + Wait + Sync, D: Read, W: Write>(
    alloc: Global,
    session: &mut DeskSession<'_, R>,
    reader: &mut Counted<D>,
    writer: &mut Counted<W>,
) -> Result<Tally, RunFault>
    requires alone { IsAlone session.old }
    requires reader { IsFresh reader.old }
    requires writer { IsFresh writer.old }
    ensures runs { AloneServesLines D.remaining W.contents most_reads
        session.old reader.old writer.old result session.new reader.new writer.new }
    ensures prompt { IsPrompt reader.new }
    ensures flushed { OnOk result (IsFlushed writer.new) }
    ensures alone { (session.new.desk ≡ session.old.desk) × IsAlone session.new }
{
    run_lines(alloc, session, reader, writer)
}
