//! A tape, replayed or upgraded, and the count that is printed behind a replay. `main` calls them for `--replay` and `--upgrade`.
ghost use Rattle.std.specs.Prelude.{◌≤◌, IfErr, OnOk};
ghost use Rattle.std.specs.Io.KnownBytes.{Appends};
ghost use Rattle.street_base.specs.Prelude.{most_reads, most_workers};
ghost use Rattle.street_runs.specs.Outputs.{IsBegun};
ghost use Rattle.street_runs.specs.Replays.{ReplaysAndCounts, ReplayOrCountStops};
ghost use Rattle.street_stream.specs.Faults.{IsCausedByWriting};
ghost use Rattle.street_stream.specs.Streams.{IsFlushed, IsFresh, IsPrompt};
ghost use Rattle.street_tape.specs.Faults.{IsTapeCaused};
ghost use Rattle.street_text.specs.ReplyLines.{reply_line};

use crate::ProgramFault;
use crate::engines::started_engine;
use crate::outputs::{STANDARD_OUTPUT, open_file, print_text};
use std::alloc::Global;
use std::fs::File;
use std::io;
use std::io::{Read, Write};
use std::rt::Files;
use std::thread::Threads;
use street_base::{Command, Reply};
use street_line::{Counted, FaultKind, RunFault, reply_text};
use street_tape::{TapeFault, replay, upgrade};

/// Replays the tape in the file of this name from nothing loaded, by so many workers. Writes its replies to standard output in the
/// tape's order, and then what a count answers.
///
/// # Errors
///
/// That of the file or of the replay, else that of standard output. The replies till then are written, without the count.
pub fn replay_tape<'a, R: Threads + Sync + Print + AllocGlobal + Files<File = File>>(
    rt: &R,
    workers: u32,
    name: &'a str,
) -> Result<(), ProgramFault<'a>>
    requires { (1 ≤ workers) × (workers ≤ most_workers) }
{
    let mut reader = Counted::new(open_file(rt, name)?);
    let mut writer = Counted::new(io::writer(rt));
    match replay_and_count(rt, rt.alloc(), workers, &mut reader, &mut writer) {
        Ok(()) => Ok(()),
        Err(fault) => Err(ProgramFault::of_tape(fault, name, STANDARD_OUTPUT)),
    }
}

/// Replays a tape from nothing loaded, by so many workers. Writes its replies in the tape's order, and then what a count answers.
///
/// # Errors
///
/// That of the replay; else `Run`, where the line of the count found no memory or was not written whole.
pub fn replay_and_count<R: Threads + Sync, D: Read, W: Write>(
    rt: &R,
    alloc: Global,
    workers: u32,
    reader: &mut Counted<D>,
    writer: &mut Counted<W>,
) -> Result<(), TapeFault>
    requires workers { (1 ≤ workers) × (workers ≤ most_workers) }
    requires reader { IsFresh reader.old }
    requires writer { IsFresh writer.old }
    ensures counted { OnOk result (ReplaysAndCounts D.remaining W.contents reader.old writer.old reader.new writer.new) }
    ensures stops { IfErr result (ReplayOrCountStops D.remaining W.contents reader.old writer.old reader.new writer.new) }
    ensures caused { IfErr result (λ fault. IsTapeCaused fault reader.new writer.new most_reads) }
    ensures prompt { IsPrompt reader.new }
    ensures flushed { OnOk result (IsFlushed writer.new) }
{
    let mut engine = started_engine(rt, alloc, workers);
    let tally = match replay(rt, alloc, reader, &mut engine, writer) {
        Ok(tally) => tally,
        Err(fault) => return Err(fault),
    };
    let (reply, _outcome) = engine.apply(rt, &Command::Count);
    match print_reply(alloc, &reply, writer) {
        Ok(()) => Ok(()),
        Err(kind) => Err(TapeFault::Run(RunFault { kind, tally })),
    }
}

/// Writes the line of the reply to the count behind a replay, with LF, and flushes.
///
/// # Errors
///
/// `Starved` where there was no memory for the line: nothing is written; `Write` where it was not written whole.
fn print_reply<W: Write>(
    alloc: Global,
    reply: &Reply,
    writer: &mut Counted<W>,
) -> Result<(), FaultKind>
    ensures written { OnOk result (Appends (W.contents writer.old.stream) (W.contents writer.new.stream) (reply_line reply.now)) }
    ensures part { IfErr result (λ kind. IsBegun (W.contents writer.old.stream) (W.contents writer.new.stream) (reply_line reply.now)) }
    ensures caused { IfErr result (λ kind. IsCausedByWriting kind writer.new) }
    ensures flushed { OnOk result (IsFlushed writer.new) }
{
    let Ok(text) = reply_text(alloc, reply) else {
        return Err(FaultKind::Starved);
    };
    match print_text(writer, text.as_slice()) {
        Ok(()) => Ok(()),
        Err(_) => Err(FaultKind::Write),
    }
}

/// Writes the tape in the file of this name anew in version 2 to standard output.
///
/// # Errors
///
/// That of the file or of the upgrade.
pub fn upgrade_tape<'a, R: Print + AllocGlobal + Files<File = File>>(
    rt: &R,
    name: &'a str,
) -> Result<(), ProgramFault<'a>> {
    let mut reader = Counted::new(open_file(rt, name)?);
    let mut writer = Counted::new(io::writer(rt));
    match upgrade(rt.alloc(), &mut reader, &mut writer) {
        Ok(_tally) => Ok(()),
        Err(fault) => Err(ProgramFault::of_tape(fault, name, STANDARD_OUTPUT)),
    }
}
