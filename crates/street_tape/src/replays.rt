//! A tape, replayed line by line. Replies are passed on before the next read. `street_runs` calls it for `--replay`.
ghost use Rattle.std.specs.Prelude.{◌≡◌, ◌≤◌, None, Some, IfOk, IfErr, OnOk};
ghost use Rattle.street_base.specs.Prelude.{most_reads, State};
ghost use Rattle.street_stream.specs.Streams.{IsFlushed, IsFresh, IsPrompt};
ghost use Rattle.street_stream.specs.HandledLines.{Effect, Gives};
ghost use Rattle.street_engine.specs.Prelude.{StandsFor};
ghost use Rattle.street_tape.specs.Faults.{IsTapeCaused};
ghost use Rattle.street_tape.specs.ReplayHandler.{Applies, CallStops};
ghost use Rattle.street_tape.specs.Streams.{ReplaysAll, ReplaysFirst};

use crate::calls::call_again;
use crate::fault::{TapeFault, check_end, fault_of};
use crate::{LONGEST_TAPE_LINE, Stop, Tape};
use std::alloc::Global;
use std::io::{Read, Write};
use std::thread::Threads;
use street_base::MOST_READS;
use street_desk::Entry;
use street_engine::{Engine, Unwatched};
use street_stream::{Counted, LineAnswer, LineHandler, PartialLine, RunLimits, Tally, drive_lines};
use street_text::reply_text;

/// An engine that a tape is replayed on, and the tape as far as it was read.
#[derive(Drop)]
struct Replayer<'a, R> {
    rt: &'a R,
    engine: &'a mut Engine<Unwatched>,
    tape: Tape,
}

impl<'a, R: Threads + Sync> LineHandler for Replayer<'a, R> {
    ghost use Rattle.std.specs.Prelude.{◌≡◌};
    ghost use Rattle.std.specs.Thread.{IsSync};
    ghost use Rattle.street_tape.specs.ReplayHandler.{ReplaysLine, StopsLine};
    ghost use Rattle.street_tape.specs.Entries.{longest_tape_line};

    type Stop = Stop;

    ghost meaning = { record {
      longest = longest_tape_line;
      takes = λ old line effect new. (new.engine.ghost_name ≡ old.engine.ghost_name)
          × ReplaysLine (old.tape.rest, old.engine.now) line effect (new.tape.rest, new.engine.now);
      stops = λ old line stop new. (new.engine.ghost_name ≡ old.engine.ghost_name)
          × StopsLine (old.tape.rest, old.engine.now) line stop (new.tape.rest, new.engine.now);
    } };

    ghost ready = { IsSync R.row };

    /// The first line tells what follows; the call of a further line is applied as it went at the desk, and replied to.
    fn take(&mut self, alloc: Global, line: &PartialLine) -> Result<LineAnswer, Stop> {
        let taken = self.tape.take(alloc, line.as_slice())?;
        match taken {
            None => Ok(LineAnswer {
                is_call: false,
                reply: Ok(None),
            }),
            Some(call) => answer(self.rt, alloc, self.engine, &call),
        }
    }
}

/// Applies a call as it went at the desk, and answers the text of its reply, or that memory ran out for this text.
///
/// # Errors
///
/// As [`call_again`] has them: why the call was not applied, or not whole.
fn answer<R: Threads + Sync>(
    rt: &R,
    alloc: Global,
    engine: &mut Engine<Unwatched>,
    call: &Entry,
) -> Result<LineAnswer, Stop>
    ensures answered { IfOk result (λ answer. (effect : Effect)
        × Applies engine.old (Some call.now) effect engine.new × Gives answer effect) }
    ensures stopped { IfErr result (λ stop. (m : State) → StandsFor engine.old m
        → CallStops m call.now.command call.now.outcome engine.new stop) }
{
    let said = call_again(rt, engine, call)?;
    let reply = match reply_text(alloc, &said) {
        Ok(text) => Ok(Some(text)),
        Err(starved) => Err(starved),
    };
    Ok(LineAnswer {
        is_call: true,
        reply,
    })
}

/// Replays a tape on the engine that is held, with at most so many calls of `read`; the engine has nothing loaded, and no line of
/// the tape was read.
///
/// # Errors
///
/// As [`replay_within`] has them.
fn replay_lines<R: Threads + Sync, D: Read, W: Write>(
    alloc: Global,
    replayer: &mut Replayer<'_, R>,
    reader: &mut Counted<D>,
    writer: &mut Counted<W>,
    reads: u32,
) -> Result<Tally, TapeFault>
    requires fresh { IsFresh reader.old × IsFresh writer.old }
    requires engine { StandsFor replayer.old.engine.now None }
    requires tape { replayer.old.tape.rest ≡ None }
    ensures same_reference { replayer.new.engine.ghost_name ≡ replayer.old.engine.ghost_name }
    ensures replayed { IfOk result (ReplaysAll D.remaining W.contents
        reader.old writer.old replayer.new.engine.now reader.new writer.new) }
    ensures stops { IfErr result (ReplaysFirst D.remaining W.contents
        reader.old writer.old replayer.new.engine.now reader.new writer.new) }
    ensures caused { IfErr result (λ fault. IsTapeCaused fault reader.new writer.new reads) }
    ensures bounded { reader.new.calls ≤ reads }
    ensures prompt { IsPrompt reader.new }
    ensures flushed { OnOk result (IsFlushed writer.new) }
{
    let limits = RunLimits {
        line: LONGEST_TAPE_LINE,
        reads,
    };
    let tally = match drive_lines(alloc, replayer, reader, writer, limits) {
        Ok(tally) => tally,
        Err(halt) => return Err(fault_of(halt.cause, halt.tally)),
    };
    match check_end(&replayer.tape, &tally) {
        Ok(()) => Ok(tally),
        Err(fault) => Err(fault),
    }
}

/// Replays a tape as [`replay`] does, with so many calls of `read` at most.
///
/// # Errors
///
/// Those of [`replay`], but `Run` of kind `FaultKind::Endless` after `reads` calls of `read`.
pub fn replay_within<R: Threads + Sync, D: Read, W: Write>(
    rt: &R,
    alloc: Global,
    reader: &mut Counted<D>,
    engine: &mut Engine<Unwatched>,
    writer: &mut Counted<W>,
    reads: u32,
) -> Result<Tally, TapeFault>
    requires reader { IsFresh reader.old }
    requires writer { IsFresh writer.old }
    requires engine { StandsFor engine.old None }
    ensures replayed { IfOk result (ReplaysAll D.remaining W.contents reader.old writer.old engine.new reader.new writer.new) }
    ensures stops { IfErr result (ReplaysFirst D.remaining W.contents reader.old writer.old engine.new reader.new writer.new) }
    ensures caused { IfErr result (λ fault. IsTapeCaused fault reader.new writer.new reads) }
    ensures bounded { reader.new.calls ≤ reads }
    ensures prompt { IsPrompt reader.new }
    ensures flushed { OnOk result (IsFlushed writer.new) }
{
    let mut replayer = Replayer {
        rt,
        engine,
        tape: Tape::new(),
    };
    replay_lines(alloc, &mut replayer, reader, writer, reads)
}

/// Replays a tape of version 1 or 2 on an engine with nothing loaded: applies its calls in order, each as it went at the desk,
/// and writes the reply to each. A call that was starved is not applied, and is answered so; an advance that stopped short
/// makes the steps that were made, and is answered so; any other call is applied whole, also where the machine refuses it. In
/// a tape of version 1 each vehicle that enters has size 1.
///
/// A line ends with LF or where the tape ends, and may have 2,097,152 bytes. The ends are fresh: nothing was called of them
/// yet. Replies are written in order, and passed on before each further read and at the end. Answers the tally: all lines, the
/// calls, as many replies, and the bytes of these.
///
/// # Errors
///
/// `NotTape` where the first line is missing, too long, no JSON object, of a version that is not known, or of version 2 and
/// does not say how many calls follow: nothing was applied or written. `BadEntry` at the first further line that is blank, too
/// long or no call, says a number of steps that the machine would not make there as a part of its advance, comes after all
/// calls, or is missing: the calls before it are applied, and their replies written. `Run` where a read failed, a write or a
/// flush failed or a write took no bytes, memory ran out, or after 1,000,000,000 reads: the first `tally.calls` calls are
/// applied, and of an advance after them perhaps the first steps, and of their replies the first `tally.bytes` bytes are
/// written.
pub fn replay<R: Threads + Sync, D: Read, W: Write>(
    rt: &R,
    alloc: Global,
    reader: &mut Counted<D>,
    engine: &mut Engine<Unwatched>,
    writer: &mut Counted<W>,
) -> Result<Tally, TapeFault>
    requires reader { IsFresh reader.old }
    requires writer { IsFresh writer.old }
    requires engine { StandsFor engine.old None }
    ensures replayed { IfOk result (ReplaysAll D.remaining W.contents reader.old writer.old engine.new reader.new writer.new) }
    ensures stops { IfErr result (ReplaysFirst D.remaining W.contents reader.old writer.old engine.new reader.new writer.new) }
    ensures caused { IfErr result (λ fault. IsTapeCaused fault reader.new writer.new most_reads) }
    ensures bounded { reader.new.calls ≤ most_reads }
    ensures prompt { IsPrompt reader.new }
    ensures flushed { OnOk result (IsFlushed writer.new) }
{
    replay_within(rt, alloc, reader, engine, writer, MOST_READS)
}
