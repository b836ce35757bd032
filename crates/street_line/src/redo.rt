//! The lines of a kept text, done again without replies: the redo of a write-ahead log. `kept_file.rt` calls it before a kept
//! session goes on.
ghost use Rattle.std.specs.Prelude.{◌≡◌, ◌+◌, ◌<◌, ◌≤◌, ◌^◌, ◌++◌, List, ℕ, IfOk, IfErr, false, length};
ghost use Rattle.street_base.specs.Prelude.{most_reads};
ghost use Rattle.street_stream.specs.Lines.{cut};
ghost use Rattle.street_stream.specs.OpenTexts.{IsOpen};
ghost use Rattle.street_stream.specs.Streams.{IsFresh};
ghost use Rattle.street_text.specs.LineCommands.{longest_line, reading};
ghost use Rattle.street_line.specs.Redo.{RedoSaid, RedoBroke, RedoDone, Redoes, RedoHalts, IsRedoCaused, IsFaultOf, IsInLine, IsSilent, IsRedoStop, RedoStopSaid, is_done};
ghost use Rattle.street_line.specs.Runs.{said_by};
ghost use Rattle.street_line.specs.declared.service.Served.TheVariants.{Answered};

use crate::service::{Served, Service};
use std::alloc::Global;
use std::io::Read;
use street_base::{MOST_READS, Reply};
use street_stream::{
    Counted, FaultKind, Halt, LineAnswer, LineHandler, OpenText, PartialLine, READ_SIZE, StopCause,
    whole_lines,
};
use street_text::{LONGEST_LINE, LineFault, LineReader};

/// What was done again.
#[derive(Debug, Clone, Copy, PartialEq, Eq)]
pub struct RedoneLines {
    /// How many lines have ended, blank ones too.
    pub lines: u128,
    /// Their bytes.
    pub bytes: u64,
}

/// Why a kept text is not done again.
#[derive(Debug, Clone, Copy, PartialEq, Eq)]
pub enum RedoFault {
    /// A read failed, memory ran out, or the reads ran out. No `Write`.
    Run(FaultKind),
    /// This line, the first being 1, is no command, or is refused where it stands.
    BadLine {
        /// The line.
        line: u128,
    },
}

/// Why a line is not done again.
#[derive(Debug, Clone, Copy, PartialEq, Eq)]
enum RedoStop {
    /// Memory ran out.
    Starved,
    /// It is no command, or is refused.
    Bad,
}

/// A service as a handler of lines that are done again.
#[derive(Drop)]
struct RedoHandler<'a, S> {
    service: &'a mut S,
    reader: &'a mut LineReader,
}

/// Whether a command that was answered so was done whole: it was not refused, and did not want memory.
fn is_done(reply: &Reply) -> bool
    ensures { result ≡ is_done reply.now }
{
    match reply {
        Reply::Refused(_) | Reply::Short { .. } | Reply::Starved => false,
        _ => true,
    }
}

/// Why a command that was answered so, and not done whole, is not done again.
fn redo_stop_of(reply: &Reply) -> RedoStop
    requires { is_done reply.now ≡ false }
    ensures { IsRedoStop (Answered reply.now) result }
{
    match reply {
        Reply::Refused(_) => RedoStop::Bad,
        _ => RedoStop::Starved,
    }
}

/// Has the service do the command of a line that is not blank. No reply is printed.
///
/// # Errors
///
/// `Bad` where the line is no command, or is refused; `Starved` where memory ran out, also for the last steps of an advance.
fn do_line<S: Service>(
    alloc: Global,
    reader: &mut LineReader,
    service: &mut S,
    line: &[u8],
) -> Result<LineAnswer, RedoStop>
    requires ready { S.ready }
    ensures done { IfOk result (λ answer. RedoSaid S.serves service.old (said_by (reading line.now)) service.new × IsSilent answer) }
    ensures stop { IfErr result (λ stop. RedoStopSaid S.serves service.old (said_by (reading line.now)) stop service.new) }
{
    let command = match reader.read(alloc, line) {
        Ok(command) => command,
        Err(LineFault::Starved) => return Err(RedoStop::Starved),
        Err(_) => return Err(RedoStop::Bad),
    };
    let reply = match service.serve(command) {
        Served::Answered(reply) => reply,
        Served::Full => return Err(RedoStop::Bad),
        Served::Unrecorded => return Err(RedoStop::Starved),
    };
    if !is_done(&reply) {
        return Err(redo_stop_of(&reply));
    }
    Ok(LineAnswer {
        is_call: true,
        reply: Ok(None),
    })
}

impl<'a, S: Service> LineHandler for RedoHandler<'a, S> {
    ghost use Rattle.std.specs.Prelude.{◌≡◌};
    ghost use Rattle.street_line.specs.Redo.{RedoLine, RedoStopLine};
    ghost use Rattle.street_text.specs.LineCommands.{longest_line};

    type Stop = RedoStop;

    ghost meaning = { record {
      longest = longest_line;
      takes = λ old line effect new. (new.service.ghost_name ≡ old.service.ghost_name) × RedoLine S.serves old.service.now line effect new.service.now;
      stops = λ old line stop new. (new.service.ghost_name ≡ old.service.ghost_name) × RedoStopLine S.serves old.service.now line stop new.service.now;
    } };

    ghost ready = { S.ready };

    /// Does the command of a line, and gives no reply to it; of a blank line it does nothing.
    fn take(&mut self, alloc: Global, line: &PartialLine) -> Result<LineAnswer, RedoStop> {
        if line.is_blank() {
            return Ok(LineAnswer {
                is_call: false,
                reply: Ok(None),
            });
        }
        do_line(alloc, self.reader, self.service, line.as_slice())
    }
}

/// The fault of lines of which one ended so, where `before` lines ended before the first of them.
fn fault_of(halt: &Halt<RedoStop>, before: u128) -> RedoFault
    ensures line { IsInLine result }
    ensures fault { IsFaultOf before halt.now.cause halt.now.tally result }
{
    match halt.cause {
        StopCause::Line(RedoStop::Bad) => RedoFault::BadLine {
            line: before.saturating_add(halt.tally.lines),
        },
        StopCause::Line(RedoStop::Starved) | StopCause::Run(_) => RedoFault::Run(
            FaultKind::Starved,
        ),
    }
}

/// Does the lines that end in the next bytes of a text, and answers how many lines these are. `before` is how many lines ended
/// before them: it serves for the number of a bad line alone.
fn do_more<S: Service>(
    alloc: Global,
    service: &mut S,
    reader: &mut LineReader,
    text: &mut OpenText,
    bytes: &[u8],
    before: u128,
) -> Result<u128, RedoFault>
    requires ready { S.ready }
    requires few { length bytes.now < 2 ^ 62 }
    ensures done { (line : List ℕ) → IsOpen longest_line text.old line → IfOk result (λ lines.
        Redoes S.serves service.old (cut (line ++ bytes.now)).0 service.new × (lines ≡ length (cut (line ++ bytes.now)).0)) }
    ensures halted { (line : List ℕ) → IsOpen longest_line text.old line → before + length line < 2 ^ 63 → IfErr result (λ fault.
        RedoHalts S.serves service.old before (line ++ bytes.now) fault service.new) }
    ensures open { (line : List ℕ) → IsOpen longest_line text.old line → IfOk result (λ lines. IsOpen longest_line text.new (cut (line ++ bytes.now)).1) }
    ensures caused { IfErr result IsInLine }
{
    let mut nothing = Counted::new(Vec::new(alloc));
    let mut handler = RedoHandler { service, reader };
    match text.feed(alloc, &mut handler, &mut nothing, bytes) {
        Ok(tally) => Ok(tally.lines),
        Err(halt) => Err(fault_of(&halt, before)),
    }
}

/// How many bytes of a text stand up to its last LF, it included, when these bytes have come too: `before` is how many did without
/// them, and `total` how many bytes came before them.
fn ended_bytes(before: u64, total: u64, bytes: &[u8]) -> u64
    requires { total + length bytes.now < 2 ^ 63 }
    ensures { (earlier : List ℕ) → before + length (cut earlier).1 ≡ length earlier → total ≡ length earlier
        → result + length (cut (earlier ++ bytes.now)).1 ≡ length (earlier ++ bytes.now) }
{
    match whole_lines(bytes) {
        Some(size) => total + size as u64,
        None => before,
    }
}

/// Does the lines of a kept text that have ended, in order and each once, without replies. What stands behind its last LF is a
/// line that a crash has cut off, to which no reply was out: it is not looked at.
///
/// # Errors
///
/// `BadLine` at the first line that is no command, or is refused. `Run` with `Read` where a read failed, with `Starved` where memory
/// ran out, and with `Endless` after 1,000,000,000 reads.
pub fn redo_log<S: Service, R: Read>(
    alloc: Global,
    service: &mut S,
    reader: &mut Counted<R>,
) -> Result<RedoneLines, RedoFault>
    requires ready { S.ready }
    requires reader { IsFresh reader.old }
    ensures done { IfOk result (λ redo. RedoDone S.serves service.old (R.remaining reader.old.stream) service.new
        (R.remaining reader.new.stream) redo) }
    ensures broken { IfErr result (λ fault. RedoBroke S.serves service.old (R.remaining reader.old.stream) fault service.new
        (R.remaining reader.new.stream)) }
    ensures caused { IfErr result (λ fault. IsRedoCaused fault reader.new most_reads) }
    ensures bounded { reader.new.calls ≤ most_reads }
{
    let mut lines = LineReader::new(alloc);
    let mut text = OpenText::new(alloc, LONGEST_LINE);
    let mut buffer = [0u8; READ_SIZE];
    let mut redo = RedoneLines { lines: 0, bytes: 0 };
    let mut total = 0u64;
    for _ in 0..MOST_READS {
        let count = match reader.read(&mut buffer) {
            Ok(count) => count,
            Err(_) => return Err(RedoFault::Run(FaultKind::Read)),
        };
        if count == 0 {
            return Ok(redo);
        }
        let bytes = &buffer[..count];
        match do_more(alloc, service, &mut lines, &mut text, bytes, redo.lines) {
            Ok(more) => redo.lines = redo.lines.saturating_add(more),
            Err(fault) => return Err(fault),
        }
        redo.bytes = ended_bytes(redo.bytes, total, bytes);
        total += count as u64;
    }
    Err(RedoFault::Run(FaultKind::Endless))
}
