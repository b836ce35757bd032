//! Lines served in memory: their replies, and what is to be kept of them; nothing is written. A line whose command was done, and
//! may change the traffic, is kept as it came. `kept_runs.rt` calls it for the bytes of each read.
ghost use Rattle.std.specs.Prelude.{◌≡◌, ◌<◌, ◌^◌, ◌++◌, [], List, ℕ, IfErr, IfOk, OnErr, OnOk, length};
ghost use Rattle.street_stream.specs.Lines.{cut, if_any, lines_of};
ghost use Rattle.street_stream.specs.OpenTexts.{IsOpen};
ghost use Rattle.street_text.specs.LineCommands.{longest_line, reading};
ghost use Rattle.street_line.specs.Kept.{AnswersKept, GoesKept, HaltsAt, IsNoted, Reaches, is_change, is_short};
ghost use Rattle.street_line.specs.Runs.{said_by};

use crate::answers::answer_to;
use crate::service::{Served, Service};
use std::alloc::Global;
use street_base::{Reply, Starved};
use street_stream::{Counted, LineAnswer, LineHandler, OpenText, PartialLine};
use street_text::{LineReader, fault_text};

/// What is to go out of lines that were served.
#[derive(Drop)]
pub(crate) struct PendingOutput {
    /// What is kept of them.
    pub(crate) entries: Vec<u8>,
    /// Their replies.
    pub(crate) replies: Vec<u8>,
}

/// A service as a handler of lines, which notes what is kept of them.
#[derive(Drop)]
struct KeptServer<'a, S> {
    service: &'a mut S,
    reader: &'a mut LineReader,
    entries: &'a mut Vec<u8>,
}

/// Whether this is the reply of a command that was done whole, of a kind that changes the machine: also where nothing is
/// different after it, as after an advance of 0 steps.
fn is_change(reply: &Reply) -> bool
    ensures { result ≡ is_change reply.now }
{
    match reply {
        Reply::Loaded { .. }
        | Reply::Signalled { .. }
        | Reply::Entered { .. }
        | Reply::Clock { .. }
        | Reply::Closed { .. }
        | Reply::Taken { .. }
        | Reply::Placed { .. } => true,
        _ => false,
    }
}

/// Whether this is the reply of an advance that stopped before its last step, for want of memory.
fn is_short(reply: &Reply) -> bool
    ensures { result ≡ is_short reply.now }
{
    match reply {
        Reply::Short { .. } => true,
        _ => false,
    }
}

/// Puts a line, and LF, behind the entries where its command was done and may change the traffic, as its reply tells; of any
/// other line nothing is kept.
///
/// # Errors
///
/// Memory ran out to note it, or for the last steps of an advance; or nothing is answered.
fn note(entries: &mut Vec<u8>, line: &[u8], served: &Served) -> Result<(), Starved>
    ensures { OnOk result (IsNoted line.now served.now entries.old.items entries.new.items) }
{
    let reply = match served {
        Served::Answered(reply) => reply,
        Served::Full => return Ok(()),
        Served::Unrecorded => return Err(Starved),
    };
    if is_short(reply) {
        return Err(Starved);
    }
    if is_change(reply) {
        entries.extend_from_slice(line)?;
        entries.push(b'\n')?;
    }
    Ok(())
}

/// Has the service serve the command of a line that is not blank, puts the line behind the entries where it is kept, and gives the
/// answer; a faulty line is answered by its fault.
///
/// # Errors
///
/// Memory ran out to read the line, for the answer of its fault, to note it, or for the last steps of an advance.
fn answer<S: Service>(
    alloc: Global,
    reader: &mut LineReader,
    service: &mut S,
    entries: &mut Vec<u8>,
    line: &[u8],
) -> Result<LineAnswer, Starved>
    requires ready { S.ready }
    ensures kept { IfOk result (λ answer. AnswersKept S.serves (service.old, entries.old.items) (said_by (reading line.now)) line.now answer
        (service.new, entries.new.items)) }
    ensures halted { IfErr result (λ starved. HaltsAt S.serves service.old (said_by (reading line.now)) service.new) }
{
    let command = match reader.read(alloc, line) {
        Ok(command) => command,
        Err(fault) => {
            let text = fault_text(alloc, fault)?;
            return Ok(LineAnswer {
                is_call: false,
                reply: Ok(Some(text)),
            });
        }
    };
    let served = service.serve(command);
    note(entries, line, &served)?;
    answer_to(alloc, served)
}

impl<'a, S: Service> LineHandler for KeptServer<'a, S> {
    ghost use Rattle.std.specs.Prelude.{◌≡◌};
    ghost use Rattle.street_line.specs.Kept.{HaltsAt, KeepsLine};
    ghost use Rattle.street_line.specs.Runs.{said};
    ghost use Rattle.street_text.specs.LineCommands.{longest_line};

    type Stop = Starved;

    ghost meaning = { record {
      longest = longest_line;
      takes = λ old line effect new. (new.service.ghost_name ≡ old.service.ghost_name)
          × ((new.entries.ghost_name ≡ old.entries.ghost_name)
          × KeepsLine S.serves (old.service.now, old.entries.now.items) line effect (new.service.now, new.entries.now.items));
      stops = λ old line stop new. (new.service.ghost_name ≡ old.service.ghost_name) × HaltsAt S.serves old.service.now (said line) new.service.now;
    } };

    ghost ready = { S.ready };

    /// Serves a line, and notes it where it is kept; a blank line gets no reply.
    fn take(&mut self, alloc: Global, line: &PartialLine) -> Result<LineAnswer, Starved> {
        if line.is_blank() {
            return Ok(LineAnswer {
                is_call: false,
                reply: Ok(None),
            });
        }
        answer(
            alloc,
            self.reader,
            self.service,
            self.entries,
            line.as_slice(),
        )
    }
}

/// Serves the lines that end in the next bytes of a text. What is kept of them and their replies are given back: nothing is written
/// yet.
///
/// # Errors
///
/// Memory ran out: what was served then, the first lines or also one behind them, is not to be answered.
pub(crate) fn serve_more<S: Service>(
    alloc: Global,
    service: &mut S,
    reader: &mut LineReader,
    text: &mut OpenText,
    bytes: &[u8],
) -> Result<PendingOutput, Starved>
    requires ready { S.ready }
    requires few { length bytes.now < 2 ^ 62 }
    ensures served { (line : List ℕ) → IsOpen longest_line text.old line → IfOk result (λ pending.
        GoesKept S.serves service.old (cut (line ++ bytes.now)).0 pending.replies.items pending.entries.items service.new) }
    ensures open { (line : List ℕ) → IsOpen longest_line text.old line → IfOk result (λ pending. IsOpen longest_line text.new (cut (line ++ bytes.now)).1) }
    ensures halted { (line : List ℕ) → IsOpen longest_line text.old line → OnErr result (Reaches S.serves service.old (lines_of (line ++ bytes.now)) service.new) }
{
    let mut writer = Counted::new(Vec::new(alloc));
    let mut entries = Vec::new(alloc);
    let mut server = KeptServer {
        service,
        reader,
        entries: &mut entries,
    };
    match text.feed(alloc, &mut server, &mut writer, bytes) {
        Ok(_tally) => Ok(PendingOutput {
            entries,
            replies: writer.into_inner(),
        }),
        Err(_halt) => Err(Starved),
    }
}

/// Serves the last line of a text that has ended, where bytes stand behind its last LF, as [`serve_more`] does.
///
/// # Errors
///
/// Those of [`serve_more`].
pub(crate) fn serve_last<S: Service>(
    alloc: Global,
    service: &mut S,
    reader: &mut LineReader,
    text: OpenText,
) -> Result<PendingOutput, Starved>
    requires ready { S.ready }
    ensures served { (line : List ℕ) → IsOpen longest_line text line → IfOk result (λ pending.
        GoesKept S.serves service.old (if_any line) pending.replies.items pending.entries.items service.new) }
    ensures halted { (line : List ℕ) → IsOpen longest_line text line → OnErr result (Reaches S.serves service.old (if_any line) service.new) }
{
    let mut writer = Counted::new(Vec::new(alloc));
    let mut entries = Vec::new(alloc);
    let mut server = KeptServer {
        service,
        reader,
        entries: &mut entries,
    };
    match text.finish(alloc, &mut server, &mut writer) {
        Ok(_tally) => Ok(PendingOutput {
            entries,
            replies: writer.into_inner(),
        }),
        Err(_halt) => Err(Starved),
    }
}
