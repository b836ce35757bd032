//! What two clients were told, beside what a replay of their desk's tape answers.
ghost use Rattle.std.specs.Prelude.{◌≡◌, ◌<◌, [], ◌∷◌, length, IfOk, IfErr, MatchOption, Decides, IsUtf8, drop, true};
ghost use Rattle.street_clients.specs.Replies.{Agrees, HasNoEnd, EndsFirst, IsRetold, IsStopped, is_of, own_lines, replies_to};
ghost use Rattle.street_stream.specs.Lines.{cut};
ghost use Rattle.street_tape.specs.Entries.{entry_reading};

use std::alloc::Global;
use std::thread::Threads;
use street_base::{Command, Reply, Starved};
use street_engine::{Engine, Unwatched};
use street_stream::Counted;
use street_tape::{TapeFault, read_entry, replay};
use street_text::LineFault;

/// What two clients of a desk were answered, and the tape of their calls. Replies and tapes are ASCII.
#[derive(Drop)]
pub struct Told {
    /// The lines of reply to session 0.
    pub first: Vec<u8>,
    /// The lines of reply to session 1.
    pub second: Vec<u8>,
    /// The tape.
    pub tape: Vec<u8>,
}

/// What a replay of a tape answers.
#[derive(Drop)]
pub struct Retold {
    /// The lines of reply to its calls.
    pub replies: Vec<u8>,
    /// The reply to a count after them.
    pub count: Reply,
}

/// Replays a tape on a new engine, and then counts.
///
/// # Errors
///
/// That of the replay.
pub fn retell<R: Threads + Sync>(rt: &R, alloc: Global, tape: &[u8]) -> Result<Retold, TapeFault>
    ensures retold { IfOk result (λ told. IsRetold tape.now told) }
    ensures stopped { IfErr result (λ fault. IsStopped tape.now fault) }
{
    let gate = Unwatched::new();
    let mut engine = Engine::new(alloc, 1, gate);
    let mut reader = Counted::new(tape);
    let mut writer = Counted::new(Vec::new(alloc));
    match replay(rt, alloc, &mut reader, &mut engine, &mut writer) {
        Ok(_tally) => {
            let (count, _outcome) = engine.apply(rt, &Command::Count);
            Ok(Retold {
                replies: writer.into_inner(),
                count,
            })
        }
        Err(fault) => Err(fault),
    }
}

/// The text of these bytes, which are lines of ASCII; an empty one where they are no UTF-8.
pub fn text_of(lines: &[u8]) -> &str
    ensures text { IsUtf8 lines.now → result.now ≡ lines.now }
    ensures none { (IsUtf8 lines.now → ⊥) → result.now ≡ [] }
{
    str::from_utf8(lines).unwrap_or("")
}

/// Where the first LF stands, counted in bytes from 0.
fn line_end(text: &[u8]) -> Option<usize>
    ensures { MatchOption result (HasNoEnd text.now (length text.now)) (EndsFirst text.now) }
{
    text.iter().position(|byte| *byte == b'\n')
}

/// The first line that ends with LF, without it, and what follows it. Nothing where there is no LF.
fn first_line(text: &[u8]) -> Option<(&[u8], &[u8])>
    ensures { MatchOption result
        ((cut text.now).0 ≡ [])
        (λ r. ((cut text.now).0 ≡ r.0.now ∷ (cut r.1.now).0) × (length r.1.now < length text.now)) }
{
    let end = line_end(text)?;
    Some((&text[..end], &text[end + 1..]))
}

/// Whether the line of a tape, without its LF, is a call of the session. A line that is no call is of none.
///
/// # Errors
///
/// Memory was refused.
fn is_of(alloc: Global, line: &[u8], session: u64) -> Result<bool, Starved>
    ensures { IfOk result (λ own. own ≡ is_of session (entry_reading true line.now)) }
{
    match read_entry(alloc, line, true) {
        Ok(call) => Ok(call.session == session),
        Err(LineFault::Starved) => Err(Starved),
        Err(_) => Ok(false),
    }
}

/// Of the lines of reply to these calls of a tape, one to each in their order, those to the calls of the session.
///
/// # Errors
///
/// Memory was refused.
fn own_lines(
    alloc: Global,
    mut calls: &[u8],
    mut replies: &[u8],
    session: u64,
) -> Result<Vec<u8>, Starved>
    ensures { IfOk result (λ own. own.items ≡ own_lines session (cut calls.entry.now).0 (cut replies.entry.now).0) }
{
    let mut own = Vec::new(alloc);
    while let Some((call, more_calls)) = first_line(calls) {
        let Some((reply, more_replies)) = first_line(replies) else {
            return Ok(own);
        };
        if is_of(alloc, call, session)? {
            own.extend_from_slice(reply)?;
            own.push(b'\n')?;
        }
        calls = more_calls;
        replies = more_replies;
    }
    Ok(own)
}

impl Told {
    /// Whether each of the two was answered to each of its calls as a replay of the tape answers, whose lines of reply these are.
    ///
    /// # Errors
    ///
    /// Memory was refused.
    pub fn agrees(&self, alloc: Global, replies: &[u8]) -> Result<bool, Starved>
        ensures { IfOk result (λ yes. Decides yes (Agrees self.now replies.now)) }
    {
        let first = self.replies_to(alloc, replies, 0)?;
        let second = self.replies_to(alloc, replies, 1)?;
        Ok(first.as_slice() == self.first.as_slice() && second.as_slice() == self.second.as_slice())
    }

    /// Of these lines of reply of a replay, those to the session's calls of the tape, whose first line is no call.
    ///
    /// # Errors
    ///
    /// Memory was refused.
    fn replies_to(&self, alloc: Global, replies: &[u8], session: u64) -> Result<Vec<u8>, Starved>
        ensures { IfOk result (λ own. own.items ≡ replies_to session self.now.tape.items replies.now) }
    {
        match first_line(&self.tape) {
            Some((_head, calls)) => own_lines(alloc, calls, replies, session),
            None => Ok(Vec::new(alloc)),
        }
    }
}
