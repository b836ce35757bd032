//! A tape, read line by line. `replays.rt` and `upgrades.rt` keep one.
ghost use Rattle.std.specs.Prelude.{◌≡◌, None, Some, Ok, IfOk, IfErr, is_some};
ghost use Rattle.street_tape.specs.Entries.{entry_reading};
ghost use Rattle.street_tape.specs.TapeLines.{Takes, Refuses, IsNoCall, may_end};
ghost use Rattle.street_tape.specs.declared.tape.Stop.TheVariants as stops;

use crate::entries::{read_entry, read_head};
use crate::head::TapeHead;
use std::alloc::Global;
use street_base::Starved;
use street_desk::Entry;
use street_text::LineFault;

/// Why a tape is read no further.
#[derive(Debug, Clone, Copy, PartialEq, Eq)]
pub enum Stop {
    /// The first line is not that of a tape whose version is known.
    NotTape,
    /// A further line is no call, all calls that the first line tells stand before it, or, in a replay, it says a number of steps
    /// that the machine would not make there as a part of its advance.
    BadEntry,
    /// Out of memory.
    Starved,
}

impl From<Starved> for Stop {
    ghost from_gives = { λ _ stop. stop ≡ stops.Starved };

    /// Lack of memory, as the reason why a tape is read no further.
    fn from(_error: Starved) -> Stop {
        Stop::Starved
    }
}

/// A tape as far as it was read.
#[derive(Debug, Clone, Copy, PartialEq, Eq)]
pub struct Tape {
    /// What the first line tells of the lines that follow here; `None` before it was read.
    rest: Option<TapeHead>,
}

impl Tape {
    /// A tape of which no line was read.
    pub fn new() -> Tape
        ensures { result.rest ≡ None }
    {
        Tape { rest: None }
    }

    /// Takes the next line, which stands without its LF: answers its call, or `None` where it is the first.
    ///
    /// # Errors
    ///
    /// `NotTape` where it is the first and not that of a tape; `BadEntry` where a further one is no call, or none may follow;
    /// `Starved` where the reading found no memory.
    pub fn take(&mut self, alloc: Global, line: &[u8]) -> Result<Option<Entry>, Stop>
        ensures taken { IfOk result (λ call. Takes self.old.rest line.now call self.new.rest) }
        ensures refused { IfErr result (λ stop. Refuses self.old.rest line.now stop) }
    {
        match self.rest {
            None => {
                self.rest = Some(first_line(alloc, line)?);
                Ok(None)
            }
            Some(rest) => {
                let next = rest.after_call().ok_or(Stop::BadEntry)?;
                let call = further_line(alloc, line, rest.is_sized())?;
                self.rest = Some(next);
                Ok(Some(call))
            }
        }
    }

    /// Whether the first line was read.
    pub fn is_begun(&self) -> bool
        ensures { result ≡ is_some self.now.rest }
    {
        self.rest.is_some()
    }

    /// Whether the tape may end here: its first line was read, and all calls that this tells.
    pub fn may_end(&self) -> bool
        ensures { result ≡ may_end self.now.rest }
    {
        match self.rest {
            None => false,
            Some(rest) => rest.may_end(),
        }
    }
}

/// What the first line tells, which stands without its LF.
///
/// # Errors
///
/// `NotTape` where it is not that of a tape whose version is known; `Starved` where the reading found no memory.
fn first_line(alloc: Global, line: &[u8]) -> Result<TapeHead, Stop>
    ensures taken { IfOk result (λ head. Takes None line.now None (Some head)) }
    ensures refused { IfErr result (λ stop. Refuses None line.now stop) }
{
    match read_head(alloc, line) {
        Ok(head) => Ok(head),
        Err(LineFault::Starved) => Err(Stop::Starved),
        Err(_) => Err(Stop::NotTape),
    }
}

/// The call of a further line, which stands without its LF. The size of a vehicle is read only where `sized` is true.
///
/// # Errors
///
/// `BadEntry` where it is no call; `Starved` where the reading found no memory.
fn further_line(alloc: Global, line: &[u8], sized: bool) -> Result<Entry, Stop>
    ensures read { IfOk result (λ call. entry_reading sized line.now ≡ Ok call) }
    ensures refused { IfErr result (λ stop. IsNoCall sized line.now stop) }
{
    match read_entry(alloc, line, sized) {
        Ok(call) => Ok(call),
        Err(LineFault::Starved) => Err(Stop::Starved),
        Err(_) => Err(Stop::BadEntry),
    }
}
