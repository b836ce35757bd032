//! Why a call, a split or the finish of a desk was not done. `desk.rt` returns them.

use std::fmt;
use street_base::Command;
use thiserror::Error;

/// Why a pass was not split.
#[derive(Clone, Copy, Debug, PartialEq, Eq, Drop, Error)]
pub enum SplitFault {
    /// The pass owns one session number alone.
    #[error("the pass owns one session alone")]
    Single,
    /// Out of memory. So far a split takes none, and this is never told.
    #[error("out of memory")]
    Starved,
}

/// The journal has no place left; the command was not applied.
#[derive(Drop)]
pub struct Full {
    /// The command, as it was given.
    pub command: Command,
    /// How many calls were served: all that the desk takes.
    pub served: u64,
}

/// Shows the count without the command.
impl fmt::Debug for Full {
    /// Writes `Full`, and how many calls were served.
    fn fmt<W: fmt::Write>(&self, f: &mut fmt::Formatter<W>) -> fmt::Result {
        f.debug_struct("Full")
            .field("served", &self.served)
            .finish_non_exhaustive()
    }
}

/// A desk that was finished within a turn, of which nothing is left.
#[derive(Clone, Copy, Debug, PartialEq, Eq)]
pub struct Torn {
    /// The turn word that the desk was left with, which is odd.
    pub word: u64,
}
