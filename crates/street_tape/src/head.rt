//! What the first line of a tape tells. `tape.rt` keeps it.
ghost use Rattle.std.specs.Prelude.{◌≡◌};
ghost use Rattle.street_tape.specs.Entries.{after_call, is_sized, is_whole};

/// What the first line of a tape tells of the lines that follow.
#[derive(Debug, Clone, Copy, PartialEq, Eq)]
pub enum TapeHead {
    /// Version 1: each vehicle that enters has size 1, and any number of calls may follow.
    Version1,
    /// Version 2.
    Version2 {
        /// How many calls follow.
        calls: u64,
    },
}

impl TapeHead {
    /// Whether the size of a vehicle is read from the calls that follow; in version 1 it is not, and is 1.
    pub fn is_sized(self) -> bool
        ensures { result ≡ is_sized self }
    {
        match self {
            TapeHead::Version1 => false,
            TapeHead::Version2 { .. } => true,
        }
    }

    /// What it tells of the lines after the next call; `None` where no call may follow.
    pub fn after_call(self) -> Option<TapeHead>
        ensures { result ≡ after_call self }
    {
        match self {
            TapeHead::Version1 => Some(TapeHead::Version1),
            TapeHead::Version2 { calls: 0 } => None,
            TapeHead::Version2 { calls } => Some(TapeHead::Version2 { calls: calls - 1 }),
        }
    }

    /// Whether the tape may end here, with no further call: always in version 1, and in version 2 where none is left to follow.
    pub fn may_end(self) -> bool
        ensures { result ≡ is_whole self 0 }
    {
        match self {
            TapeHead::Version1 => true,
            TapeHead::Version2 { calls } => calls == 0,
        }
    }
}
