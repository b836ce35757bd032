//! The two results of reading the command line: `ProgramOptions`, what the words ask for, or `WordsFault`, why they ask
//! for nothing. `command_line.rt` makes them; `main` of `street_sim` runs by the options, or tells the fault.
ghost use Rattle.std.specs.Prelude.{◌≡◌};
ghost use Rattle.street_runs.specs.Words.{ToldOf};
ghost use Rattle.street_runs.specs.declared.words.WordsFault.TheVariants.{Starved};

use clap::error::ErrorKind;
use std::alloc::AllocError;
use thiserror::Error;

/// What the words ask for. Files are named as in the words.
#[derive(Debug, PartialEq, Eq, Drop)]
pub struct ProgramOptions<'a> {
    /// At most how many workers share each step, 1 to 64, where there are processors for them.
    pub workers: u32,
    /// How many calls there is a place for, 1 to 1,000,000.
    pub calls: u64,
    /// The file to which the tape of the calls is written.
    pub tape: Option<&'a str>,
    /// The tape to be replayed. It stands with neither scripts nor a tape to write.
    pub replay: Option<&'a str>,
    /// The tape to be upgraded. It stands with neither scripts, a tape to write nor one to be replayed.
    pub upgrade: Option<&'a str>,
    /// Whether standard input is served without a desk: with no journal, and as many calls as come. It stands with neither scripts
    /// nor tapes.
    pub endless: bool,
    /// The file in which the session is kept that standard input is. It stands with neither scripts nor tapes.
    pub keep: Option<&'a str>,
    /// Whether that file is not synced. It stands only with such a file.
    pub unsynced: bool,
    /// The file to which the record of the steps is written. It stands with neither scripts nor tapes.
    pub record_file: Option<&'a str>,
    /// The files whose lines are served, at most 1,024. Where there are none, standard input is served.
    pub scripts: Vec<&'a str>,
}

/// Why there are no options. The parser's text says what is wrong with the words; `reason` gives the line of it that names the word.
#[derive(Debug, Drop, Error)]
pub enum WordsFault {
    /// A word that the program does not know, a value that is missing or out of its range, or words that do not stand
    /// together.
    #[error("bad arguments")]
    Bad(clap::Error),
    /// Help or the version is asked for: the parser's own text.
    #[error("{0}")]
    Help(clap::Error),
    /// Memory was refused.
    #[error("out of memory")]
    Starved,
}

impl From<clap::Error> for WordsFault {
    ghost from_gives = { ToldOf };

    /// What the parser told, as the reason why there are no options: help, lack of memory, or bad words.
    fn from(error: clap::Error) -> WordsFault {
        match error.kind() {
            ErrorKind::DisplayHelp | ErrorKind::DisplayVersion => WordsFault::Help(error),
            ErrorKind::OutOfMemory => WordsFault::Starved,
            _ => WordsFault::Bad(error),
        }
    }
}

impl From<AllocError> for WordsFault {
    ghost from_gives = { λ _ fault. fault ≡ Starved };

    /// Lack of memory, as the reason why there are no options.
    fn from(_error: AllocError) -> WordsFault {
        WordsFault::Starved
    }
}
