//! What the program `streetsim` does, as a library: the words of its command line, its runs, and its faults.
//!
//! [`options`] says what a list of words asks for. A run serves standard input or scripts at a desk, serves standard input with no
//! desk and no end of calls (`--endless`) or as a session that is kept in a file (`--keep`), both also with a record of the steps
//! (`--record`), replays a tape or upgrades it. Each ends with the first thing that goes wrong in it, told as a [`ProgramFault`]. The texts of
//! faults, the status that each ends with, and which one that of a run, a replay or an upgrade is, stand in `specs/Faults`.
#![tactic(auto)]

mod clients;
mod command;
mod command_line;
mod endless;
mod engines;
mod fault;
mod kept;
mod kept_open;
mod kept_records;
mod laws;
mod log_file;
mod one_file;
mod outputs;
mod places;
mod reasons;
mod recorded;
mod renewal;
mod streams;
mod taped;
mod tapes;
mod words;

pub use clients::{
    play_to_tape, serve_alone, serve_input, serve_named, serve_scripts, serve_to_tape,
};
pub use command_line::options;
pub use endless::{serve_by, serve_endless};
pub use fault::ProgramFault;
pub use kept::{keep_session, serve_kept};
pub use kept_records::{OpenFault, RecordOpener, RecordedFault, keep_recorded};
pub use laws::{input_is_taped, scripts_are_told};
pub use one_file::check_files;
pub use outputs::{STANDARD_ERROR, STANDARD_OUTPUT, end_with_tape};
pub use reasons::reason;
pub use recorded::{record_by, serve_recorded};
pub use taped::TapeOpener;
pub use tapes::{replay_and_count, replay_tape, upgrade_tape};
pub use words::{ProgramOptions, WordsFault};
