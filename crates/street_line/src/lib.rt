//! Lines: a whole text of lines served one after another, by an engine, at a desk with one caller's pass, or as a session that is
//! kept.
//!
//! What a text of lines gives is `Goes` of `specs/Runs`, what a fault leaves is `Breaks` of `specs/Faults`, and what the
//! machine serves is `MachineServes` of `specs/Engines`. What a desk serves is `DeskServes` of `specs/Sessions`; where it has
//! one session alone, what is served is `AloneServes` there. Scripts are sessions on threads of their own ([`run_scripts`]).
//!
//! Without a desk, and with no end of calls, an engine serves ([`run_session`]), whose steps a crew (`street_engine::Crew`) makes, and of
//! which a sink ([`ReplySink`]) is told. A session that is kept ([`run_kept`]) writes each line that was done, and may change the traffic,
//! into a log before its reply goes out, and goes on from such lines ([`redo_log`]): `specs/Kept`, `specs/Redo`. Both, over a file
//! ([`serve_on`], by an engine [`run_session_on`]): `specs/KeptFiles`.
//!
//! What a line says, and what a reply's line is, stands in `street_text`, and what a stream counts in `street_stream`; their
//! functions are shown here too.
#![tactic(auto)]

mod answers;
mod engines;
mod kept;
mod kept_file;
mod kept_laws;
mod kept_runs;
mod laws;
mod redo;
mod restarts;
mod runs;
mod script;
mod server;
mod service;
mod session;
mod sessions;
mod sinks;

pub use engines::{Session, run_session, run_session_on};
pub use kept_file::{BeginFault, KeptFile, KeptNotices, ServeFault, begin_on, run_on, serve_on};
pub use kept_laws::{
    kept_lines_are_the_machines, kept_lines_lead_there, kept_sessions_are_a_function,
};
pub use kept_runs::{KeptFault, run_kept};
pub use laws::lines_are_a_run;
pub use redo::{RedoFault, RedoneLines, redo_log};
pub use restarts::kept_files_go_on;
pub use runs::{run_lines, run_lines_within};
pub use script::{Script, answer_all, run_scripts};
pub use service::{Served, Service};
pub use session::DeskSession;
pub use sessions::run_alone;
pub use sinks::ReplySink;
pub use street_stream::{Counted, FaultKind, RunFault, Tally};
pub use street_text::{LineFault, command_reads_back, command_text, read_command, reply_text};
