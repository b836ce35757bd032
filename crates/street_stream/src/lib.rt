//! Streams of a run: readers and writers that count their calls, bytes that go out in parts, lines that come in parts, the loop
//! that cuts reads into lines and hands them on, and the tally of what was done.
//!
//! Where a text is cut into lines stands in `specs/Lines`, what a stream counts in `specs/Streams`, what a run of lines gives and
//! what one that broke leaves in `specs/HandledLines`, what causes each fault in `specs/Faults`, and which calls of reader and
//! writer a run makes, and no others, in `specs/Calls`. What a log holds that is written before all else, and what a fault leaves of
//! it, stands in `specs/Logs`, and a text that is handled a part at a time in `specs/OpenTexts`.
#![tactic(auto)]

mod answer;
mod counted;
mod driver;
mod ends;
mod handler;
mod log;
mod open_text;
mod part;
mod tally;
mod writes;

pub use answer::{Halt, LineAnswer, StopCause};
pub use counted::Counted;
pub use driver::{READ_SIZE, RunLimits, drive_lines};
pub use ends::{Sink, Source};
pub use handler::LineHandler;
pub use log::{KeepFault, WriteAheadLog, keep_first};
pub use open_text::{OpenText, cut_off_text, whole_lines};
pub use part::PartialLine;
pub use tally::{FaultKind, RunFault, Tally};
pub use writes::{flush_out, write_reply, write_text};
