//! Texts: from the bytes of a line to a command, and from a reply or a command to its text.
//!
//! A line is one JSON object. What it says, a command or its first fault, is `reading` of `specs/LineCommands`; the numbers and
//! names of the faults stand in `specs/Faults`. What a reply prints as is `reply_line`, and what an error that has no place
//! prints as is `line_of` and `error_data`, of `specs/ReplyLines`. What a command prints as is `text_of` of
//! `specs/CommandTexts`; what answers a faulty line is `fault_line` of `specs/FaultLines`. Each command is read from its own
//! text ([`command_reads_back`]).
#![tactic(auto)]

mod commands;
mod errors;
mod fault;
mod fault_lines;
mod fields;
mod flat;
mod laws;
mod line_commands;
mod line_reader;
mod lists;
mod lookup;
mod members;
mod number_commands;
mod replies;
mod rows;
mod values;

pub use commands::{command_text, command_value};
pub use errors::error_text;
pub use fault::LineFault;
pub use fault_lines::fault_text;
pub use fields::{Field, object_line};
pub use laws::command_reads_back;
pub use line_commands::{LONGEST_LINE, command_of, read_command};
pub use line_reader::LineReader;
pub use lists::{Printed, list_value};
pub use members::{Member, object_value};
pub use replies::reply_text;
pub use rows::{Row, write_list};
