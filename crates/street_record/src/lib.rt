//! The record of a run, row by row: what takes it, and how it is written.
//!
//! Whoever gives rows knows a [`RowSink`] alone. Contracts speak of the calls that a sink has had, in their order. [`RecordWriter`] is
//! the sink that writes the rows out, block by block; once a write has failed it takes no more, and says so
//! ([`RecordWriter::has_failed`]).
#![tactic(auto)]

mod rows;
mod sink;
mod writer;

pub use rows::{give_row, row_of};
pub use sink::RowSink;
pub use writer::RecordWriter;
