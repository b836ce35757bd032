//! Tests of tapes: those of the journals of desks, what their lines read as, replays and upgrades over streams in memory that
//! fail when they are told to; the words of the command line, and the texts of the program's faults.
//!
//! They stand in a crate of their own since a crate is proved once more for the tests that it has.
#![tactic(auto)]

#[cfg(test)]
mod faults;
#[cfg(test)]
mod memory_streams;
#[cfg(test)]
mod options;
#[cfg(test)]
mod replays;
#[cfg(test)]
mod tapes;
